//! From where to where the areas of a name reach, found by an index.

ghost use Rattle.std.specs.Prelude.{◌≡◌, ℕ, List, Some, OnOk, IfOk, if◌then◌else◌};
ghost use Rattle.std.specs.Str.{bytes_eq};
ghost use Rattle.link_model.specs.Members.{objects_in};
ghost use Rattle.link_model.specs.RegionValues.{area_of, has_name};
ghost use Rattle.link_values.specs.Index.{found_in};
ghost use Rattle.link_values.specs.Regions.{widened as wide, extent_of, AreExtents};

use crate::names::{find, put};
use crate::objects::{area_at, sum};
use aof_object::Object;
use indexmap::IndexMap;
use link_model::{Named, PlacedArea};
use sdt_fault::NoMemory;
use std::alloc::Global;

/// The least start and the greatest end of areas.
#[derive(Clone, Copy)]
pub struct Extent {
    pub start: u64,
    pub end: u64,
}

fn widened(extent: Extent, other: Option<Extent>) -> Extent
    ensures { result ≡ wide extent other }
{
    match other {
        None => extent,
        Some(other) => Extent {
            start: extent.start.min(other.start),
            end: extent.end.max(other.end),
        },
    }
}

/// Widens the extent of a name.
fn widen<'a>(
    index: &mut IndexMap<&'a [u8], Extent>,
    name: &'a [u8],
    extent: Extent,
) -> Result<(), NoMemory>
    ensures { OnOk result ((q : List ℕ) → found_in index.new q
        ≡ (if bytes_eq name.now q then Some (wide extent (found_in index.old q))
        else found_in index.old q)) }
{
    let known = find(index, name);
    put(index, name, widened(extent, known))?;
    Ok(())
}

fn put_area<'a>(
    index: &mut IndexMap<&'a [u8], Extent>,
    objects: &'a [Named<Object>],
    placed: &PlacedArea,
) -> Result<(), NoMemory>
    ensures { OnOk result ((q : List ℕ) → found_in index.new q
        ≡ (if has_name q (area_of (objects_in objects.now) placed.now.area)
        then Some (wide (extent_of (objects_in objects.now) placed.now) (found_in index.old q))
        else found_in index.old q)) }
{
    let Some(area) = area_at(objects, placed.area) else {
        return Ok(());
    };
    let extent = Extent {
        start: placed.address,
        end: sum(placed.address, area.size as u64)?,
    };
    widen(index, area.name.as_slice(), extent)
}

/// The extent of each name of areas.
pub fn index_extents<'a>(
    alloc: Global,
    objects: &'a [Named<Object>],
    areas: &[PlacedArea],
) -> Result<IndexMap<&'a [u8], Extent>, NoMemory>
    ensures { IfOk result (λ index. AreExtents (objects_in objects.now) areas.now index) }
{
    let mut index = IndexMap::new(alloc);
    for i in (0..areas.len()).rev() {
        put_area(&mut index, objects, &areas[i])?;
    }
    Ok(index)
}
