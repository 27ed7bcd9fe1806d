//! The areas of each region, by name and in order.

ghost use Rattle.std.specs.Prelude.{◌≡◌, map, IfOk};
ghost use Rattle.link_items.specs.LinkedItems.{name_of};
ghost use Rattle.link_assign.specs.Assigning.{lists_kept, names_kept};
ghost use Rattle.link_assign.specs.Shown.{kept_in, shown_kept};

use crate::keeping::Kept;
use crate::ordering::put_in_order;
use link_model::AreaName;
use sdt_fault::{List, NoMemory};
use std::alloc::Global;

fn kept_of<'a>(alloc: Global, kept: &[Kept<'a>], region: usize) -> Result<Vec<Kept<'a>>, NoMemory>
    ensures { IfOk result (λ here. map shown_kept here.items ≡ kept_in region kept.now) }
{
    let mut here = Vec::new(alloc);
    for one in kept {
        if one.region == region {
            here.push(*one)?;
        }
    }
    Ok(here)
}

fn names_of(alloc: Global, kept: &[Kept]) -> Result<List<AreaName>, NoMemory>
    ensures { IfOk result (λ names. names ≡ map name_of (map (λ k. k.item)
        (map shown_kept kept.now))) }
{
    let mut names = Vec::with_capacity(alloc, kept.len())?;
    for one in kept {
        names.push(one.item.name)?;
    }
    Ok(List::from_vec(names))
}

/// The areas of a region.
fn list_of(alloc: Global, kept: &[Kept], region: usize) -> Result<List<AreaName>, NoMemory>
    ensures { IfOk result (λ names. names ≡ names_kept kept.now region) }
{
    let mut here = kept_of(alloc, kept, region)?;
    put_in_order(&mut here)?;
    names_of(alloc, here.as_slice())
}

/// Those of so many regions.
pub fn lists_of_regions(
    alloc: Global,
    kept: &[Kept],
    regions: usize,
) -> Result<List<List<AreaName>>, NoMemory>
    ensures { IfOk result (λ lists. lists ≡ lists_kept kept.now 0 regions) }
{
    let mut lists = Vec::new(alloc);
    for region in 0..regions {
        lists.push(list_of(alloc, kept, region)?)?;
    }
    Ok(List::from_vec(lists))
}
