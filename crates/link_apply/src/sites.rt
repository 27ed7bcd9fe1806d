//! What stands fast of a placed link, and of one of its areas.

ghost use Rattle.std.specs.Prelude.{◌≡◌, ℕ, ◌≤◌, ◌^◌, IfOk, slice_get};
ghost use Rattle.link_values.specs.Values.{value_in};
ghost use Rattle.link_apply.specs.Sites.{AreAllBelow, IsSite, Knows};
ghost use Rattle.link_apply.specs.Starts.{AreBelow};
ghost use Rattle.link_apply.specs.Targets.{meant_at};

use crate::starts::{FieldDirectives, are_even, starts_of};
use aof_object::Area;
use indexmap::IndexMap;
use link_model::{Linked, PlacedArea, Placement, Veneer};
use link_values::{AreaBases, SymbolValue};
use sdt_fault::{List, NoMemory};
use std::alloc::Global;

/// A link and its placement, with the addresses of areas, the values of symbols by the numbers of objects
/// and symbols, and the addresses of veneers.
#[derive(Drop)]
pub struct PlacedLink<'a> {
    pub linked: &'a Linked,
    pub placement: &'a Placement,
    pub bases: AreaBases,
    pub values: List<List<SymbolValue>>,
    pub veneers: IndexMap<Veneer, u32>,
}

/// A placed area, with the values of its object's symbols and what its relocations do at each place. `even` says that these
/// places are whole words.
#[derive(Drop)]
pub struct Site<'a> {
    pub placed: PlacedArea,
    pub area: &'a Area,
    pub symbols: &'a [SymbolValue],
    pub starts: IndexMap<u64, FieldDirectives>,
    pub even: bool,
}

/// The values of an object's symbols.
fn symbols_of(values: &[List<SymbolValue>], object: u32) -> &[SymbolValue]
    requires { AreAllBelow values.now }
    ensures values { (k : ℕ) → meant_at (slice_get result.now k) ≡ value_in values.now object k }
    ensures below { AreBelow result.now }
{
    match values.get(object as usize) {
        None => &[],
        Some(symbols) => symbols.as_slice(),
    }
}

/// The site of a placed area. An area of 2^28 relocations or more counts as want of memory.
pub fn site_of<'a>(
    alloc: Global,
    known: &'a PlacedLink<'_>,
    placed: PlacedArea,
    area: &'a Area,
) -> Result<Site<'a>, NoMemory>
    requires known { Knows known.now }
    requires address { placed.address ≤ 2 ^ 32 }
    ensures site { IfOk result (λ site. IsSite known.now site) }
    ensures placed { IfOk result (λ site. site.placed ≡ placed) }
    ensures area { IfOk result (λ site. site.area.now ≡ area.now) }
{
    let relocs = area.relocs.as_slice();
    if relocs.len() >= 0x1000_0000 {
        return Err(NoMemory);
    }
    let symbols = symbols_of(known.values.as_slice(), placed.area.object);
    let starts = starts_of(alloc, &known.bases, placed.area.object, symbols, relocs)?;
    Ok(Site {
        placed,
        area,
        symbols,
        starts,
        even: are_even(relocs),
    })
}
