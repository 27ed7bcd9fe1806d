//! The selections of the regions of an image, in the order of the description.

ghost use Rattle.std.specs.Prelude.{◌≡◌, [], ◌∷◌, ◌++◌, ◌+◌, ◌^◌, ◌<◌, length, map, OnOk, IfOk};
ghost use Rattle.std.specs.List.{flat_map};
ghost use Rattle.place_model.specs.Assignment.{offers_from};
ghost use Rattle.link_assign.specs.Shown.{of_class, offered, shown_offer};

use place_model::{Choice, Edge, ScatterLoad, ScatterRegion, Selection};
use sdt_fault::NoMemory;
use std::alloc::Global;

/// A selection of the region of a number.
#[derive(Clone, Copy)]
pub struct Offer<'a> {
    pub region: usize,
    pub selection: &'a Selection,
}

/// The selections of so many regions.
#[derive(Drop)]
pub struct Offers<'a> {
    pub offers: Vec<Offer<'a>>,
    pub regions: usize,
}

fn push_region<'a>(
    offers: &mut Vec<Offer<'a>>,
    region: usize,
    selections: &'a [Selection],
) -> Result<(), NoMemory>
    ensures { OnOk result (map shown_offer offers.new.items ≡ map shown_offer offers.old.items
        ++ offered region selections.now) }
{
    for selection in selections {
        offers.push(Offer { region, selection })?;
    }
    Ok(())
}

/// Those of regions that are counted from a number on.
fn push_regions<'a>(
    offers: &mut Vec<Offer<'a>>,
    first: usize,
    regions: &'a [ScatterRegion],
) -> Result<(), NoMemory>
    requires { first + length regions.now < 2 ^ 64 }
    ensures { OnOk result (map shown_offer offers.new.items ≡ map shown_offer offers.old.items
        ++ offers_from first regions.now) }
{
    for (i, region) in regions.iter().enumerate() {
        push_region(offers, first + i, region.selections.as_slice())?;
    }
    Ok(())
}

/// The number behind so many more regions. No memory holds so many that it needs more bits.
fn behind(first: usize, more: usize) -> Result<usize, NoMemory>
    ensures { IfOk result (λ number. number ≡ first + more) }
{
    match first.checked_add(more) {
        None => Err(NoMemory),
        Some(number) => Ok(number),
    }
}

/// The selections of a description.
pub fn described<'a>(alloc: Global, loads: &'a [ScatterLoad]) -> Result<Offers<'a>, NoMemory>
    ensures offers { IfOk result (λ o. map shown_offer o.offers.items
        ≡ offers_from 0 (flat_map (λ load. load.regions) loads.now)) }
    ensures regions { IfOk result (λ o. o.regions
        ≡ length (flat_map (λ load. load.regions) loads.now)) }
{
    let mut offers = Vec::new(alloc);
    let mut count: usize = 0;
    for load in loads {
        let regions = load.regions.as_slice();
        let next = behind(count, regions.len())?;
        push_regions(&mut offers, count, regions)?;
        count = next;
    }
    Ok(Offers {
        offers,
        regions: count,
    })
}

/// The selection of a class of areas of any module.
pub fn class_selection(choice: Choice) -> Selection
    ensures { result ≡ of_class choice }
{
    Selection {
        line: 0,
        module: None,
        choice,
        edge: Edge::Plain,
    }
}

/// Those of the three regions of an image without a description.
pub fn plain<'a>(
    alloc: Global,
    ro: &'a Selection,
    rw: &'a Selection,
    zi: &'a Selection,
) -> Result<Offers<'a>, NoMemory>
    ensures offers { IfOk result (λ o. map shown_offer o.offers.items
        ≡ record { region = 0; selection = ro.now } ∷ record { region = 1; selection = rw.now }
        ∷ record { region = 2; selection = zi.now } ∷ []) }
    ensures regions { IfOk result (λ o. o.regions ≡ 3) }
{
    let mut offers = Vec::new(alloc);
    offers.push(Offer {
        region: 0,
        selection: ro,
    })?;
    offers.push(Offer {
        region: 1,
        selection: rw,
    })?;
    offers.push(Offer {
        region: 2,
        selection: zi,
    })?;
    Ok(Offers { offers, regions: 3 })
}
