//! What selections give for areas by what they choose.

ghost use Rattle.std.specs.Prelude.{◌≡◌, ℕ, List, OnOk};
ghost use Rattle.std.specs.Str.{bytes_eq};
ghost use Rattle.place_model.specs.declared.scatter.Choice.{Choice as Chosen};
ghost use Rattle.link_assign.specs.Index.{finding_in, given, joined_if};
ghost use Rattle.place_model.specs.Keys.{class_of, same_choice};
ghost use Rattle.link_assign.specs.Shown.{shown_item, shown_offer};
ghost use Rattle.place_model.specs.declared.scatter.Choice.TheVariants as chosen;
ghost use Rattle.link_assign.specs.declared.finding.Finding.TheVariants as nothing;

use crate::finding::{Finding, joined};
use crate::items::{Item, is_read_only, is_zero_initialised};
use crate::offers::Offer;
use indexmap::IndexMap;
use place_model::Choice;
use sdt_fault::NoMemory;
use std::alloc::Global;

/// The best selections for areas of each name, and for those of each class.
#[derive(Drop)]
pub struct Choices<'a> {
    pub names: IndexMap<&'a [u8], Finding>,
    pub read_only: Finding,
    pub read_write: Finding,
    pub zero_initialised: Finding,
}

/// Those of no selections.
pub fn no_choices<'a>(alloc: Global) -> Choices<'a>
    ensures { (c : Chosen) → given result c ≡ nothing.Nowhere }
{
    Choices {
        names: IndexMap::new(alloc),
        read_only: Finding::Nowhere,
        read_write: Finding::Nowhere,
        zero_initialised: Finding::Nowhere,
    }
}

fn named(names: &IndexMap<&[u8], Finding>, name: &[u8]) -> Finding
    ensures { result ≡ finding_in names.now name.now }
{
    match names.get(name) {
        None => Finding::Nowhere,
        Some(finding) => *finding,
    }
}

fn note_named<'a>(
    names: &mut IndexMap<&'a [u8], Finding>,
    name: &'a [u8],
    offer: &Offer,
) -> Result<(), NoMemory>
    ensures { OnOk result ((q : List ℕ) → finding_in names.new q
        ≡ joined_if (bytes_eq q name.now) (finding_in names.old q) (shown_offer offer.now)) }
{
    let finding = named(names, name);
    names.insert(name, joined(finding, offer))?;
    Ok(())
}

/// One more selection.
pub fn note_choice<'a>(choices: &mut Choices<'a>, offer: &Offer<'a>) -> Result<(), NoMemory>
    ensures { OnOk result ((c : Chosen) → given choices.new c
        ≡ joined_if (same_choice c offer.now.selection.now.choice) (given choices.old c)
        (shown_offer offer.now)) }
{
    let selection = offer.selection;
    match &selection.choice {
        Choice::Named(name) => note_named(&mut choices.names, name.as_slice(), offer)?,
        Choice::Ro => choices.read_only = joined(choices.read_only, offer),
        Choice::Rw => choices.read_write = joined(choices.read_write, offer),
        Choice::Zi => choices.zero_initialised = joined(choices.zero_initialised, offer),
    }
    Ok(())
}

/// What is given for an area by its name.
pub fn by_name(choices: &Choices, item: &Item) -> Finding
    ensures { result ≡ given choices.now (chosen.Named (shown_item item.now).name) }
{
    named(&choices.names, item.area.name.as_slice())
}

/// What is given for it by its class.
pub fn by_class(choices: &Choices, item: &Item) -> Finding
    ensures { result ≡ given choices.now (class_of (shown_item item.now)) }
{
    if is_zero_initialised(item) {
        return choices.zero_initialised;
    }
    if is_read_only(item) {
        return choices.read_only;
    }
    choices.read_write
}
