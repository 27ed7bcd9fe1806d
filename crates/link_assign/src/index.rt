//! The best selections of an area, found by its module, its name and its class.

ghost use Rattle.std.specs.Prelude.{◌≡◌, ℕ, List, Option, None, Some, ◌&&◌, if◌then◌else◌, OnOk, IfOk, map};
ghost use Rattle.std.specs.Str.{bytes_eq};
ghost use Rattle.place_model.specs.Assignment.{Offer as Selected, best, found};
ghost use Rattle.place_model.specs.declared.scatter.Choice.{Choice as Chosen};
ghost use Rattle.link_assign.specs.declared.finding.Finding.TheVariants as nothing;
ghost use Rattle.link_assign.specs.Finding.{told};
ghost use Rattle.link_assign.specs.Index.{best_given, best_in, choices_in, given, given_by, in_index, is_keyed, joined_if, IsIndexOf};
ghost use Rattle.place_model.specs.Keys.{same_choice};
ghost use Rattle.link_assign.specs.Shown.{shown_item, shown_offer};

use crate::choices::{Choices, by_class, by_name, no_choices, note_choice};
use crate::finding::{Finding, is_nowhere};
use crate::items::Item;
use crate::offers::Offer;
use indexmap::IndexMap;
use sdt_fault::NoMemory;
use std::alloc::Global;

/// What the selections of each module give, and what those of any module do.
#[derive(Drop)]
pub struct Index<'a> {
    pub modules: IndexMap<&'a [u8], Choices<'a>>,
    pub any: Choices<'a>,
}

/// What the selections of a module give, taken out.
fn take_choices<'a>(
    alloc: Global,
    modules: &mut IndexMap<&'a [u8], Choices<'a>>,
    home: &'a [u8],
) -> Choices<'a>
    ensures given { (c : Chosen) → given result c ≡ given_by (choices_in modules.old home.now) c }
    ensures left { (q : List ℕ) → choices_in modules.new q
        ≡ (if bytes_eq home.now q then None else choices_in modules.old q) }
{
    match modules.swap_remove(home) {
        None => no_choices(alloc),
        Some(choices) => choices,
    }
}

fn note_module<'a>(
    alloc: Global,
    modules: &mut IndexMap<&'a [u8], Choices<'a>>,
    home: &'a [u8],
    offer: &Offer<'a>,
) -> Result<(), NoMemory>
    ensures { OnOk result ((q : List ℕ) (c : Chosen) → given_by (choices_in modules.new q) c
        ≡ joined_if (bytes_eq q home.now && same_choice c offer.now.selection.now.choice)
        (given_by (choices_in modules.old q) c) (shown_offer offer.now)) }
{
    let mut choices = take_choices(alloc, modules, home);
    note_choice(&mut choices, offer)?;
    modules.insert(home, choices)?;
    Ok(())
}

/// One more selection.
fn note<'a>(alloc: Global, index: &mut Index<'a>, offer: &Offer<'a>) -> Result<(), NoMemory>
    ensures { OnOk result ((home : Option (List ℕ)) (c : Chosen) → in_index index.new home c
        ≡ joined_if (is_keyed home c (shown_offer offer.now)) (in_index index.old home c)
        (shown_offer offer.now)) }
{
    let selection = offer.selection;
    match &selection.module {
        None => note_choice(&mut index.any, offer),
        Some(home) => note_module(alloc, &mut index.modules, home.as_slice(), offer),
    }
}

/// The index of no selections.
fn no_index<'a>(alloc: Global) -> Index<'a>
    ensures { (home : Option (List ℕ)) (c : Chosen) → in_index result home c ≡ nothing.Nowhere }
{
    Index {
        modules: IndexMap::new(alloc),
        any: no_choices(alloc),
    }
}

/// The index of selections.
#[tactic(auto, using(crate::proofs::FindingLemmas::after_all, crate::proofs::FindingLemmas::after_one))]
pub fn index_of<'a>(alloc: Global, offers: &[Offer<'a>]) -> Result<Index<'a>, NoMemory>
    ensures { IfOk result (IsIndexOf (map shown_offer offers.now)) }
{
    let mut index = no_index(alloc);
    for offer in offers {
        note(alloc, &mut index, offer)?;
    }
    Ok(index)
}

fn best_of_choices(choices: &Choices, item: &Item) -> Finding
    ensures { result ≡ best_given (Some choices.now) (shown_item item.now) }
{
    let finding = by_name(choices, item);
    if !is_nowhere(&finding) {
        return finding;
    }
    by_class(choices, item)
}

fn best_of_module(index: &Index, item: &Item) -> Finding
    ensures { result ≡ best_given (choices_in index.now.modules (shown_item item.now).«module»)
        (shown_item item.now) }
{
    match index.modules.get(item.home) {
        None => Finding::Nowhere,
        Some(choices) => best_of_choices(choices, item),
    }
}

fn best_known(index: &Index, item: &Item) -> Finding
    ensures { result ≡ best_in index.now (shown_item item.now) }
{
    let finding = best_of_module(index, item);
    if !is_nowhere(&finding) {
        return finding;
    }
    best_of_choices(&index.any, item)
}

/// The best selections of an area.
pub fn best_of(index: &Index, item: &Item) -> Finding
    ensures { (offers : List Selected) → IsIndexOf offers index.now
        → result ≡ told (found (best offers (shown_item item.now))) }
{
    best_known(index, item)
}
