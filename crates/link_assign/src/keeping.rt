//! Which region keeps each area.

ghost use Rattle.std.specs.Prelude.{◌≡◌, ℕ, List, ◌++◌, map, OnOk, IfOk};
ghost use Rattle.std.specs.Option.{option_to_list};
ghost use Rattle.place_model.specs.Assignment.{Offer as Selected, assignment_refusal, best, found, kept_by, refused};
ghost use Rattle.link_assign.specs.Index.{IsIndexOf};
ghost use Rattle.link_assign.specs.Keeping.{report_name, AreKept, Judges};
ghost use Rattle.link_assign.specs.Shown.{kept_in, shown_item, shown_offer};

use crate::finding::Finding;
use crate::index::{Index, best_of, index_of};
use crate::items::Item;
use crate::offers::Offer;
use aof_object::Object;
use link_model::Named;
use place_model::Edge;
use sdt_fault::answer::Fault;
use sdt_fault::refusal::Refusal;
use sdt_fault::{NoMemory, Text};
use std::alloc::Global;

/// An area with its region and the edge of its selection.
#[derive(Clone, Copy)]
pub struct Kept<'a> {
    pub region: usize,
    pub edge: Edge,
    pub item: Item<'a>,
}

fn object_name(alloc: Global, objects: &[Named<Object>], number: u32) -> Result<Text, NoMemory>
    ensures { IfOk result (λ name. name ≡ report_name objects.now number) }
{
    match objects.get(number as usize) {
        None => Text::from_slice(alloc, b""),
        Some(object) => object.name.try_clone(alloc),
    }
}

/// Keeps an area in the region of its one best selection.
#[tactic(auto, using(crate::proofs::KeepingLemmas::nowhere_refused, crate::proofs::KeepingLemmas::unclear_refused, crate::proofs::KeepingLemmas::within_refused))]
fn keep<'a>(
    alloc: Global,
    objects: &[Named<Object>],
    index: &Index,
    kept: &mut Vec<Kept<'a>>,
    item: &Item<'a>,
) -> Result<(), Fault>
    ensures judged { (offers : List Selected) → IsIndexOf offers index.now
        → Judges result (refused (report_name objects.now item.now.name.object)
        (shown_item item.now) (found (best offers (shown_item item.now)))) }
    ensures kept { (offers : List Selected) → IsIndexOf offers index.now
        → OnOk result ((r : ℕ) → kept_in r kept.new.items ≡ kept_in r kept.old.items
        ++ option_to_list (kept_by r (shown_item item.now)
        (found (best offers (shown_item item.now))))) }
{
    match best_of(index, item) {
        Finding::Nowhere => Err(Fault::Refused(Refusal::Unassigned {
            object: object_name(alloc, objects, item.name.object)?,
            area: item.area.name.try_clone(alloc)?,
        })),
        Finding::Unclear(first, second) => Err(Fault::Refused(Refusal::Ambiguous {
            object: object_name(alloc, objects, item.name.object)?,
            area: item.area.name.try_clone(alloc)?,
            first,
            second,
        })),
        Finding::Within(pick) => {
            kept.push(Kept {
                region: pick.region,
                edge: pick.edge,
                item: *item,
            })?;
            Ok(())
        }
    }
}

/// Each area in its region, or the refusal of the first that has none or two.
pub fn keep_all<'a>(
    alloc: Global,
    objects: &[Named<Object>],
    offers: &[Offer],
    items: &[Item<'a>],
) -> Result<Vec<Kept<'a>>, Fault>
    ensures judged { Judges result (assignment_refusal (report_name objects.now)
        (map shown_offer offers.now) (map shown_item items.now)) }
    ensures kept { IfOk result (λ kept. AreKept (map shown_offer offers.now)
        (map shown_item items.now) kept.items) }
{
    let index = index_of(alloc, offers)?;
    let mut kept = Vec::new(alloc);
    for item in items {
        keep(alloc, objects, &index, &mut kept, item)?;
    }
    Ok(kept)
}
