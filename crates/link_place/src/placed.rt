//! Placing: the layout with the least table, what is wrong with it, and the addresses.

ghost use Rattle.std.specs.Prelude.{◌≡◌, ◌^◌, ◌<◌, ◌≤◌, length, sum_by, IfOk, IfSome};
ghost use Rattle.std.specs.List.{AllByRecursion};
ghost use Rattle.std.specs.Option.{option_copied};
ghost use Rattle.chunk_file.specs.Reading.{Gives};
ghost use Rattle.place_model.specs.Assignment.{description, described_regions};
ghost use Rattle.place_model.specs.Laws.{AreWhole};
ghost use Rattle.place_model.specs.Plans.{origin_of as model_origin, table_words};
ghost use Rattle.link_items.specs.LinkedItems.{contents_of};
ghost use Rattle.link_place.specs.Parts.{contents_in, parts_of, piece_count, AreAligned};
ghost use Rattle.link_place.specs.Checks.{IsLow, IsLowLoad};
ghost use Rattle.link_place.specs.Placings.{AreFor};
ghost use Rattle.link_place.specs.Placed.{placed};
ghost use Rattle.link_place.specs.Promises.{CopiesKeep, HasRoom, IsWhole, RunApart, StartsInRoot};
ghost use Rattle.link_place.specs.Judgements.{refusal_of_ranges, refusal_of_layout, most_of, IsLeast};

use crate::faults::{conflict, first_overfull, overlap, rootless, too_large};
use crate::layouts::{Layout, least_layout};
use crate::parts::{Input, Part, all_groups, all_parts, are_few};
use crate::placing::placement;
use crate::writable::first_unwritable;
use link_model::{Assigned, Linked, Placement, Veneer};
use place_model::Kind;
use sdt_fault::NoMemory;
use sdt_fault::answer::Fault;
use sdt_fault::refusal::Refusal;
use sdt_word::Range32;
use std::alloc::Global;

/// The refusal of ranges that overlap or are too large, and of what is written outside RAM.
fn judge_ranges(
    alloc: Global,
    kind: &Kind,
    ram: Option<&[Range32]>,
    origin: u32,
    parts: &[Part],
    layout: &Layout,
) -> Result<Option<Refusal>, NoMemory>
    requires words { layout.now.words < 2 ^ 30 }
    requires own { AreFor layout.now.words origin parts.now layout.now.regions }
    requires low { AllByRecursion IsLow layout.now.regions }
    requires low_loads { AllByRecursion IsLowLoad layout.now.loads }
    ensures { IfOk result (λ r. r ≡ refusal_of_ranges kind.now (option_copied ram.entry) origin parts.now layout.now) }
{
    let regions = layout.regions.as_slice();
    if let Some(refusal) = overlap(alloc, layout.loads.as_slice(), regions)? {
        return Ok(Some(refusal));
    }
    if let Some(refusal) = conflict(alloc, regions)? {
        return Ok(Some(refusal));
    }
    if let Some(refusal) = too_large(kind, regions) {
        return Ok(Some(refusal));
    }
    match ram {
        None => Ok(None),
        Some(ram) => first_unwritable(alloc, ram, layout.words, origin, parts, regions),
    }
}

/// The refusal of a layout.
fn judge(
    alloc: Global,
    kind: &Kind,
    ram: Option<&[Range32]>,
    origin: u32,
    parts: &[Part],
    layout: &Layout,
) -> Result<Option<Refusal>, NoMemory>
    requires words { layout.now.words < 2 ^ 30 }
    requires own { AreFor layout.now.words origin parts.now layout.now.regions }
    requires counts { sum_by (λ l. l.count) layout.now.loads ≤ length layout.now.regions }
    ensures told { IfOk result (λ r. r ≡ refusal_of_layout kind.now (option_copied ram.entry) origin parts.now layout.now) }
    ensures low { IfOk result (λ r. r ≡ None → AllByRecursion IsLow layout.now.regions) }
{
    let regions = layout.regions.as_slice();
    if let Some(refusal) = rootless(alloc, regions)? {
        return Ok(Some(refusal));
    }
    if let Some(refusal) = first_overfull(alloc, layout.loads.as_slice(), regions)? {
        return Ok(Some(refusal));
    }
    let ranges = judge_ranges(alloc, kind, ram, origin, parts, layout)?;
    Ok(ranges)
}

/// From where alignment counts.
fn origin_of(kind: &Kind) -> u32
    ensures { result ≡ model_origin kind.now }
{
    match kind {
        Kind::Aif {
            base,
            relocatable: true,
        } => *base,
        _ => 0,
    }
}

/// How many words the startup code's table has at most.
fn most_words(kind: &Kind, parts: &[Part]) -> u32
    requires { length parts.now ≤ 64 }
    ensures most { result ≡ most_of kind.now parts.now }
    ensures bound { result ≤ 326 }
{
    match kind {
        Kind::Scatter(_) => parts.len() as u32 * 5 + 6,
        _ => 0,
    }
}

/// The layout with the least table.
fn layout_of(
    alloc: Global,
    input: &Input<'_>,
    origin: u32,
    parts: &[Part],
) -> Result<Layout, NoMemory>
    requires parts { parts.now ≡ parts_of input.now.kind.now (contents_in input.now) }
    requires origin { origin ≡ model_origin input.now.kind.now }
    requires room { sum_by piece_count parts.now ≤ 2 ^ 28 }
    requires few { length parts.now ≤ 64 }
    requires loads { length (description input.now.kind.now) ≤ 64 }
    ensures { IfOk result (λ layout. IsLeast input.now layout) }
{
    let groups = all_groups(alloc, input.kind)?;
    let most = most_words(input.kind, parts);
    let layout = least_layout(alloc, origin, groups.as_slice(), parts, most)?;
    Ok(layout)
}

/// Places parts.
fn place_parts(
    alloc: Global,
    input: &Input<'_>,
    ram: Option<&[Range32]>,
    parts: &[Part],
) -> Result<Placement, Fault>
    requires parts { parts.now ≡ parts_of input.now.kind.now (contents_in input.now) }
    requires room { sum_by piece_count parts.now ≤ 2 ^ 28 }
    requires few { length parts.now ≤ 64 }
    requires loads { length (description input.now.kind.now) ≤ 64 }
    ensures { Gives result (placed input.now.kind.now (option_copied ram.entry) (contents_in input.now)) }
{
    let origin = origin_of(input.kind);
    let layout = layout_of(alloc, input, origin, parts)?;
    if let Some(refusal) = judge(alloc, input.kind, ram, origin, parts, &layout)? {
        return Err(Fault::Refused(refusal));
    }
    Ok(placement(alloc, origin, parts, &layout)?)
}

fn place_input(
    alloc: Global,
    input: &Input<'_>,
    ram: Option<&[Range32]>,
) -> Result<Placement, Fault>
    requires aligned { AreAligned (contents_in input.now) }
    requires regions { length (described_regions input.now.kind.now) ≤ 64 }
    requires loads { length (description input.now.kind.now) ≤ 64 }
    ensures { Gives result (placed input.now.kind.now (option_copied ram.entry) (contents_in input.now)) }
{
    let parts = all_parts(alloc, input)?;
    if !are_few(parts.as_slice()) {
        return Err(Fault::NoMemory);
    }
    place_parts(alloc, input, ram, parts.as_slice())
}

/// Places what the regions contain. `ram` has the ranges that can be written, if they are told.
pub fn place(
    alloc: Global,
    linked: &Linked,
    kind: &Kind,
    assigned: &Assigned,
    veneers: &[Veneer],
    ram: Option<&[Range32]>,
) -> Result<Placement, Fault>
    requires aligned { AreAligned (contents_of linked.now.objects assigned.now.regions veneers.now) }
    requires regions { length (described_regions kind.now) ≤ 64 }
    requires loads { length (description kind.now) ≤ 64 }
    // What is given is the placement of the plan, or what is refused first of that.
    ensures exact { Gives result (placed kind.now (option_copied ram.entry)
        (contents_of linked.now.objects assigned.now.regions veneers.now)) }
    // No two regions run at one address.
    ensures apart { IfOk result (λ p. RunApart p.regions) }
    // What a copy writes no later copy reads.
    ensures copies { IfOk result (λ p. CopiesKeep p.regions) }
    // Each region ends at 2^32 or below, and has less than 2^31 bytes.
    ensures room { IfOk result (λ p. AllByRecursion HasRoom p.regions) }
    // The startup code and its table are in the first region, which runs where it is loaded.
    ensures startup { IfOk result (λ p. IfSome p.boot (StartsInRoot (table_words kind.now
        (contents_of linked.now.objects assigned.now.regions veneers.now)) p)) }
    // Of whole words come whole words.
    ensures whole { AreWhole kind.now
        (contents_of linked.now.objects assigned.now.regions veneers.now)
        → IfOk result (λ p. AllByRecursion IsWhole p.regions) }
{
    let input = Input {
        kind,
        objects: linked.objects.as_slice(),
        assigned: assigned.regions.as_slice(),
        veneers,
    };
    place_input(alloc, &input, ram)
}
