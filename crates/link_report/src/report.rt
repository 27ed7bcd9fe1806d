//! The report.

ghost use Rattle.std.specs.Prelude.{◌≡◌, ◌++◌, OnOk, IfOk};
ghost use Rattle.place_model.specs.Assignment.{description};
ghost use Rattle.link_values.specs.Bases.{AreBases};
ghost use Rattle.link_report.specs.Reports as reports;

use crate::lines::{name_of_area, object_name, place_of, push, push_eight, push_field, state_word};
use crate::members::push_members;
use crate::regions::{push_loads, push_regions};
use crate::selections::push_selections;
use crate::symbols::push_symbols;
use link_model::{AreaName, Linked, LinkedEntry, Placement};
use link_values::{AreaBases, area_at, area_bases};
use place_model::Kind;
use sdt_fault::{NoMemory, Text};
use std::alloc::Global;

fn first_base(kind: &Kind) -> u32
    ensures { result ≡ reports.first_base (description kind.now) }
{
    match kind {
        Kind::Scatter(scatter) => match scatter.loads.as_slice().first() {
            None => 0,
            Some(load) => load.base,
        },
        Kind::Plain { base } => *base,
        Kind::Aif { base, .. } => *base,
    }
}

fn area_of_entry(entry: LinkedEntry) -> AreaName
    ensures { result ≡ reports.area_of_entry entry }
{
    AreaName {
        object: entry.object,
        area: entry.area,
    }
}

fn yes_or_no(holds: bool) -> &'static [u8]
    ensures { result.now ≡ reports.yes_or_no holds }
{
    if holds { b"yes" } else { b"no" }
}

fn push_first(
    out: &mut Vec<u8>,
    kind: &Kind,
    linked: &Linked,
    placement: &Placement,
    bases: &AreaBases,
) -> Result<(), NoMemory>
    requires { AreBases placement.now bases.now }
    ensures { OnOk result (out.new.items ≡ out.old.items ++ reports.first_line kind.now linked.now placement.now) }
{
    let first = u64::from(first_base(kind));
    let entry = place_of(bases, area_of_entry(linked.entry), linked.entry.offset);
    push(out, b"first")?;
    push_eight(out, first)?;
    push_field(out, yes_or_no(entry == first))?;
    push(out, b"\n")
}

fn push_entry(
    out: &mut Vec<u8>,
    linked: &Linked,
    placement: &Placement,
    bases: &AreaBases,
) -> Result<(), NoMemory>
    requires { AreBases placement.now bases.now }
    ensures { OnOk result (out.new.items ≡ out.old.items ++ reports.entry_line linked.now placement.now) }
{
    let objects = linked.objects.as_slice();
    let area = area_of_entry(linked.entry);
    push(out, b"entry")?;
    push_eight(out, place_of(bases, area, linked.entry.offset))?;
    push_field(out, state_word(linked.entry.thumb))?;
    push_field(out, object_name(objects, area.object))?;
    push_field(out, name_of_area(area_at(objects, area)))?;
    push(out, b"\n")
}

fn push_report(
    alloc: Global,
    out: &mut Vec<u8>,
    kind: &Kind,
    given: usize,
    linked: &Linked,
    placement: &Placement,
) -> Result<(), NoMemory>
    ensures { OnOk result (out.new.items ≡ out.old.items ++ reports.report_text kind.now given linked.now placement.now) }
{
    let bases = area_bases(alloc, placement)?;
    let pushed = push_lines(alloc, out, kind, given, linked, placement, &bases);
    drop(bases);
    pushed
}

/// The same, by the bases of areas.
fn push_lines(
    alloc: Global,
    out: &mut Vec<u8>,
    kind: &Kind,
    given: usize,
    linked: &Linked,
    placement: &Placement,
    bases: &AreaBases,
) -> Result<(), NoMemory>
    requires { AreBases placement.now bases.now }
    ensures { OnOk result (out.new.items ≡ out.old.items ++ reports.report_text kind.now given linked.now placement.now) }
{
    push(out, b"armsdt report 1\n")?;
    push_loads(out, kind, placement.regions.as_slice())?;
    push_regions(out, kind, linked.objects.as_slice(), placement, bases)?;
    push_symbols(alloc, out, linked, placement, bases)?;
    push_members(alloc, out, linked, given)?;
    push_selections(alloc, out, kind, linked.objects.as_slice())?;
    push_first(out, kind, linked, placement, bases)?;
    push_entry(out, linked, placement, bases)?;
    push(out, b"end\n")?;
    Ok(())
}

/// Where everything of a link went that is placed: its load regions, its execution regions with what stands in them, the
/// names that its objects export, by value, the members that were chosen, the selections that took no area, and the entry. So
/// many objects as are given stand on the command line; the others are members.
pub fn report_text(
    alloc: Global,
    kind: &Kind,
    given: usize,
    linked: &Linked,
    placement: &Placement,
) -> Result<Text, NoMemory>
    ensures { IfOk result (λ text. text ≡ reports.report_text kind.now given linked.now placement.now) }
{
    let mut out = Vec::new(alloc);
    push_report(alloc, &mut out, kind, given, linked, placement)?;
    Ok(Text::from_vec(out))
}
