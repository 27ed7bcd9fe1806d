//! The layout of what a source's lines say.

ghost use Rattle.std.specs.Prelude.{◌+◌, ◌<◌, ◌≡◌, Some, length};
ghost use Rattle.asm_model.specs.Said.{AllSaid};
ghost use Rattle.asm_laying.specs.Carried.{most_statements};
ghost use Rattle.armasm_core.specs.Assembling as assembling;
ghost use Rattle.armasm_core.specs.Passes.{IsToldAs, LaysLines, LaysOut};

use crate::area::{area_missing, area_missing_beside, has_area};
use asm_layout::{Layout, front_fault, lay_out};
use asm_model::{Flat, bad_line};
use asm_reading::{Reading, Unread};
use sdt_fault::Text;
use sdt_fault::answer::Fault;
use std::alloc::Global;

fn unread_fault(alloc: Global, unread: &Unread) -> Fault
    ensures { IsToldAs (Some (assembling.unread_told unread.now)) result }
{
    bad_line(alloc, &unread.source, unread.number, unread.kind)
}

/// The layout of lines, or their first fault of reading and layout but for a missing AREA.
fn laid_lines(alloc: Global, reading: &Reading) -> Result<Layout<'_>, Fault>
    requires few { length reading.now.statements.items < most_statements + 1 }
    requires said { AllSaid reading.now.statements.items }
    ensures { LaysLines (assembling.said_by reading.now) reading.now.before
        reading.now.unread result }
{
    let statements = reading.statements.as_slice();
    match &reading.unread {
        None => lay_out(alloc, statements),
        Some(unread) => {
            front_fault(alloc, statements, reading.before)?;
            Err(unread_fault(alloc, unread))
        }
    }
}

/// The layout of the flat lines of a source of this name, of which this is a reading, or their first fault of reading and layout.
pub fn laid_out<'a>(
    alloc: Global,
    source: &Text,
    flats: &[Flat],
    reading: &'a Reading,
) -> Result<Layout<'a>, Fault>
    requires few { length reading.now.statements.items < most_statements + 1 }
    requires said { AllSaid reading.now.statements.items }
    ensures { LaysOut source.now flats.now reading.now result }
{
    if has_area(flats) {
        return laid_lines(alloc, reading);
    }
    match laid_lines(alloc, reading) {
        Ok(_) => Err(area_missing(alloc, source)),
        Err(fault) => Err(area_missing_beside(alloc, source, fault)),
    }
}
