//! Faults of lines that need the whole layout.

ghost use Rattle.std.specs.Prelude.{◌≡◌};
ghost use Rattle.asm_layout.specs.Late as late;

use crate::telling::told_of;
use asm_checks::{Position, late_kind};
use asm_laying::laying::LaidStatement;
use asm_offsets::LaidPools;
use sdt_fault::answer::Fault;
use std::alloc::Global;

fn position_of(laid: &LaidStatement<'_>) -> Position
    ensures { result ≡ late.position_of laid.now }
{
    Position {
        area: laid.line.place.area,
        offset: laid.line.place.offset,
        literal: laid.literal,
    }
}

/// Tells the first line with such a fault.
pub fn cleared(alloc: Global, laid: &[LaidStatement<'_>], pools: &[LaidPools]) -> Result<(), Fault>
    ensures { late.Clears pools.now laid.now result }
{
    let mut left = laid;
    'lines: loop {
        match left {
            [] => return Ok(()),
            [next, rest @ ..] => {
                let statement = next.line.statement;
                if let Some(kind) = late_kind(&statement.what, position_of(next), pools) {
                    return Err(told_of(alloc, statement, kind));
                }
                left = rest;
            }
        }
    }
}
