//! The layout of a source.

ghost use Rattle.std.specs.Prelude.{◌+◌, ◌<◌, [], length};
ghost use Rattle.asm_model.specs.Laid.{reversed};
ghost use Rattle.asm_model.specs.Said.{AllSaid};
ghost use Rattle.asm_laying.specs.Carried.{most_statements};
ghost use Rattle.asm_layout.specs.Layout.{IsOutcome};
ghost use Rattle.asm_layout.specs.Outline.{IsOutline};

use crate::finishing::finished;
use crate::laid::Layout;
use crate::outline::{Outline, outline_of};
use crate::walking::walked;
use asm_model::Statement;
use sdt_fault::answer::Fault;
use std::alloc::Global;

/// Lays out statements that this is known of.
fn laid_out<'a>(
    alloc: Global,
    outline: Outline,
    statements: &'a [Statement],
) -> Result<Layout<'a>, Fault>
    requires outline { IsOutline (reversed statements.now []) outline }
    requires few { length statements.now < most_statements + 1 }
    requires said { AllSaid statements.now }
    ensures { IsOutcome (reversed statements.now []) result }
{
    match walked(alloc, &outline, statements) {
        Ok(walk) => finished(alloc, outline, walk),
        Err(fault) => {
            drop(outline);
            Err(fault)
        }
    }
}

/// Lays out statements in the order of their source. A refusal is BadLine at the first line with a fault, of those that need
/// no values. That a source has no AREA is checked elsewhere; statements without one, each of which may stand before the
/// first, give a layout without areas.
pub fn lay_out(alloc: Global, statements: &[Statement]) -> Result<Layout<'_>, Fault>
    requires few { length statements.now < most_statements + 1 }
    requires said { AllSaid statements.now }
    ensures { IsOutcome (reversed statements.now []) result }
{
    let outline = outline_of(alloc, statements)?;
    laid_out(alloc, outline, statements)
}
