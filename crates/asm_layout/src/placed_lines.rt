//! Laid lines, as names and values are made of them.

ghost use Rattle.std.specs.Prelude.{List, IfOk};
ghost use Rattle.asm_model.specs.Laid.{LaidLine};
ghost use Rattle.asm_names.specs.Source.{AreEach};
ghost use Rattle.asm_layout.specs.Layout.{AreStatements};

use asm_laying::laying::LaidStatement;
use asm_names::PlacedLine;
use sdt_fault::NoMemory;
use std::alloc::Global;

/// The lines of a source.
pub fn lines_of<'a>(
    alloc: Global,
    laid: &[LaidStatement<'a>],
) -> Result<Vec<PlacedLine<'a>>, NoMemory>
    ensures { IfOk result (λ lines. (all : List LaidLine) → AreStatements all laid.now
        → AreEach all lines.items) }
{
    let mut lines = Vec::with_capacity(alloc, laid.len())?;
    'laid: for statement in laid {
        lines.push(statement.line)?;
    }
    Ok(lines)
}
