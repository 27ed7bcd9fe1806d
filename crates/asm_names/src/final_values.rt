//! Values of expressions with all names of the source.

ghost use Rattle.asm_model.specs.AtLine.{with_names};
ghost use Rattle.asm_model.specs.Meaning.{Evaluates};
ghost use Rattle.asm_names.specs.PlacedLines.{line_of};

use crate::placed_lines::PlacedLine;
use asm_expr::{KnownNames, Seen, value_seen};
use asm_model::{EvalFault, Expr, Value};
use std::alloc::Global;

/// The value of an expression of the line with these names, or the kind of its fault. It is the final value where the
/// names are all of the source's.
pub fn final_value(
    alloc: Global,
    e: &Expr,
    names: &KnownNames,
    line: &PlacedLine<'_>,
) -> Result<Value, EvalFault>
    ensures { Evaluates (with_names (line_of line.now) names.now) e.now.items result }
{
    let seen = Seen {
        names,
        first: None,
        own: None,
        area: line.place.area,
        offset: line.place.offset,
        map: line.place.map,
        thumb: line.place.thumb,
    };
    value_seen(alloc, e, &seen)
}
