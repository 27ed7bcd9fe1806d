//! What directives occupy of their areas.

ghost use Rattle.std.specs.Prelude.{◌≡◌};
ghost use Rattle.asm_model.specs.Occupied as model;
ghost use Rattle.asm_model.specs.OccupiedCode.{occupied_of_code};

use crate::directives::{AreaAttributes, Boundary, DataItem, DirectiveLine};
use crate::exprs::Expr;

/// What a directive occupies of its area.
#[derive(Clone, Copy)]
pub enum Occupied<'a> {
    /// Nothing, in or outside of areas.
    Unplaced,
    /// Nothing, where an area with these attributes opens or goes on.
    Opening(&'a AreaAttributes),
    /// Nothing, at its place in an area.
    Marking,
    /// Nothing, at the place of an instruction.
    Entering,
    /// A data item for each value.
    Items(DataItem, &'a [Expr]),
    /// So many zeros.
    Zeroes(&'a Expr),
    /// Zeros up to a boundary.
    UpTo(&'a Boundary),
    /// The pool of the literals before.
    Literals,
}

/// The table of what directives occupy.
pub fn occupied_by(line: &DirectiveLine) -> Occupied<'_>
    ensures { occupied_of_code result ≡ model.occupied line.now }
{
    match line {
        DirectiveLine::Area { attributes, .. } => Occupied::Opening(attributes),
        DirectiveLine::Entry => Occupied::Entering,
        DirectiveLine::Constants { item, values } => Occupied::Items(*item, values.as_slice()),
        DirectiveLine::Space { size } => Occupied::Zeroes(size),
        DirectiveLine::Align { boundary } => Occupied::UpTo(boundary),
        DirectiveLine::Ltorg => Occupied::Literals,
        DirectiveLine::Data => Occupied::Marking,
        DirectiveLine::End
        | DirectiveLine::Export { .. }
        | DirectiveLine::Import { .. }
        | DirectiveLine::Extern { .. }
        | DirectiveLine::Keep { .. }
        | DirectiveLine::Equ { .. }
        | DirectiveLine::Rn { .. }
        | DirectiveLine::Rout
        | DirectiveLine::Assert { .. }
        | DirectiveLine::Nofp
        | DirectiveLine::Opt { .. }
        | DirectiveLine::Ttl
        | DirectiveLine::Subt
        | DirectiveLine::Map { .. }
        | DirectiveLine::Field { .. }
        | DirectiveLine::Code16
        | DirectiveLine::Code32 => Occupied::Unplaced,
    }
}
