//! Names and their values: at a line by what it sees, and in the end with all names of a source, in an order in which
//! each name for an expression can be evaluated. Public source: the SDT 2.50 Reference Guide, chapter on the assembler;
//! that order is this project's. `asm_laying` makes entries by `listing` and `defining` and asks for `number_at` and
//! `literal_at` of a line, `asm_layout` finds the `order_of` names and the `final_names`, and `asm_instructions`
//! evaluates by `final_value`.
#![tactic(auto)]

pub mod copies;
pub mod defining;
mod dues;
mod equals;
pub mod final_values;
mod index;
pub mod keeping;
pub mod listing;
pub mod made;
mod names;
mod ordering;
pub mod placed_lines;
mod search;
mod settling;
pub mod values;

pub use crate::equals::{Equal, Order};
pub use crate::final_values::final_value;
pub use crate::names::final_names;
pub use crate::ordering::order_of;
pub use crate::placed_lines::{PlacedLine, StatementPlace};
pub use crate::values::{literal_at, number_at};
pub use asm_expr::{KnownNames, Seen};
