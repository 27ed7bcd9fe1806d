//! Faults of a line that laying out finds without values (where statements stand, areas that are named again otherwise,
//! names that are defined twice, what a statement has by itself) and those that need the whole layout; and what areas
//! have by their lines: names, attributes and the state in which their code begins. Public source: the SDT 2.50
//! Reference Guide, chapter on the assembler; the kinds are this project's. `asm_layout` keeps a `Checks` and a
//! `Starts`, asks `Checks::check` of each line, takes the areas' states from `States`, and asks `late_kind` behind the
//! last line.
#![tactic(auto)]

mod areas;
pub mod checks;
mod labels;
mod large;
mod late;
mod own;
mod places;
mod starts;
mod states;

pub use crate::checks::Checks;
pub use crate::late::{Position, late_kind};
pub use crate::starts::{AreaStart, Starts};
pub use crate::states::States;
