//! The sections and the symbols of a linked image, as debuggers read them in an ELF executable.
#![tactic(auto)]

mod areas;
mod labels;
mod laws;
mod marks;
mod sections;
mod tables;

pub use crate::laws::{definitions_law, fits_law, locals_law, worked_example};
pub use crate::tables::tables_of;
