//! Pass 2 of a line: what a statement puts into its area, or the kind of the first fault of its values, and the symbols
//! that it needs, in order of their first need, with their records. Public sources: the SDT 2.50 Reference Guide,
//! chapter on the assembler, and ARM Object Format. `armasm_core` calls `pass_two` and `literal_stored` for the bytes,
//! and `add_line`, `Symbols` and `record_of` for the symbols.
#![tactic(auto)]

mod bytes;
pub mod emitted;
mod instructions;
mod joining;
mod kinds;
mod line_symbols;
mod literals;
mod named;
mod needs;
pub mod records;
mod second_pass;
mod statements;
mod stored_words;
pub mod symbols;
pub mod tables;

pub use crate::emitted::{Emission, Emitted, LineUnits, RelocationTarget, Stored};
pub use crate::line_symbols::add_line;
pub use crate::literals::literal_stored;
pub use crate::records::{SymbolFlags, record_of};
pub use crate::second_pass::pass_two;
pub use crate::symbols::Symbols;
pub use crate::tables::LineTables;
