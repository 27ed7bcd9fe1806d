//! Expansion of a source to its flat lines: variables, conditions, loops, macros and the files that its GETs name, by a
//! loop over a stack of what is open. Public source: the SDT 2.50 Reference Guide, chapter on the assembler; depths and
//! limits are this project's. `armasm_core` calls `expand` over a store of files. Places, names and tables are given up by
//! `drop` at each exit, for a short proof (docs/GATE.md).
#![tactic(auto)]

pub mod calls;
pub mod conditions;
pub mod declarations;
pub mod definitions;
mod dollars;
pub mod engine;
pub mod faults;
pub mod first_lines;
mod kept;
pub mod line_cursors;
pub mod plain;
pub mod steps;
pub mod turning;

pub use crate::engine::expand;
