//! Expansion as definitions with their laws: which flat lines a source is, once its variables, conditions, loops,
//! macros and files are taken away. Public source: the SDT 2.50 Reference Guide, chapter on the assembler; depths,
//! limits and the order of faults are this project's. `asm_variables` and `asm_expand` are the engine, over the types
//! below; `expansion_law` says that a source has one outcome at most.
#![tactic(auto)]

mod laws;
pub mod macros;
pub mod operations;
pub mod standing;

pub use crate::laws::{expansion_law, words_law};
pub use crate::macros::{Macro, Parameter, Prototype};
pub use crate::operations::{Opening, Operation, Sort};
pub use crate::standing::Standing;
