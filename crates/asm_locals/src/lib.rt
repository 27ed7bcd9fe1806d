//! Names for the local labels of a source: each gets a name that no line can spell, and each reference becomes the name
//! of the label that it means. Public source: the SDT 2.50 Reference Guide, chapter on the assembler. `asm_reading`
//! calls `name_locals` once; behind it local labels are labels as any other.
#![tactic(auto)]

pub mod labels;
pub mod naming;
pub mod passes;
pub mod statements;

pub use crate::passes::name_locals;
