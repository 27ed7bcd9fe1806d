//! Names for registers, which RN gives them, and the faults of registers that a line names. Public source: the SDT 2.50
//! Reference Guide, chapter on the assembler. `asm_layout` keeps a `Registers` and asks `Registers::check` of each
//! line; `armasm_core` follows the names once more by `giving` for pass 2.
#![tactic(auto)]

mod forms;
pub mod giving;
mod lists;
mod naming;
mod numbers;
pub mod registers;
mod rows;

pub use crate::registers::Registers;
