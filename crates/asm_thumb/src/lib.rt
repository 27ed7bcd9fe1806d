//! Operations of Thumb state as their lines have them: which instruction or pseudo-instruction an operation word is,
//! and what the tokens behind it say. Public sources: the SDT 2.50 Reference Guide, chapter on the assembler, and the
//! ARM Architecture Reference Manual. `asm_reading` calls `operation_named` for the word and `instruction` for the
//! tokens.
#![tactic(auto)]

pub mod data;
pub mod frames;
pub mod line_forms;
pub mod mnemonics;
pub mod operands;
pub mod table;
pub mod transfers;
