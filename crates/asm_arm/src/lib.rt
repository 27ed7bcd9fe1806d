//! Operations of ARM state as their lines have them: which instruction or pseudo-instruction an operation word is, with
//! its condition and suffix, and what the tokens behind it say. Public sources: the SDT 2.50 Reference Guide, chapter
//! on the assembler, and the ARM Architecture Reference Manual. `asm_reading` calls `operation_named` for the word and
//! `instruction` for the tokens; `asm_thumb` shares the operands of `operands`.
#![tactic(auto)]

pub mod addresses;
pub mod line_forms;
pub mod lists;
pub mod mnemonics;
pub mod operands;
pub mod stems;
pub mod transfers;
