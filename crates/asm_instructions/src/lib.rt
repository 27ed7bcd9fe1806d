//! The instruction that a line of ARM or Thumb state says, with its operands' values, or the kind of its fault. Public
//! sources: the ARM Architecture Reference Manual, and the SDT 2.50 Reference Guide, chapter on the assembler.
//! `asm_units` calls `arm_unit`, `thumb_unit`, `pseudo_instructions` and their like over a `Lookup`,
//! which finds names and values of the line; `armasm_core` calls the laws that what fits is written.
#![tactic(auto)]

pub mod arm_lines;
pub mod blocks;
pub mod branches;
pub mod data;
pub mod immediates;
pub mod laws;
pub mod lookups;
pub mod pseudo;
pub mod shifts;
pub mod thumb_branches;
pub mod thumb_data;
pub mod thumb_lines;
pub mod thumb_transfers;
pub mod thumb_values;
pub mod transfers;
pub mod values;

pub use crate::arm_lines::arm_unit;
pub use crate::branches::ArmUnit;
pub use crate::laws::{
    fitting_instructions_are_written, fitting_thumb_codes_are_written, instructions_fit,
    pseudo_instructions_fit, thumb_instructions_fit, thumb_pseudo_instructions_fit,
};
pub use crate::lookups::Lookup;
pub use crate::pseudo::pseudo_instructions;
pub use crate::thumb_data::{ThumbResult, ThumbUnit};
pub use crate::thumb_lines::{thumb_pseudo_instruction, thumb_unit};
pub use crate::values::{number_in, value_of};
