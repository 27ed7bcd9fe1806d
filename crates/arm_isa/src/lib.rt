//! The instructions of ARM state (ARMv4T) as a table of encodings, and the decoder of the table.
#![tactic(auto)]

mod decode;
pub mod instr;
mod laws;

pub use crate::decode::decode_arm;
pub use crate::instr::{ArmInstr, HalfKind, Operation};
pub use crate::laws::arm_reading_law;
