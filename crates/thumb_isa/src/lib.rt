//! The instructions of Thumb state (ARMv4T) as a table of encodings, and the decoder of the table.
#![tactic(auto)]

mod decode;
pub mod instr;
mod laws;

pub use crate::decode::decode_thumb;
pub use crate::instr::{
    HighOperation, ImmediateOperation, SignedTransfer, ThumbInstr, ThumbOperation, ThumbShift,
};
pub use crate::laws::thumb_reading_law;
