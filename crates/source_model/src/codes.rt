//! What a line of Thumb state says.

use thumb_isa::ThumbInstr;

/// An instruction, or both halves of BL by their fields.
#[derive(Clone, Copy)]
pub enum ThumbCode {
    One(ThumbInstr),
    Pair(u16, u16),
}
