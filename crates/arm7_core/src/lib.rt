//! The machine: an ARM7TDMI over a bus. A step in ARM state, and one in Thumb state.
#![tactic(auto)]

mod acts;
mod arm;
mod effect;
mod halves;
mod known;
mod machine;
mod rows;
mod step;
mod thumb_effect;
mod thumb_step;

pub use crate::machine::Machine;
pub use crate::thumb_effect::do_thumb;
pub use crate::thumb_step::step_thumb;
