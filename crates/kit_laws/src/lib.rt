//! What an interrupt handler leaves of a program's run, over the model's steps. There is no engine here.
#![tactic(auto)]

mod laws;

pub use crate::laws::runs_are_transparent;
