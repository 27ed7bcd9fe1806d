//! The ARM7TDMI as definitions: its state, one step and several steps, and the laws that these keep.
//! There is no engine here.
#![tactic(auto)]

mod event;
mod laws;
mod state;

pub use event::{Event, Exception};
pub use laws::{
    run_is_one, run_is_valid, runs_join, runs_show, runs_split, step_is_one, step_is_valid,
    steps_run,
};
pub use state::{ArmState, Banks, Mode};
