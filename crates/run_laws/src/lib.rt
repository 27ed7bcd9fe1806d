//! Laws of the machine's runs: over a bus they are runs of the model, with the lines and answers of the bus's own devices.
//! There is no engine.
#![tactic(auto)]

mod laws;

pub use crate::laws::{
    board_is_one, bus_run_is_one, bus_runs_are_runs, bus_step_is_one, devices_are_left,
    exits_alike, made_steps_are_one, run_leaves_devices, runs_are_bus_runs,
    small_banks_have_frames, small_banks_have_room, started_exits_alike, steps_are_made,
};
