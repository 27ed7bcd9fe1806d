//! The debugger by script: the commands of a script are read, and carried out over a machine, its bus and a sink. This
//! project's, over the machine of `arm7_model`. `sdt_toolkit` calls `read_script` and `debug_for` for `debug`; the laws
//! say what a session is of runs, and proofs of `sdt_toolkit` cite their lemmas.
#![tactic(auto)]

mod command;
mod desk;
mod laws;
mod line;
mod numerals;
mod points;
mod reason;
mod script;
mod session;
mod stepping;
mod texts;

pub use crate::command::Command;
pub use crate::laws::{
    cut_off_is_a_beginning, detach_ends_a_run, others_leave_the_machine, session_is_one_run,
};
pub use crate::reason::Reason;
pub use crate::script::read_script;
pub use crate::session::{DebugEnd, debug_for};
