//! What a command answers: it reads its inputs in order, judges them, and then writes its files or prints its text.
//! What each answer says of the input and leaves of store and sink is defined here, once for all commands. This
//! project's. `tool_library`, `tool_run` and `sdt_toolkit` read by `read_input` and its like, end by `write` and
//! `print`, and put a file's name into a refusal by `named`.
#![tactic(auto)]

pub mod inputs;
pub mod outcome;

pub use crate::inputs::{InputEnd, named, read_input, read_input_up_to, read_inputs};
pub use crate::outcome::{print, write};
