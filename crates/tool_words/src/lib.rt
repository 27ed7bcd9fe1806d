//! The words of a command line: which command they ask for, with its names and options, or the first word that breaks a
//! rule. This project's. `sdt_toolkit` calls `read_words`, and carries out the `Command`.
#![tactic(auto)]

pub mod command;
pub mod items;
pub mod laws;
pub mod names;
pub mod numerals;
pub mod rules;
pub mod table;

pub use crate::command::{
    Bank, BurnForm, Command, Container, DebugWords, LinkPlacement, LinkWords, ReportWords,
    RunImage, RunWords, WordsFault, read_words,
};
