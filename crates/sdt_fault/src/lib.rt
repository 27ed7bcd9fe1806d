//! The words that all crates share: texts and lists that contracts see as lists, the refusals, and the
//! answer of a command with its number, text and exit status.
#![tactic(auto)]

pub mod answer;
pub mod contents;
pub mod digits;
pub mod kinds;
pub mod lists;
pub mod refusal;
pub mod report;

pub use crate::contents::{Bytes, Text};
pub use crate::lists::List;
use std::alloc::{AllocError, AllocFailed};

/// Memory was refused. It says nothing else.
#[derive(Clone, Copy)]
pub struct NoMemory;

impl From<AllocError> for NoMemory {
    fn from(_e: AllocError) -> NoMemory {
        NoMemory
    }
}

impl<T: Drop> From<AllocFailed<T>> for NoMemory {
    fn from(_e: AllocFailed<T>) -> NoMemory {
        NoMemory
    }
}
