//! Sources of input bytes.
#![tactic(auto)]

pub mod source;

pub use crate::source::{MemorySource, ReadSource, Source, SourceError};
