//! The outside: stores of files, sinks of text, and devices.
#![tactic(auto)]

pub mod device;
pub mod sink;
pub mod store;

pub use crate::device::{Device, DeviceState, Lines, Silent, Timer, Uart};
pub use crate::sink::{MemorySink, Sink, SinkError, StdSink};
pub use crate::store::{FileStore, MemoryStore, Store, StoreError};
