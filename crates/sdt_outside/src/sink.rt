//! Sinks of text.

ghost use Rattle.std.specs.Prelude.{◌≡◌, ◌≤◌, ◌<◌, ◌+◌, ◌^◌, ◌++◌, ℕ, List, Option, Some, None, IfOk, IsOk, OnOk, OnErr, ◌↔◌, [], length, vec_len, vec_capacity};
ghost use Rattle.sdt_outside.specs.Counts.{Rose, counted};
ghost use Rattle.sdt_outside.specs.Sinks.{Got, GotPart};

use sdt_fault::NoMemory;
use std::alloc::Global;
use thiserror::Error;

/// Why a sink took no more.
#[derive(Clone, Copy, PartialEq, Eq, Debug, Error)]
pub enum SinkError {
    /// The piece, or its end, was not taken.
    #[error("the text could not be written")]
    Failed,
}

/// Where text goes. Its meanings are the bytes that it got so far, where it tells them, and a count of
/// faults that never falls.
pub trait Sink {
    ghost bytes: { Self → Option (List ℕ) };

    ghost faults: { Self → ℕ };

    /// Appends the piece, or, where the count of faults rose, a beginning of it. Takes no memory.
    fn write_all(&mut self, piece: &[u8]) -> Result<(), SinkError>
        ensures ok { OnOk result (Got (bytes self.old) (bytes self.new) piece.now) }
        ensures failed { OnErr result (Rose (faults self.old) (faults self.new) × GotPart (bytes self.old) (bytes self.new) piece.now) }
        ensures faults { faults self.old ≤ faults self.new };
}

/// A sink in memory.
#[derive(Drop)]
pub struct MemorySink {
    /// What it got.
    pub bytes: Vec<u8>,
    /// The number of bytes that it still takes.
    pub room: u64,
    /// The number of writes that did not fit.
    pub faults: u64,
    ghost has_room: { vec_len bytes + room ≤ vec_capacity bytes },
}

impl MemorySink {
    /// An empty sink that takes `room` bytes, for which it has the memory from now on.
    pub fn with_room(alloc: Global, room: u64) -> Result<MemorySink, NoMemory>
        ensures { IfOk result (λ sink. (sink.bytes.items ≡ []) × (sink.room ≡ room) × (sink.faults ≡ 0)) }
    {
        Ok(MemorySink {
            bytes: Vec::with_capacity(alloc, room as usize)?,
            room,
            faults: 0,
        })
    }
}

impl Sink for MemorySink {
    ghost bytes = { λ sink. Some sink.bytes.items };

    ghost faults = { λ sink. sink.faults };

    fn write_all(&mut self, piece: &[u8]) -> Result<(), SinkError>
        ensures ok { OnOk result (Got (Some self.old.bytes.items) (Some self.new.bytes.items) piece.now) }
        ensures failed { OnErr result (Rose self.old.faults self.new.faults × GotPart (Some self.old.bytes.items) (Some self.new.bytes.items) piece.now) }
        ensures faults { self.old.faults ≤ self.new.faults }

        ensures fits { IsOk result ↔ (length piece.now ≤ self.old.room) }
        ensures taken { OnOk result ((self.new.room + length piece.now ≡ self.old.room) × (self.new.faults ≡ self.old.faults)) }
        ensures refused { OnErr result ((self.new.bytes.items ≡ self.old.bytes.items) × (self.new.room ≡ self.old.room) × (self.new.faults ≡ counted self.old.faults)) }
    {
        let needed = piece.len() as u64;
        if needed > self.room {
            self.faults = self.faults.saturating_add(1);
            return Err(SinkError::Failed);
        }
        self.bytes.extend_from_slice(piece).unwrap();
        self.room -= needed;
        Ok(())
    }
}

/// Standard output. It tells nothing.
#[derive(Drop)]
pub struct StdSink<R: Print + Drop> {
    output: R,
    faults: u64,
}

impl<R: Print + Drop> StdSink<R> {
    /// Nothing has failed yet.
    pub fn new(output: R) -> StdSink<R>
        ensures { ⟦<StdSink<R> as Sink>⟧.faults result ≡ 0 }
    {
        StdSink { output, faults: 0 }
    }
}

impl<R: Print + Drop> Sink for StdSink<R> {
    ghost bytes = { λ _. None };

    ghost faults = { λ sink. sink.faults };

    /// Each error of the output counts as one fault.
    fn write_all(&mut self, piece: &[u8]) -> Result<(), SinkError>
        ensures ok { OnOk result (Got None None piece.now) }
        ensures failed { OnErr result (Rose self.old.faults self.new.faults × GotPart None None piece.now) }
        ensures faults { self.old.faults ≤ self.new.faults }

        ensures counted { OnErr result (self.new.faults ≡ counted self.old.faults) }
        ensures uncounted { OnOk result (self.new.faults ≡ self.old.faults) }
    {
        if self.output.write_all(piece).is_ok() {
            return Ok(());
        }
        self.faults = self.faults.saturating_add(1);
        Err(SinkError::Failed)
    }
}
