//! Sources of input bytes.

ghost use Rattle.std.specs.Prelude.{◌≡◌, ◌≤◌, ◌<◌, ◌+◌, ℕ, List, Option, Some, None, IfOk, IsOk, OnOk, OnErr, ◌↔◌, drop, vec_len};
ghost use Rattle.std.specs.Io.KnownBytes.{Keeps};
ghost use Rattle.sdt_outside.specs.Counts.{Rose, counted};
ghost use Rattle.gdb_source.specs.Sources.{Gives};

use std::io::Read;
use thiserror::Error;

/// Why a source gave no byte.
#[derive(Clone, Copy, PartialEq, Eq, Debug, Error)]
pub enum SourceError {
    /// The read failed; no byte was lost.
    #[error("the input could not be read")]
    Failed,
}

/// Where input comes from. Its meanings are the bytes that are left, where it tells them, and a count of faults that
/// never falls.
pub trait Source {
    ghost left: { Self → Option (List ℕ) };

    ghost faults: { Self → ℕ };

    /// The next byte, or None where none is left. It fails only where the count of faults rose. Takes no memory.
    fn next(&mut self) -> Result<Option<u8>, SourceError>
        ensures gives { IfOk result (Gives (left self.old) (left self.new)) }
        ensures failed { OnErr result (Rose (faults self.old) (faults self.new) × Keeps (left self.old) (left self.new)) }
        ensures faults { faults self.old ≤ faults self.new };
}

/// Input in memory.
#[derive(Drop)]
pub struct MemorySource {
    /// All its bytes.
    pub bytes: Vec<u8>,
    /// The number of bytes that were taken.
    pub taken: usize,
    /// The number of reads that don't fail; those behind them do.
    pub lasts: u64,
    /// The number of reads that failed.
    pub faults: u64,
    ghost within: { taken ≤ vec_len bytes },
}

impl MemorySource {
    /// A source of these bytes whose reads fail behind so many.
    pub fn new(bytes: Vec<u8>, lasts: u64) -> MemorySource
        ensures bytes { result.bytes.items ≡ bytes.items }
        ensures counts { (result.taken ≡ 0) × (result.lasts ≡ lasts) × (result.faults ≡ 0) }
    {
        MemorySource {
            bytes,
            taken: 0,
            lasts,
            faults: 0,
        }
    }
}

impl Source for MemorySource {
    ghost left = { λ source. Some (drop source.taken source.bytes.items) };

    ghost faults = { λ source. source.faults };

    fn next(&mut self) -> Result<Option<u8>, SourceError>
        ensures gives { IfOk result (Gives (Some (drop self.old.taken self.old.bytes.items)) (Some (drop self.new.taken self.new.bytes.items))) }
        ensures failed { OnErr result (Rose self.old.faults self.new.faults × Keeps (Some (drop self.old.taken self.old.bytes.items)) (Some (drop self.new.taken self.new.bytes.items))) }
        ensures faults { self.old.faults ≤ self.new.faults }

        ensures lasts { IsOk result ↔ (0 < self.old.lasts) }
        ensures bytes { self.new.bytes.items ≡ self.old.bytes.items }
        ensures read { OnOk result ((self.new.lasts + 1 ≡ self.old.lasts) × (self.new.faults ≡ self.old.faults)) }
        ensures refused { OnErr result ((self.new.lasts ≡ 0) × (self.new.faults ≡ counted self.old.faults)) }
    {
        if self.lasts == 0 {
            self.faults = self.faults.saturating_add(1);
            return Err(SourceError::Failed);
        }
        self.lasts -= 1;
        if self.taken == self.bytes.len() {
            return Ok(None);
        }
        let byte = self.bytes[self.taken];
        self.taken += 1;
        Ok(Some(byte))
    }
}

/// A reader of std, as standard input. It tells what the reader tells.
#[derive(Drop)]
pub struct ReadSource<R: Read + Drop> {
    reader: R,
    faults: u64,
}

impl<R: Read + Drop> ReadSource<R> {
    /// Nothing has failed yet.
    pub fn new(reader: R) -> ReadSource<R>
        ensures left { ⟦<ReadSource<R> as Source>⟧.left result ≡ R.remaining reader }
        ensures faults { ⟦<ReadSource<R> as Source>⟧.faults result ≡ 0 }
    {
        ReadSource { reader, faults: 0 }
    }
}

impl<R: Read + Drop> Source for ReadSource<R> {
    ghost left = { λ source. R.remaining source.reader };

    ghost faults = { λ source. source.faults };

    /// Each error of the reader counts as one fault.
    fn next(&mut self) -> Result<Option<u8>, SourceError>
        ensures gives { IfOk result (Gives (R.remaining self.old.reader) (R.remaining self.new.reader)) }
        ensures failed { OnErr result (Rose self.old.faults self.new.faults × Keeps (R.remaining self.old.reader) (R.remaining self.new.reader)) }
        ensures faults { self.old.faults ≤ self.new.faults }

        ensures counted { OnErr result (self.new.faults ≡ counted self.old.faults) }
        ensures uncounted { OnOk result (self.new.faults ≡ self.old.faults) }
    {
        let mut byte = [0u8; 1];
        match self.reader.read(&mut byte) {
            Ok(0) => Ok(None),
            Ok(_) => Ok(Some(byte[0])),
            Err(_) => {
                self.faults = self.faults.saturating_add(1);
                Err(SourceError::Failed)
            }
        }
    }
}
