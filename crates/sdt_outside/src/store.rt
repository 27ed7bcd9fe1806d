//! Stores of files.

ghost use Rattle.std.specs.Prelude.{◌≡◌, ◌≤◌, ◌<◌, ◌^◌, ℕ, Option, Some, None, IfOk, IfErr, OnOk, length};
ghost use Rattle.sdt_outside.specs.Counts.{Rose};
ghost use Rattle.sdt_outside.specs.Files.{Files, IsFound, IsFoundUpTo, ReadFails, IsWritten, WriteFails};

use sdt_fault::{Bytes, NoMemory, Text};
use std::alloc::Global;
use thiserror::Error;

mod file;
mod memory;
mod replacing;

pub use crate::store::file::FileStore;
pub use crate::store::memory::MemoryStore;

/// Why a file was not read or written.
#[derive(Clone, Copy, PartialEq, Eq, Debug, Error)]
pub enum StoreError {
    #[error("there is no such file")]
    Missing,
    #[error("the file could not be read or written")]
    Failed,
    #[error("memory was refused")]
    NoMemory,
}

/// Where files lie. Its meanings are the files, as a finite map from names to bytes, where it tells them,
/// and two counts of faults, of reads and of writes, that never fall.
pub trait Store {
    ghost files: { Self → Option Files };

    ghost read_faults: { Self → ℕ };

    ghost write_faults: { Self → ℕ };

    /// The content of a file, of fewer than 2^32 bytes. `Missing` comes only where there is no such file,
    /// or, where the store doesn't tell, where the count of read faults rose; `Failed` only where it rose.
    fn read(&mut self, alloc: Global, name: &Text) -> Result<Bytes, StoreError>
        ensures found { IfOk result (λ bytes. IsFound (files self.old) name.now bytes) }
        ensures bounded { IfOk result (λ bytes. length bytes < 2 ^ 32) }
        ensures failed { IfErr result (λ e. ReadFails e (files self.old) name.now (Rose (read_faults self.old) (read_faults self.new))) }
        ensures files { files self.new ≡ files self.old }
        ensures read_faults { read_faults self.old ≤ read_faults self.new }
        ensures write_faults { write_faults self.new ≡ write_faults self.old };

    /// The content of a file of at most `most` bytes, or None where it is longer, for which no more is read than
    /// shows it. It fails as `read` does.
    fn read_up_to(
        &mut self,
        alloc: Global,
        name: &Text,
        most: u32,
    ) -> Result<Option<Bytes>, StoreError>
        ensures found { IfOk result (IsFoundUpTo most (files self.old) name.now) }
        ensures failed { IfErr result (λ e. ReadFails e (files self.old) name.now (Rose (read_faults self.old) (read_faults self.new))) }
        ensures files { files self.new ≡ files self.old }
        ensures read_faults { read_faults self.old ≤ read_faults self.new }
        ensures write_faults { write_faults self.new ≡ write_faults self.old };

    /// Sets the content of a file. After `Failed`, where the count of write faults rose, that file may hold
    /// anything; `Missing` never comes.
    fn write(&mut self, alloc: Global, name: &Text, bytes: &[u8]) -> Result<(), StoreError>
        requires { length bytes.now < 2 ^ 32 }
        ensures ok { OnOk result (IsWritten (files self.old) (files self.new) name.now bytes.now) }
        ensures failed { IfErr result (λ e. WriteFails e (files self.old) (files self.new) name.now (Rose (write_faults self.old) (write_faults self.new))) }
        ensures write_faults { write_faults self.old ≤ write_faults self.new }
        ensures read_faults { read_faults self.new ≡ read_faults self.old };
}

impl From<NoMemory> for StoreError {
    ghost use Rattle.sdt_outside.specs.declared.store.StoreError.TheVariants as error;

    ghost from_gives = { λ _ e. e ≡ error.NoMemory };

    fn from(_e: NoMemory) -> StoreError {
        StoreError::NoMemory
    }
}
