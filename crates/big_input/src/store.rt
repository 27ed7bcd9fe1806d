//! A store without files.

ghost use Rattle.std.specs.Prelude.{Some, []};
ghost use Rattle.sdt_outside.specs.Files.{files_of};

use sdt_fault::{Bytes, Text};
use sdt_outside::{Store, StoreError};
use std::alloc::Global;

/// A store that tells that it has no files, and takes none: a read finds nothing, and a write is refused for want of memory.
/// No call of it is counted as a fault.
#[derive(Clone, Copy, Drop)]
pub struct NoFiles;

impl Store for NoFiles {
    ghost files = { λ _. Some (files_of []) };

    ghost read_faults = { λ _. 0 };

    ghost write_faults = { λ _. 0 };

    fn read(&mut self, _alloc: Global, _name: &Text) -> Result<Bytes, StoreError> {
        Err(StoreError::Missing)
    }

    fn read_up_to(
        &mut self,
        _alloc: Global,
        _name: &Text,
        _most: u32,
    ) -> Result<Option<Bytes>, StoreError> {
        Err(StoreError::Missing)
    }

    fn write(&mut self, _alloc: Global, _name: &Text, _bytes: &[u8]) -> Result<(), StoreError> {
        Err(StoreError::NoMemory)
    }
}
