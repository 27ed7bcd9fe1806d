//! The files of the system.

ghost use Rattle.std.specs.Prelude.{◌≡◌, ◌≤◌, ◌<◌, ◌^◌, ℕ, None, IfOk, IfSome, vec_len};

use crate::store::replacing::set_content;
use crate::store::{Store, StoreError};
use sdt_fault::{Bytes, Text};
use std::alloc::Global;
use std::fs::OpenFile;
use std::io::{ErrorKind, Read};
use std::rt::Files;
use std::{fs, str};

/// A file of more bytes than this is not read.
const MAX_BYTES: u32 = 1 << 30;

/// How many bytes are read at once, of a longer file.
const CHUNK: usize = 65536;

/// The files of the system, by their paths. It tells nothing, and each error counts as a fault of its
/// kind.
#[derive(Drop)]
pub struct FileStore<R: Files + Drop> {
    system: R,
    read_faults: u64,
    write_faults: u64,
}

impl<R: Files + Drop> FileStore<R> {
    /// Nothing has failed yet.
    pub fn new(system: R) -> FileStore<R>
        ensures reads { ⟦<FileStore<R> as Store>⟧.read_faults result ≡ 0 }
        ensures writes { ⟦<FileStore<R> as Store>⟧.write_faults result ≡ 0 }
    {
        FileStore {
            system,
            read_faults: 0,
            write_faults: 0,
        }
    }

    // A file's bytes, if they are so many at most. A name that is no text names no file.
    fn content(&self, alloc: Global, name: &Text, most: u32) -> Result<Option<Vec<u8>>, StoreError>
        ensures { IfOk result (λ found. IfSome found (λ bytes. vec_len bytes ≤ most)) }
    {
        let Ok(path) = str::from_utf8(name.as_slice()) else {
            return Err(StoreError::Missing);
        };
        match fs::open(&self.system, path) {
            Ok(mut file) => read_file(alloc, &mut file, most),
            Err(e) => Err(match e.kind() {
                ErrorKind::NotFound | ErrorKind::NotADirectory => StoreError::Missing,
                _ => StoreError::Failed,
            }),
        }
    }

    fn put(&self, alloc: Global, name: &Text, bytes: &[u8]) -> Result<(), StoreError> {
        match str::from_utf8(name.as_slice()) {
            Ok(path) => set_content(&self.system, alloc, path, bytes),
            Err(_) => Err(StoreError::Failed),
        }
    }
}

// How many bytes are read at once of a file of a length: one more than it has, but no more than of a longer one.
fn chunk_of(length: u64) -> usize
    ensures { result ≤ 65536 }
{
    match usize::try_from(length) {
        Ok(length) if length < CHUNK => length + 1,
        _ => CHUNK,
    }
}

// An opened file, if it has at most so many bytes. The length of a regular file is asked first.
fn read_file<F: Read + OpenFile>(
    alloc: Global,
    file: &mut F,
    most: u32,
) -> Result<Option<Vec<u8>>, StoreError>
    ensures { IfOk result (λ found. IfSome found (λ bytes. vec_len bytes ≤ most)) }
{
    match file.metadata() {
        Ok(found) if found.is_file() && found.len() > u64::from(most) => Ok(None),
        Ok(found) if found.is_file() => read_all(alloc, file, most, chunk_of(found.len())),
        _ => read_all(alloc, file, most, CHUNK),
    }
}

// The rest of an opened file, if it has at most so many bytes; of a longer one, one byte more is read. So many bytes are
// read at once.
fn read_all<F: Read>(
    alloc: Global,
    file: &mut F,
    most: u32,
    size: usize,
) -> Result<Option<Vec<u8>>, StoreError>
    requires { size ≤ 65536 }
    ensures { IfOk result (λ found. IfSome found (λ bytes. vec_len bytes ≤ most)) }
{
    let mut bytes = Vec::new(alloc);
    let mut chunk = vec![in alloc; 0; size].map_err(|_| StoreError::NoMemory)?;
    let most = most as usize;
    'chunks: for _ in 0..u64::MAX {
        let asked = size.min(most + 1 - bytes.len());
        let Ok(count) = file.read(&mut chunk[..asked]) else {
            return Err(StoreError::Failed);
        };
        if count == 0 {
            break;
        }
        if bytes.len() + count > most {
            return Ok(None);
        }
        if bytes.extend_from_slice(&chunk[..count]).is_err() {
            return Err(StoreError::NoMemory);
        }
    }
    Ok(Some(bytes))
}

impl<R: Files + Drop> Store for FileStore<R> {
    ghost files = { λ _. None };

    ghost read_faults = { λ store. store.read_faults };

    ghost write_faults = { λ store. store.write_faults };

    /// Reads a file of at most 2^30 bytes; a larger one is a fault.
    fn read(&mut self, alloc: Global, name: &Text) -> Result<Bytes, StoreError> {
        let error = match self.content(alloc, name, MAX_BYTES) {
            Ok(Some(bytes)) => return Ok(Bytes::from_vec(bytes)),
            Ok(None) => StoreError::Failed,
            Err(e) => e,
        };
        self.read_faults = self.read_faults.saturating_add(1);
        Err(error)
    }

    fn read_up_to(
        &mut self,
        alloc: Global,
        name: &Text,
        most: u32,
    ) -> Result<Option<Bytes>, StoreError> {
        match self.content(alloc, name, most) {
            Ok(Some(bytes)) => Ok(Some(Bytes::from_vec(bytes))),
            Ok(None) => Ok(None),
            Err(e) => {
                self.read_faults = self.read_faults.saturating_add(1);
                Err(e)
            }
        }
    }

    /// A regular file, or none, is replaced by a new one that was written beside it; all else is written in place.
    fn write(&mut self, alloc: Global, name: &Text, bytes: &[u8]) -> Result<(), StoreError> {
        match self.put(alloc, name, bytes) {
            Ok(()) => Ok(()),
            Err(StoreError::NoMemory) => Err(StoreError::NoMemory),
            Err(_) => {
                self.write_faults = self.write_faults.saturating_add(1);
                Err(StoreError::Failed)
            }
        }
    }
}
