//! Files in memory, whose calls can be made to fail.

ghost use Rattle.std.specs.Prelude.{◌≡◌, ◌≤◌, ◌<◌, ◌^◌, ◌+◌, ◌↔◌, ℕ, [], Option, Some, None, IfOk, IfErr, OnOk, OnErr, IsTrue, IsErrOf, length, if◌then◌else◌, is_ok};
ghost use Rattle.std.specs.Ordering.{nat_cmp};
ghost use Rattle.std.specs.Cmp.Lexicographic.{slice_cmp};
ghost use Rattle.std.specs.FinMap.{from_entries};
ghost use Rattle.std.specs.FinMap as map;
ghost use Rattle.sdt_outside.specs.Counts.{Rose, counted};
ghost use Rattle.sdt_outside.specs.Files.{Files, IsFound, IsFoundUpTo, ReadFails, IsWritten, WriteFails, files_of};
ghost use Rattle.sdt_outside.specs.Memory.{CountsFaults, FailsAt};
ghost use Rattle.sdt_outside.specs.declared.store.StoreError.TheVariants as error;

use crate::store::{Store, StoreError};
use sdt_fault::{Bytes, Text};
use std::alloc::Global;
use std::collections::BTreeMap;

/// Files in memory. Its calls, reads and writes together, are numbered from 1; a call whose number is in
/// `failing` fails.
#[derive(Drop)]
pub struct MemoryStore {
    pub files: BTreeMap<Text, Bytes>,
    /// The numbers of the calls that fail.
    pub failing: Vec<u64>,
    /// The number of calls so far. At the last value of 64 bits it stays, and no call fails.
    pub calls: u64,
    /// The number of reads that failed. At the last value no read fails.
    pub read_faults: u64,
    /// The number of writes that failed. At the last value no write fails.
    pub write_faults: u64,
}

impl MemoryStore {
    /// A store without files whose calls don't fail.
    pub fn new(alloc: Global) -> MemoryStore
        ensures empty { (result.files.entries ≡ []) × (result.failing.items ≡ []) }
        ensures counts { (result.calls ≡ 0) × (result.read_faults ≡ 0) × (result.write_faults ≡ 0) }
    {
        MemoryStore {
            files: BTreeMap::new(alloc),
            failing: Vec::new(alloc),
            calls: 0,
            read_faults: 0,
            write_faults: 0,
        }
    }
}

// Whether the call after so many fails.
fn fails_at(failing: &[u64], calls: u64, faults: u64) -> bool
    ensures { IsTrue result ↔ FailsAt failing.now calls faults }
{
    if calls == u64::MAX {
        return false;
    }
    if faults == u64::MAX {
        return false;
    }
    let call = calls + 1;
    failing.iter().any(|number| *number == call)
}

// A file's content, if it has at most so many bytes.
fn look_up(
    files: &BTreeMap<Text, Bytes>,
    alloc: Global,
    name: &Text,
    most: u32,
) -> Result<Option<Bytes>, StoreError>
    ensures found { IfOk result (IsFoundUpTo most (Some (files_of files.now.entries)) name.now) }
    ensures failed { IfErr result (λ e. ReadFails e (Some (files_of files.now.entries)) name.now ⊥) }
{
    let Some(found) = files.get(name) else {
        return Err(StoreError::Missing);
    };
    if found.as_slice().len() > most as usize {
        return Ok(None);
    }
    Ok(Some(found.try_clone(alloc)?))
}

// Sets a file's content.
fn put(
    files: &mut BTreeMap<Text, Bytes>,
    alloc: Global,
    name: &Text,
    bytes: &[u8],
) -> Result<(), StoreError>
    ensures ok { OnOk result (IsWritten (Some (files_of files.old.entries)) (Some (files_of files.new.entries)) name.now bytes.now) }
    ensures failed { IfErr result (λ e. WriteFails e (Some (files_of files.old.entries)) (Some (files_of files.new.entries)) name.now ⊥) }
{
    let name = name.try_clone(alloc)?;
    let content = Bytes::from_slice(alloc, bytes)?;
    match files.insert(name, content) {
        Ok(_) => Ok(()),
        Err(_) => Err(StoreError::NoMemory),
    }
}

impl Store for MemoryStore {
    ghost files = { λ store. Some (files_of store.files.entries) };

    ghost read_faults = { λ store. store.read_faults };

    ghost write_faults = { λ store. store.write_faults };

    /// One of 2^32 bytes or more, which is no file, is not read.
    fn read(&mut self, alloc: Global, name: &Text) -> Result<Bytes, StoreError>
        ensures found { IfOk result (λ bytes. IsFound (Some (files_of self.old.files.entries)) name.now bytes) }
        ensures bounded { IfOk result (λ bytes. length bytes < 2 ^ 32) }
        ensures failed { IfErr result (λ e. ReadFails e (Some (files_of self.old.files.entries)) name.now (Rose self.old.read_faults self.new.read_faults)) }
        ensures files { Some (files_of self.new.files.entries) ≡ Some (files_of self.old.files.entries) }
        ensures read_faults { self.old.read_faults ≤ self.new.read_faults }
        ensures write_faults { self.new.write_faults ≡ self.old.write_faults }

        ensures fails { IsErrOf result error.Failed ↔ FailsAt self.old.failing.items self.old.calls self.old.read_faults }
        ensures counts { CountsFaults result self.old.read_faults self.new.read_faults }
        ensures calls { self.new.calls ≡ counted self.old.calls }
        ensures failing { self.new.failing.items ≡ self.old.failing.items }
    {
        match self.read_up_to(alloc, name, u32::MAX)? {
            Some(bytes) => Ok(bytes),
            None => Err(StoreError::NoMemory),
        }
    }

    fn read_up_to(
        &mut self,
        alloc: Global,
        name: &Text,
        most: u32,
    ) -> Result<Option<Bytes>, StoreError>
        ensures found { IfOk result (IsFoundUpTo most (Some (files_of self.old.files.entries)) name.now) }
        ensures failed { IfErr result (λ e. ReadFails e (Some (files_of self.old.files.entries)) name.now (Rose self.old.read_faults self.new.read_faults)) }
        ensures files { Some (files_of self.new.files.entries) ≡ Some (files_of self.old.files.entries) }
        ensures read_faults { self.old.read_faults ≤ self.new.read_faults }
        ensures write_faults { self.new.write_faults ≡ self.old.write_faults }

        ensures fails { IsErrOf result error.Failed ↔ FailsAt self.old.failing.items self.old.calls self.old.read_faults }
        ensures counts { CountsFaults result self.old.read_faults self.new.read_faults }
        ensures calls { self.new.calls ≡ counted self.old.calls }
        ensures failing { self.new.failing.items ≡ self.old.failing.items }
    {
        let failing = fails_at(self.failing.as_slice(), self.calls, self.read_faults);
        self.calls = self.calls.saturating_add(1);
        if failing {
            self.read_faults += 1;
            return Err(StoreError::Failed);
        }
        look_up(&self.files, alloc, name, most)
    }

    fn write(&mut self, alloc: Global, name: &Text, bytes: &[u8]) -> Result<(), StoreError>
        ensures ok { OnOk result (IsWritten (Some (files_of self.old.files.entries)) (Some (files_of self.new.files.entries)) name.now bytes.now) }
        ensures failed { IfErr result (λ e. WriteFails e (Some (files_of self.old.files.entries)) (Some (files_of self.new.files.entries)) name.now (Rose self.old.write_faults self.new.write_faults)) }
        ensures write_faults { self.old.write_faults ≤ self.new.write_faults }
        ensures read_faults { self.new.read_faults ≡ self.old.read_faults }

        ensures fails { IsErrOf result error.Failed ↔ FailsAt self.old.failing.items self.old.calls self.old.write_faults }
        ensures counts { CountsFaults result self.old.write_faults self.new.write_faults }
        ensures kept { IsErrOf result error.Failed → self.new.files.entries ≡ self.old.files.entries }
        ensures calls { self.new.calls ≡ counted self.old.calls }
        ensures failing { self.new.failing.items ≡ self.old.failing.items }
    {
        let failing = fails_at(self.failing.as_slice(), self.calls, self.write_faults);
        self.calls = self.calls.saturating_add(1);
        if failing {
            self.write_faults += 1;
            return Err(StoreError::Failed);
        }
        put(&mut self.files, alloc, name, bytes)
    }
}
