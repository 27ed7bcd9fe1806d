//! The entries of a library's directory.

ghost use Rattle.std.specs.Prelude.{◌≡◌, ◌+◌, ◌^◌, ◌<◌, ◌≤◌, [], length, drop, IfOk};
ghost use Rattle.sdt_fault.specs.declared.answer.Fault.TheVariants.{Refused};
ghost use Rattle.sdt_fault.specs.declared.refusal.Refusal.TheVariants.{BadLibrary};
ghost use Rattle.chunk_file.specs.Reading.{Gives};
ghost use Rattle.alf_archive.specs.Archives.{slot_of, slot_at};

use sdt_fault::Text;
use sdt_fault::answer::Fault;
use sdt_fault::kinds::FileKind;
use sdt_fault::refusal::Refusal;
use sdt_word::word_at;
use std::alloc::Global;

/// The head of an entry: the number of its chunk, 0 for an unused entry, its length and its data's.
#[derive(Clone, Copy)]
pub struct Slot {
    pub index: u32,
    pub length: u32,
    pub size: u32,
}

/// A check failed at an offset of the file.
pub fn bad_library(alloc: Global, at: usize, kind: FileKind) -> Fault
    requires { at < 2 ^ 32 }
    ensures { result ≡ Refused (BadLibrary [] at kind) }
{
    Fault::Refused(Refusal::BadLibrary {
        file: Text::from_vec(Vec::new(alloc)),
        offset: at as u32,
        kind,
    })
}

#[tactic(auto, unfolding(crate::specs::Archives::slot_of))]
fn read_lengths(alloc: Global, at: usize, row: &[u8]) -> Result<Slot, Fault>
    requires row { 12 ≤ length row.now }
    requires place { at + length row.now < 2 ^ 32 }
    ensures exact { Gives result (slot_of at (length row.now) row.now) }
    ensures fits { IfOk result (λ s. (12 + s.size ≤ s.length) × (s.length ≤ length row.now)) }
{
    let length = word_at(row, 4);
    if length % 4 != 0 {
        return Err(bad_library(alloc, at + 4, FileKind::Length));
    }
    if length < 12 {
        return Err(bad_library(alloc, at + 4, FileKind::Length));
    }
    if row.len() < length as usize {
        return Err(bad_library(alloc, at + 4, FileKind::Length));
    }
    let size = word_at(row, 8);
    if size % 4 != 0 {
        return Err(bad_library(alloc, at + 8, FileKind::Length));
    }
    if (length as usize) < 12 + size as usize {
        return Err(bad_library(alloc, at + 8, FileKind::Length));
    }
    Ok(Slot {
        index: word_at(row, 0),
        length,
        size,
    })
}

/// The entry at an offset of the directory, which begins at `start` in the file.
#[tactic(auto, unfolding(crate::specs::Archives::slot_at))]
pub fn read_slot(alloc: Global, start: usize, dir: &[u8], at: usize) -> Result<Slot, Fault>
    requires here { at < length dir.now }
    requires place { start + length dir.now < 2 ^ 32 }
    ensures exact { Gives result (slot_at start dir.now at) }
    ensures fits { IfOk result (λ s. (12 + s.size ≤ s.length) × (at + s.length ≤ length dir.now)) }
{
    if dir.len() < at + 12 {
        return Err(bad_library(alloc, start + at, FileKind::Length));
    }
    read_lengths(alloc, start + at, &dir[at..])
}
