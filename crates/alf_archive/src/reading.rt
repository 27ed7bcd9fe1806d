//! Reading a library.

ghost use Rattle.std.specs.Prelude.{◌≡◌, ℕ, List as Items, ◌+◌, ◌^◌, ◌<◌, ◌≤◌, [], length, min, slice_get, is_some, OnOk, IfOk, Ok};
ghost use Rattle.chunk_file.specs.Reading.{Gives};
ghost use Rattle.chunk_file.specs.Chunks.{bytes_at};
ghost use Rattle.aof_object.specs.Names.{terminated, among};
ghost use Rattle.aof_object.specs.Index.{number_in, or_number};
ghost use Rattle.aof_object.specs.Objects.{object_of};
ghost use Rattle.alf_archive.specs.Archives.{data_named, moved, moved_by, fault_moved, member_in, member_at, member_names, Adds, with_entry, members_from, directory, archive_of};
ghost use Rattle.alf_archive.specs.Grammar.{IsValid, ReadsArchive};

use crate::entries::{Slot, bad_library, read_slot};
use crate::records::{Archive, Member};
use aof_object::{Area, Found, Object, Symbol, find, note_name, read_object, terminated_name};
use chunk_file::{Span, bytes_of_span, read_table};
use indexmap::IndexMap;
use sdt_fault::answer::Fault;
use sdt_fault::kinds::FileKind;
use sdt_fault::refusal::Refusal;
use sdt_fault::{List, NoMemory, Text};
use std::alloc::Global;

/// The chunk of a number, where it is one of a member.
fn data_chunk(spans: &[Option<Span>], number: u32) -> Option<Span>
    ensures { result ≡ data_named (slice_get spans.now number) }
{
    match spans.get(number as usize) {
        None => None,
        Some(None) => None,
        Some(Some(span)) => {
            if span.name == *b"LIB_DATA" {
                return Some(*span);
            }
            None
        }
    }
}

/// The refusal of a member, with its offset in the whole file.
fn move_refusal(base: u32, refusal: Refusal) -> Refusal
    ensures { result ≡ moved base refusal }
{
    match refusal {
        Refusal::BadChunk { file, offset, kind } => Refusal::BadChunk {
            file,
            offset: base.saturating_add(offset),
            kind,
        },
        Refusal::BadObject { file, offset, kind } => Refusal::BadObject {
            file,
            offset: base.saturating_add(offset),
            kind,
        },
        other => other,
    }
}

fn move_fault(base: u32, fault: Fault) -> Fault
    ensures { result ≡ fault_moved base fault }
{
    match fault {
        Fault::Refused(refusal) => Fault::Refused(move_refusal(base, refusal)),
        Fault::ReadFault(name) => Fault::ReadFault(name),
        Fault::NoMemory => Fault::NoMemory,
    }
}

fn read_object_at(alloc: Global, b: &[u8], span: &Span) -> Result<Object, Fault>
    requires { length b.now < 2 ^ 32 }
    ensures { Gives result (moved_by span.now.offset (object_of (bytes_at b.now span.now))) }
{
    match read_object(alloc, bytes_of_span(b, span)) {
        Ok(object) => Ok(object),
        Err(fault) => Err(move_fault(span.offset, fault)),
    }
}

#[tactic(auto, unfolding(crate::specs::Archives::member_in))]
fn read_member_in(
    alloc: Global,
    b: &[u8],
    at: usize,
    name: Text,
    chunk: Option<Span>,
) -> Result<Member, Fault>
    requires small { length b.now < 2 ^ 32 }
    requires place { at < 2 ^ 32 }
    ensures exact { Gives result (member_in b.now at name chunk) }
    ensures named { IfOk result (λ m. m.name ≡ name) }
{
    let Some(span) = chunk else {
        return Err(bad_library(alloc, at, FileKind::Index));
    };
    let object = read_object_at(alloc, b, &span)?;
    Ok(Member { name, object })
}

/// The member of a used entry, whose data is `text` and which begins at an offset of the file. Its name
/// is taken then.
#[tactic(auto, unfolding(crate::specs::Archives::member_at))]
fn read_member<'a>(
    alloc: Global,
    b: &[u8],
    spans: &[Option<Span>],
    taken: &mut IndexMap<&'a [u8], u32>,
    at: usize,
    text: &'a [u8],
    slot: Slot,
) -> Result<Member, Fault>
    requires small { length b.now < 2 ^ 32 }
    requires place { at + 12 < 2 ^ 32 }
    ensures exact { Gives result (member_at b.now spans.now (λ q. is_some (number_in taken.old q)) at text.now slot) }
    ensures noted { IfOk result (λ m. (q : Items ℕ) → number_in taken.new q ≡ or_number (number_in taken.old q) m.name 0 q) }
{
    let Some(name) = terminated_name(text) else {
        return Err(bad_library(alloc, at + 12, FileKind::Name));
    };
    if note_name(taken, name, 0)?.is_some() {
        return Err(bad_library(alloc, at + 12, FileKind::Repeated));
    }
    let name = Text::from_slice(alloc, name)?;
    read_member_in(alloc, b, at, name, data_chunk(spans, slot.index))
}

/// The most bytes that the members of a library take up, whose entries may all name one chunk.
const MOST_BYTES: usize = 1 << 30;

/// What an area or a symbol takes up beside its contents and its name.
const RECORD_BYTES: usize = 64;

fn bytes_of_areas(areas: &[Area]) -> usize {
    let mut bytes: usize = 0;
    for area in areas {
        bytes = bytes
            .saturating_add(RECORD_BYTES)
            .saturating_add(area.name.as_slice().len())
            .saturating_add(area.bytes.as_slice().len())
            .saturating_add(area.relocs.as_slice().len().saturating_mul(8));
    }
    bytes
}

fn bytes_of_symbols(symbols: &[Symbol]) -> usize {
    let mut bytes: usize = 0;
    for symbol in symbols {
        bytes = bytes
            .saturating_add(RECORD_BYTES)
            .saturating_add(symbol.name.as_slice().len());
    }
    bytes
}

fn bytes_of_object(object: &Object) -> usize {
    let areas = bytes_of_areas(object.areas.as_slice());
    let symbols = bytes_of_symbols(object.symbols.as_slice());
    areas.saturating_add(symbols)
}

/// Reads the entry behind some members, and adds its member where it is used and there is room for it.
#[tactic(auto, unfolding(crate::specs::Archives::with_entry))]
fn add_entry<'a>(
    alloc: Global,
    b: &[u8],
    spans: &[Option<Span>],
    taken: &mut IndexMap<&'a [u8], u32>,
    members: &mut Vec<Member>,
    left: &mut usize,
    at: usize,
    text: &'a [u8],
    slot: Slot,
) -> Result<(), Fault>
    requires known { (q : Items ℕ) → is_some (number_in taken.old q) ≡ among q (member_names members.old.items) }
    requires small { length b.now < 2 ^ 32 }
    requires place { at + 12 < 2 ^ 32 }
    ensures exact { Adds result members.new.items (with_entry b.now spans.now at text.now members.old.items slot) }
    ensures known { OnOk result ((q : Items ℕ) → is_some (number_in taken.new q) ≡ among q (member_names members.new.items)) }
{
    if slot.index == 0 {
        return Ok(());
    }
    let member = read_member(alloc, b, spans, taken, at, text, slot)?;
    *left = left
        .checked_sub(bytes_of_object(&member.object))
        .ok_or(NoMemory)?;
    members.push(member)?;
    Ok(())
}

/// The members of the entries of a directory that begins at `start` in the file.
fn read_members(
    alloc: Global,
    b: &[u8],
    spans: &[Option<Span>],
    start: usize,
    dir: &[u8],
) -> Result<List<Member>, Fault>
    requires small { length b.now < 2 ^ 32 }
    requires place { start + length dir.now < 2 ^ 32 }
    ensures { Gives result (members_from b.now spans.now start dir.now (length dir.now) 0 []) }
{
    let mut taken = IndexMap::new(alloc);
    let mut members = Vec::new(alloc);
    let mut left = MOST_BYTES;
    let mut at = 0;
    while at < dir.len() {
        let slot = read_slot(alloc, start, dir, at)?;
        let text = &dir[at + 12..at + 12 + slot.size as usize];
        add_entry(
            alloc,
            b,
            spans,
            &mut taken,
            &mut members,
            &mut left,
            start + at,
            text,
            slot,
        )?;
        at += slot.length as usize;
    }
    Ok(List::from_vec(members))
}

fn read_directory(alloc: Global, found: Found) -> Result<Span, Fault>
    ensures { Gives result (directory found) }
{
    match found {
        Found::Absent => Err(bad_library(alloc, 0, FileKind::Chunks)),
        Found::One(span) => Ok(span),
        Found::Many => Err(bad_library(alloc, 0, FileKind::Chunks)),
    }
}

#[tactic(auto, unfolding(crate::specs::Archives::archive_of))]
fn archive(alloc: Global, b: &[u8]) -> Result<Archive, Fault>
    requires { length b.now < 2 ^ 32 }
    ensures { Gives result (archive_of b.now) }
{
    let spans = read_table(alloc, b)?;
    let spans = spans.as_slice();
    let place = read_directory(alloc, find(spans, *b"LIB_DIRY"))?;
    let dir = bytes_of_span(b, &place);
    let members = read_members(alloc, b, spans, place.offset as usize, dir)?;
    Ok(Archive { members })
}

/// The members of a library. Gives `BadChunk`, `BadLibrary` and, for a member, `BadObject`, each with an
/// empty file name and an offset in the whole file. OFL_SYMT is never read. Members that take up more than 2^30 bytes
/// in all count as want of memory.
pub fn read_archive(alloc: Global, b: &[u8]) -> Result<Archive, Fault>
    requires { length b.now < 2 ^ 32 }
    // What is read is what the bytes say.
    ensures found { IfOk result (λ a. ReadsArchive b.now a) }
    // What the bytes say is read, unless memory was refused.
    ensures only { (a : Archive) → ReadsArchive b.now a → Gives result (Ok a) }
    // Which check fails first.
    ensures exact { Gives result (archive_of b.now) }
    // The members have names of their own and valid objects.
    ensures valid { IfOk result (λ a. IsValid a) }
{
    archive(alloc, b)
}
