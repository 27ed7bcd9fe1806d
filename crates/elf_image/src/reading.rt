//! Reading: the checks of the header, of each program header in order, and of the entry.

ghost use Rattle.std.specs.Prelude.{◌≡◌, ◌<◌, ◌≤◌, ◌+◌, ◌^◌, ◌++◌, [], IfErr, IfOk, OnOk, length};
ghost use Rattle.sdt_fault.specs.declared.answer.Fault.TheVariants.{Refused};
ghost use Rattle.sdt_fault.specs.declared.refusal.Refusal.TheVariants.{BadImage};
ghost use Rattle.chunk_file.specs.Reading.{Gives};
ghost use Rattle.elf_image.specs.Checks as elf;
ghost use Rattle.elf_image.specs.Checks.{ReadsElf};
ghost use Rattle.elf_image.specs.Reading as read;
ghost use Rattle.elf_image.specs.Reading.{IsFaultOf, elf_of, told_items};

use crate::records::{Elf, Segment};
use sdt_fault::answer::Fault;
use sdt_fault::kinds::FileKind;
use sdt_fault::refusal::Refusal;
use sdt_fault::{List, NoMemory, Text};
use sdt_word::{half_at, word_at};
use std::alloc::Global;

fn bad_image(alloc: Global, at: usize, kind: FileKind) -> Fault
    requires { at < 2 ^ 32 }
    ensures { result ≡ Refused (BadImage [] at kind) }
{
    Fault::Refused(Refusal::BadImage {
        file: Text::from_vec(Vec::new(alloc)),
        offset: at as u32,
        kind,
    })
}

// ---- the header

fn has_class(bytes: &[u8]) -> bool
    requires { 52 ≤ length bytes.now }
    ensures { result ≡ read.has_class bytes.now }
{
    bytes[4] == 1 && bytes[5] == 1
}

fn header_count(bytes: &[u8]) -> u16
    requires { 52 ≤ length bytes.now }
    ensures { result ≡ elf.header_count bytes.now }
{
    half_at(bytes, 0x2C)
}

fn has_header_size(bytes: &[u8]) -> bool
    requires { 52 ≤ length bytes.now }
    ensures { result ≡ read.has_header_size bytes.now }
{
    header_count(bytes) == 0 || half_at(bytes, 0x2A) == 32
}

fn has_table(bytes: &[u8]) -> bool
    requires { 52 ≤ length bytes.now }
    ensures { result ≡ read.has_table bytes.now }
{
    let count = usize::from(header_count(bytes));
    count == 0 || word_at(bytes, 0x1C) as usize + 32 * count <= bytes.len()
}

/// The number of program headers.
#[tactic(auto, unfolding(crate::specs::Reading::count_of))]
fn judge_header(alloc: Global, bytes: &[u8]) -> Result<u16, Fault>
    requires { length bytes.now < 2 ^ 32 }
    ensures exact { Gives result (read.count_of bytes.now) }
    ensures long { IfOk result (λ n. 52 ≤ length bytes.now) }
    ensures table { IfOk result (λ n. 0 < n → elf.header_at bytes.now n ≤ length bytes.now) }
{
    if bytes.len() < 52 {
        return Err(bad_image(alloc, bytes.len(), FileKind::Short));
    }
    if word_at(bytes, 0) != 0x464C_457F {
        return Err(bad_image(alloc, 0, FileKind::Magic));
    }
    if !has_class(bytes) {
        return Err(bad_image(alloc, 4, FileKind::Class));
    }
    if half_at(bytes, 0x10) != 2 {
        return Err(bad_image(alloc, 0x10, FileKind::ElfType));
    }
    if half_at(bytes, 0x12) != 40 {
        return Err(bad_image(alloc, 0x12, FileKind::Machine));
    }
    if !has_header_size(bytes) {
        return Err(bad_image(alloc, 0x2A, FileKind::Headers));
    }
    if !has_table(bytes) {
        return Err(bad_image(alloc, 0x1C, FileKind::Headers));
    }
    Ok(header_count(bytes))
}

// ---- segments

fn segment_at(bytes: &[u8], at: usize) -> Segment
    requires { at + 32 ≤ length bytes.now }
    ensures { result ≡ elf.segment_at bytes.now at }
{
    Segment {
        offset: word_at(bytes, at + 4),
        address: word_at(bytes, at + 12),
        file_size: word_at(bytes, at + 16),
        memory_size: word_at(bytes, at + 20),
        flags: word_at(bytes, at + 24),
    }
}

fn is_segment(size: usize, segment: Segment) -> bool
    ensures { result ≡ read.is_segment size segment }
{
    (segment.file_size == 0
        || u64::from(segment.offset) + u64::from(segment.file_size) <= size as u64)
        && segment.file_size <= segment.memory_size
        && u64::from(segment.address) + u64::from(segment.memory_size) <= 1 << 32
}

fn meets(first: Segment, second: Segment) -> bool
    ensures { result ≡ read.meets first second }
{
    first.memory_size > 0
        && second.memory_size > 0
        && u64::from(first.address) < u64::from(second.address) + u64::from(second.memory_size)
        && u64::from(second.address) < u64::from(first.address) + u64::from(first.memory_size)
}

fn meets_any(segment: Segment, before: &[Segment]) -> bool
    ensures { result ≡ read.meets_any segment before.now }
{
    before.iter().any(|other| meets(segment, *other))
}

/// The segment of the program header at a place, behind those of the headers before it; None where it loads none.
#[tactic(auto, unfolding(crate::specs::Reading::segment_of))]
fn next_segment(
    alloc: Global,
    bytes: &[u8],
    at: usize,
    before: &[Segment],
) -> Result<Option<Segment>, Fault>
    requires small { length bytes.now < 2 ^ 32 }
    requires within { at + 32 ≤ length bytes.now }
    ensures { Gives result (read.segment_of bytes.now at before.now) }
{
    if word_at(bytes, at) != 1 {
        return Ok(None);
    }
    let segment = segment_at(bytes, at);
    if !is_segment(bytes.len(), segment) {
        return Err(bad_image(alloc, at, FileKind::Segment));
    }
    if meets_any(segment, before) {
        return Err(bad_image(alloc, at, FileKind::Overlap));
    }
    Ok(Some(segment))
}

fn push_segment(out: &mut Vec<Segment>, segment: Option<Segment>) -> Result<(), NoMemory>
    ensures { OnOk result (out.new.items ≡ out.old.items ++ told_items segment) }
{
    match segment {
        None => Ok(()),
        Some(segment) => Ok(out.push(segment)?),
    }
}

fn segments(alloc: Global, bytes: &[u8], count: u16) -> Result<List<Segment>, Fault>
    requires small { length bytes.now < 2 ^ 32 }
    requires long { 52 ≤ length bytes.now }
    requires table { 0 < count → elf.header_at bytes.now count ≤ length bytes.now }
    ensures { Gives result (read.segments_of bytes.now count) }
{
    let table = word_at(bytes, 0x1C) as usize;
    let mut segments = Vec::new(alloc);
    for number in 0..usize::from(count) {
        let next = next_segment(alloc, bytes, table + 32 * number, segments.as_slice())?;
        push_segment(&mut segments, next)?;
    }
    Ok(List::from_vec(segments))
}

fn enter(alloc: Global, bytes: &[u8], segments: List<Segment>) -> Result<Elf, Fault>
    requires { 52 ≤ length bytes.now }
    ensures { Gives result (read.entered bytes.now segments) }
{
    let entry = word_at(bytes, 0x18);
    if entry % 4 == 2 {
        return Err(bad_image(alloc, 0x18, FileKind::Entry));
    }
    Ok(Elf { entry, segments })
}

// ---- the file

#[tactic(auto, unfolding(crate::specs::Reading::elf_of))]
fn elf(alloc: Global, bytes: &[u8]) -> Result<Elf, Fault>
    requires { length bytes.now < 2 ^ 32 }
    ensures { Gives result (elf_of bytes.now) }
{
    let count = judge_header(alloc, bytes)?;
    let segments = segments(alloc, bytes, count)?;
    enter(alloc, bytes, segments)
}

/// What an ELF executable loads and where it is entered, by its PT_LOAD headers alone. Gives `BadImage`, with an empty
/// file name, exactly where the file is none for this machine, with the offset and the kind of the first check that
/// fails: fewer than 52 bytes (the file's length, `Short`), a first word that isn't ELF's (0, `Magic`), a file that
/// isn't of 32 bits and little-endian (4, `Class`), that is no executable (0x10, `ElfType`) or isn't for ARM (0x12,
/// `Machine`), program headers that haven't 32 bytes (0x2A, `Headers`) or reach past the file (0x1C, `Headers`); then,
/// for each PT_LOAD header in order, bytes that reach past the file, more of them than memory, or memory that ends
/// above 2^32 (the header's offset, `Segment`), and memory that meets an earlier segment's (the same, `Overlap`); at
/// last an entry that is neither at a whole word nor one of Thumb state (0x18, `Entry`). Each segment is compared with
/// all earlier ones; the rest takes time that is linear in the headers.
pub fn read_elf(alloc: Global, bytes: &[u8]) -> Result<Elf, Fault>
    requires { length bytes.now < 2 ^ 32 }
    // What is read is what the bytes say.
    ensures found { IfOk result (λ e. ReadsElf bytes.now e) }
    // What the bytes say is read, unless memory was refused.
    ensures only { (e : Elf) → ReadsElf bytes.now e → Gives result (Ok e) }
    // The error tells the first check that fails, unless memory was refused.
    ensures first_failed { IfErr result (IsFaultOf bytes.now) }
    // Which check fails first.
    ensures exact { Gives result (elf_of bytes.now) }
{
    elf(alloc, bytes)
}
