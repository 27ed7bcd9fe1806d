//! Areas: their rows in OBJ_HEAD, and their bytes and relocations in OBJ_AREA.

ghost use Rattle.std.specs.Prelude.{◌≡◌, ℕ, List as Items, ◌+◌, ◌*◌, ◌^◌, ◌<◌, ◌≤◌, [], length, take, drop, map, is_some, None, OnOk, IfOk};
ghost use Rattle.sdt_word.specs.Bytes.{word_in};
ghost use Rattle.sdt_fault.specs.declared.answer.Fault.TheVariants.{Refused};
ghost use Rattle.sdt_fault.specs.declared.refusal.Refusal.TheVariants.{BadObject};
ghost use Rattle.chunk_file.specs.Reading.{Gives, each};
ghost use Rattle.aof_object.specs.Names.{among, number_from};
ghost use Rattle.aof_object.specs.Index.{number_in, or_number};
ghost use Rattle.aof_object.specs.Checks.{area_flaw};
ghost use Rattle.aof_object.specs.Objects.{judged, head_names, head_at, next_head, stored, extent, total, reloc_at, next_reloc, area_at, next_area, each_of};

use crate::checks::{Flaw, judge_area, judge_reloc};
use crate::faults::bad_object;
use crate::flags::AreaFlags;
use crate::index::note_name;
use crate::records::{Area, Reloc};
use crate::strings::{keep_name, read_name};
use indexmap::IndexMap;
use sdt_fault::answer::Fault;
use sdt_fault::kinds::FileKind;
use sdt_fault::{Bytes, List, Text};
use sdt_word::word_at;
use std::alloc::Global;

/// What OBJ_HEAD says of an area; `count` is the number of its relocations.
#[derive(Drop)]
pub struct AreaHead {
    pub name: Text,
    pub attributes: u32,
    pub size: u32,
    pub count: u32,
}

/// The fault of a row at an offset, where a check failed.
pub fn fault_of(alloc: Global, at: usize, flaw: Flaw) -> Fault
    requires { at + flaw.place < 2 ^ 32 }
    ensures { result ≡ Refused (BadObject [] (at + flaw.place) flaw.kind) }
{
    bad_object(alloc, at + flaw.place as usize, flaw.kind)
}

/// The row of an area at an offset of the file. The index gets its name with its number; `left` is how many bytes are left for
/// names.
#[tactic(auto, unfolding(crate::specs::Objects::head_at))]
fn read_head<'a>(
    alloc: Global,
    strings: &'a [u8],
    index: &mut IndexMap<&'a [u8], u32>,
    left: &mut usize,
    number: u32,
    at: usize,
    row: &[u8],
) -> Result<AreaHead, Fault>
    requires row { 20 ≤ length row.now }
    requires place { at + 20 < 2 ^ 32 }
    ensures exact { Gives result (head_at strings.now (λ q. is_some (number_in index.old q)) at row.now) }
    ensures noted { IfOk result (λ head. (q : Items ℕ) → number_in index.new q ≡ or_number (number_in index.old q) head.name number q) }
{
    let Some(name) = read_name(strings, word_at(row, 0)) else {
        return Err(bad_object(alloc, at, FileKind::Name));
    };
    let repeated = note_name(index, name, number)?.is_some();
    let attributes = word_at(row, 4);
    let size = word_at(row, 8);
    let count = word_at(row, 12);
    if let Some(flaw) = judge_area(repeated, attributes, size, count, word_at(row, 16)) {
        return Err(fault_of(alloc, at, flaw));
    }
    Ok(AreaHead {
        name: keep_name(alloc, left, name)?,
        attributes,
        size,
        count,
    })
}

/// The rows of the areas, which begin at 24 in OBJ_HEAD. The index gets their names with their numbers.
pub fn read_rows<'a>(
    alloc: Global,
    strings: &'a [u8],
    start: usize,
    head: &[u8],
    count: u32,
    index: &mut IndexMap<&'a [u8], u32>,
    left: &mut usize,
) -> Result<List<AreaHead>, Fault>
    requires empty { (q : Items ℕ) → number_in index.old q ≡ None }
    requires rows { 24 + 20 * count ≤ length head.now }
    requires place { start + length head.now < 2 ^ 32 }
    ensures exact { Gives result (each (next_head strings.now start head.now) count []) }
    ensures long { IfOk result (λ heads. length heads ≡ count) }
    ensures names { IfOk result (λ heads. (q : Items ℕ) → number_in index.new q ≡ number_from 0 q (head_names heads)) }
{
    let mut heads = Vec::new(alloc);
    for i in 0..count {
        let at = 24 + 20 * i as usize;
        let area = read_head(alloc, strings, index, left, i, start + at, &head[at..])?;
        heads.push(area)?;
    }
    Ok(List::from_vec(heads))
}

/// How many bytes an area has in OBJ_AREA, without its relocations.
pub fn stored_bytes(attributes: u32, size: u32) -> u32
    ensures { result ≡ stored attributes size }
{
    if AreaFlags(attributes).is_zero_initialised() {
        0
    } else {
        size
    }
}

/// How many bytes an area has in OBJ_AREA, its relocations counted.
fn extent_of(head: &AreaHead) -> usize
    ensures exact { result ≡ extent head.now }
    ensures most { result < 2 ^ 36 }
{
    stored_bytes(head.attributes, head.size) as usize + 8 * head.count as usize
}

/// How far areas reach in OBJ_AREA.
pub fn total_of(heads: &[AreaHead]) -> usize
    requires { length heads.now < 2 ^ 28 }
    ensures { result ≡ total heads.now }
{
    let mut total = 0;
    for head in heads {
        total += extent_of(head);
    }
    total
}

#[tactic(auto, unfolding(crate::specs::Objects::reloc_at))]
fn read_reloc(
    alloc: Global,
    areas: usize,
    symbols: usize,
    at: usize,
    row: &[u8],
) -> Result<Reloc, Fault>
    requires row { 8 ≤ length row.now }
    requires place { at + 8 < 2 ^ 32 }
    ensures { Gives result (reloc_at areas symbols at row.now) }
{
    let reloc = Reloc {
        offset: word_at(row, 0),
        word: word_at(row, 4),
    };
    if let Some(flaw) = judge_reloc(areas, symbols, reloc) {
        return Err(fault_of(alloc, at, flaw));
    }
    Ok(reloc)
}

fn read_relocs(
    alloc: Global,
    areas: usize,
    symbols: usize,
    start: usize,
    content: &[u8],
    at: usize,
    count: u32,
) -> Result<List<Reloc>, Fault>
    requires room { at + 8 * count ≤ length content.now }
    requires place { start + length content.now < 2 ^ 32 }
    ensures { Gives result (each (next_reloc areas symbols start content.now at) count []) }
{
    let mut relocs = Vec::with_capacity(alloc, count as usize)?;
    for i in 0..count {
        let here = at + 8 * i as usize;
        let reloc = read_reloc(alloc, areas, symbols, start + here, &content[here..])?;
        relocs.push(reloc)?;
    }
    Ok(List::from_vec(relocs))
}

/// The area of a head, whose bytes begin at a place of OBJ_AREA.
#[tactic(auto, unfolding(crate::specs::Objects::area_at))]
fn read_area(
    alloc: Global,
    areas: usize,
    symbols: usize,
    start: usize,
    content: &[u8],
    at: usize,
    head: &AreaHead,
) -> Result<Area, Fault>
    requires room { at + extent head.now ≤ length content.now }
    requires place { start + length content.now < 2 ^ 32 }
    ensures { Gives result (area_at areas symbols start content.now at head.now) }
{
    let end = at + stored_bytes(head.attributes, head.size) as usize;
    let relocs = read_relocs(alloc, areas, symbols, start, content, end, head.count)?;
    Ok(Area {
        name: head.name.try_clone(alloc)?,
        attributes: head.attributes,
        size: head.size,
        bytes: Bytes::from_slice(alloc, &content[at..end])?,
        relocs,
    })
}

/// The areas of some heads, one after the other in OBJ_AREA.
pub fn read_areas(
    alloc: Global,
    heads: &[AreaHead],
    symbols: usize,
    start: usize,
    content: &[u8],
) -> Result<List<Area>, Fault>
    requires room { total heads.now ≡ length content.now }
    requires place { start + length content.now < 2 ^ 32 }
    ensures { Gives result (each_of (next_area heads.now symbols start content.now) heads.now []) }
{
    let mut areas = Vec::with_capacity(alloc, heads.len())?;
    let mut at = 0;
    for head in heads {
        let area = read_area(alloc, heads.len(), symbols, start, content, at, head)?;
        areas.push(area)?;
        at += extent_of(head);
    }
    Ok(List::from_vec(areas))
}
