//! Reading an object file.

ghost use Rattle.std.specs.Prelude.{◌≡◌, ℕ, List as Items, ◌+◌, ◌*◌, ◌^◌, ◌<◌, ◌≤◌, [], length, None, IfOk, Ok};
ghost use Rattle.std.specs.Option.{option_copied};
ghost use Rattle.sdt_word.specs.Bytes.{word_in};
ghost use Rattle.chunk_file.specs.Reading.{Gives};
ghost use Rattle.aof_object.specs.Names.{number_from};
ghost use Rattle.aof_object.specs.Index.{number_in};
ghost use Rattle.aof_object.specs.Objects.{head_names, counted_areas, heads_of, total, entry_in, entry_of, symbols_of, object_behind, object_in, object_of};
ghost use Rattle.aof_object.specs.Validity.{IsValid};
ghost use Rattle.aof_object.specs.Grammar.{ReadsObject};

use crate::areas::{AreaHead, fault_of, read_areas, read_rows, total_of};
use crate::checks::judge_entry;
use crate::faults::bad_object;
use crate::parts::{Parts, find_parts};
use crate::records::{Entry, Object, Symbol};
use crate::strings::MOST_NAMED;
use crate::symbols::read_symbols;
use chunk_file::{bytes_of_span, read_table};
use indexmap::IndexMap;
use sdt_fault::List;
use sdt_fault::answer::Fault;
use sdt_fault::kinds::FileKind;
use sdt_word::word_at;
use std::alloc::Global;

/// OBJ_HEAD and OBJ_STRT as a whole: their lengths, the type and the version. Gives the number of areas.
#[tactic(auto, unfolding(crate::specs::Objects::counted_areas))]
fn count_areas(alloc: Global, p: &Parts, head: &[u8], strings: &[u8]) -> Result<u32, Fault>
    requires { p.now.head.offset + length head.now < 2 ^ 32 }
    ensures exact { Gives result (counted_areas p.now head.now strings.now) }
    ensures fits { IfOk result (λ n. (n ≡ word_in head.now 8) × (24 + 20 * n ≤ length head.now)) }
{
    let start = p.head.offset as usize;
    if head.len() < 24 {
        return Err(bad_object(alloc, start, FileKind::Short));
    }
    let count = word_at(head, 8);
    if head.len() < 24 + 20 * count as usize {
        return Err(bad_object(alloc, start, FileKind::Short));
    }
    if word_at(head, 0) != 0xC5E2_D080 {
        return Err(bad_object(alloc, start, FileKind::Magic));
    }
    if word_at(head, 4) != 310 {
        return Err(bad_object(alloc, start + 4, FileKind::Version));
    }
    let strings_start = p.strings.offset as usize;
    if strings.len() < 4 {
        return Err(bad_object(alloc, strings_start, FileKind::Strings));
    }
    if word_at(strings, 0) as usize != strings.len() {
        return Err(bad_object(alloc, strings_start, FileKind::Strings));
    }
    Ok(count)
}

/// The rows of the areas, and that OBJ_AREA has the size that they ask for.
#[tactic(auto, unfolding(crate::specs::Objects::heads_of))]
fn read_heads<'a>(
    alloc: Global,
    p: &Parts,
    head: &[u8],
    strings: &'a [u8],
    content: &[u8],
    index: &mut IndexMap<&'a [u8], u32>,
    left: &mut usize,
) -> Result<List<AreaHead>, Fault>
    requires empty { (q : Items ℕ) → number_in index.old q ≡ None }
    requires rows { 24 + 20 * word_in head.now 8 ≤ length head.now }
    requires place { p.now.head.offset + length head.now < 2 ^ 32 }
    ensures exact { Gives result (heads_of p.now head.now strings.now content.now) }
    ensures room { IfOk result (λ heads. total heads ≡ length content.now) }
    ensures names { IfOk result (λ heads. (q : Items ℕ) → number_in index.new q ≡ number_from 0 q (head_names heads)) }
{
    let count = word_at(head, 8);
    let heads = read_rows(
        alloc,
        strings,
        p.head.offset as usize,
        head,
        count,
        index,
        left,
    )?;
    if total_of(heads.as_slice()) != content.len() {
        return Err(bad_object(alloc, p.areas.offset as usize, FileKind::Short));
    }
    Ok(heads)
}

/// The symbols, and that OBJ_SYMT has the size that their number asks for.
#[tactic(auto, unfolding(crate::specs::Objects::symbols_of))]
fn symbols_in(
    alloc: Global,
    p: &Parts,
    strings: &[u8],
    heads: &[AreaHead],
    index: &IndexMap<&[u8], u32>,
    left: &mut usize,
    table: &[u8],
    count: u32,
) -> Result<List<Symbol>, Fault>
    requires known { (q : Items ℕ) → number_in index.now q ≡ number_from 0 q (head_names heads.now) }
    requires place { p.now.symbols.offset + length table.now < 2 ^ 32 }
    ensures { Gives result (symbols_of p.now strings.now heads.now table.now count) }
{
    let start = p.symbols.offset as usize;
    if table.len() != 16 * count as usize {
        return Err(bad_object(alloc, start, FileKind::Short));
    }
    read_symbols(alloc, strings, heads, index, left, start, table, count)
}

/// The entry at an offset of an area of a number from 1 on, of which OBJ_HEAD tells, which begins there.
fn entry_within(
    alloc: Global,
    start: usize,
    area: u32,
    offset: u32,
    within: Option<&AreaHead>,
) -> Result<Option<Entry>, Fault>
    requires area { 0 < area }
    requires place { start + 20 < 2 ^ 32 }
    ensures { Gives result (entry_in start area offset (option_copied within.entry)) }
{
    let Some(within) = within else {
        return Err(bad_object(alloc, start + 16, FileKind::Entry));
    };
    if let Some(flaw) = judge_entry(within.attributes, within.size, offset) {
        return Err(fault_of(alloc, start, flaw));
    }
    Ok(Some(Entry {
        area: area - 1,
        offset,
    }))
}

#[tactic(auto, unfolding(crate::specs::Objects::entry_of))]
fn read_entry(
    alloc: Global,
    p: &Parts,
    head: &[u8],
    heads: &[AreaHead],
) -> Result<Option<Entry>, Fault>
    requires row { 24 ≤ length head.now }
    requires place { p.now.head.offset + length head.now < 2 ^ 32 }
    ensures { Gives result (entry_of p.now head.now heads.now) }
{
    let start = p.head.offset as usize;
    let area = word_at(head, 16);
    if area == 0 {
        return Ok(None);
    }
    let within = heads.get((area - 1) as usize);
    entry_within(alloc, start, area, word_at(head, 20), within)
}

/// The object of parts whose lengths are judged, with an index of the areas' names, in which none is yet.
#[tactic(auto, unfolding(crate::specs::Objects::object_behind))]
fn indexed_object<'a>(
    alloc: Global,
    p: &Parts,
    head: &[u8],
    content: &[u8],
    strings: &'a [u8],
    table: &[u8],
    index: &mut IndexMap<&'a [u8], u32>,
) -> Result<Object, Fault>
    requires empty { (q : Items ℕ) → number_in index.old q ≡ None }
    requires rows { 24 + 20 * word_in head.now 8 ≤ length head.now }
    requires head { p.now.head.offset + length head.now < 2 ^ 32 }
    requires content { p.now.areas.offset + length content.now < 2 ^ 32 }
    requires table { p.now.symbols.offset + length table.now < 2 ^ 32 }
    ensures { Gives result (object_behind p.now head.now content.now strings.now table.now) }
{
    let mut left = MOST_NAMED;
    let heads = read_heads(alloc, p, head, strings, content, index, &mut left)?;
    let heads = heads.as_slice();
    let count = word_at(head, 12);
    let start = p.areas.offset as usize;
    let areas = read_areas(alloc, heads, count as usize, start, content)?;
    let symbols = symbols_in(alloc, p, strings, heads, index, &mut left, table, count)?;
    let entry = read_entry(alloc, p, head, heads)?;
    Ok(Object {
        areas,
        symbols,
        entry,
    })
}

#[tactic(auto, unfolding(crate::specs::Objects::object_in))]
fn object_of_parts(
    alloc: Global,
    p: &Parts,
    head: &[u8],
    content: &[u8],
    strings: &[u8],
    table: &[u8],
) -> Result<Object, Fault>
    requires head { p.now.head.offset + length head.now < 2 ^ 32 }
    requires content { p.now.areas.offset + length content.now < 2 ^ 32 }
    requires table { p.now.symbols.offset + length table.now < 2 ^ 32 }
    ensures { Gives result (object_in p.now head.now content.now strings.now table.now) }
{
    count_areas(alloc, p, head, strings)?;
    let mut index = IndexMap::new(alloc);
    let object = indexed_object(alloc, p, head, content, strings, table, &mut index);
    drop(index);
    object
}

#[tactic(auto, unfolding(crate::specs::Objects::object_of))]
fn object(alloc: Global, b: &[u8]) -> Result<Object, Fault>
    requires { length b.now < 2 ^ 32 }
    ensures { Gives result (object_of b.now) }
{
    let spans = read_table(alloc, b)?;
    let p = find_parts(alloc, b, spans.as_slice())?;
    let head = bytes_of_span(b, &p.head);
    let content = bytes_of_span(b, &p.areas);
    let strings = bytes_of_span(b, &p.strings);
    let table = bytes_of_span(b, &p.symbols);
    object_of_parts(alloc, &p, head, content, strings, table)
}

/// The object of a file. Gives `BadChunk` and `BadObject`, with an empty file name. Takes time that is
/// linear in the file and in the names of the record, which are found by their hashes. Names of more than 2^30 bytes in all, as
/// where they share bytes of the file, count as want of memory.
pub fn read_object(alloc: Global, b: &[u8]) -> Result<Object, Fault>
    requires { length b.now < 2 ^ 32 }
    // What is read is what the bytes say.
    ensures found { IfOk result (λ o. ReadsObject b.now o) }
    // What the bytes say is read, unless memory was refused.
    ensures only { (o : Object) → ReadsObject b.now o → Gives result (Ok o) }
    // Which check fails first.
    ensures exact { Gives result (object_of b.now) }
    ensures valid { IfOk result (λ o. IsValid o) }
{
    object(alloc, b)
}
