//! Reading: the table, and the chunks.

ghost use Rattle.std.specs.Prelude.{◌≡◌, ◌+◌, ◌*◌, ◌^◌, ◌<◌, ◌≤◌, [], List as Items, Option, length, take, drop, IfOk};
ghost use Rattle.sdt_word.specs.Bytes.{word_in};
ghost use Rattle.sdt_fault.specs.declared.answer.Fault.TheVariants.{Refused};
ghost use Rattle.sdt_fault.specs.declared.refusal.Refusal.TheVariants.{BadChunk};
ghost use Rattle.chunk_file.specs.Reading.{Gives, each};
ghost use Rattle.chunk_file.specs.Chunks.{count_of, entry_of, next_entry, table_end, table_of, bytes_at, chunk_at, chunks_at, chunks_of};
ghost use Rattle.chunk_file.specs.Grammar.{ReadsTable, ReadsChunks};

use crate::records::{Chunk, Chunks, Span};
use sdt_fault::answer::Fault;
use sdt_fault::kinds::FileKind;
use sdt_fault::refusal::Refusal;
use sdt_fault::{Bytes, List, NoMemory, Text};
use sdt_word::word_at;
use std::alloc::Global;

fn bad_chunk(alloc: Global, at: usize, kind: FileKind) -> Fault
    requires { at < 2 ^ 32 }
    ensures { result ≡ Refused (BadChunk [] at kind) }
{
    Fault::Refused(Refusal::BadChunk {
        file: Text::from_vec(Vec::new(alloc)),
        offset: at as u32,
        kind,
    })
}

#[tactic(auto, unfolding(crate::specs::Chunks::count_of))]
fn count_entries(alloc: Global, b: &[u8]) -> Result<u32, Fault>
    requires { length b.now < 2 ^ 32 }
    ensures exact { Gives result (count_of b.now) }
    ensures fits { IfOk result (λ n. (n ≡ word_in b.now 4) × (12 + 16 * n ≤ length b.now)) }
{
    if b.len() < 12 {
        return Err(bad_chunk(alloc, b.len(), FileKind::Truncated));
    }
    if word_at(b, 0) != 0xC3CB_C6C5 {
        return Err(bad_chunk(alloc, 0, FileKind::Magic));
    }
    let count = word_at(b, 4);
    if count < word_at(b, 8) {
        return Err(bad_chunk(alloc, 8, FileKind::Count));
    }
    if b.len() < 12 + 16 * count as usize {
        return Err(bad_chunk(alloc, b.len(), FileKind::Truncated));
    }
    Ok(count)
}

fn name_of(row: &[u8]) -> [u8; 8]
    requires { 8 ≤ length row.now }
    ensures { result ≡ take 8 row.now }
{
    let mut name = [0; 8];
    name.copy_from_slice(&row[..8]);
    name
}

#[tactic(auto, unfolding(crate::specs::Chunks::entry_of))]
fn entry(
    alloc: Global,
    size: usize,
    table: usize,
    at: usize,
    row: &[u8],
) -> Result<Option<Span>, Fault>
    requires row { 16 ≤ length row.now }
    requires place { at + 16 < 2 ^ 32 }
    ensures { Gives result (entry_of size table at row.now) }
{
    let offset = word_at(row, 8);
    if offset == 0 {
        return Ok(None);
    }
    if offset % 4 != 0 {
        return Err(bad_chunk(alloc, at + 8, FileKind::Offset));
    }
    if (offset as usize) < table {
        return Err(bad_chunk(alloc, at + 8, FileKind::Offset));
    }
    let length = word_at(row, 12);
    if size < offset as usize + length as usize {
        return Err(bad_chunk(alloc, at + 12, FileKind::Size));
    }
    Ok(Some(Span {
        name: name_of(row),
        offset,
        size: length,
    }))
}

fn entries(alloc: Global, b: &[u8], count: u32) -> Result<List<Option<Span>>, Fault>
    requires small { length b.now < 2 ^ 32 }
    requires count { count ≡ word_in b.now 4 }
    requires fits { 12 + 16 * count ≤ length b.now }
    ensures { Gives result (each (next_entry b.now) count []) }
{
    let mut spans = Vec::new(alloc);
    let table = 12 + 16 * count as usize;
    for i in 0..count as usize {
        let at = 12 + 16 * i;
        let span = entry(alloc, b.len(), table, at, &b[at..])?;
        spans.push(span)?;
    }
    Ok(List::from_vec(spans))
}

#[tactic(auto, unfolding(crate::specs::Chunks::table_of))]
fn table(alloc: Global, b: &[u8]) -> Result<List<Option<Span>>, Fault>
    requires { length b.now < 2 ^ 32 }
    ensures { Gives result (table_of b.now) }
{
    let count = count_entries(alloc, b)?;
    entries(alloc, b, count)
}

/// The entries of the table in their order: where each chunk stands. `None` is an unused entry.
/// Takes time and memory that are linear in the table, and looks at no chunk.
pub fn read_table(alloc: Global, b: &[u8]) -> Result<List<Option<Span>>, Fault>
    requires { length b.now < 2 ^ 32 }
    // What is read is what the bytes say.
    ensures found { IfOk result (λ spans. ReadsTable b.now spans) }
    // What the bytes say is read, unless memory was refused.
    ensures only { (spans : Items (Option Span)) → ReadsTable b.now spans → Gives result (Ok spans) }
    // Which check fails first.
    ensures exact { Gives result (table_of b.now) }
{
    table(alloc, b)
}

/// The bytes at the place, as far as the file has them.
pub fn bytes_of_span<'a>(b: &'a [u8], span: &Span) -> &'a [u8]
    ensures bytes { result.now ≡ bytes_at b.now span.now }
    // Offsets in these bytes are offsets of the file.
    ensures placed { length b.now < 2 ^ 32 → span.now.offset + length result.now < 2 ^ 32 }
{
    let start = (span.offset as usize).min(b.len());
    let rest = &b[start..];
    let size = (span.size as usize).min(rest.len());
    &rest[..size]
}

fn chunk_of(alloc: Global, b: &[u8], span: &Span) -> Result<Chunk, NoMemory>
    ensures { IfOk result (λ c. c ≡ chunk_at b.now span.now) }
{
    Ok(Chunk {
        name: span.name,
        bytes: Bytes::from_slice(alloc, bytes_of_span(b, span))?,
    })
}

fn chunks(alloc: Global, b: &[u8], spans: &[Option<Span>]) -> Result<Chunks, NoMemory>
    ensures { IfOk result (λ c. c ≡ chunks_at b.now spans.now) }
{
    let mut list = Vec::new(alloc);
    for span in spans {
        let chunk = match span {
            None => None,
            Some(span) => Some(chunk_of(alloc, b, span)?),
        };
        list.push(chunk)?;
    }
    Ok(Chunks {
        list: List::from_vec(list),
    })
}

fn all(alloc: Global, b: &[u8]) -> Result<Chunks, Fault>
    requires { length b.now < 2 ^ 32 }
    ensures { Gives result (chunks_of b.now) }
{
    let spans = read_table(alloc, b)?;
    Ok(chunks(alloc, b, spans.as_slice())?)
}

/// The chunks of a file, each copied. Gives `BadChunk`, with an empty file name.
pub fn read_chunks(alloc: Global, b: &[u8]) -> Result<Chunks, Fault>
    requires { length b.now < 2 ^ 32 }
    // What is read is what the bytes say.
    ensures found { IfOk result (λ c. ReadsChunks b.now c) }
    // What the bytes say is read, unless memory was refused.
    ensures only { (c : Chunks) → ReadsChunks b.now c → Gives result (Ok c) }
    // Which check fails first.
    ensures exact { Gives result (chunks_of b.now) }
{
    all(alloc, b)
}
