//! Writing: the one spelling.

ghost use Rattle.std.specs.Prelude.{◌≡◌, ◌+◌, ◌-◌, ◌*◌, ◌^◌, ◌<◌, ◌≤◌, ◌++◌, replicate, length, OnOk, IfOk, MatchOption, vec_len};
ghost use Rattle.std.specs.List.{flat_map};
ghost use Rattle.sdt_word.specs.Bytes.{bytes_of};
ghost use Rattle.sdt_fault.specs.declared.answer.Fault.TheVariants.{Refused};
ghost use Rattle.chunk_file.specs.Reading.{Gives};
ghost use Rattle.chunk_file.specs.Chunks.{row, span_at, spans_from, end_after, end_from, content, contents, file_size, head, spelled, written};

use crate::records::{Chunk, Chunks};
use byte_tools::push_zeros;
use sdt_fault::answer::Fault;
use sdt_fault::kinds::Quantity;
use sdt_fault::{Bytes, NoMemory};
use std::alloc::Global;

/// Writes the four bytes of a word at the end, the lowest first.
pub fn push_word(out: &mut Vec<u8>, word: u32) -> Result<(), NoMemory>
    ensures { OnOk result (out.new.items ≡ out.old.items ++ bytes_of word 4) }
{
    sdt_word::push_word(out, word)?;
    Ok(())
}

/// Where the chunk ends that follows what ends at `end`; `None` at 2^32 or beyond.
fn end_of_chunk(end: usize, chunk: &Option<Chunk>) -> Option<usize>
    requires { end < 2 ^ 37 }
    ensures { MatchOption result (2 ^ 32 ≤ end_after end chunk.now) (λ n. (n < 2 ^ 32) × (n ≡ end_after end chunk.now)) }
{
    let after = match chunk {
        None => end,
        Some(chunk) => ((end + 3) / 4 * 4).checked_add(chunk.bytes.as_slice().len())?,
    };
    if after < 1 << 32 { Some(after) } else { None }
}

/// Where the chunks end that follow one another from `start` on; `None` at 2^32 or beyond.
fn end_of(start: usize, list: &[Option<Chunk>]) -> Option<usize>
    requires { start < 2 ^ 32 }
    ensures { MatchOption result (2 ^ 32 ≤ end_from start list.now) (λ n. (n < 2 ^ 32) × (n ≡ end_from start list.now)) }
{
    let mut end = start;
    for chunk in list {
        end = end_of_chunk(end, chunk)?;
    }
    Some(end)
}

/// Writes an entry of the table, and says where its chunk ends.
fn push_row(out: &mut Vec<u8>, at: usize, chunk: &Option<Chunk>) -> Result<usize, NoMemory>
    requires { end_after at chunk.now < 2 ^ 32 }
    ensures end { IfOk result (λ n. n ≡ end_after at chunk.now) }
    ensures row { OnOk result (out.new.items ≡ out.old.items ++ row (span_at at chunk.now)) }
    ensures long { OnOk result (length out.new.items ≡ length out.old.items + 16) }
{
    match chunk {
        None => {
            out.extend_from_slice(&[0; 16])?;
            Ok(at)
        }
        Some(chunk) => {
            let offset = (at + 3) / 4 * 4;
            let size = chunk.bytes.as_slice().len();
            out.extend_from_slice(&chunk.name)?;
            push_word(out, offset as u32)?;
            push_word(out, size as u32)?;
            Ok(offset + size)
        }
    }
}

fn push_table(out: &mut Vec<u8>, start: usize, list: &[Option<Chunk>]) -> Result<(), NoMemory>
    requires { end_from start list.now < 2 ^ 32 }
    ensures rows { OnOk result (out.new.items ≡ out.old.items ++ flat_map row (spans_from start list.now)) }
    ensures long { OnOk result (length out.new.items ≡ length out.old.items + 16 * length list.now) }
{
    let mut at = start;
    for chunk in list {
        at = push_row(out, at, chunk)?;
    }
    Ok(())
}

fn push_chunk(out: &mut Vec<u8>, chunk: &Option<Chunk>) -> Result<(), NoMemory>
    requires { length out.old.items < 2 ^ 32 }
    ensures { OnOk result (out.new.items ≡ out.old.items ++ content (length out.old.items) chunk.now) }
{
    if let Some(chunk) = chunk {
        let end = out.len();
        push_zeros(out, (end + 3) / 4 * 4 - end)?;
        out.extend_from_slice(chunk.bytes.as_slice())?;
    }
    Ok(())
}

fn push_contents(out: &mut Vec<u8>, list: &[Option<Chunk>]) -> Result<(), NoMemory>
    requires { end_from (length out.old.items) list.now < 2 ^ 32 }
    ensures { OnOk result (out.new.items ≡ out.old.items ++ contents (length out.old.items) list.now) }
{
    for chunk in list {
        push_chunk(out, chunk)?;
    }
    Ok(())
}

/// How many bytes the spelling has; `None` at 2^32 or beyond.
fn spelled_len(c: &Chunks) -> Option<usize>
    ensures { MatchOption result (2 ^ 32 ≤ file_size c.now) (λ n. (n < 2 ^ 32) × (n ≡ file_size c.now)) }
{
    let list = c.list.as_slice();
    if list.len() >= 1 << 28 {
        return None;
    }
    end_of(12 + 16 * list.len(), list)
}

fn push_head(out: &mut Vec<u8>, count: usize) -> Result<(), NoMemory>
    requires { count < 2 ^ 32 }
    ensures { OnOk result (out.new.items ≡ out.old.items ++ head count) }
{
    push_word(out, 0xC3CB_C6C5)?;
    push_word(out, count as u32)?;
    push_word(out, count as u32)
}

fn build(alloc: Global, c: &Chunks, size: usize) -> Result<Bytes, NoMemory>
    requires { file_size c.now < 2 ^ 32 }
    ensures { IfOk result (λ b. b ≡ spelled c.now) }
{
    let list = c.list.as_slice();
    let count = list.len();
    let mut out = Vec::with_capacity(alloc, size)?;
    push_head(&mut out, count)?;
    push_table(&mut out, 12 + 16 * count, list)?;
    push_contents(&mut out, list)?;
    Ok(Bytes::from_vec(out))
}

/// The one spelling: max_chunks = num_chunks, the chunks in table order, each at the next multiple of 4
/// behind the one before, zero bytes between and none behind the last; an unused entry is 16 zero bytes.
/// Gives `TooLarge` exactly where it would have 2^32 bytes or more.
pub fn write_chunks(alloc: Global, c: &Chunks) -> Result<Bytes, Fault>
    ensures { Gives result (written c.now) }
{
    match spelled_len(c) {
        None => Err(Fault::too_large(Quantity::FileBytes, 0xFFFF_FFFF)),
        Some(size) => Ok(build(alloc, c, size)?),
    }
}
