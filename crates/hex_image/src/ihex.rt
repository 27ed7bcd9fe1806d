//! A line of Intel HEX.

ghost use Rattle.std.specs.Prelude.{◌≡◌, ◌≤◌, IfOk, IsTrue, length, slice_index, true};
ghost use Rattle.hex_image.specs.Ihex as ihex;

use crate::bytes::{digits_in, half, sum_of, word};
use crate::records::Item;
use sdt_fault::kinds::RecordKind;
use sdt_fault::{Bytes, NoMemory};
use std::alloc::Global;

/// Whether a record of the type may have so many bytes.
fn fits(kind: u8, count: u8) -> bool
    ensures { result ≡ ihex.fits kind count }
{
    match kind {
        1 => count == 0,
        2 => count == 2,
        3 => count == 4,
        4 => count == 2,
        5 => count == 4,
        _ => true,
    }
}

/// Whether there are as many bytes as the record says, and as its type may have.
fn is_long(content: &[u8]) -> bool
    ensures { result ≡ ihex.is_long content.now }
{
    if content.len() < 5 {
        return false;
    }
    if content.len() != usize::from(content[0]) + 5 {
        return false;
    }
    fits(content[3], content[0])
}

/// The first of what is wrong with a record.
fn flaw(content: &[u8]) -> Option<RecordKind>
    ensures { result ≡ ihex.flaw content.now }
{
    if !is_long(content) {
        return Some(RecordKind::Length);
    }
    if sum_of(content) != 0 {
        return Some(RecordKind::Sum);
    }
    if content[3] > 5 {
        return Some(RecordKind::RecordType);
    }
    None
}

/// What a record of the type with this address and these bytes says.
fn item_of(alloc: Global, kind: u8, address: u32, bytes: &[u8]) -> Result<Item, NoMemory>
    requires fit { ihex.fits kind (length bytes.now) ≡ true }
    requires known { kind ≤ 5 }
    ensures { IfOk result (λ i. i ≡ ihex.item_of kind address bytes.now) }
{
    match kind {
        0 => Ok(Item::Data {
            address,
            bytes: Bytes::from_slice(alloc, bytes)?,
        }),
        1 => Ok(Item::End),
        2 => Ok(Item::Base(16 * half(bytes))),
        3 => Ok(Item::Start(16 * half(bytes) + half(&bytes[2..]))),
        4 => Ok(Item::Base(65536 * half(bytes))),
        _ => Ok(Item::Start(word(bytes))),
    }
}

/// What a record says.
fn item(alloc: Global, content: &[u8]) -> Result<Item, NoMemory>
    requires long { ihex.is_long content.now ≡ true }
    requires known { slice_index content.now 3 ≤ 5 }
    ensures { IfOk result (λ i. i ≡ ihex.item content.now) }
{
    let count = usize::from(content[0]);
    item_of(
        alloc,
        content[3],
        half(&content[1..]),
        &content[4..4 + count],
    )
}

/// What a line says, or the first of what is wrong with it.
pub fn said(alloc: Global, line: &[u8]) -> Result<Result<Item, RecordKind>, NoMemory>
    ensures { IfOk result (λ said. said ≡ ihex.said line.now) }
{
    let Some(digits) = line.strip_prefix(b":") else {
        return Ok(Err(RecordKind::Syntax));
    };
    let Some(bytes) = digits_in(alloc, digits)? else {
        return Ok(Err(RecordKind::Syntax));
    };
    let content = bytes.as_slice();
    match flaw(content) {
        Some(kind) => Ok(Err(kind)),
        None => Ok(Ok(item(alloc, content)?)),
    }
}
