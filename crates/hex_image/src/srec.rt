//! A line of S-records.

ghost use Rattle.std.specs.Prelude.{◌≡◌, ◌+◌, ◌≤◌, IfOk, length, slice_index, true, None};
ghost use Rattle.hex_image.specs.Srec as srec;

use crate::bytes::{digits_in, half, sum_of, three, word};
use crate::records::Item;
use sdt_fault::kinds::RecordKind;
use sdt_fault::{Bytes, NoMemory};
use std::alloc::Global;

/// Whether a record of the type may have so many bytes behind the first: address, bytes, sum.
fn fits(kind: u8, count: u8) -> bool
    ensures { result ≡ srec.fits kind count }
{
    match kind {
        0 => count >= 3,
        1 => count >= 3,
        2 => count >= 4,
        3 => count >= 5,
        5 => count == 3,
        7 => count == 5,
        8 => count == 4,
        9 => count == 3,
        _ => count >= 1,
    }
}

/// Whether as many bytes follow as the record says, and as its type may have.
fn is_long(kind: u8, content: &[u8]) -> bool
    ensures { result ≡ srec.is_long kind content.now }
{
    if content.is_empty() {
        return false;
    }
    if content.len() != usize::from(content[0]) + 1 {
        return false;
    }
    fits(kind, content[0])
}

/// The first of what is wrong with a record.
fn flaw(kind: u8, content: &[u8]) -> Option<RecordKind>
    ensures { result ≡ srec.flaw kind content.now }
{
    if !is_long(kind, content) {
        return Some(RecordKind::Length);
    }
    if sum_of(content) != 255 {
        return Some(RecordKind::Sum);
    }
    if kind == 4 {
        return Some(RecordKind::RecordType);
    }
    if kind == 6 {
        return Some(RecordKind::RecordType);
    }
    None
}

/// Bytes behind an address of so many bytes.
fn data(alloc: Global, address: u32, width: usize, content: &[u8]) -> Result<Item, NoMemory>
    requires room { width + 2 ≤ length content.now }
    requires counted { length content.now ≡ slice_index content.now 0 + 1 }
    ensures { IfOk result (λ i. i ≡ srec.data_item address (srec.data_in width content.now)) }
{
    Ok(Item::Data {
        address,
        bytes: Bytes::from_slice(alloc, &content[width + 1..usize::from(content[0])])?,
    })
}

/// What a record says.
fn item(alloc: Global, kind: u8, content: &[u8]) -> Result<Item, NoMemory>
    requires { srec.is_long kind content.now ≡ true }
    ensures { IfOk result (λ i. i ≡ srec.item kind content.now) }
{
    match kind {
        1 => data(alloc, half(&content[1..]), 2, content),
        2 => data(alloc, three(&content[1..]), 3, content),
        3 => data(alloc, word(&content[1..]), 4, content),
        7 => Ok(Item::EndAt(word(&content[1..]))),
        8 => Ok(Item::EndAt(three(&content[1..]))),
        9 => Ok(Item::EndAt(half(&content[1..]))),
        _ => Ok(Item::Nothing),
    }
}

/// The type of a line that begins with `S` and a digit.
fn kind_of(line: &[u8]) -> Option<u8>
    ensures { result ≡ srec.kind_of line.now }
{
    if line.len() < 2 {
        return None;
    }
    if line[0] != b'S' {
        return None;
    }
    match line[1] {
        b'0'..=b'9' => Some(line[1] - b'0'),
        _ => None,
    }
}

/// What a line says, or the first of what is wrong with it.
pub fn said(alloc: Global, line: &[u8]) -> Result<Result<Item, RecordKind>, NoMemory>
    ensures { IfOk result (λ said. said ≡ srec.said line.now) }
{
    let Some(kind) = kind_of(line) else {
        return Ok(Err(RecordKind::Syntax));
    };
    let Some(bytes) = digits_in(alloc, &line[2..])? else {
        return Ok(Err(RecordKind::Syntax));
    };
    let content = bytes.as_slice();
    match flaw(kind, content) {
        Some(kind) => Ok(Err(kind)),
        None => Ok(Ok(item(alloc, kind, content)?)),
    }
}
