//! The texts of records that are written.

ghost use Rattle.std.specs.Prelude.{◌≡◌, ◌+◌, ◌^◌, ◌<◌, ◌≤◌, ◌++◌, ◌∷◌, [], IfOk, OnOk, None, length, take, drop};
ghost use Rattle.std.specs.List.{AllByRecursion, flat_map};
ghost use Rattle.hex.specs.Hex.{encode_upper};
ghost use Rattle.hex_image.specs.Digits as digits;
ghost use Rattle.hex_image.specs.Images as images;
ghost use Rattle.hex_image.specs.Writing as writing;

use crate::bytes::{half_bytes, sum_of, word_bytes};
use crate::records::{Burn, Piece};
use sdt_fault::{NoMemory, Text};
use std::alloc::Global;

/// Appends bytes in pairs of digits.
fn push_digits(alloc: Global, out: &mut Vec<u8>, bytes: &[u8]) -> Result<(), NoMemory>
    ensures { OnOk result (out.new.items ≡ out.old.items ++ encode_upper bytes.now) }
{
    out.extend_from_slice(hex::encode_upper(alloc, bytes)?.as_bytes())?;
    Ok(())
}

/// How many of the bytes from an address on stand in the first record.
fn row_len(at: u64, bytes: &[u8]) -> usize
    requires { 0 < length bytes.now }
    ensures row { writing.rows at bytes.now ≡ images.piece at (take result bytes.now) ∷ writing.rows (at + result) (drop result bytes.now) }
    ensures some { 0 < result }
    ensures within { result ≤ length bytes.now }
    ensures short { result ≤ 16 }
{
    bytes.len().min(16 - (at % 16) as usize)
}

// ---- Intel HEX

/// Appends a record: its type, address and bytes.
fn push_ihex(
    alloc: Global,
    out: &mut Vec<u8>,
    kind: u8,
    address: u16,
    bytes: &[u8],
) -> Result<(), NoMemory>
    requires { length bytes.now < 256 }
    ensures { OnOk result (out.new.items ≡ out.old.items ++ writing.ihex_line (writing.ihex_record kind address bytes.now)) }
{
    let mut record = Vec::new(alloc);
    record.push(bytes.len() as u8)?;
    record.extend_from_slice(&half_bytes(address))?;
    record.push(kind)?;
    record.extend_from_slice(bytes)?;
    let sum = sum_of(&record);
    record.push(0u8.wrapping_sub(sum))?;
    out.push(b':')?;
    push_digits(alloc, out, &record)?;
    out.push(b'\n')?;
    Ok(())
}

/// Appends the upper half of the address, unless it is the one that counts.
fn push_upper(
    alloc: Global,
    out: &mut Vec<u8>,
    known: Option<u16>,
    upper: u16,
) -> Result<(), NoMemory>
    ensures { OnOk result (out.new.items ≡ out.old.items ++ flat_map writing.ihex_line (writing.upper_records known upper)) }
{
    if known == Some(upper) {
        return Ok(());
    }
    push_ihex(alloc, out, 4, 0, &half_bytes(upper))
}

fn push_ihex_row(
    alloc: Global,
    out: &mut Vec<u8>,
    known: Option<u16>,
    base: u32,
    bytes: &[u8],
) -> Result<(), NoMemory>
    requires { length bytes.now < 256 }
    ensures { OnOk result (out.new.items ≡ out.old.items ++ flat_map writing.ihex_line (writing.row_records known (images.piece base bytes.now))) }
{
    push_upper(alloc, out, known, (base / 65536) as u16)?;
    push_ihex(alloc, out, 0, (base % 65536) as u16, bytes)
}

/// Appends a piece's records behind some whose upper half of the address is known, and gives the one that counts then.
fn push_ihex_piece(
    alloc: Global,
    out: &mut Vec<u8>,
    known: Option<u16>,
    piece: &Piece,
) -> Result<Option<u16>, NoMemory>
    requires { piece.now.base + length piece.now.bytes ≤ 2 ^ 32 }
    ensures { IfOk result (writing.GoesOn known out.old.items (writing.rows piece.now.base piece.now.bytes) out.new.items) }
{
    let mut known = known;
    let mut at = u64::from(piece.base);
    let mut rest = piece.bytes.as_slice();
    'rows: while !rest.is_empty() {
        let len = row_len(at, rest);
        push_ihex_row(alloc, out, known, at as u32, &rest[..len])?;
        known = Some((at / 65536) as u16);
        at += len as u64;
        rest = &rest[len..];
    }
    Ok(known)
}

fn push_ihex_pieces(alloc: Global, out: &mut Vec<u8>, pieces: &[Piece]) -> Result<(), NoMemory>
    requires { AllByRecursion (λ p. images.end_of p ≤ 2 ^ 32) pieces.now }
    ensures { OnOk result (out.new.items ≡ out.old.items ++ writing.ihex_rest None (writing.rows_of pieces.now)) }
{
    let mut known = None;
    for piece in pieces {
        known = push_ihex_piece(alloc, out, known, piece)?;
    }
    Ok(())
}

/// The image as a text in Intel HEX.
pub fn write_ihex(alloc: Global, b: &Burn) -> Result<Text, NoMemory>
    requires { AllByRecursion (λ p. images.end_of p ≤ 2 ^ 32) b.now.pieces }
    ensures exact { IfOk result (λ text. text ≡ writing.ihex_of b.now) }
{
    let mut out = Vec::new(alloc);
    push_ihex_pieces(alloc, &mut out, b.pieces.as_slice())?;
    push_ihex(alloc, &mut out, 5, 0, &word_bytes(b.start))?;
    push_ihex(alloc, &mut out, 1, 0, &[])?;
    Ok(Text::from_vec(out))
}

// ---- S-records

/// Appends a record: its type, and the bytes of its address and its data.
fn push_srec(
    alloc: Global,
    out: &mut Vec<u8>,
    kind: u8,
    address: &[u8],
    bytes: &[u8],
) -> Result<(), NoMemory>
    requires digit { kind < 10 }
    requires counted { length address.now + length bytes.now < 255 }
    ensures { OnOk result (out.new.items ≡ out.old.items ++ writing.srec_line kind (writing.srec_record address.now bytes.now)) }
{
    let mut record = Vec::new(alloc);
    record.push((address.len() + bytes.len() + 1) as u8)?;
    record.extend_from_slice(address)?;
    record.extend_from_slice(bytes)?;
    let sum = sum_of(&record);
    record.push(255 - sum)?;
    out.push(b'S')?;
    out.push(b'0' + kind)?;
    push_digits(alloc, out, &record)?;
    out.push(b'\n')?;
    Ok(())
}

fn push_srec_piece(alloc: Global, out: &mut Vec<u8>, piece: &Piece) -> Result<(), NoMemory>
    requires { piece.now.base + length piece.now.bytes ≤ 2 ^ 32 }
    ensures { OnOk result (out.new.items ≡ out.old.items ++ flat_map writing.srec_row (writing.rows piece.now.base piece.now.bytes)) }
{
    let mut at = u64::from(piece.base);
    let mut rest = piece.bytes.as_slice();
    'rows: while !rest.is_empty() {
        let len = row_len(at, rest);
        push_srec(alloc, out, 3, &word_bytes(at as u32), &rest[..len])?;
        at += len as u64;
        rest = &rest[len..];
    }
    Ok(())
}

fn push_srec_pieces(alloc: Global, out: &mut Vec<u8>, pieces: &[Piece]) -> Result<(), NoMemory>
    requires { AllByRecursion (λ p. images.end_of p ≤ 2 ^ 32) pieces.now }
    ensures { OnOk result (out.new.items ≡ out.old.items ++ flat_map writing.srec_row (writing.rows_of pieces.now)) }
{
    for piece in pieces {
        push_srec_piece(alloc, out, piece)?;
    }
    Ok(())
}

/// The image as a text of S-records.
pub fn write_srec(alloc: Global, b: &Burn) -> Result<Text, NoMemory>
    requires { AllByRecursion (λ p. images.end_of p ≤ 2 ^ 32) b.now.pieces }
    ensures exact { IfOk result (λ text. text ≡ writing.srec_of b.now) }
{
    let mut out = Vec::new(alloc);
    push_srec(alloc, &mut out, 0, &half_bytes(0), &[])?;
    push_srec_pieces(alloc, &mut out, b.pieces.as_slice())?;
    push_srec(alloc, &mut out, 7, &word_bytes(b.start), &[])?;
    Ok(Text::from_vec(out))
}
