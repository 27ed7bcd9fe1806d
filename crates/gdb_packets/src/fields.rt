//! The fields of a packet: numbers, pairs of them, and data.

ghost use Rattle.std.specs.Prelude.{◌≡◌, ◌==◌, nat_lt, false, position, IfOk, MatchOption, None, Some};
ghost use Rattle.std.specs.List.{list_all};
ghost use Rattle.std.specs.Char.{digit_value};
ghost use Rattle.gdb_packets.specs.Fields as fields;

use byte_tools::{digit_value, digits_value};
use hex::FromHexError;
use sdt_fault::{Bytes, NoMemory};
use std::alloc::Global;

fn are_digits(text: &[u8]) -> bool
    ensures { result ≡ list_all (λ d. nat_lt (digit_value d) 16) text.now }
{
    text.iter().all(|byte| digit_value(*byte) < 16)
}

/// The number below 2^32 that one or more hexadecimal digits write, the highest first.
pub fn number(text: &[u8]) -> Option<u32>
    ensures { result ≡ fields.number text.now }
{
    if text.is_empty() || !are_digits(text) {
        return None;
    }
    match digits_value(16, text, 0xFFFF_FFFF) {
        None => None,
        Some(value) => Some(value as u32),
    }
}

fn place_of(text: &[u8], mark: u8) -> Option<usize>
    ensures { result ≡ position (λ b. b == mark) text.now }
{
    text.iter().position(|byte| *byte == mark)
}

/// What stands before the first such mark, and what behind it.
pub fn cut(text: &[u8], mark: u8) -> Option<(&[u8], &[u8])>
    ensures { MatchOption result (fields.cut mark text.now ≡ None) (λ p. fields.cut mark text.now ≡ Some (p.0.now, p.1.now)) }
{
    match place_of(text, mark) {
        None => None,
        Some(at) => Some((&text[..at], &text[at + 1..])),
    }
}

/// Two numbers with a mark between them.
pub fn pair(text: &[u8], mark: u8) -> Option<(u32, u32)>
    ensures { result ≡ fields.pair mark text.now }
{
    let (first, second) = cut(text, mark)?;
    Some((number(first)?, number(second)?))
}

/// The word of four bytes, the lowest first.
pub fn little(bytes: [u8; 4]) -> u32
    ensures { result ≡ fields.little bytes }
{
    let low = u32::from(bytes[0]) + 256 * u32::from(bytes[1]);
    low + 65536 * u32::from(bytes[2]) + 0x100_0000 * u32::from(bytes[3])
}

/// The word that four pairs of digits write, its lowest byte first.
pub fn word(text: &[u8]) -> Option<u32>
    ensures { result ≡ fields.word text.now }
{
    let mut bytes = [0u8; 4];
    match hex::decode_to_slice(text, &mut bytes) {
        Ok(()) => Some(little(bytes)),
        Err(_) => None,
    }
}

/// The bytes that pairs of digits write.
pub fn bytes_in(alloc: Global, text: &[u8]) -> Result<Option<Bytes>, NoMemory>
    ensures { IfOk result (λ found. found ≡ fields.bytes_in text.now) }
{
    match hex::decode(alloc, text) {
        Ok(bytes) => Ok(Some(Bytes::from_vec(bytes))),
        Err(FromHexError::OutOfMemory) => Err(NoMemory),
        Err(_) => Ok(None),
    }
}

/// The bytes of a text with escapes: behind `}` stands a byte with its bit 5 changed.
pub fn unescaped(alloc: Global, text: &[u8]) -> Result<Bytes, NoMemory>
    ensures { IfOk result (λ bytes. bytes ≡ fields.unescaped false text.now) }
{
    let mut bytes = Vec::new(alloc);
    let mut behind = false;
    'bytes: for byte in text {
        if behind {
            bytes.push(*byte ^ 0x20)?;
            behind = false;
        } else if *byte == b'}' {
            behind = true;
        } else {
            bytes.push(*byte)?;
        }
    }
    Ok(Bytes::from_vec(bytes))
}
