//! Contents: the lines behind a step, changed by its modes from left to right.

use crate::told::Growing;
use std::alloc::Global;

/// No content is longer.
const LIMIT: u64 = 1 << 26;

/// A number in decimal, or in hexadecimal behind `0x`.
pub fn number_of(word: &str) -> Option<u64> {
    match word.strip_prefix("0x") {
        Some(digits) => u64::from_str_radix(digits, 16).ok(),
        None => word.parse::<u64>().ok(),
    }
}

/// Puts the content that the modes make of the lines of a body, unless a mode can't be read or applied.
pub fn put_content(alloc: Global, content: &mut Growing, lines: &[&str], modes: &[&str]) -> bool {
    for line in lines {
        content.say(*line);
        content.put(b'\n');
    }
    let mut is_count = false;
    for mode in modes {
        if !is_count && *mode == "times" {
            is_count = true;
            continue;
        }
        let mut changed = Growing::new(alloc);
        changed.short = content.short;
        if !put_changed(&mut changed, content.bytes.as_slice(), *mode, is_count) {
            return false;
        }
        *content = changed;
        is_count = false;
    }
    !is_count
}

// Puts what a mode makes of a content, or so many of it.
fn put_changed(out: &mut Growing, content: &[u8], mode: &str, is_count: bool) -> bool {
    if is_count {
        return put_repeated(out, content, number_of(mode));
    }
    match mode {
        "hex" => put_hex(out, content),
        "escaped" => put_unescaped(out, content),
        "open" => {
            out.put_all(content.strip_suffix(b"\n").unwrap_or(content));
            true
        }
        _ => false,
    }
}

fn put_repeated(out: &mut Growing, unit: &[u8], count: Option<u64>) -> bool {
    let Some(count) = count else {
        return false;
    };
    if (unit.len() as u64).saturating_mul(count) > LIMIT {
        return false;
    }
    for _ in 0..count {
        out.put_all(unit);
    }
    true
}

/// Puts the bytes of hexadecimal digits, with blanks anywhere.
pub fn put_hex(out: &mut Growing, text: &[u8]) -> bool {
    let mut high = None;
    for byte in text {
        if byte.is_ascii_whitespace() {
            continue;
        }
        let Some(digit) = digit_of(*byte) else {
            return false;
        };
        match high {
            None => high = Some(digit),
            Some(front) => {
                out.put((front << 4) | digit);
                high = None;
            }
        }
    }
    high.is_none()
}

// What the bytes of an escaped text have come to.
#[derive(Clone, Copy)]
enum Read {
    /// A whole byte.
    Byte(u8),
    Backslash,
    /// `\x`
    Number,
    /// `\x` and a digit
    Digit(u8),
}

/// Puts the text with `\t`, `\r`, `\n`, `\\` and `\x00` for the bytes that they stand for.
pub fn put_unescaped(out: &mut Growing, text: &[u8]) -> bool {
    let mut read = Read::Byte(0);
    for byte in text {
        let Some(next) = read_byte(read, *byte) else {
            return false;
        };
        if let Read::Byte(whole) = next {
            out.put(whole);
        }
        read = next;
    }
    matches!(read, Read::Byte(_))
}

fn read_byte(read: Read, byte: u8) -> Option<Read> {
    match read {
        Read::Byte(_) if byte == b'\\' => Some(Read::Backslash),
        Read::Byte(_) => Some(Read::Byte(byte)),
        Read::Backslash => match byte {
            b'x' => Some(Read::Number),
            b't' => Some(Read::Byte(b'\t')),
            b'r' => Some(Read::Byte(b'\r')),
            b'n' => Some(Read::Byte(b'\n')),
            b'\\' => Some(Read::Byte(b'\\')),
            _ => None,
        },
        Read::Number => Some(Read::Digit(digit_of(byte)?)),
        Read::Digit(high) => Some(Read::Byte((high << 4) | digit_of(byte)?)),
    }
}

fn digit_of(byte: u8) -> Option<u8> {
    match byte {
        b'0'..=b'9' => Some(byte - b'0'),
        b'A'..=b'F' => Some(byte - b'A' + 10),
        b'a'..=b'f' => Some(byte - b'a' + 10),
        _ => None,
    }
}
