//! The fields of a line.

ghost use Rattle.std.specs.Prelude.{◌≡◌, ◌==◌, ◌<◌, ◌≤◌, ◌+◌, ◌∷◌, ◌++◌, [], length, bytes_eq, IfOk, MatchOption, Some, None, ⊤, true};
ghost use Rattle.std.specs.List.{list_all, position, slice_split};
ghost use Rattle.bin_image.specs.Fields as fields;

use byte_tools::digits_value;
use sdt_fault::NoMemory;
use sdt_fault::digits::push_decimal;
use std::alloc::Global;

// Where the separator first stands.
fn place_of(text: &[u8], separator: u8) -> Option<usize>
    ensures place { result ≡ position (λ b. b == separator) text.now }
    ensures bound { MatchOption result ⊤ (λ at. at < length text.now) }
{
    text.iter().position(|byte| *byte == separator)
}

/// The part before the first separator, and what follows it; None where there is no separator.
pub fn cut(text: &[u8], separator: u8) -> Option<(&[u8], &[u8])>
    ensures parts { MatchOption result (fields.cut separator text.now ≡ None) (λ p. fields.cut separator text.now ≡ Some (p.0.now, p.1.now)) }
    ensures sizes { MatchOption result ⊤ (λ p. length p.0.now + 1 + length p.1.now ≡ length text.now) }
{
    match place_of(text, separator) {
        None => None,
        Some(at) => Some((&text[..at], &text[at + 1..])),
    }
}

/// Whether the two have the same bytes.
pub fn is(field: &[u8], word: &[u8]) -> bool
    ensures { result ≡ bytes_eq field.now word.now }
{
    field == word
}

fn is_word(byte: u8) -> bool
    ensures { result ≡ fields.is_word byte }
{
    byte.is_ascii_alphanumeric() || byte == b'_'
}

fn are_words(text: &[u8]) -> bool
    ensures { result ≡ list_all fields.is_word text.now }
{
    text.iter().all(|byte| is_word(*byte))
}

/// Whether the field is a region's name.
pub fn is_name(name: &[u8]) -> bool
    ensures { result ≡ fields.is_name name.now }
{
    !name.is_empty() && are_words(name)
}

fn is_upper_digit(byte: u8) -> bool
    ensures { result ≡ fields.is_upper_digit byte }
{
    (byte >= b'0' && byte <= b'9') || (byte >= b'A' && byte <= b'F')
}

fn are_upper_digits(text: &[u8]) -> bool
    ensures { result ≡ list_all fields.is_upper_digit text.now }
{
    text.iter().all(|byte| is_upper_digit(*byte))
}

/// The number that eight upper-case hexadecimal digits write.
pub fn address_of(digits: &[u8]) -> Option<u32>
    ensures { result ≡ fields.address_of digits.now }
{
    if digits.len() != 8 {
        return None;
    }
    if !are_upper_digits(digits) {
        return None;
    }
    let value = digits_value(16, digits, 0xFFFF_FFFF)?;
    Some(value as u32)
}

/// The number of 64 bits whose decimal digits these are, with no leading zero.
pub fn decimal_of(alloc: Global, digits: &[u8]) -> Result<Option<u64>, NoMemory>
    ensures { IfOk result (λ n. n ≡ fields.decimal_of digits.now) }
{
    let Some(value) = digits_value(10, digits, u64::MAX) else {
        return Ok(None);
    };
    let mut spelled = Vec::new(alloc);
    push_decimal(alloc, &mut spelled, value)?;
    if !is(spelled.as_slice(), digits) {
        return Ok(None);
    }
    Ok(Some(value))
}
