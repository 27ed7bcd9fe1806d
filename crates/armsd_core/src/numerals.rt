//! The numbers of a line.

ghost use Rattle.std.specs.Prelude.{◌≡◌, ◌≤◌, ◌<◌, ◌^◌, nat_lt, nat_eq, min};
ghost use Rattle.std.specs.List.{list_all, starts_with};
ghost use Rattle.std.specs.Char.{digit_value};
ghost use Rattle.std.specs.Str.Parse.{digits_value};
ghost use Rattle.armsd_core.specs.Numerals as numerals;

use byte_tools::{digit_value, digits_value};

fn are_digits(word: &[u8], base: u8) -> bool
    ensures { result ≡ list_all (λ d. nat_lt (digit_value d) base) word.now }
{
    word.iter().all(|byte| digit_value(*byte) < base)
}

/// The number that the digits write, or 2^32 where it is above that.
fn value_of(digits: &[u8], base: u8) -> u64
    requires { 1 ≤ base }
    ensures { result ≡ min (digits_value base digits.now) (2 ^ 32) }
{
    digits_value(base, digits, 0xFFFF_FFFF).unwrap_or(1 << 32)
}

fn written(base: u8, digits: &[u8]) -> Option<u64>
    requires { 1 ≤ base }
    ensures { result ≡ numerals.written base digits.now }
{
    if digits.is_empty() || !are_digits(digits, base) {
        return None;
    }
    Some(value_of(digits, base))
}

/// The number that a word writes: decimal digits, or `0x` and hexadecimal digits in either case.
pub fn number_of(word: &[u8]) -> Option<u64>
    ensures { result ≡ numerals.number_of word.now }
{
    match word.strip_prefix(b"0x") {
        Some(digits) => written(16, digits),
        None => written(10, word),
    }
}
