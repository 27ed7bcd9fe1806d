//! Numbers on a command line.

ghost use Rattle.std.specs.Prelude.{◌≡◌, ◌≤◌, ◌==◌, slice_index};
ghost use Rattle.tool_words.specs.Numerals as numerals;

fn has_plus(digits: &str) -> bool
    ensures { result ≡ (slice_index digits.now 0 == 43) }
{
    match digits.as_bytes().first() {
        Some(byte) => *byte == b'+',
        None => false,
    }
}

/// The number that digits of a base write; None where they aren't such digits, or the number has more
/// than 32 bits.
#[tactic(auto, using(crate::proofs::NumeralLemmas::numeral_signed))]
fn numeral(base: u32, digits: &str) -> Option<u32>
    requires least { 2 ≤ base }
    requires most { base ≤ 36 }
    ensures { result ≡ numerals.numeral base digits.now }
{
    if has_plus(digits) {
        return None;
    }
    match u32::from_str_radix(digits, base) {
        Ok(number) => Some(number),
        Err(_) => None,
    }
}

/// The number that a word writes in decimal digits alone.
pub fn decimal(word: &str) -> Option<u32>
    ensures { result ≡ numerals.numeral 10 word.now }
{
    numeral(10, word)
}

/// The number that a word writes: decimal digits, or `0x` and hexadecimal digits in either case.
pub fn number(word: &str) -> Option<u32>
    ensures { result ≡ numerals.number word.now }
{
    match word.strip_prefix("0x") {
        Some(digits) => numeral(16, digits),
        None => decimal(word),
    }
}
