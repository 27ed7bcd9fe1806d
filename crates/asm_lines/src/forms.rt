//! The longest prefix of each form of a token. Each length is 0 where no prefix has the form.

ghost use Rattle.std.specs.Prelude.{◌≡◌, ◌≤◌, ◌<◌, ◌^◌, ◌==◌, ◌||◌, length, position};
ghost use Rattle.std.specs.List.{list_any, prefix_len};
ghost use Rattle.asm_model.specs.Forms as forms;
ghost use Rattle.std.specs.Option.{option_copied};
ghost use Rattle.asm_lines.specs.Lengths as lengths;
ghost use Rattle.asm_lines.specs.Steps.{Cuts};

use crate::bytes::{Class, is_between_bars, is_digit, run_len};

/// The words in braces.
pub const BRACED_WORDS: &[u8] = b"{TRUE} {FALSE} {PC} {VAR} {CONFIG} {CODESIZE} {ENDIAN}";

/// The signs that begin with a colon.
const WORD_SIGNS: &[u8] =
    b":NOT: :LNOT: :LEN: :CHR: :STR: :DEF: :MOD: :LEFT: :RIGHT: :CC: :ROL: :ROR: :SHL: :SHR: :AND: :OR: :EOR: :LAND: :LOR: :LEOR:";

/// Whether the byte is a sign with which no longer one begins.
fn is_byte_sign(c: u8) -> bool
    ensures { result ≡ list_any (λ d. d == c) lengths.byte_signs }
{
    match c {
        b'+' | b'-' | b'?' | b'*' | b'(' | b')' | b'.' | b'@' | b',' | b'#' => true,
        b'&' | b'%' | b'^' | b'!' | b'[' | b'|' | b']' | b'{' | b'}' => true,
        _ => false,
    }
}

/// The length, behind one byte.
fn one_more(len: usize) -> usize
    requires { len < 2 ^ 63 }
    ensures { result ≡ lengths.added 1 len }
{
    if len == 0 {
        return 0;
    }
    1 + len
}

/// Bytes of a name, and then a bar.
fn bar_len(rest: &[u8]) -> usize
    ensures value { result ≡ lengths.bar_len rest.now }
    ensures within { result ≤ length rest.now }
{
    let mut i = 0;
    'bytes: while i < rest.len() {
        if rest[i] == b'|' {
            return i + 1;
        }
        if !is_between_bars(rest[i]) {
            return 0;
        }
        i += 1;
    }
    0
}

/// What stands between the bars, and the second bar.
fn inner_len(rest: &[u8]) -> usize
    ensures value { result ≡ lengths.begun_len forms.is_between_bars lengths.bar_len rest.now }
    ensures within { result ≤ length rest.now }
{
    let Some((first, _)) = rest.split_first() else {
        return 0;
    };
    if is_between_bars(*first) {
        return bar_len(rest);
    }
    0
}

/// A name between bars.
pub fn barred_len(rest: &[u8]) -> usize
    ensures value { result ≡ lengths.barred_len rest.now }
    ensures within { result ≤ length rest.now }
{
    let Some((first, behind)) = rest.split_first() else {
        return 0;
    };
    if *first == b'|' {
        return one_more(inner_len(behind));
    }
    0
}

/// Digits of the base that the first byte names.
fn based_len(rest: &[u8]) -> usize
    ensures value { result ≡ lengths.based_len rest.now }
    ensures within { result ≤ length rest.now }
{
    let Some((first, behind)) = rest.split_first() else {
        return 0;
    };
    if *first < b'2' {
        return 0;
    }
    if *first > b'9' {
        return 0;
    }
    one_more(digits_len(behind, *first - b'0'))
}

/// `_` and digits of a base up to 9.
fn digits_len(rest: &[u8], base: u8) -> usize
    ensures value { result
        ≡ lengths.behind_len (λ c. c == 95) (prefix_len (forms.is_digit_of base)) rest.now }
    ensures within { result ≤ length rest.now }
{
    let Some((first, digits)) = rest.split_first() else {
        return 0;
    };
    if *first == b'_' {
        return one_more(run_len(digits, Class::DigitOf(base)));
    }
    0
}

/// `0x` and hexadecimal digits.
fn zero_x_len(rest: &[u8]) -> usize
    ensures value { result ≡ lengths.zero_x_len rest.now }
    ensures within { result ≤ length rest.now }
{
    let Some((first, behind)) = rest.split_first() else {
        return 0;
    };
    if *first == b'0' {
        return one_more(x_len(behind));
    }
    0
}

/// `x` and hexadecimal digits.
fn x_len(rest: &[u8]) -> usize
    ensures value { result
        ≡ lengths.behind_len (λ c. c == 120) (prefix_len forms.is_hex_digit) rest.now }
    ensures within { result ≤ length rest.now }
{
    let Some((first, digits)) = rest.split_first() else {
        return 0;
    };
    if *first == b'x' {
        return one_more(run_len(digits, Class::HexDigit));
    }
    0
}

/// `&` and hexadecimal digits.
fn ampersand_len(rest: &[u8]) -> usize
    ensures value { result ≡ lengths.ampersand_len rest.now }
    ensures within { result ≤ length rest.now }
{
    let Some((first, digits)) = rest.split_first() else {
        return 0;
    };
    if *first == b'&' {
        return one_more(run_len(digits, Class::HexDigit));
    }
    0
}

/// A number that does not begin with two digits, of which `decimal` is the length as a decimal one.
#[inline(never)]
fn other_number_len(rest: &[u8], decimal: usize) -> usize
    requires { decimal ≤ length rest.now }
    ensures value { result ≡ lengths.other_number_len decimal rest.now }
    ensures within { result ≤ length rest.now }
{
    let hexadecimal = zero_x_len(rest).max(ampersand_len(rest));
    decimal.max(hexadecimal).max(based_len(rest))
}

/// A number.
pub fn number_len(rest: &[u8]) -> usize
    ensures value { result ≡ lengths.number_len rest.now }
    ensures within { result ≤ length rest.now }
{
    let decimal = run_len(rest, Class::Digit);
    if decimal > 1 {
        return decimal;
    }
    other_number_len(rest, decimal)
}

/// The rest of a string behind its first quote.
fn string_len(rest: &[u8]) -> usize
    ensures value { result ≡ lengths.string_len rest.now }
    ensures within { result ≤ length rest.now }
{
    let mut i = 0;
    let mut best = 0;
    'bytes: while i < rest.len() {
        if rest[i] != b'"' {
            i += 1;
            continue;
        }
        if rest.len() - i == 1 {
            return i + 1;
        }
        if rest[i + 1] != b'"' {
            return i + 1;
        }
        best = i + 1;
        i += 2;
    }
    best
}

/// A string.
pub fn quoted_len(rest: &[u8]) -> usize
    ensures value { result ≡ lengths.quoted_len rest.now }
    ensures within { result ≤ length rest.now }
{
    let Some((first, behind)) = rest.split_first() else {
        return 0;
    };
    if *first == b'"' {
        return one_more(string_len(behind));
    }
    0
}

/// A character between single quotes.
pub fn character_len(rest: &[u8]) -> usize
    ensures value { result ≡ lengths.character_len rest.now }
    ensures within { result ≤ length rest.now }
{
    match rest {
        [b'\'', c, b'\'', ..] if c.is_ascii() => 3,
        _ => 0,
    }
}

/// One digit or two.
fn short_len(rest: &[u8]) -> usize
    ensures value { result ≡ lengths.short_len rest.now }
    ensures within { result ≤ length rest.now }
{
    let Some((first, behind)) = rest.split_first() else {
        return 0;
    };
    if !is_digit(*first) {
        return 0;
    }
    let Some((second, _)) = behind.split_first() else {
        return 1;
    };
    if is_digit(*second) {
        return 2;
    }
    1
}

/// F or B, and one digit or two.
fn way_len(rest: &[u8]) -> usize
    ensures value { result
        ≡ lengths.behind_len (λ c. c == 70 || c == 66) lengths.short_len rest.now }
    ensures within { result ≤ length rest.now }
{
    let Some((first, digits)) = rest.split_first() else {
        return 0;
    };
    if *first == b'F' || *first == b'B' {
        return one_more(short_len(digits));
    }
    0
}

/// A reference to a local label.
pub fn local_len(rest: &[u8]) -> usize
    ensures value { result ≡ lengths.local_len rest.now }
    ensures within { result ≤ length rest.now }
{
    let Some((first, behind)) = rest.split_first() else {
        return 0;
    };
    if *first == b'%' {
        return one_more(short_len(behind).max(way_len(behind)));
    }
    0
}

/// The word, if the rest begins with it.
fn word_len(word: &[u8], rest: &[u8]) -> usize
    ensures value { result ≡ lengths.word_len word.now rest.now }
    ensures within { result ≤ length rest.now }
{
    if rest.starts_with(word) {
        return word.len();
    }
    0
}

/// The longest of the words of a text, with spaces between them, with which the rest begins.
pub fn one_of_len(text: &[u8], rest: &[u8]) -> usize
    ensures value { result ≡ lengths.one_of_len text.now rest.now }
    ensures within { result ≤ length rest.now }
{
    let mut best = 0;
    let mut left = text;
    'words: loop {
        match cut(left) {
            (word, None) => return word_len(word, rest).max(best),
            (word, Some(behind)) => {
                best = word_len(word, rest).max(best);
                left = behind;
            }
        }
    }
}

/// An operator, or a sign of another form. The first byte tells which there are.
pub fn sign_len(rest: &[u8]) -> usize
    ensures value { result ≡ lengths.one_of_len forms.signs rest.now }
    ensures within { result ≤ length rest.now }
{
    let Some((first, _)) = rest.split_first() else {
        return 0;
    };
    match *first {
        b':' => one_of_len(WORD_SIGNS, rest),
        b'=' => one_of_len(b"= ==", rest),
        b'/' => one_of_len(b"/ /=", rest),
        b'<' => one_of_len(b"<> < <=", rest),
        b'>' => one_of_len(b"> >=", rest),
        other => usize::from(is_byte_sign(other)),
    }
}

/// The first word of a text, and what stands behind the space after it.
fn cut(text: &[u8]) -> (&[u8], Option<&[u8]>)
    ensures { Cuts text.now (result.0.now) (option_copied result.1) }
{
    match space(text) {
        None => (text, None),
        Some(end) => (&text[..end], Some(&text[end + 1..])),
    }
}

/// Where the first space stands.
fn space(text: &[u8]) -> Option<usize>
    ensures { result ≡ position (λ c. c == 32) text.now }
{
    text.iter().position(|c| *c == b' ')
}
