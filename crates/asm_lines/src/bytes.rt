//! Classes of bytes.

ghost use Rattle.std.specs.Prelude.{◌≡◌, ◌≤◌, length};
ghost use Rattle.std.specs.List.{prefix_len};
ghost use Rattle.asm_model.specs.Forms as forms;
ghost use Rattle.asm_lines.specs.Lengths.{passes, is_alone, kind_of};

/// What each byte is: a letter or `_` (l), a digit (d), a sign that stands alone (,) or another (.).
const KINDS: &[u8] = b"\
    ...................................,....,,,,,,,.dddddddddd......\
    .llllllllllllllllllllllllll,.,.l.llllllllllllllllllllllllll.....\
    ................................................................\
    ................................................................";

/// What the byte is, as `KINDS` has it.
fn kind_of(c: u8) -> u8
    ensures { result ≡ kind_of c }
{
    KINDS[c as usize]
}

/// A class of bytes.
#[derive(Clone, Copy)]
pub enum Class {
    /// Space and tab.
    Blank,
    /// A byte of a name.
    Word,
    Digit,
    HexDigit,
    /// A digit of a base up to 9.
    DigitOf(u8),
}

/// How many bytes of the class stand at the front.
pub fn run_len(rest: &[u8], class: Class) -> usize
    ensures run { result ≡ prefix_len (passes class) rest.now }
    ensures within { result ≤ length rest.now }
{
    rest.iter().take_while(|c| is_of(class, **c)).count()
}

/// Whether the byte is of the class.
pub fn is_of(class: Class, c: u8) -> bool
    ensures { result ≡ passes class c }
{
    match class {
        Class::Blank => c == b' ' || c == b'\t',
        Class::Word => is_word(c),
        Class::Digit => is_digit(c),
        Class::HexDigit => is_hex_digit(c),
        Class::DigitOf(base) => b'0' <= c && c - b'0' < base,
    }
}

/// A byte of a name.
fn is_word(c: u8) -> bool
    ensures { result ≡ forms.is_word c }
{
    kind_of(c) >= b'd'
}

/// A letter, or `_`.
pub fn is_letter(c: u8) -> bool
    ensures { result ≡ forms.is_letter c }
{
    kind_of(c) == b'l'
}

/// A sign with which no other token begins; one of those that stand most often.
pub fn is_alone(c: u8) -> bool
    ensures { result ≡ is_alone c }
{
    kind_of(c) == b','
}

pub fn is_digit(c: u8) -> bool
    ensures { result ≡ forms.is_digit c }
{
    b'0' <= c && c <= b'9'
}

/// A hexadecimal digit, in either case.
pub fn is_hex_digit(c: u8) -> bool
    ensures { result ≡ forms.is_hex_digit c }
{
    is_digit(c) || (b'A' <= c && c <= b'F') || (b'a' <= c && c <= b'f')
}

/// A byte of a name between bars: printable, and no bar.
pub fn is_between_bars(c: u8) -> bool
    ensures { result ≡ forms.is_between_bars c }
{
    (b' ' <= c && c < b'|') || c == b'}' || c == b'~'
}
