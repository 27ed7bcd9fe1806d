//! The register that a word names.

ghost use Rattle.std.specs.Prelude.{◌≡◌};
ghost use Rattle.asm_model.specs.Registers as registers;
ghost use Rattle.asm_expr.specs.Beginnings.{BeginsWith};

use crate::rows::row_of;

/// r0 to r15.
static NUMBERED: [(&[u8], u8); 16] = [
    (b"r0", 0),
    (b"r1", 1),
    (b"r2", 2),
    (b"r3", 3),
    (b"r4", 4),
    (b"r5", 5),
    (b"r6", 6),
    (b"r7", 7),
    (b"r8", 8),
    (b"r9", 9),
    (b"r10", 10),
    (b"r11", 11),
    (b"r12", 12),
    (b"r13", 13),
    (b"r14", 14),
    (b"r15", 15),
];

/// The other registers by the first letters of their names.
static OF_A: [(&[u8], u8); 4] = [(b"a1", 0), (b"a2", 1), (b"a3", 2), (b"a4", 3)];

static OF_V: [(&[u8], u8); 8] = [
    (b"v1", 4),
    (b"v2", 5),
    (b"v3", 6),
    (b"v4", 7),
    (b"v5", 8),
    (b"v6", 9),
    (b"v7", 10),
    (b"v8", 11),
];

static OF_S: [(&[u8], u8); 3] = [(b"sb", 9), (b"sl", 10), (b"sp", 13)];

static OF_F: [(&[u8], u8); 1] = [(b"fp", 11)];

static OF_I: [(&[u8], u8); 1] = [(b"ip", 12)];

static OF_L: [(&[u8], u8); 1] = [(b"lr", 14)];

static OF_P: [(&[u8], u8); 1] = [(b"pc", 15)];

/// The register that a word names in any case, 0 to 15; None where it names none.
#[tactic(auto, using(crate::proofs::RegisterLemmas::empty_named))]
pub fn register_named(word: &[u8]) -> Option<u8>
    ensures { result ≡ registers.register_named word.now }
{
    let Some((first, _)) = word.split_first() else {
        return None;
    };
    named_at(first.to_ascii_lowercase(), word)
}

/// The register that a word names, by its first letter in lower case.
fn named_at(letter: u8, word: &[u8]) -> Option<u8>
    requires { BeginsWith letter word.now }
    ensures { result ≡ registers.register_named word.now }
{
    match letter {
        b'r' => numbered_register(word),
        b'a' => row_of(word, &OF_A),
        b'v' => row_of(word, &OF_V),
        b's' => row_of(word, &OF_S),
        b'f' => row_of(word, &OF_F),
        b'i' => row_of(word, &OF_I),
        b'l' => row_of(word, &OF_L),
        b'p' => row_of(word, &OF_P),
        _ => None,
    }
}

/// The register that a word with an R in front names.
fn numbered_register(word: &[u8]) -> Option<u8>
    requires { BeginsWith 114 word.now }
    ensures { result ≡ registers.register_named word.now }
{
    if word.len() != 2 {
        return row_of(word, &NUMBERED);
    }
    match word[1] {
        b'0' => Some(0),
        b'1' => Some(1),
        b'2' => Some(2),
        b'3' => Some(3),
        b'4' => Some(4),
        b'5' => Some(5),
        b'6' => Some(6),
        b'7' => Some(7),
        b'8' => Some(8),
        b'9' => Some(9),
        _ => row_of(word, &NUMBERED),
    }
}
