//! The directive that a word names.

ghost use Rattle.std.specs.Prelude.{◌≡◌};
ghost use Rattle.asm_model.specs.Directives as directives;
ghost use Rattle.asm_expr.specs.Beginnings.{BeginsWith};

use crate::rows::row_of;
use asm_model::{DataItem, Directive};

/// Directives by the first letters of their names.
static OF_A: [(&[u8], Directive); 3] = [
    (b"ALIGN", Directive::Align),
    (b"AREA", Directive::Area),
    (b"ASSERT", Directive::Assert),
];

static OF_C: [(&[u8], Directive); 2] = [
    (b"CODE16", Directive::Code16),
    (b"CODE32", Directive::Code32),
];

static OF_D: [(&[u8], Directive); 7] = [
    (b"DCD", Directive::Constants(DataItem::Word)),
    (b"DCDU", Directive::Constants(DataItem::UnalignedWord)),
    (b"DCW", Directive::Constants(DataItem::HalfWord)),
    (b"DCB", Directive::Constants(DataItem::Byte)),
    (b"DATA", Directive::Data),
    (b"DCFS", Directive::FloatingPoint),
    (b"DCFD", Directive::FloatingPoint),
];

static OF_E: [(&[u8], Directive); 7] = [
    (b"ENTRY", Directive::Entry),
    (b"END", Directive::End),
    (b"EXPORT", Directive::Export),
    (b"EXTERN", Directive::Extern),
    (b"EQU", Directive::Equ),
    (b"ELSE", Directive::Expansion),
    (b"ENDIF", Directive::Expansion),
];

static OF_F: [(&[u8], Directive); 2] = [
    (b"FIELD", Directive::Field),
    (b"FN", Directive::FloatingPoint),
];

static OF_G: [(&[u8], Directive); 5] = [
    (b"GLOBAL", Directive::Export),
    (b"GBLA", Directive::Expansion),
    (b"GBLL", Directive::Expansion),
    (b"GBLS", Directive::Expansion),
    (b"GET", Directive::Expansion),
];

static OF_I: [(&[u8], Directive); 3] = [
    (b"IMPORT", Directive::Import),
    (b"IF", Directive::Expansion),
    (b"INCLUDE", Directive::Expansion),
];

static OF_K: [(&[u8], Directive); 1] = [(b"KEEP", Directive::Keep)];

static OF_L: [(&[u8], Directive); 4] = [
    (b"LTORG", Directive::Ltorg),
    (b"LCLA", Directive::Expansion),
    (b"LCLL", Directive::Expansion),
    (b"LCLS", Directive::Expansion),
];

static OF_M: [(&[u8], Directive); 4] = [
    (b"MAP", Directive::Map),
    (b"MACRO", Directive::Expansion),
    (b"MEND", Directive::Expansion),
    (b"MEXIT", Directive::Expansion),
];

static OF_N: [(&[u8], Directive); 1] = [(b"NOFP", Directive::Nofp)];

static OF_O: [(&[u8], Directive); 1] = [(b"OPT", Directive::Opt)];

static OF_R: [(&[u8], Directive); 2] = [(b"RN", Directive::Rn), (b"ROUT", Directive::Rout)];

static OF_S: [(&[u8], Directive); 5] = [
    (b"SPACE", Directive::Space),
    (b"SUBT", Directive::Subt),
    (b"SETA", Directive::Expansion),
    (b"SETL", Directive::Expansion),
    (b"SETS", Directive::Expansion),
];

static OF_T: [(&[u8], Directive); 1] = [(b"TTL", Directive::Ttl)];

static OF_W: [(&[u8], Directive); 2] = [
    (b"WHILE", Directive::Expansion),
    (b"WEND", Directive::Expansion),
];

/// Directives that are written as signs.
static SIGNS: [(&[u8], Directive); 9] = [
    (b"&", Directive::Constants(DataItem::Word)),
    (b"=", Directive::Constants(DataItem::Byte)),
    (b"%", Directive::Space),
    (b"^", Directive::Map),
    (b"#", Directive::Field),
    (b"*", Directive::Equ),
    (b"[", Directive::Expansion),
    (b"|", Directive::Expansion),
    (b"]", Directive::Expansion),
];

/// The directive that a word names, in any case; None where it names none.
#[tactic(auto, using(crate::proofs::DirectiveLemmas::empty_named))]
pub fn directive_named(word: &[u8]) -> Option<Directive>
    ensures { result ≡ directives.directive_named word.now }
{
    let Some((first, _)) = word.split_first() else {
        return None;
    };
    named_at(first.to_ascii_lowercase(), word)
}

/// The directive that a word names, by its first letter in lower case.
fn named_at(letter: u8, word: &[u8]) -> Option<Directive>
    requires { BeginsWith letter word.now }
    ensures { result ≡ directives.directive_named word.now }
{
    match letter {
        b'a' => row_of(word, &OF_A),
        b'c' => row_of(word, &OF_C),
        b'd' => row_of(word, &OF_D),
        b'e' => row_of(word, &OF_E),
        b'f' => row_of(word, &OF_F),
        b'g' => row_of(word, &OF_G),
        b'i' => row_of(word, &OF_I),
        b'k' => row_of(word, &OF_K),
        b'l' => row_of(word, &OF_L),
        b'm' => row_of(word, &OF_M),
        b'n' => row_of(word, &OF_N),
        b'o' => row_of(word, &OF_O),
        b'r' => row_of(word, &OF_R),
        b's' => row_of(word, &OF_S),
        b't' => row_of(word, &OF_T),
        b'w' => row_of(word, &OF_W),
        _ => row_of(word, &SIGNS),
    }
}
