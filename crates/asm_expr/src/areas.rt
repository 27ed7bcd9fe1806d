//! The attributes of AREA.

ghost use Rattle.std.specs.Prelude.{◌≡◌, ◌++◌, [], IfOk};
ghost use Rattle.asm_model.specs.Areas as areas;
ghost use Rattle.asm_model.specs.Operands as operands;
ghost use Rattle.asm_model.specs.Readings as readings;
ghost use Rattle.std.specs.Option.{option_copied};
ghost use Rattle.asm_expr.specs.AreaSteps.{ReadsAlignment, TakesAttribute, IsWritten, ReadsBehind};
ghost use Rattle.asm_expr.specs.AreaSteps.{operands_behind, has_bad_word_in, with_alignment};

use crate::kinds::both;
use crate::listing::with_last;
use crate::operands::{first_operand, is};
use crate::or_kind;
use crate::parts::piece_of;
use crate::read::shared_expression;
use crate::rows::row_of;
use asm_model::{AreaAttributes, Attribute, Contents, Expr, SharedText, Token, TokenKind};
use sdt_fault::kinds::LineKind;
use sdt_fault::{List, NoMemory};
use std::alloc::Global;

/// The words of attributes.
static ATTRIBUTES: [(&[u8], Attribute); 10] = [
    (b"CODE", Attribute::Code),
    (b"DATA", Attribute::Data),
    (b"READONLY", Attribute::ReadOnly),
    (b"READWRITE", Attribute::ReadWrite),
    (b"NOINIT", Attribute::NoInit),
    (b"INTERWORK", Attribute::Interwork),
    (b"HALFWORD", Attribute::Halfword),
    (b"PIC", Attribute::Pic),
    (b"REENTRANT", Attribute::Reentrant),
    (b"ALIGN", Attribute::Align),
];

/// The attribute that a word names, in any case; None where it names none.
#[tactic(auto, unfolding(asm_model::specs::Areas::attribute_named))]
fn attribute_named(word: &[u8]) -> Option<Attribute>
    ensures { result ≡ areas.attribute_named word.now }
{
    row_of(word, &ATTRIBUTES)
}

/// A number that tells attributes apart.
fn code(attribute: Attribute) -> u8
    ensures { result ≡ areas.attribute_code attribute }
{
    attribute as u8
}

/// How often an attribute stands among these.
fn occurrences(attribute: Attribute, words: &[Attribute]) -> usize
    ensures { result ≡ areas.occurrences attribute words.now }
{
    words
        .iter()
        .filter(|word| code(**word) == code(attribute))
        .count()
}

fn has(attribute: Attribute, words: &[Attribute]) -> bool
    ensures { result ≡ areas.has attribute words.now }
{
    occurrences(attribute, words) > 0
}

/// The attributes.
const ALL: [Attribute; 10] = [
    Attribute::Code,
    Attribute::Data,
    Attribute::ReadOnly,
    Attribute::ReadWrite,
    Attribute::NoInit,
    Attribute::Interwork,
    Attribute::Halfword,
    Attribute::Pic,
    Attribute::Reentrant,
    Attribute::Align,
];

/// Whether an attribute stands twice.
#[tactic(auto, unfolding(asm_model::specs::Areas::is_repeated))]
fn is_repeated(words: &[Attribute]) -> bool
    ensures { result ≡ areas.is_repeated words.now }
{
    ALL.iter()
        .any(|attribute| occurrences(*attribute, words) > 1)
}

/// Whether attributes exclude each other.
#[tactic(auto, unfolding(asm_model::specs::Areas::is_contradicting))]
fn is_contradicting(words: &[Attribute]) -> bool
    ensures { result ≡ areas.is_contradicting words.now }
{
    let code = has(Attribute::Code, words);
    let data = has(Attribute::Data, words);
    let zero = has(Attribute::NoInit, words);
    let read_only = has(Attribute::ReadOnly, words);
    let read_write = has(Attribute::ReadWrite, words);
    let interwork = has(Attribute::Interwork, words);
    let halfword = has(Attribute::Halfword, words);
    (code && (data || zero))
        || (!code && !data && !zero)
        || (read_only && read_write)
        || (!code && (interwork || halfword))
}

/// What an area with these attributes holds.
fn contents_of(words: &[Attribute]) -> Contents
    ensures { result ≡ areas.contents_of words.now }
{
    if has(Attribute::Code, words) {
        return Contents::Code;
    }
    if has(Attribute::NoInit, words) {
        return Contents::Zeroes;
    }
    Contents::Data
}

/// Whether an area with these attributes is read-only.
fn is_read_only(words: &[Attribute]) -> bool
    ensures { result ≡ areas.is_read_only words.now }
{
    if has(Attribute::Code, words) {
        return !has(Attribute::ReadWrite, words);
    }
    has(Attribute::ReadOnly, words)
}

fn attributes_of(words: &[Attribute], has_bad_word: bool, alignments: List<Expr>) -> AreaAttributes
    ensures { result ≡ areas.attributes_of words.now has_bad_word alignments }
{
    AreaAttributes {
        contents: contents_of(words),
        read_only: is_read_only(words),
        interwork: has(Attribute::Code, words) && has(Attribute::Interwork, words),
        halfword: has(Attribute::Code, words) && has(Attribute::Halfword, words),
        pic: has(Attribute::Pic, words),
        reentrant: has(Attribute::Reentrant, words),
        alignments,
        has_bad_word,
    }
}

/// A word by itself: ALIGN has a number.
fn plain_attribute(attribute: Option<Attribute>) -> Result<Option<Expr>, LineKind>
    ensures { result ≡ areas.plain_attribute attribute }
{
    match attribute {
        None => Ok(None),
        Some(Attribute::Align) => Err(LineKind::Syntax),
        Some(_) => Ok(None),
    }
}

/// An operand that is one token.
fn word_attribute(kind: TokenKind, word: &[u8]) -> Result<Option<Expr>, LineKind>
    ensures { result ≡ areas.word_attribute kind word.now }
{
    match kind {
        TokenKind::Name => plain_attribute(attribute_named(word)),
        _ => Err(LineKind::Syntax),
    }
}

/// Whether two tokens begin an alignment.
fn begins_alignment(text: &SharedText, word: Token, sign: Token) -> bool
    ensures { result ≡ areas.begins_alignment text.now word sign }
{
    match attribute_named(piece_of(text, word)) {
        None => false,
        Some(attribute) => {
            if code(attribute) != 9 {
                return false;
            }
            is(piece_of(text, sign), b"=")
        }
    }
}

/// The attribute that an operand writes.
fn attribute_in(text: &SharedText, operand: &[Token]) -> Option<Attribute>
    ensures { result ≡ areas.attribute_in text.now operand.now }
{
    match operand {
        [] => None,
        [word] => attribute_named(piece_of(text, *word)),
        [word, sign, ..] => {
            if begins_alignment(text, *word, *sign) {
                return Some(Attribute::Align);
            }
            None
        }
    }
}

/// The number of an alignment.
fn alignment(
    alloc: Global,
    text: &SharedText,
    tokens: &[Token],
) -> Result<Result<Option<Expr>, LineKind>, NoMemory>
    ensures { IfOk result (λ reading. ReadsAlignment text.now tokens.now reading) }
{
    let number = or_kind!(shared_expression(alloc, text, tokens)?);
    Ok(Ok(Some(number)))
}

/// What an operand reads as: the number of an alignment, where it is one.
fn read_attribute(
    alloc: Global,
    text: &SharedText,
    operand: &[Token],
) -> Result<Result<Option<Expr>, LineKind>, NoMemory>
    ensures { IfOk result (λ reading. areas.ReadsAttribute text.now operand.now reading) }
{
    match operand {
        [] => Ok(Err(LineKind::Syntax)),
        [word] => Ok(word_attribute(word.kind, piece_of(text, *word))),
        [word, sign, tokens @ ..] => {
            if begins_alignment(text, *word, *sign) {
                return alignment(alloc, text, tokens);
            }
            Ok(Err(LineKind::Syntax))
        }
    }
}

/// A list, with what an option holds behind it.
fn with_listed<T: Drop>(list: List<T>, more: Option<T>) -> Result<List<T>, NoMemory>
    ensures { IfOk result (λ all. all ≡ list ++ areas.listed more) }
{
    match more {
        None => Ok(list),
        Some(item) => with_last(list, item),
    }
}

/// The numbers of alignments, with what one operand more reads as.
fn with_alignment(
    alignments: Result<List<Expr>, LineKind>,
    reading: Result<Option<Expr>, LineKind>,
) -> Result<Result<List<Expr>, LineKind>, NoMemory>
    ensures { IfOk result (λ all. all ≡ with_alignment alignments reading) }
{
    let (list, more) = or_kind!(both(alignments, reading));
    Ok(Ok(with_listed(list, more)?))
}

/// Attributes as they are written: their words, and the numbers of alignments among them.
#[derive(Drop)]
pub struct Written {
    pub words: Vec<Attribute>,
    /// Whether an operand is no attribute.
    pub has_other: bool,
    pub alignments: Result<List<Expr>, LineKind>,
}

impl Written {
    /// One operand more.
    fn take(self, alloc: Global, text: &SharedText, operand: &[Token]) -> Result<Written, NoMemory>
        ensures { IfOk result (λ written. TakesAttribute text.now operand.now self written) }
    {
        let Written {
            mut words,
            has_other,
            alignments,
        } = self;
        let attribute = attribute_in(text, operand);
        let has_other = has_other || attribute.is_none();
        if let Some(word) = attribute {
            words.push(word)?;
        }
        let reading = read_attribute(alloc, text, operand)?;
        Ok(Written {
            words,
            has_other,
            alignments: with_alignment(alignments, reading)?,
        })
    }
}

/// No alignment.
fn no_alignments(alloc: Global) -> List<Expr>
    ensures { result ≡ [] }
{
    List::from_vec(Vec::new(alloc))
}

/// The attributes that operands write.
fn read_attributes(alloc: Global, text: &SharedText, tokens: &[Token]) -> Result<Written, NoMemory>
    ensures { IfOk result
        (λ written. IsWritten text.now (operands.operands_at text.now 0 tokens.now) written) }
{
    let mut written = Written {
        words: Vec::new(alloc),
        has_other: false,
        alignments: Ok(no_alignments(alloc)),
    };
    let mut left = tokens;
    'operands: loop {
        let (operand, behind) = first_operand(text, left);
        written = written.take(alloc, text, operand)?;
        match behind {
            None => return Ok(written),
            Some(tokens) => left = tokens,
        }
    }
}

/// Whether a word is no attribute, or words don't agree.
fn has_bad_word(words: &[Attribute], has_other: bool) -> bool
    ensures { result ≡ has_bad_word_in words.now has_other }
{
    has_other || is_repeated(words) || is_contradicting(words)
}

/// Attributes, where the numbers of alignments are read.
fn attributes_with(
    words: &[Attribute],
    has_other: bool,
    alignments: Result<List<Expr>, LineKind>,
) -> Result<AreaAttributes, LineKind>
    ensures { result ≡ readings.mapped
        (areas.attributes_of words.now (has_bad_word_in words.now has_other)) alignments }
{
    let numbers = alignments?;
    Ok(attributes_of(words, has_bad_word(words, has_other), numbers))
}

/// The attributes behind the name of an area, where there are operands behind it.
pub fn attributes(
    alloc: Global,
    text: &SharedText,
    behind: Option<&[Token]>,
) -> Result<Result<AreaAttributes, LineKind>, NoMemory>
    ensures { IfOk result
        (λ reading. ReadsBehind text.now
        (operands_behind text.now (option_copied behind.entry)) reading) }
{
    match behind {
        None => Ok(attributes_with(&[], false, Ok(no_alignments(alloc)))),
        Some(tokens) => {
            let Written {
                words,
                has_other,
                alignments,
            } = read_attributes(alloc, text, tokens)?;
            Ok(attributes_with(words.as_slice(), has_other, alignments))
        }
    }
}
