//! Register lists, bases that are written back, and status registers.

ghost use Rattle.std.specs.Prelude.{◌≡◌, ◌∷◌, ◌++◌, [], IfOk, Some, None, length, ◌<◌, ◌≤◌, ◌^◌};
ghost use Rattle.std.specs.Option.{option_copied};
ghost use Rattle.asm_model.specs.Operands as model;
ghost use Rattle.asm_model.specs.Readings as readings;
ghost use Rattle.asm_arm.specs.Lists as lists;

use crate::mnemonics::{begin, behind};
use crate::operands::{between, marked, register, register_of};
use asm_expr::kinds::both;
use asm_expr::operands::{first_operand, is};
use asm_expr::or_kind;
use asm_expr::parts::piece_of;
use asm_expr::rows::row_of;
use asm_model::{ListItem, Register, SharedText, StatusFields, StatusRegister, Token, TokenKind};
use sdt_fault::kinds::LineKind;
use sdt_fault::{List, NoMemory};
use std::alloc::Global;

/// The status registers.
static STATUS: [(&[u8], StatusRegister); 2] = [
    (b"CPSR", StatusRegister::Current),
    (b"SPSR", StatusRegister::Saved),
];

/// The same, before fields.
static STATUS_WITH_FIELDS: [(&[u8], StatusRegister); 2] = [
    (b"CPSR_", StatusRegister::Current),
    (b"SPSR_", StatusRegister::Saved),
];

/// A base, and whether `!` stands behind it.
pub fn base(
    alloc: Global,
    text: &SharedText,
    tokens: &[Token],
) -> Result<Result<(Register, bool), LineKind>, NoMemory>
    ensures { IfOk result (λ base. base ≡ lists.base text.now tokens.now) }
{
    let (tokens, mark) = marked(text, b"!", tokens);
    let rn = or_kind!(register(alloc, text, tokens)?);
    Ok(Ok((rn, mark)))
}

/// A register of a list.
fn one_register(
    alloc: Global,
    text: &SharedText,
    token: Token,
) -> Result<Result<ListItem, LineKind>, NoMemory>
    ensures { IfOk result (λ item. item ≡ lists.item text.now (token ∷ [])) }
{
    let register = or_kind!(register_of(alloc, text, token)?);
    Ok(Ok(ListItem::One(register)))
}

/// All registers from one to another, where both are read.
fn range_of(
    first: Result<Register, LineKind>,
    last: Result<Register, LineKind>,
) -> Result<ListItem, LineKind>
    ensures { result ≡ lists.range_of first last }
{
    let (first, last) = both(first, last)?;
    Ok(ListItem::Range { first, last })
}

/// All registers from one to another.
fn register_range(
    alloc: Global,
    text: &SharedText,
    first: Token,
    sign: Token,
    last: Token,
) -> Result<Result<ListItem, LineKind>, NoMemory>
    ensures { IfOk result (λ item. item ≡ lists.item text.now (first ∷ sign ∷ last ∷ [])) }
{
    if !is(piece_of(text, sign), b"-") {
        return Ok(Err(LineKind::Syntax));
    }
    let first = register_of(alloc, text, first)?;
    let last = register_of(alloc, text, last)?;
    Ok(range_of(first, last))
}

/// An entry of a list.
fn item(
    alloc: Global,
    text: &SharedText,
    tokens: &[Token],
) -> Result<Result<ListItem, LineKind>, NoMemory>
    ensures { IfOk result (λ item. item ≡ lists.item text.now tokens.now) }
{
    match tokens {
        [] => Ok(Err(LineKind::Syntax)),
        [token] => one_register(alloc, text, *token),
        [_, _] => Ok(Err(LineKind::Syntax)),
        [first, sign, last] => register_range(alloc, text, *first, *sign, *last),
        [_, _, _, _, ..] => Ok(Err(LineKind::Syntax)),
    }
}

/// Entries, with one reading more.
fn with_one_more(
    so_far: Result<List<ListItem>, LineKind>,
    reading: Result<ListItem, LineKind>,
) -> Result<Result<List<ListItem>, LineKind>, NoMemory>
    ensures { IfOk result (λ all. all ≡ readings.on_both (λ es e. es ++ e ∷ []) so_far reading) }
{
    let (list, item) = or_kind!(both(so_far, reading));
    let mut items = list.into_vec();
    items.push(item)?;
    Ok(Ok(List::from_vec(items)))
}

/// The entries of a list.
fn items(
    alloc: Global,
    text: &SharedText,
    tokens: &[Token],
) -> Result<Result<List<ListItem>, LineKind>, NoMemory>
    ensures { IfOk result (λ all. all
        ≡ lists.items text.now (model.operands_at text.now 0 tokens.now)) }
{
    // a comma between each two operands
    let mut so_far = Ok(List::from_vec(Vec::with_capacity(alloc, tokens.len() / 2 + 1)?));
    let mut left = tokens;
    'operands: loop {
        let (operand, behind) = first_operand(text, left);
        let reading = item(alloc, text, operand)?;
        so_far = with_one_more(so_far, reading)?;
        match behind {
            None => return Ok(so_far),
            Some(tokens) => left = tokens,
        }
    }
}

/// Whether tokens are `{PC}` alone.
fn is_pc(text: &SharedText, tokens: &[Token]) -> bool
    ensures { result ≡ lists.is_pc text.now tokens.now }
{
    match tokens {
        [] => false,
        [token] => is(piece_of(text, *token), b"{PC}"),
        [_, _, ..] => false,
    }
}

/// The list of pc alone.
fn pc_alone(alloc: Global) -> Result<List<ListItem>, NoMemory>
    ensures { IfOk result (λ list. list ≡ lists.pc_alone) }
{
    let mut items = Vec::with_capacity(alloc, 1)?;
    items.push(ListItem::One(Register::Number(15)))?;
    Ok(List::from_vec(items))
}

/// A register list.
fn list(
    alloc: Global,
    text: &SharedText,
    tokens: &[Token],
) -> Result<Result<List<ListItem>, LineKind>, NoMemory>
    ensures { IfOk result (λ list. list ≡ lists.list text.now tokens.now) }
{
    if is_pc(text, tokens) {
        return Ok(Ok(pc_alone(alloc)?));
    }
    match between(text, b"{", b"}", tokens) {
        None => Ok(Err(LineKind::Syntax)),
        Some(content) => items(alloc, text, content),
    }
}

/// A register list, and whether `^` stands behind it.
pub fn register_list(
    alloc: Global,
    text: &SharedText,
    tokens: &[Token],
) -> Result<Result<(List<ListItem>, bool), LineKind>, NoMemory>
    ensures { IfOk result (λ list. list ≡ lists.register_list text.now tokens.now) }
{
    let (tokens, mark) = marked(text, b"^", tokens);
    let list = or_kind!(list(alloc, text, tokens)?);
    Ok(Ok((list, mark)))
}

/// A token as a status register, or as a word that names none.
#[tactic(auto, unfolding(crate::specs::Lists::status_named))]
fn status_of(kind: TokenKind, word: &[u8]) -> Result<Option<StatusRegister>, LineKind>
    ensures { result ≡ lists.status_of kind word.now }
{
    match kind {
        TokenKind::Name => Ok(row_of(word, &STATUS)),
        _ => Err(LineKind::Syntax),
    }
}

/// A status register, or a word that names none.
pub fn status(text: &SharedText, tokens: &[Token]) -> Result<Option<StatusRegister>, LineKind>
    ensures { result ≡ lists.status text.now tokens.now }
{
    match tokens {
        [] => Err(LineKind::Syntax),
        [token] => status_of(token.kind, piece_of(text, *token)),
        [_, _, ..] => Err(LineKind::Syntax),
    }
}

/// How often a letter stands among these, in any case.
fn occurrences(letter: u8, letters: &[u8]) -> usize
    ensures { result ≡ lists.occurrences letter letters.now }
{
    letters
        .iter()
        .filter(|other| other.to_ascii_lowercase() == letter)
        .count()
}

/// Whether so many of the letters f, s, x and c among so many letters name fields.
fn are_fields(f: usize, s: usize, x: usize, c: usize, count: usize) -> bool
    ensures { result ≡ lists.are_fields f s x c count }
{
    if f > 1 {
        return false;
    }
    if s > 1 {
        return false;
    }
    if x > 1 {
        return false;
    }
    if c > 1 {
        return false;
    }
    if count == 0 {
        return false;
    }
    f + s + x + c == count
}

/// The fields that so many letters name.
fn fields_with(f: usize, s: usize, x: usize, c: usize, count: usize) -> Option<u8>
    ensures { result ≡ lists.fields_with f s x c count }
{
    if are_fields(f, s, x, c, count) {
        return Some((8 * f + 4 * s + 2 * x + c) as u8);
    }
    None
}

/// The fields that letters name.
fn fields_named(letters: &[u8]) -> Option<u8>
    ensures { result ≡ lists.fields_named letters.now }
{
    fields_with(
        occurrences(b'f', letters),
        occurrences(b's', letters),
        occurrences(b'x', letters),
        occurrences(b'c', letters),
        letters.len(),
    )
}

/// A token as fields of a status register, or as a word that names none.
#[tactic(auto, unfolding(crate::specs::Lists::status_begun))]
fn fields_of(kind: TokenKind, word: &[u8]) -> Result<Option<StatusFields>, LineKind>
    ensures { result ≡ lists.fields_of kind word.now }
{
    match kind {
        TokenKind::Name => match (
            row_of(begin(word, 5), &STATUS_WITH_FIELDS),
            fields_named(behind(word, 5)),
        ) {
            (Some(register), Some(mask)) => Ok(Some(StatusFields { register, mask })),
            _ => Ok(None),
        },
        _ => Err(LineKind::Syntax),
    }
}

/// Fields of a status register, or a word that names none.
pub fn fields(text: &SharedText, tokens: &[Token]) -> Result<Option<StatusFields>, LineKind>
    ensures { result ≡ lists.fields text.now tokens.now }
{
    match tokens {
        [] => Err(LineKind::Syntax),
        [token] => fields_of(token.kind, piece_of(text, *token)),
        [_, _, ..] => Err(LineKind::Syntax),
    }
}
