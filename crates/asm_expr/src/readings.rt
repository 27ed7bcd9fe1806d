//! What the tokens behind an operation read as, in the forms of directives.

ghost use Rattle.std.specs.Prelude.{◌≡◌, ◌∷◌, ◌++◌, [], IfOk};
ghost use Rattle.std.specs.Option.{option_copied};
ghost use Rattle.asm_model.specs.Operands as operands;
ghost use Rattle.asm_model.specs.Parts as parts;
ghost use Rattle.asm_model.specs.Readings as readings;
ghost use Rattle.asm_model.specs.Says as says;
ghost use Rattle.asm_model.specs.declared.directives.Boundary.TheVariants as limit;
ghost use Rattle.asm_model.specs.declared.directives.DirectiveLine.TheVariants as line;

use crate::areas::attributes;
use crate::kinds::both;
use crate::listing::{only, with_last};
use crate::operands::{first_operand, is};
use crate::or_kind;
use crate::parts::{piece_of, shared_inside, shared_piece};
use crate::read::shared_expression;
use crate::registers::register_named;
use asm_model::{
    AreaAttributes, Boundary, DirectiveLine, Expr, ImportMark, RnOperand, SharedText, Token,
    TokenKind, is_called,
};
use sdt_fault::kinds::LineKind;
use sdt_fault::{List, NoMemory};
use std::alloc::Global;

/// No operands.
pub fn bare(line: DirectiveLine, tokens: &[Token]) -> Result<DirectiveLine, LineKind>
    ensures { result ≡ says.bare_of line tokens.now }
{
    if tokens.is_empty() {
        return Ok(line);
    }
    drop(line);
    Err(LineKind::Syntax)
}

/// A token as a name.
fn name_of(text: &SharedText, token: Token) -> Result<Result<SharedText, LineKind>, NoMemory>
    ensures { IfOk result (λ name. name ≡ says.name_of token.kind (parts.piece text.now token)) }
{
    match token.kind {
        TokenKind::Name => Ok(Ok(shared_piece(text, token)?)),
        TokenKind::Barred => Ok(Ok(shared_inside(text, token)?)),
        _ => Ok(Err(LineKind::Syntax)),
    }
}

/// Tokens as a name alone.
pub fn name_alone(
    text: &SharedText,
    tokens: &[Token],
) -> Result<Result<SharedText, LineKind>, NoMemory>
    ensures { IfOk result (λ name. name ≡ says.name_alone text.now tokens.now) }
{
    match tokens {
        [] => Ok(Err(LineKind::Syntax)),
        [token] => name_of(text, *token),
        [_, _, ..] => Ok(Err(LineKind::Syntax)),
    }
}

/// A token as the word WEAK, or as another word.
fn mark_of(kind: TokenKind, word: &[u8]) -> Result<ImportMark, LineKind>
    ensures { result ≡ says.mark_of kind word.now }
{
    match kind {
        TokenKind::Name => {
            if is_called(b"WEAK", word) {
                return Ok(ImportMark::Weak);
            }
            Ok(ImportMark::Other)
        }
        _ => Err(LineKind::Syntax),
    }
}

/// A word behind a comma.
fn mark_behind(text: &SharedText, sign: Token, word: Token) -> Result<ImportMark, LineKind>
    ensures { result ≡ says.import_mark text.now (sign ∷ word ∷ []) }
{
    if is(piece_of(text, sign), b",") {
        return mark_of(word.kind, piece_of(text, word));
    }
    Err(LineKind::Syntax)
}

/// A word in brackets.
fn mark_between(
    text: &SharedText,
    left: Token,
    word: Token,
    right: Token,
) -> Result<ImportMark, LineKind>
    ensures { result ≡ says.import_mark text.now (left ∷ word ∷ right ∷ []) }
{
    if !is(piece_of(text, left), b"[") {
        return Err(LineKind::Syntax);
    }
    if !is(piece_of(text, right), b"]") {
        return Err(LineKind::Syntax);
    }
    mark_of(word.kind, piece_of(text, word))
}

/// What stands behind the name of an import.
fn import_mark(text: &SharedText, tokens: &[Token]) -> Result<ImportMark, LineKind>
    ensures { result ≡ says.import_mark text.now tokens.now }
{
    match tokens {
        [] => Ok(ImportMark::Absent),
        [_] => Err(LineKind::Syntax),
        [sign, word] => mark_behind(text, *sign, *word),
        [left, word, right] => mark_between(text, *left, *word, *right),
        [_, _, _, _, ..] => Err(LineKind::Syntax),
    }
}

/// A token as a name, and the mark that stands behind it.
fn name_and_mark(
    text: &SharedText,
    token: Token,
    behind: &[Token],
) -> Result<Result<(SharedText, ImportMark), LineKind>, NoMemory>
    ensures { IfOk result (λ import. import ≡ says.import_of text.now (token ∷ behind.now)) }
{
    let name = name_of(text, token)?;
    Ok(both(name, import_mark(text, behind)))
}

/// A name and its mark.
pub fn import(
    text: &SharedText,
    tokens: &[Token],
) -> Result<Result<(SharedText, ImportMark), LineKind>, NoMemory>
    ensures { IfOk result (λ import. import ≡ says.import_of text.now tokens.now) }
{
    match tokens {
        [] => Ok(Err(LineKind::Syntax)),
        [token, behind @ ..] => name_and_mark(text, *token, behind),
    }
}

/// Expressions, with one reading more.
fn with_one_more(
    so_far: Result<List<Expr>, LineKind>,
    reading: Result<Expr, LineKind>,
) -> Result<Result<List<Expr>, LineKind>, NoMemory>
    ensures { IfOk result (λ all. all ≡ readings.on_both (λ es e. es ++ e ∷ []) so_far reading) }
{
    let (list, expression) = or_kind!(both(so_far, reading));
    Ok(Ok(with_last(list, expression)?))
}

/// The expression of one operand alone.
fn one_expression(
    alloc: Global,
    text: &SharedText,
    operand: &[Token],
) -> Result<Result<List<Expr>, LineKind>, NoMemory>
    ensures { IfOk result (λ all. says.Expressions text.now (operand.now ∷ []) all) }
{
    let expression = or_kind!(shared_expression(alloc, text, operand)?);
    Ok(Ok(only(alloc, expression)?))
}

/// Operands, each of them an expression.
#[inline(never)]
fn some_expressions(
    alloc: Global,
    text: &SharedText,
    tokens: &[Token],
) -> Result<Result<List<Expr>, LineKind>, NoMemory>
    ensures { IfOk result
        (λ all. says.Expressions text.now (operands.operands_at text.now 0 tokens.now) all) }
{
    let mut so_far = Ok(List::from_vec(Vec::with_capacity(alloc, tokens.len() / 2 + 1)?));
    let mut left = tokens;
    'operands: loop {
        let (operand, behind) = first_operand(text, left);
        let reading = shared_expression(alloc, text, operand)?;
        so_far = with_one_more(so_far, reading)?;
        match behind {
            None => return Ok(so_far),
            Some(tokens) => left = tokens,
        }
    }
}

/// One expression or more.
pub fn expressions(
    alloc: Global,
    text: &SharedText,
    tokens: &[Token],
) -> Result<Result<List<Expr>, LineKind>, NoMemory>
    ensures { IfOk result
        (λ all. says.SomeExpressions text.now (operands.operands text.now tokens.now) all) }
{
    if tokens.is_empty() {
        return Ok(Err(LineKind::Syntax));
    }
    let (operand, behind) = first_operand(text, tokens);
    if behind.is_none() {
        return one_expression(alloc, text, operand);
    }
    some_expressions(alloc, text, tokens)
}

/// A name and attributes, where both are read.
fn area_with(
    name: Result<SharedText, LineKind>,
    attributes: Result<AreaAttributes, LineKind>,
) -> Result<DirectiveLine, LineKind>
    ensures { result ≡ readings.on_both (λ n a. line.Area n a) name attributes }
{
    match both(name, attributes) {
        Ok((name, attributes)) => Ok(DirectiveLine::Area { name, attributes }),
        Err(kind) => Err(kind),
    }
}

/// The operands of AREA.
pub fn area(
    alloc: Global,
    text: &SharedText,
    tokens: &[Token],
) -> Result<Result<DirectiveLine, LineKind>, NoMemory>
    ensures { IfOk result
        (λ line. says.Area text.now (operands.operands text.now tokens.now) line) }
{
    if tokens.is_empty() {
        return Ok(Err(LineKind::Syntax));
    }
    let (operand, behind) = first_operand(text, tokens);
    let name = name_alone(text, operand)?;
    let attributes = attributes(alloc, text, behind)?;
    Ok(area_with(name, attributes))
}

/// Tokens as a register alone.
fn register_alone(text: &SharedText, tokens: &[Token]) -> Option<u8>
    ensures { result ≡ says.register_alone text.now tokens.now }
{
    match tokens {
        [] => None,
        [token] => register_named(piece_of(text, *token)),
        [_, _, ..] => None,
    }
}

/// The operand of RN.
pub fn register(
    alloc: Global,
    text: &SharedText,
    tokens: &[Token],
) -> Result<Result<DirectiveLine, LineKind>, NoMemory>
    ensures { IfOk result
        (λ line. says.Register text.now (says.register_alone text.now tokens.now) tokens.now line) }
{
    match register_alone(text, tokens) {
        Some(number) => Ok(Ok(DirectiveLine::Rn {
            register: RnOperand::Register(number),
        })),
        None => number(alloc, text, tokens),
    }
}

/// An expression in the place of a register.
fn number(
    alloc: Global,
    text: &SharedText,
    tokens: &[Token],
) -> Result<Result<DirectiveLine, LineKind>, NoMemory>
    ensures { IfOk result (λ line. says.Register text.now None tokens.now line) }
{
    let number = or_kind!(shared_expression(alloc, text, tokens)?);
    Ok(Ok(DirectiveLine::Rn {
        register: RnOperand::Number(number),
    }))
}

/// A multiple and an offset behind it.
fn behind_multiple(
    multiple: Result<Expr, LineKind>,
    offset: Result<Expr, LineKind>,
) -> Result<DirectiveLine, LineKind>
    ensures { result ≡ readings.on_both (λ m o. line.Align (limit.Behind m o)) multiple offset }
{
    match both(multiple, offset) {
        Ok((multiple, offset)) => Ok(DirectiveLine::Align {
            boundary: Boundary::Behind { multiple, offset },
        }),
        Err(kind) => Err(kind),
    }
}

/// One operand of ALIGN.
fn multiple(
    alloc: Global,
    text: &SharedText,
    operand: &[Token],
) -> Result<Result<DirectiveLine, LineKind>, NoMemory>
    ensures { IfOk result (λ line. says.Aligned text.now (operand.now ∷ []) line) }
{
    let of = or_kind!(shared_expression(alloc, text, operand)?);
    Ok(Ok(DirectiveLine::Align {
        boundary: Boundary::Multiple { of },
    }))
}

/// Two operands of ALIGN.
fn multiple_and_offset(
    alloc: Global,
    text: &SharedText,
    first: &[Token],
    second: &[Token],
) -> Result<Result<DirectiveLine, LineKind>, NoMemory>
    ensures { IfOk result (λ line. says.Aligned text.now (first.now ∷ second.now ∷ []) line) }
{
    let multiple = shared_expression(alloc, text, first)?;
    let offset = shared_expression(alloc, text, second)?;
    Ok(behind_multiple(multiple, offset))
}

/// The operands of ALIGN.
pub fn boundary(
    alloc: Global,
    text: &SharedText,
    tokens: &[Token],
) -> Result<Result<DirectiveLine, LineKind>, NoMemory>
    ensures { IfOk result
        (λ line. says.Aligned text.now (operands.operands text.now tokens.now) line) }
{
    if tokens.is_empty() {
        return Ok(Ok(DirectiveLine::Align {
            boundary: Boundary::Word,
        }));
    }
    let (first, behind) = first_operand(text, tokens);
    match behind {
        None => multiple(alloc, text, first),
        Some(tokens) => multiple_and_last(alloc, text, first, tokens),
    }
}

/// One operand of ALIGN, and the last behind it.
fn multiple_and_last(
    alloc: Global,
    text: &SharedText,
    first: &[Token],
    tokens: &[Token],
) -> Result<Result<DirectiveLine, LineKind>, NoMemory>
    ensures { IfOk result
        (λ line. says.Aligned text.now
        (first.now ∷ operands.operands_at text.now 0 tokens.now) line) }
{
    let (second, behind) = first_operand(text, tokens);
    match behind {
        None => multiple_and_offset(alloc, text, first, second),
        Some(_) => Ok(Err(LineKind::Syntax)),
    }
}
