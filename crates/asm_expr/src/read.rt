//! Reading tokens as an expression.

ghost use Rattle.std.specs.Prelude.{◌∷◌, [], IfOk, map};
ghost use Rattle.asm_model.specs.Grammar as grammar;
ghost use Rattle.asm_model.specs.Parts as parts;
ghost use Rattle.asm_model.specs.Told.{Told};
ghost use Rattle.asm_model.specs.declared.exprs.Part.TheVariants as part_is;
ghost use Rattle.asm_expr.specs.Parsing as parsing;
ghost use Rattle.asm_expr.specs.Steps.{IsRead, TakesAll, state_of};

use crate::listing::only;
use crate::parser::{Parser, is_operand};
use crate::parts::{number_item, part_of, piece_of};
use asm_model::{Expr, ExprItem, Flat, Part, SharedText, Token, TokenKind, bad_line};
use sdt_fault::answer::Fault;
use sdt_fault::kinds::LineKind;
use sdt_fault::{List, NoMemory};
use std::alloc::Global;

/// The expression that one part spells.
#[tactic(auto, unfolding(crate::specs::Parsing::step, crate::specs::Parsing::finished))]
fn alone(alloc: Global, part: Part) -> Result<Option<Expr>, NoMemory>
    ensures { IfOk result (λ reading. IsRead (part ∷ []) reading) }
{
    match part {
        Part::Operand(item) => operand_alone(alloc, item),
        _ => Ok(None),
    }
}

/// The expression of one item.
fn operand_alone(alloc: Global, item: ExprItem) -> Result<Option<Expr>, NoMemory>
    ensures { IfOk result (λ reading. IsRead (part_is.Operand item ∷ []) reading) }
{
    if !is_operand(&item) {
        drop(item);
        return Ok(None);
    }
    let items = only(alloc, item)?;
    Ok(Some(Expr { items }))
}

/// The expression that one token spells. Most are numbers.
fn read_alone(alloc: Global, text: &SharedText, token: Token) -> Result<Option<Expr>, NoMemory>
    ensures { IfOk result (λ reading. IsRead (parts.part_of text.now token ∷ []) reading) }
{
    match token.kind {
        TokenKind::Number => operand_alone(alloc, number_item(piece_of(text, token))),
        _ => alone(alloc, part_of(alloc, text, token)?),
    }
}

/// Reads the parts that tokens are; false where one of them can't stand there.
fn take_all(
    alloc: Global,
    text: &SharedText,
    tokens: &[Token],
    parser: &mut Parser,
) -> Result<bool, NoMemory>
    ensures { TakesAll (state_of parser.old) (map (parts.part_of text.now) tokens.now) result
        (state_of parser.new) }
{
    'tokens: for token in tokens {
        let part = part_of(alloc, text, *token)?;
        if !parser.take(part)? {
            return Ok(false);
        }
    }
    Ok(true)
}

/// The expression that tokens of a line spell, read part by part.
#[inline(never)]
fn by_parts(alloc: Global, text: &SharedText, tokens: &[Token]) -> Result<Option<Expr>, NoMemory>
    ensures { IfOk result (λ reading. IsRead (map (parts.part_of text.now) tokens.now) reading) }
{
    let mut parser = Parser::with_room(alloc, tokens.len())?;
    if !take_all(alloc, text, tokens, &mut parser)? {
        return Ok(None);
    }
    match parser.finish()? {
        None => Ok(None),
        Some(items) => Ok(Some(Expr {
            items: List::from_vec(items),
        })),
    }
}

/// The expression that tokens of a line spell; None where they spell none. One token alone, as most expressions have,
/// needs no parser.
fn read(alloc: Global, text: &SharedText, tokens: &[Token]) -> Result<Option<Expr>, NoMemory>
    ensures { IfOk result (λ reading. IsRead (map (parts.part_of text.now) tokens.now) reading) }
{
    if let [token] = tokens {
        return read_alone(alloc, text, *token);
    }
    by_parts(alloc, text, tokens)
}

/// What tokens of a line read as: the expression that they spell, or Syntax where they spell none. Its names share the
/// line's bytes.
pub fn shared_expression(
    alloc: Global,
    text: &SharedText,
    tokens: &[Token],
) -> Result<Result<Expr, LineKind>, NoMemory>
    ensures { IfOk result (λ reading. grammar.ParsesTokens text.now tokens.now reading) }
{
    match read(alloc, text, tokens)? {
        None => Ok(Err(LineKind::Syntax)),
        Some(expression) => Ok(Ok(expression)),
    }
}

/// What tokens of a text read as: the expression that they spell, or Syntax where they spell none.
pub fn expression(
    alloc: Global,
    text: &[u8],
    tokens: &[Token],
) -> Result<Result<Expr, LineKind>, NoMemory>
    ensures { IfOk result (λ reading. grammar.ParsesTokens text.now tokens.now reading) }
{
    let text = SharedText::from_slice(alloc, text)?;
    shared_expression(alloc, &text, tokens)
}

/// The expression that consecutive tokens of the line spell; Syntax where they spell none.
pub fn parse_expr(alloc: Global, line: &Flat, tokens: &[Token]) -> Result<Expr, Fault>
    ensures { Told line.now.source line.now.number
        (grammar.ParsesTokens line.now.text tokens.now) result }
{
    match shared_expression(alloc, &line.text, tokens)? {
        Ok(expression) => Ok(expression),
        Err(kind) => Err(bad_line(alloc, line.source.as_text(), line.number, kind)),
    }
}

/// Tokens have one list of items, or one fault.
pub fn one_parse()
    ensures { grammar.OneParse }
{}
