//! What the tokens of a line are in an expression.

ghost use Rattle.std.specs.Prelude.{◌≡◌, ◌∷◌, [], ◌^◌, ◌≤◌, ◌<◌, ◌-◌, get_or, ◌==◌, nat_lt, IfOk, length, take, drop, if◌then◌else◌, Some, None};
ghost use Rattle.asm_model.specs.Forms.{same};
ghost use Rattle.asm_model.specs.Parts as parts;
ghost use Rattle.asm_model.specs.declared.exprs.ExprItem.TheVariants as item_is;
ghost use Rattle.asm_model.specs.declared.exprs.Part.TheVariants as part_is;
ghost use Rattle.asm_model.specs.declared.values.Value.TheVariants as value_is;

use crate::operands::is;
use asm_model::{BinaryOp, ExprItem, Part, SharedText, Token, TokenKind, UnaryOp, Value};
use sdt_fault::{Bytes, NoMemory};
use std::alloc::Global;

/// The part that a token of the line is.
pub fn part_of(alloc: Global, text: &SharedText, token: Token) -> Result<Part, NoMemory>
    ensures { IfOk result (λ part. part ≡ parts.part_of text.now token) }
{
    let piece = piece_of(text, token);
    match token.kind {
        TokenKind::Name => Ok(Part::Operand(ExprItem::Name(shared_piece(text, token)?))),
        TokenKind::Barred => Ok(Part::Operand(ExprItem::Name(shared_inside(text, token)?))),
        TokenKind::Number => Ok(Part::Operand(number_item(piece))),
        TokenKind::Quoted => quoted_part(alloc, piece),
        TokenKind::Character => Ok(Part::Operand(ExprItem::Constant(Value::Number(u32::from(
            character_value(piece),
        ))))),
        TokenKind::Braced => braced_part(alloc, piece),
        TokenKind::Local => Ok(Part::Operand(ExprItem::Local(shared_piece(text, token)?))),
        TokenKind::Sign => Ok(sign_part(piece)),
    }
}

/// The bytes of a text from a place up to another.
fn piece(text: &[u8], start: usize, end: usize) -> &[u8]
    ensures { result.now ≡ take (end - start) (drop start text.now) }
{
    let end = end.min(text.len());
    let start = start.min(end);
    &text[start..end]
}

/// The bytes of a token.
pub fn piece_of(text: &SharedText, token: Token) -> &[u8]
    ensures { result.now ≡ parts.piece text.now token }
{
    piece(text.as_slice(), token.start as usize, token.end as usize)
}

/// The bytes of a token as a text that shares them.
pub fn shared_piece(text: &SharedText, token: Token) -> Result<SharedText, NoMemory>
    ensures { IfOk result (λ name. name ≡ parts.piece text.now token) }
{
    let end = (token.end as usize).min(text.as_slice().len());
    let start = (token.start as usize).min(end);
    text.part(start, end)
}

/// What stands between the first byte of a token and the last, as a text that shares it.
pub fn shared_inside(text: &SharedText, token: Token) -> Result<SharedText, NoMemory>
    ensures { IfOk result (λ name. name ≡ take (length (parts.piece text.now token) - 2)
        (drop 1 (parts.piece text.now token))) }
{
    let whole = shared_piece(text, token)?;
    let count = whole.as_slice().len();
    if count < 2 {
        return whole.part(0, 0);
    }
    whole.part(1, count - 1)
}

/// What stands behind the first byte.
fn behind_one(piece: &[u8]) -> &[u8]
    ensures { result.now ≡ drop 1 piece.now }
{
    if piece.is_empty() {
        return piece;
    }
    &piece[1..]
}

/// The byte behind the quote.
fn character_value(piece: &[u8]) -> u8
    ensures { result ≡ parts.character_value piece.now }
{
    if piece.len() < 2 {
        return 0;
    }
    piece[1]
}

/// What a digit stands for.
fn digit_value(c: u8) -> u8
    ensures { result ≡ parts.digit_value c }
{
    if c <= b'9' {
        return c.saturating_sub(b'0');
    }
    if c <= b'F' {
        return c.saturating_sub(55);
    }
    c.saturating_sub(87)
}

/// What the digits stand for; None above 2^32 - 1.
fn digits_value(base: u8, digits: &[u8]) -> Option<u32>
    ensures { result ≡ (if nat_lt (parts.digits_value base digits.now) (2 ^ 32) then Some
        (parts.digits_value base digits.now) else None) }
{
    let mut value = 0u64;
    'digits: for c in digits {
        value = value * u64::from(base) + u64::from(digit_value(*c));
        if value > u64::from(u32::MAX) {
            return None;
        }
    }
    Some(value as u32)
}

/// What a number stands for; None above 2^32 - 1.
fn number_value(piece: &[u8]) -> Option<u32>
    ensures { result ≡ (if nat_lt (parts.number_value piece.now) (2 ^ 32) then Some
        (parts.number_value piece.now) else None) }
{
    if piece.len() < 2 {
        return digits_value(10, piece);
    }
    if piece[0] == b'&' {
        return digits_value(16, &piece[1..]);
    }
    if piece[1] == b'x' {
        return digits_value(16, &piece[2..]);
    }
    if piece[1] == b'_' {
        return digits_value(piece[0].saturating_sub(b'0'), &piece[2..]);
    }
    digits_value(10, piece)
}

/// The item of a number.
pub fn number_item(piece: &[u8]) -> ExprItem
    ensures { result ≡ parts.number_item (parts.number_value piece.now) }
{
    match number_value(piece) {
        None => ExprItem::TooLarge,
        Some(value) => ExprItem::Constant(Value::Number(value)),
    }
}

#[inline(never)]
fn quoted_part(alloc: Global, piece: &[u8]) -> Result<Part, NoMemory>
    ensures { IfOk result (λ part. part
        ≡ part_is.Operand (item_is.Constant (value_is.Words
        (parts.undoubled (drop 1 piece.now))))) }
{
    let words = undoubled(alloc, behind_one(piece))?;
    Ok(Part::Operand(ExprItem::Constant(Value::Words(words))))
}

/// What stands behind the first byte of a content; of a quote, which is doubled, behind the second.
fn behind_content(content: &[u8]) -> &[u8]
    requires { 2 ≤ length content.now }
    ensures rest { parts.undoubled content.now
        ≡ get_or content.now 0 0 ∷ parts.undoubled result.now }
    ensures shorter { length result.now < length content.now }
{
    if content[0] == b'"' {
        return &content[2..];
    }
    &content[1..]
}

/// The content of a string, from what stands behind its first quote.
fn undoubled(alloc: Global, quoted: &[u8]) -> Result<Bytes, NoMemory>
    ensures { IfOk result (λ words. words ≡ parts.undoubled quoted.now) }
{
    let mut words = Vec::new(alloc);
    let mut rest = quoted;
    'bytes: while rest.len() >= 2 {
        words.push(rest[0])?;
        rest = behind_content(rest);
    }
    Ok(Bytes::from_vec(words))
}

/// Whether a slice is one byte, and this one.
pub fn is_sign(piece: &[u8], sign: u8) -> bool
    ensures { result ≡ same piece.now (sign ∷ []) }
{
    match piece {
        [] => false,
        [byte] => *byte == sign,
        [_, _, ..] => false,
    }
}

#[inline(never)]
fn braced_part(alloc: Global, piece: &[u8]) -> Result<Part, NoMemory>
    ensures { IfOk result (λ part. part ≡ parts.braced_part piece.now) }
{
    if is(piece, b"{TRUE}") {
        return Ok(Part::Operand(ExprItem::Constant(Value::Truth(true))));
    }
    if is(piece, b"{FALSE}") {
        return Ok(Part::Operand(ExprItem::Constant(Value::Truth(false))));
    }
    if is(piece, b"{PC}") {
        return Ok(Part::Operand(ExprItem::Here));
    }
    if is(piece, b"{VAR}") {
        return Ok(Part::Operand(ExprItem::Map));
    }
    if is(piece, b"{CONFIG}") {
        return Ok(Part::Operand(ExprItem::CodeSize));
    }
    if is(piece, b"{CODESIZE}") {
        return Ok(Part::Operand(ExprItem::CodeSize));
    }
    if is(piece, b"{ENDIAN}") {
        let words = Bytes::from_slice(alloc, b"little")?;
        return Ok(Part::Operand(ExprItem::Constant(Value::Words(words))));
    }
    Ok(Part::Other)
}

#[inline(never)]
fn sign_part(piece: &[u8]) -> Part
    ensures { result ≡ parts.sign_part piece.now }
{
    let Some((first, _)) = piece.split_first() else {
        return Part::Other;
    };
    if *first == b':' {
        return worded_part(piece);
    }
    plain_part(piece)
}

/// An operator that has letters.
fn worded_part(piece: &[u8]) -> Part
    ensures { result ≡ parts.worded_part piece.now }
{
    if is(piece, b":NOT:") {
        return Part::Prefix(UnaryOp::Not);
    }
    if is(piece, b":LNOT:") {
        return Part::Prefix(UnaryOp::LogicalNot);
    }
    if is(piece, b":LEN:") {
        return Part::Prefix(UnaryOp::Length);
    }
    if is(piece, b":CHR:") {
        return Part::Prefix(UnaryOp::Character);
    }
    if is(piece, b":STR:") {
        return Part::Prefix(UnaryOp::String);
    }
    if is(piece, b":DEF:") {
        return Part::OfName(UnaryOp::Defined);
    }
    worded_infix(piece)
}

/// An operator of letters between two operands.
fn worded_infix(piece: &[u8]) -> Part
    ensures { result ≡ parts.worded_infix piece.now }
{
    if is(piece, b":MOD:") {
        return Part::Infix(BinaryOp::Modulo);
    }
    if is(piece, b":LEFT:") {
        return Part::Infix(BinaryOp::Left);
    }
    if is(piece, b":RIGHT:") {
        return Part::Infix(BinaryOp::Right);
    }
    if is(piece, b":CC:") {
        return Part::Infix(BinaryOp::Concatenate);
    }
    if is(piece, b":ROL:") {
        return Part::Infix(BinaryOp::RotateLeft);
    }
    if is(piece, b":ROR:") {
        return Part::Infix(BinaryOp::RotateRight);
    }
    if is(piece, b":SHL:") {
        return Part::Infix(BinaryOp::ShiftLeft);
    }
    if is(piece, b":SHR:") {
        return Part::Infix(BinaryOp::ShiftRight);
    }
    worded_logic(piece)
}

/// An operator of letters between truth values, or bit by bit.
fn worded_logic(piece: &[u8]) -> Part
    ensures { result ≡ parts.worded_logic piece.now }
{
    if is(piece, b":AND:") {
        return Part::Infix(BinaryOp::And);
    }
    if is(piece, b":OR:") {
        return Part::Infix(BinaryOp::Or);
    }
    if is(piece, b":EOR:") {
        return Part::Infix(BinaryOp::ExclusiveOr);
    }
    if is(piece, b":LAND:") {
        return Part::Infix(BinaryOp::LogicalAnd);
    }
    if is(piece, b":LOR:") {
        return Part::Infix(BinaryOp::LogicalOr);
    }
    if is(piece, b":LEOR:") {
        return Part::Infix(BinaryOp::LogicalExclusiveOr);
    }
    Part::Other
}

/// An operator or a sign without letters.
fn plain_part(piece: &[u8]) -> Part
    ensures { result ≡ parts.plain_part piece.now }
{
    if is_sign(piece, b'(') {
        return Part::Open;
    }
    if is_sign(piece, b')') {
        return Part::Close;
    }
    if is_sign(piece, b'.') {
        return Part::Operand(ExprItem::Here);
    }
    if is_sign(piece, b'@') {
        return Part::Operand(ExprItem::Map);
    }
    if is_sign(piece, b'+') {
        return Part::Sum(UnaryOp::Plus, BinaryOp::Add);
    }
    if is_sign(piece, b'-') {
        return Part::Sum(UnaryOp::Minus, BinaryOp::Subtract);
    }
    if is_sign(piece, b'?') {
        return Part::OfName(UnaryOp::Size);
    }
    if is_sign(piece, b'*') {
        return Part::Infix(BinaryOp::Multiply);
    }
    if is_sign(piece, b'/') {
        return Part::Infix(BinaryOp::Divide);
    }
    relation_part(piece)
}

/// A relation without letters.
fn relation_part(piece: &[u8]) -> Part
    ensures { result ≡ parts.relation_part piece.now }
{
    if is_sign(piece, b'=') {
        return Part::Infix(BinaryOp::Equal);
    }
    if is(piece, b"==") {
        return Part::Infix(BinaryOp::Equal);
    }
    if is(piece, b"<>") {
        return Part::Infix(BinaryOp::NotEqual);
    }
    if is(piece, b"/=") {
        return Part::Infix(BinaryOp::NotEqual);
    }
    if is_sign(piece, b'<') {
        return Part::Infix(BinaryOp::Less);
    }
    if is(piece, b"<=") {
        return Part::Infix(BinaryOp::LessEqual);
    }
    if is_sign(piece, b'>') {
        return Part::Infix(BinaryOp::Greater);
    }
    if is(piece, b">=") {
        return Part::Infix(BinaryOp::GreaterEqual);
    }
    Part::Other
}
