//! The operators on values.

ghost use Rattle.std.specs.Prelude.{◌≡◌, ◌<◌, IfOk, Ok, true, codes, if◌then◌else◌};
ghost use Rattle.std.specs.Fmt.{digit_glyph};
ghost use Rattle.sdt_fault.specs.Digits.{hexadecimal_places};
ghost use Rattle.asm_model.specs.declared.exprs.UnaryOp.TheVariants as unary;
ghost use Rattle.asm_model.specs.declared.values.Value.TheVariants as value;
ghost use Rattle.asm_expr.specs.Seeing.{seen_names};
ghost use Rattle.std.specs.Option.{option_copied};
ghost use Rattle.std.specs.Ordering.{nat_cmp};
ghost use Rattle.std.specs.Cmp.Lexicographic.{slice_cmp};
ghost use Rattle.asm_model.specs.Meaning as meaning;
ghost use Rattle.asm_model.specs.declared.exprs.BinaryOp.TheVariants as op;

use crate::names::entry_named;
use crate::or_kind;
use crate::seen::Seen;
use asm_model::{BinaryOp, LaidName, SharedText, UnaryOp, Value};
use sdt_fault::kinds::LineKind;
use sdt_fault::{Bytes, NoMemory};
use std::alloc::Global;
use std::cmp::Ordering;

/// The bytes of the value of a string.
pub const STRING_BYTES: usize = 65_536;

/// Two numbers, without the relations.
fn arithmetic(op: BinaryOp, m: u32, n: u32) -> Result<u32, LineKind>
    ensures { result ≡ meaning.arithmetic op m n }
{
    match op {
        BinaryOp::Multiply => Ok(m.wrapping_mul(n)),
        BinaryOp::Divide => divided(m, n),
        BinaryOp::Modulo => remainder(m, n),
        BinaryOp::RotateLeft => Ok(m.rotate_left(n)),
        BinaryOp::RotateRight => Ok(m.rotate_right(n)),
        BinaryOp::ShiftLeft => Ok(shifted_left(m, n)),
        BinaryOp::ShiftRight => Ok(shifted_right(m, n)),
        BinaryOp::Add => Ok(m.wrapping_add(n)),
        BinaryOp::Subtract => Ok(m.wrapping_sub(n)),
        BinaryOp::And => Ok(m & n),
        BinaryOp::Or => Ok(m | n),
        BinaryOp::ExclusiveOr => Ok(m ^ n),
        _ => Err(LineKind::WrongType),
    }
}

fn divided(m: u32, n: u32) -> Result<u32, LineKind>
    ensures { result ≡ meaning.arithmetic op.Divide m n }
{
    if n == 0 {
        return Err(LineKind::DivideByZero);
    }
    Ok(m / n)
}

fn remainder(m: u32, n: u32) -> Result<u32, LineKind>
    ensures { result ≡ meaning.arithmetic op.Modulo m n }
{
    if n == 0 {
        return Err(LineKind::DivideByZero);
    }
    Ok(m % n)
}

fn shifted_left(m: u32, n: u32) -> u32
    ensures { meaning.arithmetic op.ShiftLeft m n ≡ Ok result }
{
    if n < 32 {
        return m << n;
    }
    0
}

fn shifted_right(m: u32, n: u32) -> u32
    ensures { meaning.arithmetic op.ShiftRight m n ≡ Ok result }
{
    if n < 32 {
        return m >> n;
    }
    0
}

/// A relation, by the order of its operands; None for another operator.
fn related(op: BinaryOp, order: Ordering) -> Option<bool>
    ensures { result ≡ meaning.related op order }
{
    match op {
        BinaryOp::Equal => Some(order.is_eq()),
        BinaryOp::NotEqual => Some(order.is_ne()),
        BinaryOp::Less => Some(order.is_lt()),
        BinaryOp::LessEqual => Some(order.is_le()),
        BinaryOp::Greater => Some(order.is_gt()),
        BinaryOp::GreaterEqual => Some(order.is_ge()),
        _ => None,
    }
}

/// Two truth values.
fn logical(op: BinaryOp, a: bool, b: bool) -> Result<bool, LineKind>
    ensures { result ≡ meaning.logical op a b }
{
    match op {
        BinaryOp::LogicalAnd => Ok(a && b),
        BinaryOp::LogicalOr => Ok(a || b),
        BinaryOp::LogicalExclusiveOr => Ok(a != b),
        _ => Err(LineKind::WrongType),
    }
}

/// Two strings, without the relations.
fn joined(
    alloc: Global,
    op: BinaryOp,
    v: &[u8],
    w: &[u8],
) -> Result<Result<Bytes, LineKind>, NoMemory>
    ensures { IfOk result (λ words. words ≡ meaning.joined_strings op v.now w.now) }
{
    let BinaryOp::Concatenate = op else {
        return Ok(Err(LineKind::WrongType));
    };
    if v.len() > STRING_BYTES {
        return Ok(Err(LineKind::TooMany));
    }
    if w.len() > STRING_BYTES - v.len() {
        return Ok(Err(LineKind::TooMany));
    }
    let mut words = Vec::from_slice(alloc, v)?;
    words.extend_from_slice(w)?;
    Ok(Ok(Bytes::from_vec(words)))
}

/// A string and a number.
fn cut(alloc: Global, op: BinaryOp, v: &[u8], n: u32) -> Result<Result<Bytes, LineKind>, NoMemory>
    ensures { IfOk result (λ words. words ≡ meaning.cut_string op v.now n) }
{
    let count = n as usize;
    match op {
        BinaryOp::Left => {
            if count > v.len() {
                return Ok(Err(LineKind::OutOfRange));
            }
            Ok(Ok(Bytes::from_slice(alloc, &v[..count])?))
        }
        BinaryOp::Right => {
            if count > v.len() {
                return Ok(Err(LineKind::OutOfRange));
            }
            Ok(Ok(Bytes::from_slice(alloc, &v[v.len() - count..])?))
        }
        _ => Ok(Err(LineKind::WrongType)),
    }
}

/// What is added to a symbol, after a number was added or taken away.
fn moved(op: BinaryOp, plus: u32, n: u32) -> Result<u32, LineKind>
    ensures { result ≡ meaning.moved_place op plus n }
{
    match op {
        BinaryOp::Add => Ok(plus.wrapping_add(n)),
        BinaryOp::Subtract => Ok(plus.wrapping_sub(n)),
        _ => Err(LineKind::WrongType),
    }
}

/// What is added to a symbol, after it was added to a number.
fn added(op: BinaryOp, n: u32, plus: u32) -> Result<u32, LineKind>
    ensures { result ≡ meaning.added_place op n plus }
{
    match op {
        BinaryOp::Add => Ok(plus.wrapping_add(n)),
        _ => Err(LineKind::WrongType),
    }
}

/// The area and the offset of an entry.
fn entry_at(entry: Option<&LaidName>) -> Option<(u32, u32)>
    ensures { result ≡ meaning.entry_stands_at (option_copied entry.entry) }
{
    let Some(entry) = entry else {
        return None;
    };
    match entry.area {
        None => None,
        Some(area) => Some((area, entry.offset)),
    }
}

/// The area of a symbol and its offset there.
fn stands_at(seen: &Seen<'_>, symbol: &SharedText) -> Option<(u32, u32)>
    ensures { result ≡ meaning.stands_at (seen_names seen.now) symbol.now }
{
    if symbol.as_slice().is_empty() {
        return match seen.area {
            None => None,
            Some(area) => Some((area, 0)),
        };
    }
    entry_at(entry_named(seen, symbol))
}

/// The distance of two places in one area.
fn distance(a: Option<(u32, u32)>, p: u32, b: Option<(u32, u32)>, q: u32) -> Result<u32, LineKind>
    ensures { result ≡ meaning.distance a p b q }
{
    let Some((first, from)) = a else {
        return Err(LineKind::WrongType);
    };
    let Some((second, to)) = b else {
        return Err(LineKind::WrongType);
    };
    if first == second {
        return Ok(from.wrapping_add(p).wrapping_sub(to.wrapping_add(q)));
    }
    Err(LineKind::WrongType)
}

/// Two places.
fn between_places(
    seen: &Seen<'_>,
    op: BinaryOp,
    s: &SharedText,
    p: u32,
    t: &SharedText,
    q: u32,
) -> Result<u32, LineKind>
    ensures { result ≡ meaning.between_places (seen_names seen.now) op s.now p t.now q }
{
    match op {
        BinaryOp::Subtract => distance(stands_at(seen, s), p, stands_at(seen, t), q),
        _ => Err(LineKind::WrongType),
    }
}

fn as_number(n: Result<u32, LineKind>) -> Result<Value, LineKind>
    ensures { result ≡ meaning.as_number n }
{
    Ok(Value::Number(n?))
}

fn as_truth(truth: Result<bool, LineKind>) -> Result<Value, LineKind>
    ensures { result ≡ meaning.as_truth truth }
{
    Ok(Value::Truth(truth?))
}

fn as_words(words: Result<Bytes, LineKind>) -> Result<Value, LineKind>
    ensures { result ≡ meaning.as_words words }
{
    Ok(Value::Words(words?))
}

fn as_place(
    alloc: Global,
    symbol: &SharedText,
    plus: Result<u32, LineKind>,
) -> Result<Result<Value, LineKind>, NoMemory>
    ensures { IfOk result (λ value. value ≡ meaning.as_place symbol.now plus) }
{
    let plus = or_kind!(plus);
    let symbol = symbol.share()?;
    Ok(Ok(Value::Place { symbol, plus }))
}

fn of_numbers(op: BinaryOp, m: u32, n: u32) -> Result<Value, LineKind>
    ensures { result ≡ meaning.truth_or (meaning.related op (nat_cmp m n))
        (meaning.as_number (meaning.arithmetic op m n)) }
{
    match related(op, m.cmp(&n)) {
        Some(truth) => Ok(Value::Truth(truth)),
        None => as_number(arithmetic(op, m, n)),
    }
}

fn of_strings(
    alloc: Global,
    op: BinaryOp,
    v: &Bytes,
    w: &Bytes,
) -> Result<Result<Value, LineKind>, NoMemory>
    ensures { IfOk result (λ value. value
        ≡ meaning.truth_or (meaning.related op (slice_cmp nat_cmp v.now w.now))
        (meaning.as_words (meaning.joined_strings op v.now w.now))) }
{
    match related(op, v.cmp(w)) {
        Some(truth) => Ok(Ok(Value::Truth(truth))),
        None => Ok(as_words(joined(alloc, op, v.as_slice(), w.as_slice())?)),
    }
}

/// An operator between two values.
pub fn binary(
    alloc: Global,
    seen: &Seen<'_>,
    op: BinaryOp,
    left: &Value,
    right: &Value,
) -> Result<Result<Value, LineKind>, NoMemory>
    ensures { IfOk result (λ value. value
        ≡ meaning.binary (seen_names seen.now) op left.now right.now) }
{
    match (left, right) {
        (Value::Number(m), Value::Number(n)) => Ok(of_numbers(op, *m, *n)),
        (Value::Truth(a), Value::Truth(b)) => Ok(as_truth(logical(op, *a, *b))),
        (Value::Words(v), Value::Words(w)) => of_strings(alloc, op, v, w),
        (Value::Words(v), Value::Number(n)) => Ok(as_words(cut(alloc, op, v.as_slice(), *n)?)),
        (Value::Place { symbol, plus }, Value::Number(n)) => {
            as_place(alloc, symbol, moved(op, *plus, *n))
        }
        (Value::Number(n), Value::Place { symbol, plus }) => {
            as_place(alloc, symbol, added(op, *n, *plus))
        }
        (Value::Place { symbol: s, plus: p }, Value::Place { symbol: t, plus: q }) => Ok(as_number(
            between_places(seen, op, s, *p, t, *q),
        )),
        _ => Ok(Err(LineKind::WrongType)),
    }
}

/// A hexadecimal digit, in upper case.
fn glyph(digit: u32) -> u8
    requires { digit < 16 }
    ensures { result ≡ digit_glyph true digit }
{
    if digit < 10 {
        return b'0' + digit as u8;
    }
    b'A' + (digit - 10) as u8
}

/// Eight hexadecimal digits.
fn hexadecimal(n: u32) -> [u8; 8]
    ensures { result ≡ hexadecimal_places 8 n }
{
    let a = n / 16;
    let b = a / 16;
    let c = b / 16;
    let d = c / 16;
    let e = d / 16;
    let f = e / 16;
    let g = f / 16;
    [
        glyph(g % 16),
        glyph(f % 16),
        glyph(e % 16),
        glyph(d % 16),
        glyph(c % 16),
        glyph(b % 16),
        glyph(a % 16),
        glyph(n % 16),
    ]
}

/// The number of bytes of a string.
fn string_length(words: &[u8]) -> Result<u32, LineKind>
    ensures { meaning.unary_of unary.Length (value.Words words.now) ≡ meaning.as_number result }
{
    if words.len() > STRING_BYTES {
        return Err(LineKind::TooMany);
    }
    Ok(words.len() as u32)
}

/// The string of one byte.
fn string_of(alloc: Global, n: u32) -> Result<Result<Bytes, LineKind>, NoMemory>
    ensures { IfOk result (λ words. meaning.unary_of unary.Character (value.Number n)
        ≡ meaning.as_words words) }
{
    if n > 255 {
        return Ok(Err(LineKind::OutOfRange));
    }
    Ok(Ok(Bytes::from_slice(alloc, &[n as u8])?))
}

/// An operator before a number.
fn before_number(alloc: Global, op: UnaryOp, n: u32) -> Result<Result<Value, LineKind>, NoMemory>
    ensures { IfOk result (λ v. v ≡ meaning.unary_of op (value.Number n)) }
{
    match op {
        UnaryOp::Plus => Ok(Ok(Value::Number(n))),
        UnaryOp::Minus => Ok(Ok(Value::Number(0u32.wrapping_sub(n)))),
        UnaryOp::Not => Ok(Ok(Value::Number(u32::MAX - n))),
        UnaryOp::Character => Ok(as_words(string_of(alloc, n)?)),
        UnaryOp::String => {
            let words = Bytes::from_slice(alloc, &hexadecimal(n))?;
            Ok(Ok(Value::Words(words)))
        }
        UnaryOp::LogicalNot | UnaryOp::Length | UnaryOp::Size | UnaryOp::Defined => {
            Ok(Err(LineKind::WrongType))
        }
    }
}

/// The letter of a truth value.
fn truth_letter(truth: bool) -> &'static [u8]
    ensures { result.now ≡ (if truth then codes "T" else codes "F") }
{
    if truth {
        return b"T";
    }
    b"F"
}

/// An operator before a truth value.
fn before_truth(
    alloc: Global,
    op: UnaryOp,
    truth: bool,
) -> Result<Result<Value, LineKind>, NoMemory>
    ensures { IfOk result (λ v. v ≡ meaning.unary_of op (value.Truth truth)) }
{
    match op {
        UnaryOp::LogicalNot => Ok(Ok(Value::Truth(!truth))),
        UnaryOp::String => {
            let words = Bytes::from_slice(alloc, truth_letter(truth))?;
            Ok(Ok(Value::Words(words)))
        }
        UnaryOp::Plus
        | UnaryOp::Minus
        | UnaryOp::Not
        | UnaryOp::Length
        | UnaryOp::Character
        | UnaryOp::Size
        | UnaryOp::Defined => Ok(Err(LineKind::WrongType)),
    }
}

/// An operator before a string.
fn before_words(op: UnaryOp, words: &[u8]) -> Result<Value, LineKind>
    ensures { result ≡ meaning.unary_of op (value.Words words.now) }
{
    match op {
        UnaryOp::Length => as_number(string_length(words)),
        UnaryOp::Plus
        | UnaryOp::Minus
        | UnaryOp::Not
        | UnaryOp::LogicalNot
        | UnaryOp::Character
        | UnaryOp::String
        | UnaryOp::Size
        | UnaryOp::Defined => Err(LineKind::WrongType),
    }
}

/// An operator before a value.
pub fn unary(
    alloc: Global,
    op: UnaryOp,
    operand: &Value,
) -> Result<Result<Value, LineKind>, NoMemory>
    ensures { IfOk result (λ v. v ≡ meaning.unary_of op operand.now) }
{
    match operand {
        Value::Number(n) => before_number(alloc, op, *n),
        Value::Truth(truth) => before_truth(alloc, op, *truth),
        Value::Words(words) => Ok(before_words(op, words.as_slice())),
        Value::Place { .. } => Ok(Err(LineKind::WrongType)),
    }
}
