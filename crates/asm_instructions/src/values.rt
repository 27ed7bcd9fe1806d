//! Values of operands.

ghost use Rattle.std.specs.Prelude.{◌≡◌, ◌<◌, ◌∷◌, [], Result, IfOk, IfSome};
ghost use Rattle.sdt_fault.specs.declared.kinds.LineKind.{LineKind};
ghost use Rattle.asm_model.specs.declared.exprs.ExprItem.TheVariants as item;
ghost use Rattle.asm_model.specs.declared.values.Value.TheVariants.{Number};
ghost use Rattle.asm_model.specs.Extents as extents;
ghost use Rattle.asm_model.specs.Said.{IsRead};
ghost use Rattle.source_model.specs.Contexts as contexts;
ghost use Rattle.source_model.specs.Contexts.{Context};
ghost use Rattle.asm_instructions.specs.Lookups.{Shows, context_of};

use crate::lookups::{Lookup, stands_at};
use asm_expr::told::told_value;
use asm_model::{Expr, ExprItem, Value};
use asm_names::final_value;
use sdt_fault::NoMemory;
use sdt_fault::kinds::LineKind;
use std::alloc::Global;

/// The number that an expression is, where all of it is one.
fn lone_number(e: &Expr) -> Option<u32>
    ensures { IfSome result (λ number. e.now.items ≡ item.Constant (Number number) ∷ []) }
{
    match e.items.as_slice() {
        [ExprItem::Constant(Value::Number(number))] => Some(*number),
        _ => None,
    }
}

/// The value of an expression with what the lookup finds.
pub fn value_there(
    alloc: Global,
    lookup: &Lookup<'_>,
    e: &Expr,
) -> Result<Result<Value, LineKind>, NoMemory>
    requires { IsRead e.now }
    ensures { IfOk result (λ value. value ≡ contexts.value_of (context_of lookup.now) e.now) }
{
    match lone_number(e) {
        Some(number) => Ok(Ok(Value::Number(number))),
        None => told_value(final_value(alloc, e, lookup.names, lookup.line)),
    }
}

/// A value as a number.
fn as_number(value: Result<Value, LineKind>) -> Result<u32, LineKind>
    ensures { result ≡ extents.as_number value }
{
    match value {
        Ok(Value::Number(number)) => Ok(number),
        Ok(_) => Err(LineKind::WrongType),
        Err(kind) => Err(kind),
    }
}

/// The number of an expression with what the lookup finds.
pub fn number_there(
    alloc: Global,
    lookup: &Lookup<'_>,
    e: &Expr,
) -> Result<Result<u32, LineKind>, NoMemory>
    requires { IsRead e.now }
    ensures { IfOk result (λ number. number ≡ contexts.number_in (context_of lookup.now) e.now) }
{
    let value = value_there(alloc, lookup, e)?;
    Ok(as_number(value))
}

/// The value of an expression with all names of the source, or the kind of its fault.
pub fn value_of(
    alloc: Global,
    lookup: &Lookup<'_>,
    e: &Expr,
) -> Result<Result<Value, LineKind>, NoMemory>
    requires { IsRead e.now }
    ensures { IfOk result (λ value. (c : Context) → Shows lookup.now c → value
        ≡ contexts.value_of c e.now) }
{
    value_there(alloc, lookup, e)
}

/// The number of an expression with all names of the source, or the kind of its fault.
pub fn number_in(
    alloc: Global,
    lookup: &Lookup<'_>,
    e: &Expr,
) -> Result<Result<u32, LineKind>, NoMemory>
    requires { IsRead e.now }
    ensures { IfOk result (λ number. (c : Context) → Shows lookup.now c → number
        ≡ contexts.number_in c e.now) }
{
    number_there(alloc, lookup, e)
}

/// Whether a number that is read as signed isn't negative.
fn is_positive(number: u32) -> bool
    ensures { result ≡ contexts.is_positive number }
{
    number < 0x8000_0000
}

/// Its distance from 0.
fn magnitude(number: u32) -> u32
    ensures { result ≡ contexts.magnitude number }
{
    if is_positive(number) {
        return number;
    }
    number.wrapping_neg()
}

/// An offset below a limit: whether it is added, and its magnitude.
pub fn offset_below(limit: u32, number: u32) -> Result<(bool, u32), LineKind>
    ensures is { result ≡ contexts.offset_below limit number }
    ensures below { IfOk result (λ offset. offset.1 < limit) }
{
    let distance = magnitude(number);
    if distance < limit {
        return Ok((is_positive(number), distance));
    }
    Err(LineKind::OutOfRange)
}

/// The offset of a place that stands in an area.
fn in_own_area(area: Option<u32>, place: Option<(u32, u32)>, plus: u32) -> Result<u32, LineKind>
    ensures { result ≡ contexts.in_own_area area place plus }
{
    let Some(own) = area else {
        return Err(LineKind::BadOperand);
    };
    let Some((other, offset)) = place else {
        return Err(LineKind::BadOperand);
    };
    if other == own {
        return Ok(offset.wrapping_add(plus));
    }
    Err(LineKind::BadOperand)
}

/// The offset of a label in the line's own area.
pub fn own_offset(lookup: &Lookup<'_>, value: Result<Value, LineKind>) -> Result<u32, LineKind>
    ensures { result ≡ contexts.own_offset (context_of lookup.now) value }
{
    match value {
        Ok(Value::Place { symbol, plus }) => {
            in_own_area(lookup.line.place.area, stands_at(lookup, &symbol), plus)
        }
        Ok(_) => Err(LineKind::WrongType),
        Err(kind) => Err(kind),
    }
}

/// How far an offset lies behind pc as the line's instruction reads it, modulo 2^32.
pub fn from_pc(lookup: &Lookup<'_>, offset: u32) -> u32
    ensures { result ≡ contexts.from_pc (context_of lookup.now) offset }
{
    let back = 0x1_0000_0000_u64.saturating_sub(u64::from(lookup.line.place.offset) + 8);
    ((u64::from(offset) + back) % 0x1_0000_0000) as u32
}
