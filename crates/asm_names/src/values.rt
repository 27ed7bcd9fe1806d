//! Numbers and literals by what a line sees.

ghost use Rattle.std.specs.Prelude.{◌≡◌};
ghost use Rattle.asm_expr.specs.Seeing.{seen_names};
ghost use Rattle.asm_names.specs.Steps as steps;
ghost use Rattle.asm_names.specs.Values.{SeesNumber, SeesLiteral};

use crate::keeping::kept_items;
use asm_expr::{Seen, value_seen};
use asm_model::{EvalFault, Expr, Value};
use sdt_fault::List;
use sdt_fault::kinds::LineKind;
use std::alloc::Global;

/// A value as a number.
fn number_in(value: Result<Value, EvalFault>) -> Result<u32, EvalFault>
    ensures { result ≡ steps.number_in value }
{
    match value {
        Ok(Value::Number(number)) => Ok(number),
        Ok(_) => Err(EvalFault::Kind(LineKind::WrongType)),
        Err(fault) => Err(fault),
    }
}

/// The number of an expression by what its line sees; WrongType where its value is no number.
pub fn number_at(alloc: Global, e: &Expr, seen: &Seen<'_>) -> Result<u32, EvalFault>
    ensures { SeesNumber (seen_names seen.now) e.now.items result }
{
    number_in(value_seen(alloc, e, seen))
}

/// The value of an expression in which names without a value stay names.
fn kept_value(alloc: Global, e: &Expr, seen: &Seen<'_>) -> Result<Value, EvalFault>
    ensures { steps.SeesKept (seen_names seen.now) e.now.items result }
{
    let items = kept_items(alloc, seen, e.items.as_slice())?;
    let kept = Expr {
        items: List::from_vec(items),
    };
    value_seen(alloc, &kept, seen)
}

/// Whether a value is the literal, or none is known for want of memory.
fn is_settled(value: &Result<Value, EvalFault>) -> bool
    ensures { result ≡ steps.is_settled value.now }
{
    match value {
        Ok(Value::Number(_)) => true,
        Ok(Value::Place { .. }) => true,
        Ok(_) => false,
        Err(EvalFault::NoMemory) => true,
        Err(EvalFault::Kind(_)) => false,
    }
}

/// One name plus a number, or else Forward, but where it has what nothing defines.
fn place_or_forward(value: Result<Value, EvalFault>) -> Result<Value, EvalFault>
    ensures { result ≡ steps.place_or_forward value }
{
    match value {
        Ok(Value::Place { symbol, plus }) => Ok(Value::Place { symbol, plus }),
        Err(EvalFault::NoMemory) => Err(EvalFault::NoMemory),
        Err(EvalFault::Kind(LineKind::UnknownWord)) => Err(EvalFault::Kind(LineKind::UnknownWord)),
        _ => Err(EvalFault::Kind(LineKind::Forward)),
    }
}

/// The literal of an expression by what its line sees: a number that is known, or else one name plus a number;
/// UnknownWord where it has what nothing defines, Forward where it is none of these.
pub fn literal_at(alloc: Global, e: &Expr, seen: &Seen<'_>) -> Result<Value, EvalFault>
    ensures { SeesLiteral (seen_names seen.now) e.now.items result }
{
    let value = value_seen(alloc, e, seen);
    if is_settled(&value) {
        return value;
    }
    place_or_forward(kept_value(alloc, e, seen))
}
