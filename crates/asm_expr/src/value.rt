//! The value of an expression by what a line sees.

ghost use Rattle.std.specs.Prelude.{◌≡◌, [], IfOk, OnOk, if◌then◌else◌};
ghost use Rattle.std.specs.Option.{option_copied};
ghost use Rattle.asm_model.specs.Meaning as meaning;
ghost use Rattle.asm_model.specs.Readings as readings;
ghost use Rattle.asm_expr.specs.Evaluating as evaluating;
ghost use Rattle.asm_expr.specs.Seeing.{seen_names};
ghost use Rattle.asm_expr.specs.Steps.{TakesTwo};

use crate::kinds::earlier;
use crate::listing::push;
use crate::names::entry_named;
use crate::operators::{binary, unary};
use crate::or_kind;
use crate::seen::Seen;
use crate::slots::{Slot, known, slot_of};
use asm_model::{
    BinaryOp, EvalFault, Expr, ExprItem, LaidName, Meaning, SharedText, UnaryOp, Value,
};
use sdt_fault::NoMemory;
use sdt_fault::kinds::LineKind;
use std::alloc::Global;

/// The number of bytes of the statement that defines a name.
fn size_of(entry: Option<&LaidName>) -> Result<Value, LineKind>
    ensures { result ≡ meaning.size_of (option_copied entry.entry) }
{
    let Some(entry) = entry else {
        return Err(LineKind::UnknownWord);
    };
    match (&entry.meaning, entry.size) {
        (Meaning::Later, _) => Err(LineKind::Forward),
        (Meaning::Register, _) => Err(LineKind::WrongType),
        (_, None) => Err(LineKind::Forward),
        (_, Some(size)) => Ok(Value::Number(size)),
    }
}

/// Whether a name is defined.
fn is_defined(entry: Option<&LaidName>) -> Result<Value, LineKind>
    ensures { result ≡ meaning.defined_of (option_copied entry.entry) }
{
    let Some(entry) = entry else {
        return Ok(Value::Truth(false));
    };
    match &entry.meaning {
        Meaning::Later => Err(LineKind::Forward),
        _ => Ok(Value::Truth(true)),
    }
}

/// An operator before the value of an operand.
fn on_value(
    alloc: Global,
    op: UnaryOp,
    operand: Slot<'_>,
) -> Result<Result<Value, LineKind>, NoMemory>
    ensures { IfOk result (λ value. value
        ≡ readings.and_then (meaning.known (evaluating.operand_of operand.entry))
        (meaning.unary_of op)) }
{
    let value = or_kind!(known(alloc, operand)?);
    unary(alloc, op, &value)
}

/// An operator before an operand.
fn applied(
    alloc: Global,
    op: UnaryOp,
    operand: Slot<'_>,
) -> Result<Result<Value, LineKind>, NoMemory>
    ensures { IfOk result (λ value. value
        ≡ meaning.applied op (evaluating.operand_of operand.entry)) }
{
    match (op, operand) {
        (UnaryOp::Size, Slot::Name(entry)) => Ok(size_of(entry)),
        (UnaryOp::Defined, Slot::Name(entry)) => Ok(is_defined(entry)),
        (op, operand) => on_value(alloc, op, operand),
    }
}

/// An operator between two values, or the kind that is told of them.
fn between(
    alloc: Global,
    seen: &Seen<'_>,
    op: BinaryOp,
    left: &Result<Value, LineKind>,
    right: &Result<Value, LineKind>,
) -> Result<Result<Value, LineKind>, NoMemory>
    ensures { IfOk result (λ value. value
        ≡ readings.then_both left.now right.now (meaning.binary (seen_names seen.now) op)) }
{
    match (left, right) {
        (Ok(left), Ok(right)) => binary(alloc, seen, op, left, right),
        (Ok(_), Err(kind)) => Ok(Err(*kind)),
        (Err(kind), Ok(_)) => Ok(Err(*kind)),
        (Err(kind), Err(other)) => Ok(Err(earlier(*kind, *other))),
    }
}

/// An operator between two operands.
fn on_both(
    alloc: Global,
    seen: &Seen<'_>,
    op: BinaryOp,
    left: Slot<'_>,
    right: Slot<'_>,
) -> Result<Result<Value, LineKind>, NoMemory>
    ensures { IfOk result (λ value. value
        ≡ readings.then_both (meaning.known (evaluating.operand_of left.entry))
        (meaning.known (evaluating.operand_of right.entry))
        (meaning.binary (seen_names seen.now) op)) }
{
    let left = known(alloc, left)?;
    let right = known(alloc, right)?;
    between(alloc, seen, op, &left, &right)
}

/// An item that is an operand.
fn operand<'a>(alloc: Global, seen: &Seen<'a>, item: &'a ExprItem) -> Result<Slot<'a>, NoMemory>
    ensures { IfOk result (λ slot. evaluating.operand_of slot
        ≡ meaning.operand_of_item (seen_names seen.now) item.now) }
{
    match item {
        ExprItem::Name(name) => Ok(Slot::Name(entry_named(seen, name))),
        ExprItem::Local(_) => Ok(Slot::Fault(LineKind::UnknownWord)),
        ExprItem::Constant(value) => Ok(Slot::Constant(value)),
        ExprItem::TooLarge => Ok(Slot::Fault(LineKind::Constant)),
        ExprItem::Here => {
            let symbol = SharedText::from_slice(alloc, b"")?;
            Ok(Slot::Known(Value::Place {
                symbol,
                plus: seen.offset,
            }))
        }
        ExprItem::Map => Ok(Slot::Known(Value::Number(seen.map))),
        ExprItem::CodeSize => Ok(Slot::Known(Value::Number(code_size(seen.thumb)))),
        ExprItem::Unary(_) => Ok(Slot::Fault(LineKind::Syntax)),
        ExprItem::Binary(_) => Ok(Slot::Fault(LineKind::Syntax)),
    }
}

/// The width of instructions in bits.
fn code_size(thumb: bool) -> u32
    ensures { result ≡ (if thumb then 16 else 32) }
{
    if thumb { 16 } else { 32 }
}

/// An operator before the operand on the top.
fn act_unary(alloc: Global, op: UnaryOp, stack: &mut Vec<Slot<'_>>) -> Result<(), NoMemory>
    ensures { OnOk result (evaluating.operands_of stack.new.items
        ≡ evaluating.act_unary op (evaluating.operands_of stack.old.items)) }
{
    let Some(top) = stack.pop() else {
        return push(stack, Slot::Fault(LineKind::Syntax));
    };
    let value = applied(alloc, op, top)?;
    push(stack, slot_of(value))
}

/// The two values on the top; None where there are fewer, of which none is left.
fn two<T: Drop>(stack: &mut Vec<T>) -> Option<(T, T)>
    ensures { TakesTwo stack.old.items result stack.new.items }
{
    let Some(right) = stack.pop() else {
        return None;
    };
    let Some(left) = stack.pop() else {
        return None;
    };
    Some((left, right))
}

/// An operator between the two operands on the top.
fn act_binary(
    alloc: Global,
    seen: &Seen<'_>,
    op: BinaryOp,
    stack: &mut Vec<Slot<'_>>,
) -> Result<(), NoMemory>
    ensures { OnOk result (evaluating.operands_of stack.new.items
        ≡ evaluating.act_binary (seen_names seen.now) op (evaluating.operands_of stack.old.items)) }
{
    let Some((left, right)) = two(stack) else {
        return push(stack, Slot::Fault(LineKind::Syntax));
    };
    let value = on_both(alloc, seen, op, left, right)?;
    push(stack, slot_of(value))
}

/// One item more.
fn act<'a>(
    alloc: Global,
    seen: &Seen<'a>,
    item: &'a ExprItem,
    stack: &mut Vec<Slot<'a>>,
) -> Result<(), NoMemory>
    ensures { OnOk result (evaluating.operands_of stack.new.items
        ≡ evaluating.act (seen_names seen.now) item.now (evaluating.operands_of stack.old.items)) }
{
    match item {
        ExprItem::Unary(op) => act_unary(alloc, *op, stack),
        ExprItem::Binary(op) => act_binary(alloc, seen, *op, stack),
        _ => {
            let slot = operand(alloc, seen, item)?;
            push(stack, slot)
        }
    }
}

/// The operands that items leave.
fn run<'a>(alloc: Global, seen: &Seen<'a>, items: &'a [ExprItem]) -> Result<Vec<Slot<'a>>, NoMemory>
    ensures { IfOk result (λ stack. evaluating.operands_of stack.items
        ≡ evaluating.run (seen_names seen.now) items.now []) }
{
    let mut stack = Vec::new(alloc);
    'items: for item in items {
        act(alloc, seen, item, &mut stack)?;
    }
    Ok(stack)
}

/// The value where one operand is left.
fn ended(alloc: Global, stack: &mut Vec<Slot<'_>>) -> Result<Result<Value, LineKind>, NoMemory>
    ensures { IfOk result (λ value. value
        ≡ evaluating.ended (evaluating.operands_of stack.old.items)) }
{
    if stack.len() != 1 {
        return Ok(Err(LineKind::Syntax));
    }
    match stack.pop() {
        None => Ok(Err(LineKind::Syntax)),
        Some(top) => known(alloc, top),
    }
}

/// The value of one item alone.
fn value_alone(
    alloc: Global,
    seen: &Seen<'_>,
    item: &ExprItem,
) -> Result<Result<Value, LineKind>, NoMemory>
    ensures { IfOk result (λ value. value
        ≡ meaning.known (meaning.operand_of_item (seen_names seen.now) item.now)) }
{
    if let ExprItem::Constant(value) = item {
        return Ok(Ok(value.try_clone(alloc)?));
    }
    known(alloc, operand(alloc, seen, item)?)
}

/// The value of items. One alone, as most expressions have, needs no stack.
fn value_of(
    alloc: Global,
    seen: &Seen<'_>,
    items: &[ExprItem],
) -> Result<Result<Value, LineKind>, NoMemory>
    ensures { IfOk result (λ value. value
        ≡ evaluating.ended (evaluating.run (seen_names seen.now) items.now [])) }
{
    match items {
        [item] => value_alone(alloc, seen, item),
        _ => by_stack(alloc, seen, items),
    }
}

/// The value of items, by a stack of operands.
#[inline(never)]
fn by_stack(
    alloc: Global,
    seen: &Seen<'_>,
    items: &[ExprItem],
) -> Result<Result<Value, LineKind>, NoMemory>
    ensures { IfOk result (λ value. value
        ≡ evaluating.ended (evaluating.run (seen_names seen.now) items.now [])) }
{
    let mut stack = run(alloc, seen, items)?;
    ended(alloc, &mut stack)
}

/// The value of an expression by the names that are seen, or the kind of its fault: UnknownWord for a name that isn't there
/// and for a reference to a local label, Constant for a number above 2^32 - 1, Forward for a name that means something
/// later, WrongType, OutOfRange, DivideByZero, and TooMany for a string of more than `STRING_BYTES` bytes.
pub fn value_seen(alloc: Global, e: &Expr, seen: &Seen<'_>) -> Result<Value, EvalFault>
    ensures { meaning.Evaluates (seen_names seen.now) e.now.items result }
{
    match value_of(alloc, seen, e.items.as_slice())? {
        Ok(value) => Ok(value),
        Err(kind) => Err(EvalFault::Kind(kind)),
    }
}
