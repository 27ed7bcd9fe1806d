//! Operands on the stack of an evaluation.

ghost use Rattle.std.specs.Prelude.{◌≡◌, IfOk};
ghost use Rattle.asm_model.specs.Meaning as meaning;
ghost use Rattle.asm_expr.specs.Evaluating as evaluating;

use asm_model::{LaidName, Meaning, Value};
use sdt_fault::NoMemory;
use sdt_fault::kinds::LineKind;
use std::alloc::Global;

/// What an operand is.
#[derive(Drop)]
pub enum Slot<'a> {
    /// A name that is not read yet, by its entry.
    Name(Option<&'a LaidName>),
    Constant(&'a Value),
    Known(Value),
    Fault(LineKind),
}

/// The value that a name stands for.
fn entry_value(alloc: Global, entry: &LaidName) -> Result<Result<Value, LineKind>, NoMemory>
    ensures { IfOk result (λ value. value ≡ meaning.entry_value entry.now) }
{
    match &entry.meaning {
        Meaning::Later => Ok(Err(LineKind::Forward)),
        Meaning::Known(value) => Ok(Ok(value.try_clone(alloc)?)),
        Meaning::Faulty(kind) => Ok(Err(*kind)),
        Meaning::Register => Ok(Err(LineKind::WrongType)),
        _ => {
            let symbol = entry.name.share()?;
            Ok(Ok(Value::Place { symbol, plus: 0 }))
        }
    }
}

/// The value of an operand.
pub fn known(alloc: Global, slot: Slot<'_>) -> Result<Result<Value, LineKind>, NoMemory>
    ensures { IfOk result (λ value. value ≡ meaning.known (evaluating.operand_of slot.entry)) }
{
    match slot {
        Slot::Name(None) => Ok(Err(LineKind::UnknownWord)),
        Slot::Name(Some(entry)) => entry_value(alloc, entry),
        Slot::Constant(value) => Ok(Ok(value.try_clone(alloc)?)),
        Slot::Known(value) => Ok(Ok(value)),
        Slot::Fault(kind) => Ok(Err(kind)),
    }
}

/// A value or a fault as an operand.
pub fn slot_of<'a>(value: Result<Value, LineKind>) -> Slot<'a>
    ensures { evaluating.operand_of result ≡ meaning.Known value }
{
    match value {
        Ok(value) => Slot::Known(value),
        Err(kind) => Slot::Fault(kind),
    }
}
