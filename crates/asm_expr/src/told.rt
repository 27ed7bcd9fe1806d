//! What is told: the one of several faults, and a value or the kind of its fault.

ghost use Rattle.std.specs.Prelude.{◌≡◌, Result, IfOk};
ghost use Rattle.sdt_fault.specs.declared.kinds.LineKind.{LineKind};
ghost use Rattle.asm_model.specs.declared.values.Value.{Value};
ghost use Rattle.asm_model.specs.FaultSets as sets;
ghost use Rattle.asm_model.specs.Kinds.{told_kind};
ghost use Rattle.asm_model.specs.Kinds as kinds;
ghost use Rattle.asm_model.specs.Meaning.{IsValue};

use crate::kinds::earlier;
use asm_model::{EvalFault, Value};
use sdt_fault::NoMemory;
use sdt_fault::kinds::LineKind;

/// A fault where a test holds.
pub fn kind_if(holds: bool, kind: LineKind) -> Option<LineKind>
    ensures { result ≡ told_kind (kinds.kind_if holds kind) }
{
    if holds {
        return Some(kind);
    }
    None
}

/// The one of two faults that is told.
pub fn first_told(a: Option<LineKind>, b: Option<LineKind>) -> Option<LineKind>
    ensures { result ≡ sets.first_told a b }
{
    match (a, b) {
        (None, b) => b,
        (Some(kind), None) => Some(kind),
        (Some(kind), Some(other)) => Some(earlier(kind, other)),
    }
}

/// A value, or the kind that is told of it.
pub fn told_value(value: Result<Value, EvalFault>) -> Result<Result<Value, LineKind>, NoMemory>
    ensures { (m : Result Value LineKind) → IsValue m value → IfOk result (λ told. told ≡ m) }
{
    match value {
        Ok(value) => Ok(Ok(value)),
        Err(EvalFault::Kind(kind)) => Ok(Err(kind)),
        Err(EvalFault::NoMemory) => Err(NoMemory),
    }
}
