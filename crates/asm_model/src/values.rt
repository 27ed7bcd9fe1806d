//! Values of expressions.

ghost use Rattle.std.specs.Prelude.{◌≡◌, IfOk};
ghost use Rattle.asm_model.specs.declared.values.EvalFault.TheVariants as eval;

use crate::shared_texts::SharedText;
use sdt_fault::kinds::LineKind;
use sdt_fault::{Bytes, NoMemory};
use std::alloc::{AllocError, AllocFailed, Global};

#[derive(PartialEq, Eq, PartialOrd, Ord, Drop)]
pub enum Value {
    Number(u32),
    Truth(bool),
    /// A string.
    Words(Bytes),
    /// A symbol plus a number, modulo 2^32. An empty symbol stands for the start of the area in which
    /// the statement stands.
    Place { symbol: SharedText, plus: u32 },
}

impl Value {
    /// A copy.
    pub fn try_clone(&self, alloc: Global) -> Result<Value, NoMemory>
        ensures { IfOk result (λ value. value ≡ self.now) }
    {
        match self {
            Value::Number(number) => Ok(Value::Number(*number)),
            Value::Truth(truth) => Ok(Value::Truth(*truth)),
            Value::Words(words) => {
                let copy = words.try_clone(alloc)?;
                Ok(Value::Words(copy))
            }
            Value::Place { symbol, plus } => {
                let copy = symbol.share()?;
                Ok(Value::Place {
                    symbol: copy,
                    plus: *plus,
                })
            }
        }
    }
}

/// Why an expression has no value.
#[derive(Clone, Copy)]
pub enum EvalFault {
    Kind(LineKind),
    NoMemory,
}

impl From<NoMemory> for EvalFault {
    ghost from_gives = { λ _ e. e ≡ eval.NoMemory };

    fn from(_e: NoMemory) -> EvalFault {
        EvalFault::NoMemory
    }
}

impl From<AllocError> for EvalFault {
    ghost from_gives = { λ _ e. e ≡ eval.NoMemory };

    fn from(_e: AllocError) -> EvalFault {
        EvalFault::NoMemory
    }
}

impl<T: Drop> From<AllocFailed<T>> for EvalFault {
    ghost from_gives = { λ _ e. e ≡ eval.NoMemory };

    fn from(_e: AllocFailed<T>) -> EvalFault {
        EvalFault::NoMemory
    }
}
