//! Units one behind the other.

ghost use Rattle.std.specs.Prelude.{◌≡◌, ◌∷◌, [], IfOk};
ghost use Rattle.asm_model.specs.Readings.{mapped};
ghost use Rattle.source_model.specs.Units as units;
ghost use Rattle.asm_units.specs.Emitting.{all_emitted, emitted_of, stored_of, with_next};

use crate::emitted::{Emission, Emitted, Stored};
use asm_expr::kinds::earlier;
use sdt_fault::kinds::LineKind;
use sdt_fault::{Bytes, NoMemory};
use std::alloc::Global;

/// A word as a unit.
pub fn word_unit(word: Result<Stored, LineKind>) -> Result<Emitted, LineKind>
    ensures { mapped emitted_of result ≡ mapped (λ w. units.Word (stored_of w)) word }
{
    match word {
        Ok(Stored { number, target }) => Ok(Emitted::Word { number, target }),
        Err(kind) => Err(kind),
    }
}

/// Bytes as a unit.
pub fn bytes_unit(bytes: Result<Bytes, LineKind>) -> Result<Emitted, LineKind>
    ensures { mapped emitted_of result ≡ mapped (λ b. units.Bytes b) bytes }
{
    match bytes {
        Ok(bytes) => Ok(Emitted::Bytes(bytes)),
        Err(kind) => Err(kind),
    }
}

/// A unit alone.
pub fn one_unit(unit: Result<Emitted, LineKind>) -> Result<Emission, LineKind>
    ensures { all_emitted result ≡ mapped (λ u. u ∷ []) (mapped emitted_of unit) }
{
    match unit {
        Ok(unit) => Ok(Emission::One(unit)),
        Err(kind) => Err(kind),
    }
}

/// Units with one more behind them.
pub fn push_next(
    alloc: Global,
    so_far: Result<Emission, LineKind>,
    next: Result<Emitted, LineKind>,
) -> Result<Result<Emission, LineKind>, NoMemory>
    ensures { IfOk result (λ more. all_emitted more
        ≡ with_next (all_emitted so_far) (mapped emitted_of next)) }
{
    match (so_far, next) {
        (Ok(units), Ok(next)) => {
            let units = units.with(alloc, next)?;
            Ok(Ok(units))
        }
        (Ok(_), Err(kind)) => Ok(Err(kind)),
        (Err(kind), Ok(_)) => Ok(Err(kind)),
        (Err(kind), Err(other)) => Ok(Err(earlier(kind, other))),
    }
}
