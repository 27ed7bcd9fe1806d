//! Literals, which LDR loads from a pool.

ghost use Rattle.std.specs.Prelude.{◌≡◌, ℕ, List, IfOk};
ghost use Rattle.asm_model.specs.declared.names.Names.{Names};
ghost use Rattle.asm_model.specs.declared.values.Value.TheVariants.{Place};
ghost use Rattle.asm_model.specs.Readings.{mapped};
ghost use Rattle.asm_model.specs.Symbols as symbols;
ghost use Rattle.source_model.specs.Contexts.{Context, sees};
ghost use Rattle.source_model.specs.Units as units;
ghost use Rattle.asm_units.specs.Emitting.{stored_of};
ghost use Rattle.asm_units.specs.Literals as literals;
ghost use Rattle.asm_units.specs.Showing.{ShowsNames};

use crate::emitted::Stored;
use crate::named::value_named;
use crate::stored_words::stored;
use asm_model::{SharedText, Value};
use asm_names::KnownNames;
use asm_sets::NameRefs;
use sdt_fault::NoMemory;
use sdt_fault::kinds::LineKind;
use std::alloc::Global;

/// A value plus a number.
fn moved(value: Result<Value, LineKind>, plus: u32) -> Result<Value, LineKind>
    ensures { result ≡ literals.moved value plus }
{
    match value {
        Ok(Value::Number(number)) => Ok(Value::Number(number.wrapping_add(plus))),
        Ok(
            Value::Place {
                symbol,
                plus: before,
            },
        ) => Ok(Value::Place {
            symbol,
            plus: before.wrapping_add(plus),
        }),
        Ok(_) => Err(LineKind::WrongType),
        Err(kind) => Err(kind),
    }
}

/// The value of a symbol plus a number, once all names are known.
fn place_value(
    alloc: Global,
    names: &KnownNames,
    symbol: &SharedText,
    plus: u32,
) -> Result<Result<Value, LineKind>, NoMemory>
    ensures { IfOk result (λ v. (s : Names) → s.list ≡ names.now → v
        ≡ symbols.literal_value s (Place symbol.now plus)) }
{
    if symbol.as_slice().is_empty() {
        let symbol = symbol.share()?;
        return Ok(Ok(Value::Place { symbol, plus }));
    }
    let value = value_named(alloc, names, symbol)?;
    Ok(moved(value, plus))
}

/// The value of a literal, once all names are known.
pub fn literal_value(
    alloc: Global,
    names: &KnownNames,
    literal: &Value,
) -> Result<Result<Value, LineKind>, NoMemory>
    ensures { IfOk result (λ v. (s : Names) → s.list ≡ names.now → v
        ≡ symbols.literal_value s literal.now) }
{
    match literal {
        Value::Place { symbol, plus } => place_value(alloc, names, symbol, *plus),
        _ => {
            let value = literal.try_clone(alloc)?;
            Ok(Ok(value))
        }
    }
}

/// What the word of a literal of an area holds, or the kind of its fault, where a source has these names and labels that
/// are data.
pub fn literal_stored(
    alloc: Global,
    names: &KnownNames,
    data_names: &NameRefs<'_>,
    area: Option<u32>,
    literal: &Value,
) -> Result<Result<Stored, LineKind>, NoMemory>
    ensures { IfOk result (λ w. (c : Context) (labels : List (List ℕ))
        → ShowsNames names.now data_names.now area c labels → mapped stored_of w
        ≡ units.stored c labels (symbols.literal_value (sees c) literal.now)) }
{
    let value = literal_value(alloc, names, literal)?;
    Ok(stored(names, data_names, area, value))
}
