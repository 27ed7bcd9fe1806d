//! Literals, and a map from those that wait to their numbers.

ghost use Rattle.std.specs.Prelude.{◌≡◌, ◌∷◌, ◌++◌, [], if◌then◌else◌, Some, OnOk, OnErr};
ghost use Rattle.std.specs.BTreeMap.{IsEmpty};
ghost use Rattle.asm_model.specs.declared.values.Value.{Value as Literal};
ghost use Rattle.asm_pool.specs.Pooled.{same_literal};
ghost use Rattle.asm_pool.specs.Index.{number_in};

use asm_model::Value;
use sdt_fault::NoMemory;
use std::alloc::Global;
use std::collections::BTreeMap;

/// The number of a literal.
pub fn find(index: &BTreeMap<Value, u32>, literal: &Value) -> Option<u32>
    ensures { result ≡ number_in index.now literal.now }
{
    index.get(literal).copied()
}

/// Gives a literal a number, in the place of the one that it had.
fn put(index: &mut BTreeMap<Value, u32>, literal: Value, number: u32) -> Result<(), NoMemory>
    ensures ok { OnOk result ((q : Literal) → number_in index.new q
        ≡ (if same_literal literal q then Some number else number_in index.old q)) }
    ensures err { OnErr result ((q : Literal) → number_in index.new q ≡ number_in index.old q) }
{
    index.insert(literal, number)?;
    Ok(())
}

/// One literal more, with its number. An `Err` changes nothing.
pub fn add(
    alloc: Global,
    literals: &mut Vec<Value>,
    index: &mut BTreeMap<Value, u32>,
    literal: &Value,
    number: u32,
) -> Result<(), NoMemory>
    ensures more { OnOk result (literals.new.items ≡ literals.old.items ++ literal.now ∷ []) }
    ensures numbers { OnOk result ((q : Literal) → number_in index.new q
        ≡ (if same_literal literal.now q then Some number else number_in index.old q)) }
    ensures kept { OnErr result (literals.new.items ≡ literals.old.items) }
    ensures unchanged { OnErr result ((q : Literal) → number_in index.new q
        ≡ number_in index.old q) }
{
    let entry = literal.try_clone(alloc)?;
    let key = literal.try_clone(alloc)?;
    literals.push(entry)?;
    if put(index, key, number).is_err() {
        literals.pop();
        return Err(NoMemory);
    }
    Ok(())
}

/// No literal has a number.
pub fn forget(index: &mut BTreeMap<Value, u32>)
    ensures { IsEmpty index.new }
{
    index.clear();
}
