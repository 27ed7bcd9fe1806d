//! The value of an expression with a list of names.

ghost use Rattle.std.specs.Prelude.{◌≡◌, ◌++◌, IfOk, OnOk};
ghost use Rattle.asm_model.specs.Meaning.{Evaluates};

use crate::known::{KnownNames, add_entry};
use crate::seen::Seen;
use crate::value::value_seen;
use asm_model::{EvalFault, Expr, LaidName, Meaning, Names, Value};
use sdt_fault::NoMemory;
use std::alloc::Global;

/// A copy of what a name means.
fn meaning_copy(alloc: Global, meaning: &Meaning) -> Result<Meaning, NoMemory>
    ensures { IfOk result (λ copy. copy ≡ meaning.now) }
{
    match meaning {
        Meaning::Later => Ok(Meaning::Later),
        Meaning::Label => Ok(Meaning::Label),
        Meaning::Imported => Ok(Meaning::Imported),
        Meaning::Place => Ok(Meaning::Place),
        Meaning::Known(value) => Ok(Meaning::Known(value.try_clone(alloc)?)),
        Meaning::Faulty(kind) => Ok(Meaning::Faulty(*kind)),
        Meaning::Register => Ok(Meaning::Register),
    }
}

/// A copy of a name with what it means.
fn entry_copy(alloc: Global, entry: &LaidName) -> Result<LaidName, NoMemory>
    ensures { IfOk result (λ copy. copy ≡ entry.now) }
{
    Ok(LaidName {
        name: entry.name.share()?,
        meaning: meaning_copy(alloc, &entry.meaning)?,
        area: entry.area,
        offset: entry.offset,
        size: entry.size,
        thumb: entry.thumb,
    })
}

/// Copies of names, behind those that are there.
fn add_copies(alloc: Global, list: &[LaidName], names: &mut KnownNames) -> Result<(), NoMemory>
    ensures { OnOk result (names.new ≡ names.old ++ list.now) }
{
    'names: for entry in list {
        let copy = entry_copy(alloc, entry)?;
        add_entry(alloc, names, Some(copy))?;
    }
    Ok(())
}

/// Copies of names, with an index.
fn indexed(alloc: Global, list: &[LaidName]) -> Result<KnownNames, NoMemory>
    ensures { IfOk result (λ names. names ≡ list.now) }
{
    let mut names = KnownNames::new(alloc);
    add_copies(alloc, list, &mut names)?;
    Ok(names)
}

/// The value of an expression with these names, or the kind of its fault, as `value_seen` tells them. It makes an index
/// of the names; who evaluates more than one expression keeps an index and asks `value_seen`.
pub fn evaluate(alloc: Global, e: &Expr, names: &Names) -> Result<Value, EvalFault>
    ensures { Evaluates names.now e.now.items result }
{
    let known = indexed(alloc, names.list.as_slice())?;
    let seen = Seen {
        names: &known,
        first: None,
        own: None,
        area: names.area,
        offset: names.offset,
        map: names.map,
        thumb: names.thumb,
    };
    value_seen(alloc, e, &seen)
}
