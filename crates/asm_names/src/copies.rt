//! Copies of entries and items.

ghost use Rattle.std.specs.Prelude.{◌≡◌, IfOk};

use asm_model::{ExprItem, LaidName, Meaning};
use sdt_fault::NoMemory;
use std::alloc::Global;

/// A copy of what a name means.
fn meaning_copy(alloc: Global, meaning: &Meaning) -> Result<Meaning, NoMemory>
    ensures { IfOk result (λ copy. copy ≡ meaning.now) }
{
    match meaning {
        Meaning::Later => Ok(Meaning::Later),
        Meaning::Label => Ok(Meaning::Label),
        Meaning::Imported => Ok(Meaning::Imported),
        Meaning::Place => Ok(Meaning::Place),
        Meaning::Known(value) => Ok(Meaning::Known(value.try_clone(alloc)?)),
        Meaning::Faulty(kind) => Ok(Meaning::Faulty(*kind)),
        Meaning::Register => Ok(Meaning::Register),
    }
}

/// A copy of an entry.
pub fn entry_copy(alloc: Global, entry: &LaidName) -> Result<LaidName, NoMemory>
    ensures { IfOk result (λ copy. copy ≡ entry.now) }
{
    let name = entry.name.share()?;
    let meaning = meaning_copy(alloc, &entry.meaning)?;
    Ok(LaidName {
        name,
        meaning,
        area: entry.area,
        offset: entry.offset,
        size: entry.size,
        thumb: entry.thumb,
    })
}

/// A copy of an item.
pub fn item_copy(alloc: Global, item: &ExprItem) -> Result<ExprItem, NoMemory>
    ensures { IfOk result (λ copy. copy ≡ item.now) }
{
    match item {
        ExprItem::Name(name) => Ok(ExprItem::Name(name.share()?)),
        ExprItem::Local(name) => Ok(ExprItem::Local(name.share()?)),
        ExprItem::Constant(value) => Ok(ExprItem::Constant(value.try_clone(alloc)?)),
        ExprItem::TooLarge => Ok(ExprItem::TooLarge),
        ExprItem::Here => Ok(ExprItem::Here),
        ExprItem::Map => Ok(ExprItem::Map),
        ExprItem::CodeSize => Ok(ExprItem::CodeSize),
        ExprItem::Unary(op) => Ok(ExprItem::Unary(*op)),
        ExprItem::Binary(op) => Ok(ExprItem::Binary(*op)),
    }
}
