//! The entries of names, as statements make them.

ghost use Rattle.std.specs.Prelude.{◌≡◌, Ok, IfOk};
ghost use Rattle.std.specs.Option.{option_copied};
ghost use Rattle.asm_model.specs.Entries as entries;

use asm_expr::KnownNames;
use asm_model::{LaidName, Meaning, SharedText, Value};
use sdt_fault::NoMemory;
use sdt_fault::kinds::LineKind;
use std::alloc::Global;

/// The entry of a label.
pub fn label_entry(
    alloc: Global,
    name: &SharedText,
    area: Option<u32>,
    offset: u32,
    size: Option<u32>,
    thumb: bool,
) -> Result<LaidName, NoMemory>
    ensures { IfOk result (λ entry. entry ≡ entries.label_entry name.now area offset size thumb) }
{
    Ok(LaidName {
        name: name.share()?,
        meaning: Meaning::Label,
        area,
        offset,
        size,
        thumb,
    })
}

/// The entry of a name for a place of an area, which is no label.
fn place_entry(
    alloc: Global,
    name: &SharedText,
    area: Option<u32>,
    offset: u32,
) -> Result<LaidName, NoMemory>
    ensures { IfOk result (λ entry. entry ≡ entries.place_entry name.now area offset) }
{
    Ok(LaidName {
        name: name.share()?,
        meaning: Meaning::Place,
        area,
        offset,
        size: Some(0),
        thumb: false,
    })
}

/// The entry of a name that stands nowhere.
fn entry(
    alloc: Global,
    name: &SharedText,
    meaning: Meaning,
    size: Option<u32>,
    thumb: bool,
) -> Result<LaidName, NoMemory>
    ensures { IfOk result (λ entry. entry ≡ entries.entry name.now meaning size thumb) }
{
    Ok(LaidName {
        name: name.share()?,
        meaning,
        area: None,
        offset: 0,
        size,
        thumb,
    })
}

/// The entry of an imported name.
pub fn imported_entry(alloc: Global, name: &SharedText) -> Result<LaidName, NoMemory>
    ensures { IfOk result (λ entry. entry ≡ entries.imported_entry name.now) }
{
    entry(alloc, name, Meaning::Imported, Some(0), false)
}

/// The entry of a name for a register.
pub fn register_entry(alloc: Global, name: &SharedText) -> Result<LaidName, NoMemory>
    ensures { IfOk result (λ entry. entry ≡ entries.register_entry name.now) }
{
    entry(alloc, name, Meaning::Register, Some(0), false)
}

/// The entry of a name that a line may not know yet.
pub fn later_entry(alloc: Global, name: &SharedText, thumb: bool) -> Result<LaidName, NoMemory>
    ensures { IfOk result (λ entry. entry ≡ entries.later_entry name.now thumb) }
{
    entry(alloc, name, Meaning::Later, None, thumb)
}

/// The entry of a name with a value of its own.
fn valued_entry(
    alloc: Global,
    name: &SharedText,
    value: Value,
    thumb: bool,
) -> Result<LaidName, NoMemory>
    ensures { IfOk result (λ entry. entry ≡ entries.valued_entry name.now value thumb) }
{
    entry(alloc, name, Meaning::Known(value), Some(0), thumb)
}

/// The entry of a field of the storage map.
pub fn field_entry(alloc: Global, name: &SharedText, map: u32) -> Result<LaidName, NoMemory>
    ensures { IfOk result (λ entry. entry ≡ entries.field_entry name.now map) }
{
    valued_entry(alloc, name, Value::Number(map), false)
}

fn thumb_of(entry: Option<&LaidName>) -> bool
    ensures { result ≡ entries.thumb_of (option_copied entry.entry) }
{
    match entry {
        None => false,
        Some(entry) => entry.thumb,
    }
}

/// The entry of a name for an expression that has the value in an area.
fn known_entry(
    alloc: Global,
    declared: &KnownNames,
    area: Option<u32>,
    name: &SharedText,
    value: Value,
) -> Result<LaidName, NoMemory>
    ensures { IfOk result (λ entry. entry
        ≡ entries.equal_entry declared.now area name.now (Ok value)) }
{
    match value {
        Value::Place { symbol, plus } => {
            if symbol.as_slice().is_empty() {
                return place_entry(alloc, name, area, plus);
            }
            let thumb = thumb_of(declared.find(&symbol));
            valued_entry(alloc, name, Value::Place { symbol, plus }, thumb)
        }
        _ => valued_entry(alloc, name, value, false),
    }
}

/// The entry of a name for an expression that has the value in an area, or a fault of the kind.
pub fn equal_entry(
    alloc: Global,
    declared: &KnownNames,
    area: Option<u32>,
    name: &SharedText,
    value: Result<Value, LineKind>,
) -> Result<LaidName, NoMemory>
    ensures { IfOk result (λ entry. entry ≡ entries.equal_entry declared.now area name.now value) }
{
    match value {
        Ok(value) => known_entry(alloc, declared, area, name, value),
        Err(kind) => entry(alloc, name, Meaning::Faulty(kind), Some(0), false),
    }
}
