//! What names are, by their entries.

ghost use Rattle.std.specs.Prelude.{◌≡◌, IfOk};
ghost use Rattle.std.specs.Option.{option_copied};
ghost use Rattle.asm_model.specs.Entries.{thumb_of};
ghost use Rattle.asm_model.specs.Meaning as meaning;
ghost use Rattle.asm_model.specs.Meaning.{named_in, value_of};
ghost use Rattle.asm_model.specs.declared.names.Names.{Names};

use asm_expr::slots::{Slot, known};
use asm_instructions::lookups::entry_stands_at;
use asm_model::{LaidName, SharedText, Value};
use asm_names::KnownNames;
use sdt_fault::NoMemory;
use sdt_fault::kinds::LineKind;
use std::alloc::Global;

/// The value that a name stands for.
pub fn value_named(
    alloc: Global,
    names: &KnownNames,
    name: &SharedText,
) -> Result<Result<Value, LineKind>, NoMemory>
    ensures { IfOk result (λ value. value ≡ value_of (named_in name.now names.now)) }
{
    known(alloc, Slot::Name(names.find(name)))
}

/// Whether an entry is a label of Thumb code.
pub fn is_thumb_entry(entry: Option<&LaidName>) -> bool
    ensures { result ≡ thumb_of (option_copied entry.entry) }
{
    match entry {
        None => false,
        Some(entry) => entry.thumb,
    }
}

/// Whether a name is a label of Thumb code.
pub fn is_thumb(names: &KnownNames, name: &SharedText) -> bool
    ensures { result ≡ thumb_of (named_in name.now names.now) }
{
    is_thumb_entry(names.find(name))
}

/// The area of a symbol with this entry and its offset there; the empty symbol is the start of this area.
pub fn place_at(
    area: Option<u32>,
    entry: Option<&LaidName>,
    symbol: &SharedText,
) -> Option<(u32, u32)>
    ensures { (s : Names) → s.area ≡ area → named_in symbol.now s.list ≡ option_copied entry.entry
        → result ≡ meaning.stands_at s symbol.now }
{
    if symbol.as_slice().is_empty() {
        return match area {
            None => None,
            Some(area) => Some((area, 0)),
        };
    }
    entry_stands_at(entry)
}

/// The area of a symbol and its offset there; the empty symbol is the start of this area.
pub fn stands_at(names: &KnownNames, area: Option<u32>, symbol: &SharedText) -> Option<(u32, u32)>
    ensures { (s : Names) → s.list ≡ names.now → s.area ≡ area → result
        ≡ meaning.stands_at s symbol.now }
{
    place_at(area, names.find(symbol), symbol)
}
