//! What the operands of a line are looked up in.

ghost use Rattle.std.specs.Prelude.{◌≡◌, ◌&&◌, not};
ghost use Rattle.std.specs.Option.{option_copied};
ghost use Rattle.asm_model.specs.Labels as labels;
ghost use Rattle.asm_model.specs.Meaning as meaning;
ghost use Rattle.source_model.specs.Contexts as contexts;
ghost use Rattle.source_model.specs.Registers.{register_in};
ghost use Rattle.asm_instructions.specs.Lone as lone;
ghost use Rattle.asm_instructions.specs.Lookups.{context_of};

use asm_model::{Expr, ExprItem, LaidName, Meaning, Register, SharedText};
use asm_names::{KnownNames, PlacedLine};
use asm_sets::NameMap;

/// What the operands of a line are found by, once all names of the source are known.
#[derive(Clone, Copy)]
pub struct Lookup<'a> {
    /// All names of the source.
    pub names: &'a KnownNames,
    pub line: &'a PlacedLine<'a>,
    /// The registers that names stand for at the line.
    pub registers: &'a NameMap<u8>,
}

/// The number that a name stands for; 0 where it stands for none.
fn number_named(registers: &NameMap<u8>, name: &SharedText) -> u8
    ensures { result ≡ contexts.or_zero (register_in name.now registers.now) }
{
    registers.find(name).unwrap_or(0)
}

/// The number of a register; 0 where it is a name that stands for none, as no name of a source without faults.
pub fn register(lookup: &Lookup<'_>, register: &Register) -> u8
    ensures { result ≡ contexts.register (context_of lookup.now) register.now }
{
    match register {
        Register::Number(number) => *number,
        Register::Named(name) => number_named(lookup.registers, name.as_text()),
    }
}

fn is_symbol(meaning: &Meaning) -> bool
    ensures { result ≡ contexts.is_symbol meaning.now }
{
    match meaning {
        Meaning::Label => true,
        Meaning::Imported => true,
        _ => false,
    }
}

fn is_symbol_entry(entry: Option<&LaidName>) -> bool
    ensures { result ≡ contexts.is_symbol_entry (option_copied entry.entry) }
{
    match entry {
        None => false,
        Some(entry) => is_symbol(&entry.meaning),
    }
}

/// Whether a name is that of a local label.
fn is_hidden(name: &[u8]) -> bool
    ensures { result ≡ labels.is_hidden name.now }
{
    match name {
        [] => false,
        [first, ..] => *first == b'\n',
    }
}

/// Whether a symbol may have the name of this entry: it is that of a label or an import, and of no local label.
pub fn may_have_symbol(entry: Option<&LaidName>, name: &SharedText) -> bool
    ensures { result ≡ (contexts.is_symbol_entry (option_copied entry.entry) && not
        (labels.is_hidden name.now)) }
{
    if is_symbol_entry(entry) {
        return !is_hidden(name.as_slice());
    }
    false
}

/// Whether a name with this meaning stands for a place, also where it is all of an expression.
fn is_symbolic(meaning: &Meaning) -> bool
    ensures { result ≡ lone.is_symbolic meaning.now }
{
    match meaning {
        Meaning::Label => true,
        Meaning::Imported => true,
        Meaning::Place => true,
        _ => false,
    }
}

/// An entry of a place.
fn symbolic(entry: Option<&LaidName>) -> Option<&LaidName>
    ensures { option_copied result ≡ lone.symbolic (option_copied entry.entry) }
{
    match entry {
        None => None,
        Some(entry) => {
            if is_symbolic(&entry.meaning) {
                return Some(entry);
            }
            None
        }
    }
}

/// The entry of an item that is a name.
fn item_entry<'a>(lookup: &Lookup<'a>, item: &ExprItem) -> Option<&'a LaidName>
    ensures { option_copied result ≡ lone.item_entry lookup.now.names.now item.now }
{
    match item {
        ExprItem::Name(name) => lookup.names.find(name),
        _ => None,
    }
}

/// The entry of an expression that is the name of a place alone.
pub fn lone_place<'a>(lookup: &Lookup<'a>, e: &Expr) -> Option<&'a LaidName>
    ensures { option_copied result ≡ lone.lone_place lookup.now.names.now e.now.items }
{
    match e.items.as_slice() {
        [item] => symbolic(item_entry(lookup, item)),
        _ => None,
    }
}

/// Where a name's entry stands.
pub fn entry_stands_at(entry: Option<&LaidName>) -> Option<(u32, u32)>
    ensures { result ≡ meaning.entry_stands_at (option_copied entry.entry) }
{
    match entry {
        None => None,
        Some(entry) => match entry.area {
            None => None,
            Some(area) => Some((area, entry.offset)),
        },
    }
}

/// The area of a symbol and its offset there; the empty symbol is the start of the line's area.
pub fn stands_at(lookup: &Lookup<'_>, symbol: &SharedText) -> Option<(u32, u32)>
    ensures { result ≡ meaning.stands_at (contexts.sees (context_of lookup.now)) symbol.now }
{
    if symbol.as_slice().is_empty() {
        return match lookup.line.place.area {
            None => None,
            Some(area) => Some((area, 0)),
        };
    }
    entry_stands_at(lookup.names.find(symbol))
}
