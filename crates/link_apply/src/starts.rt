//! What relocations do to the fields that begin at each place of an area.

ghost use Rattle.std.specs.Prelude.{◌≡◌, ◌≢◌, ℕ, ◌%◌, ◌<◌, ◌^◌, ◌==◌, ◌||◌, not, true, None, Some, nat_eq, length, OnOk, IfOk, IfSome, if◌then◌else◌};
ghost use Rattle.patch_model.specs.Fields.{field_of, Values, mark_of as field_mark, value_named, is_thumb_label as is_label, is_same_kind};
ghost use Rattle.indexmap.specs.IndexMap.{get};
ghost use Rattle.link_apply.specs.Targets.{values_by};
ghost use Rattle.link_apply.specs.Starts.{symbol_by, started as start_with, starts, AreBelow, AreLow, AreSmall, AreStarts, IsSmall};
ghost use Rattle.link_values.specs.Bases.{base_of};

use aof_object::{FieldKind, Reloc, RelocationTarget};
use indexmap::IndexMap;
use link_values::{AreaBases, SymbolValue, base_at};
use sdt_fault::NoMemory;
use std::alloc::Global;

/// What the relocations of one place do.
#[derive(Clone, Copy)]
pub struct FieldDirectives {
    /// That of the first.
    pub kind: FieldKind,
    /// Whether their kinds differ.
    pub is_mixed: bool,
    /// The greatest size in bytes of their fields.
    pub widest: u32,
    /// Whether there is one alone.
    pub is_alone: bool,
    /// What they add.
    pub added: u64,
    /// How many take the area's base away.
    pub relative: u64,
    /// The first symbol.
    pub symbol: Option<u32>,
}

fn symbol_number(symbols: &[SymbolValue], number: u32) -> u64
    requires { AreBelow symbols.now }
    ensures value { result ≡ ((values_by (λ k. 0) symbols.now).symbol number).number }
    ensures bound { result < 2 ^ 34 }
{
    match symbols.get(number as usize) {
        None => 0,
        Some(symbol) => symbol.number,
    }
}

fn is_thumb_label(symbols: &[SymbolValue], number: u32) -> bool
    ensures { result ≡ is_label ((values_by (λ k. 0) symbols.now).symbol number) }
{
    match symbols.get(number as usize) {
        None => false,
        Some(symbol) => symbol.home.is_some() && symbol.thumb && !symbol.datum,
    }
}

/// The number that a relocation adds, without a label's 1.
fn number_of(bases: &AreaBases, object: u32, symbols: &[SymbolValue], reloc: Reloc) -> u64
    requires bases { AreLow bases.now }
    requires symbols { AreBelow symbols.now }
    ensures value { result ≡ value_named (values_by (base_of bases.now object) symbols.now) reloc }
    ensures bound { result < 2 ^ 34 }
{
    match reloc.target() {
        RelocationTarget::Symbol(number) => symbol_number(symbols, number),
        RelocationTarget::Area(number) => base_at(bases, object, number),
    }
}

/// The 1 that a label of Thumb code counts more in a word.
fn label_mark(symbols: &[SymbolValue], reloc: Reloc) -> u64
    ensures value { result ≡ field_mark (values_by (λ k. 0) symbols.now) reloc }
    ensures bound { result < 2 }
{
    let FieldKind::Word = reloc.kind() else {
        return 0;
    };
    if reloc.is_relative() {
        return 0;
    }
    let Some(number) = reloc.symbol() else {
        return 0;
    };
    u64::from(is_thumb_label(symbols, number))
}

fn symbol_of(reloc: Reloc, next: Option<u32>) -> Option<u32>
    ensures { result ≡ symbol_by reloc next }
{
    match reloc.symbol() {
        Some(number) => Some(number),
        None => next,
    }
}

/// Whether the kinds of relocations at a place, with one before them, differ.
fn is_mixed_with(start: FieldDirectives, kind: FieldKind) -> bool
    ensures { result ≡ (start.is_mixed || not (is_same_kind start.kind kind)) }
{
    if start.is_mixed {
        return true;
    }
    start.kind != kind
}

/// What relocations of one place do, with one before them.
fn started(
    bases: &AreaBases,
    object: u32,
    symbols: &[SymbolValue],
    reloc: Reloc,
    rest: Option<FieldDirectives>,
) -> FieldDirectives
    requires bases { AreLow bases.now }
    requires symbols { AreBelow symbols.now }
    requires rest { IfSome rest IsSmall }
    ensures { result ≡ start_with (values_by (base_of bases.now object) symbols.now) reloc rest }
{
    let kind = reloc.kind();
    let added = number_of(bases, object, symbols, reloc) + label_mark(symbols, reloc);
    let relative = u64::from(reloc.is_relative());
    match rest {
        None => FieldDirectives {
            kind,
            is_mixed: false,
            widest: kind.size(),
            is_alone: true,
            added,
            relative,
            symbol: symbol_of(reloc, None),
        },
        Some(start) => FieldDirectives {
            kind,
            is_mixed: is_mixed_with(start, kind),
            widest: start.widest.max(kind.size()),
            is_alone: false,
            added: added + start.added,
            relative: relative + start.relative,
            symbol: symbol_of(reloc, start.symbol),
        },
    }
}

fn note(
    starts: &mut IndexMap<u64, FieldDirectives>,
    bases: &AreaBases,
    object: u32,
    symbols: &[SymbolValue],
    reloc: Reloc,
) -> Result<(), NoMemory>
    requires bases { AreLow bases.now }
    requires symbols { AreBelow symbols.now }
    requires small { AreSmall starts.old }
    ensures { OnOk result ((p : ℕ) → get nat_eq starts.new p
        ≡ (if (field_of reloc).place == p
        then Some (start_with (values_by (base_of bases.now object) symbols.now) reloc (get nat_eq starts.old p))
        else get nat_eq starts.old p)) }
{
    let place = u64::from(reloc.field().place);
    let rest = starts.get(&place).copied();
    let start = started(bases, object, symbols, reloc, rest);
    starts.insert(place, start)?;
    Ok(())
}

/// Whether each field begins at a whole word, so that those of different places are apart.
pub fn are_even(relocs: &[Reloc]) -> bool
    ensures { result ≡ true → (values : Values) (p : ℕ) → p % 4 ≢ 0 → starts values relocs.now p ≡ None }
{
    for reloc in relocs {
        if reloc.field().place % 4 != 0 {
            return false;
        }
    }
    true
}

/// What relocations do at each place where a field begins.
pub fn starts_of(
    alloc: Global,
    bases: &AreaBases,
    object: u32,
    symbols: &[SymbolValue],
    relocs: &[Reloc],
) -> Result<IndexMap<u64, FieldDirectives>, NoMemory>
    requires bases { AreLow bases.now }
    requires symbols { AreBelow symbols.now }
    requires few { length relocs.now < 2 ^ 28 }
    ensures { IfOk result (λ starts. AreStarts (values_by (base_of bases.now object) symbols.now) relocs.now starts) }
{
    let mut starts = IndexMap::new(alloc);
    for i in (0..relocs.len()).rev() {
        note(&mut starts, bases, object, symbols, relocs[i])?;
    }
    Ok(starts)
}
