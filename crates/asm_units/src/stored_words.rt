//! Words that may be relocated.

ghost use Rattle.std.specs.Prelude.{◌≡◌, ◌+◌, ◌%◌, ◌^◌, ℕ, List, Option, Ok, IfOk};
ghost use Rattle.std.specs.Option.{option_copied};
ghost use Rattle.asm_model.specs.declared.names.Names.{Names};
ghost use Rattle.asm_model.specs.Marks as marks;
ghost use Rattle.asm_model.specs.Meaning.{named_in, stands_at};
ghost use Rattle.asm_model.specs.Readings.{mapped};
ghost use Rattle.asm_model.specs.Said.{AllRead, IsRead};
ghost use Rattle.source_model.specs.Contexts.{Context, sees, value_of};
ghost use Rattle.source_model.specs.Units as units;
ghost use Rattle.source_model.specs.Units.{ByArea};
ghost use Rattle.asm_instructions.specs.Lookups.{context_of};
ghost use Rattle.asm_sets.specs.Sets.{HaveSame};
ghost use Rattle.asm_units.specs.Emitting.{all_emitted, emitted_of, stored_of};
ghost use Rattle.asm_units.specs.Showing.{ShowsNames};

use crate::emitted::{Emission, Emitted, RelocationTarget, Stored};
use crate::joining::{one_unit, push_next, word_unit};
use crate::named::{is_thumb_entry, place_at};
use crate::tables::LineTables;
use asm_instructions::values::value_there;
use asm_model::{Expr, LaidName, SharedText, Value};
use asm_names::KnownNames;
use asm_sets::NameRefs;
use sdt_fault::NoMemory;
use sdt_fault::kinds::LineKind;
use std::alloc::Global;

/// Whether a symbol with this entry counts one more in a word: a label of Thumb code that is no datum.
fn counts_one(entry: Option<&LaidName>, data_names: &NameRefs<'_>, symbol: &SharedText) -> bool
    ensures { (s : Names) (labels : List (List ℕ))
        → named_in symbol.now s.list ≡ option_copied entry.entry → HaveSame data_names.now labels
        → result ≡ marks.counts_one labels s symbol.now }
{
    if is_thumb_entry(entry) {
        return !data_names.has(symbol);
    }
    false
}

fn thumb_bit(counts: bool) -> u32
    ensures { result ≡ marks.thumb_bit counts }
{
    if counts {
        return 1;
    }
    0
}

/// A word with a place of an area, with one more where it counts one.
fn in_area(area: u32, offset: u32, plus: u32, counts: bool) -> Stored
    ensures { stored_of result
        ≡ record {
          number = (offset + plus
              + marks.thumb_bit counts) % 2 ^ 32;
          target = ByArea area;
        } }
{
    Stored {
        number: offset.wrapping_add(plus).wrapping_add(thumb_bit(counts)),
        target: RelocationTarget::Area(area),
    }
}

/// A word with a symbol with this entry plus a number: of the label's area where it is of this source, and else of the
/// symbol.
fn placed(
    entry: Option<&LaidName>,
    data_names: &NameRefs<'_>,
    symbol: SharedText,
    plus: u32,
    place: Option<(u32, u32)>,
) -> Stored
    ensures { (c : Context) (labels : List (List ℕ))
        → named_in symbol (sees c).list ≡ option_copied entry.entry
        → HaveSame data_names.now labels → stored_of result
        ≡ units.placed c labels symbol plus place }
{
    match place {
        None => Stored {
            number: plus,
            target: RelocationTarget::Symbol(symbol),
        },
        Some((area, offset)) => {
            let counts = counts_one(entry, data_names, &symbol);
            in_area(area, offset, plus, counts)
        }
    }
}

/// A word with a symbol plus a number, where the empty symbol is the start of this area.
fn symbol_stored(
    names: &KnownNames,
    data_names: &NameRefs<'_>,
    area: Option<u32>,
    symbol: SharedText,
    plus: u32,
) -> Stored
    ensures { (c : Context) (labels : List (List ℕ))
        → ShowsNames names.now data_names.now area c labels → stored_of result
        ≡ units.placed c labels symbol plus (stands_at (sees c) symbol) }
{
    let entry = names.find(&symbol);
    let place = place_at(area, entry, &symbol);
    placed(entry, data_names, symbol, plus, place)
}

/// What a word with a value holds, where the empty symbol is the start of this area.
pub fn stored(
    names: &KnownNames,
    data_names: &NameRefs<'_>,
    area: Option<u32>,
    value: Result<Value, LineKind>,
) -> Result<Stored, LineKind>
    ensures { (c : Context) (labels : List (List ℕ))
        → ShowsNames names.now data_names.now area c labels → mapped stored_of result
        ≡ units.stored c labels value }
{
    match value {
        Ok(Value::Number(number)) => Ok(Stored {
            number,
            target: RelocationTarget::Nothing,
        }),
        Ok(Value::Place { symbol, plus }) => {
            Ok(symbol_stored(names, data_names, area, symbol, plus))
        }
        Ok(_) => Err(LineKind::WrongType),
        Err(kind) => Err(kind),
    }
}

fn word(
    alloc: Global,
    tables: &LineTables<'_>,
    operand: &Expr,
) -> Result<Result<Emitted, LineKind>, NoMemory>
    requires { IsRead operand.now }
    ensures { IfOk result (λ word. mapped emitted_of word
        ≡ mapped (λ w. units.Word w)
        (units.stored (context_of tables.now.lookup) tables.now.data.now
        (value_of (context_of tables.now.lookup) operand.now))) }
{
    let value = value_there(alloc, &tables.lookup, operand)?;
    let lookup = &tables.lookup;
    let stored = stored(lookup.names, tables.data, lookup.line.place.area, value);
    Ok(word_unit(stored))
}

fn several_words(
    alloc: Global,
    tables: &LineTables<'_>,
    operands: &[Expr],
) -> Result<Result<Emission, LineKind>, NoMemory>
    requires { AllRead operands.now }
    ensures { IfOk result (λ us. all_emitted us
        ≡ units.word_units (context_of tables.now.lookup) tables.now.data.now operands.now) }
{
    let mut so_far = Ok(Emission::Nothing);
    let mut left = operands;
    'operands: loop {
        match left {
            [] => return Ok(so_far),
            [operand, behind @ ..] => {
                let next = word(alloc, tables, operand)?;
                so_far = push_next(alloc, so_far, next)?;
                left = behind;
            }
        }
    }
}

/// The words of DCD and DCDU.
pub fn words(
    alloc: Global,
    tables: &LineTables<'_>,
    operands: &[Expr],
) -> Result<Result<Emission, LineKind>, NoMemory>
    requires { AllRead operands.now }
    ensures { IfOk result (λ us. all_emitted us
        ≡ units.word_units (context_of tables.now.lookup) tables.now.data.now operands.now) }
{
    match operands {
        [operand] => {
            let unit = word(alloc, tables, operand)?;
            Ok(one_unit(unit))
        }
        _ => several_words(alloc, tables, operands),
    }
}
