//! The symbols that values need.

ghost use Rattle.std.specs.Prelude.{◌≡◌, Some, Ok, OnOk};
ghost use Rattle.std.specs.Option.{option_copied};
ghost use Rattle.asm_model.specs.declared.values.Value.TheVariants as values;
ghost use Rattle.asm_model.specs.Before.{with_name};
ghost use Rattle.asm_model.specs.Symbols as model;
ghost use Rattle.asm_model.specs.Said.{AllRead, IsRead};
ghost use Rattle.source_model.specs.Contexts.{sees, value_of};
ghost use Rattle.asm_names.specs.PlacedLines.{line_of};
ghost use Rattle.asm_instructions.specs.Lookups.{context_of};
ghost use Rattle.asm_units.specs.Listing.{loaded_symbols, one_symbol};

use crate::literals::literal_value;
use crate::symbols::Symbols;
use asm_instructions::Lookup;
use asm_instructions::branches::target_symbol;
use asm_instructions::lookups::stands_at;
use asm_instructions::values::value_there;
use asm_model::{Expr, SharedText, Value};
use sdt_fault::NoMemory;
use sdt_fault::kinds::LineKind;
use std::alloc::Global;

/// A symbol behind the others, unless it is listed. More symbols than numbers count as want of memory.
pub fn add_name(alloc: Global, symbols: &mut Symbols, name: &SharedText) -> Result<(), NoMemory>
    ensures { OnOk result (symbols.new ≡ with_name (Some name.now) symbols.old) }
{
    if symbols.list().len() >= 0xFFFF_FFFF {
        return Err(NoMemory);
    }
    symbols.add(alloc, name)
}

/// The symbol that is needed, where one is.
fn add_needed(
    alloc: Global,
    symbols: &mut Symbols,
    needed: Option<SharedText>,
) -> Result<(), NoMemory>
    ensures { OnOk result (symbols.new ≡ model.listed_behind symbols.old (one_symbol needed)) }
{
    match needed {
        None => Ok(()),
        Some(name) => add_name(alloc, symbols, &name),
    }
}

/// A symbol that stands in no area of the source.
fn unplaced(lookup: &Lookup<'_>, symbol: SharedText) -> Option<SharedText>
    ensures { one_symbol result
        ≡ model.word_symbols (sees (context_of lookup.now)) (Ok (values.Place symbol 0)) }
{
    if symbol.as_slice().is_empty() {
        return None;
    }
    if stands_at(lookup, &symbol).is_some() {
        return None;
    }
    Some(symbol)
}

/// The symbol of a word.
fn word_symbol(lookup: &Lookup<'_>, value: Result<Value, LineKind>) -> Option<SharedText>
    ensures { one_symbol result ≡ model.word_symbols (sees (context_of lookup.now)) value }
{
    match value {
        Ok(Value::Place { symbol, plus: _ }) => unplaced(lookup, symbol),
        _ => None,
    }
}

fn add_word(
    alloc: Global,
    symbols: &mut Symbols,
    lookup: &Lookup<'_>,
    operand: &Expr,
) -> Result<(), NoMemory>
    requires { IsRead operand.now }
    ensures { OnOk result (symbols.new
        ≡ model.listed_behind symbols.old
        (model.word_symbols (sees (context_of lookup.now))
        (value_of (context_of lookup.now) operand.now))) }
{
    let value = value_there(alloc, lookup, operand)?;
    add_needed(alloc, symbols, word_symbol(lookup, value))
}

/// The symbols that words need.
pub fn add_words(
    alloc: Global,
    symbols: &mut Symbols,
    lookup: &Lookup<'_>,
    operands: &[Expr],
) -> Result<(), NoMemory>
    requires { AllRead operands.now }
    ensures { OnOk result (symbols.new
        ≡ model.listed_behind symbols.old
        (model.words_symbols lookup.now.names.now (line_of lookup.now.line.now) operands.now)) }
{
    let mut left = operands;
    'operands: loop {
        match left {
            [] => return Ok(()),
            [operand, behind @ ..] => {
                add_word(alloc, symbols, lookup, operand)?;
                left = behind;
            }
        }
    }
}

/// The symbol that a branch needs.
pub fn add_branch(
    alloc: Global,
    symbols: &mut Symbols,
    lookup: &Lookup<'_>,
    target: &Expr,
) -> Result<(), NoMemory>
    requires { IsRead target.now }
    ensures { OnOk result (symbols.new
        ≡ model.listed_behind symbols.old
        (model.branch_symbols (sees (context_of lookup.now))
        (value_of (context_of lookup.now) target.now))) }
{
    let symbol = target_symbol(alloc, lookup, target)?;
    add_needed(alloc, symbols, symbol)
}

fn add_loaded(
    alloc: Global,
    symbols: &mut Symbols,
    lookup: &Lookup<'_>,
    literal: &Value,
) -> Result<(), NoMemory>
    ensures { OnOk result (symbols.new
        ≡ model.listed_behind symbols.old
        (model.word_symbols (sees (context_of lookup.now))
        (model.literal_value (sees (context_of lookup.now)) literal.now))) }
{
    let value = literal_value(alloc, lookup.names, literal)?;
    add_needed(alloc, symbols, word_symbol(lookup, value))
}

/// The symbol that a literal needs.
pub fn add_literal(
    alloc: Global,
    symbols: &mut Symbols,
    lookup: &Lookup<'_>,
    literal: Option<&Value>,
) -> Result<(), NoMemory>
    ensures { OnOk result (symbols.new
        ≡ model.listed_behind symbols.old
        (loaded_symbols (sees (context_of lookup.now)) (option_copied literal.entry))) }
{
    match literal {
        None => Ok(()),
        Some(literal) => add_loaded(alloc, symbols, lookup, literal),
    }
}
