//! Values of expressions, by the variables and the numbers of EQUs.

ghost use Rattle.std.specs.Prelude.{◌≡◌, ◌++◌, [], false, None, IfOk, OnOk, Ok};
ghost use Rattle.asm_expr.specs.Places.{one_entry};
ghost use Rattle.asm_expr.specs.Seeing.{seen_names};
ghost use Rattle.asm_model.specs.Entries.{valued_entry};
ghost use Rattle.asm_model.specs.declared.exprs.UnaryOp.TheVariants as unary;
ghost use Rattle.expand_model.specs.Known.{asked_kinds, item_kinds};
ghost use Rattle.expand_model.specs.Known as model;
ghost use Rattle.asm_variables.specs.declared.values.Visible.TheVariants as visible;
ghost use Rattle.asm_variables.specs.Known.{IsExpression, WasRead};
ghost use Rattle.asm_variables.specs.Known as known;
ghost use Rattle.asm_variables.specs.Valued.{Gives, HasEntries, HasEntry, HasValue, IsEntry, IsLabel, IsNamed, IsTold, IsValueOf, Knows, Values};

use crate::expansion::Expansion;
use asm_expr::known::add_entry;
use asm_expr::told::{first_told, kind_if, told_value};
use asm_expr::{KnownNames, Seen, value_seen};
use asm_model::{EvalFault, Expr, ExprItem, LaidName, Meaning, SharedText, UnaryOp, Value};
use sdt_fault::NoMemory;
use sdt_fault::kinds::LineKind;
use std::alloc::Global;
use std::mem;

/// Which names have values.
#[derive(Clone, Copy)]
pub enum Visible {
    /// Variables, and numbers of EQUs.
    Everything,
    /// Numbers of EQUs.
    Numbers,
}

fn number_named(state: &Expansion, name: &SharedText) -> Option<Value>
    ensures { IsNamed visible.Numbers state.now name.now result }
{
    match state.numbers.get(name) {
        None => None,
        Some(number) => Some(Value::Number(*number)),
    }
}

/// The value for which a name stands.
#[tactic(auto, using(crate::proofs::StateLemmas::tables_of))]
fn value_named(
    alloc: Global,
    state: &Expansion,
    visible: Visible,
    name: &SharedText,
) -> Result<Option<Value>, NoMemory>
    ensures { IfOk result (λ value. IsNamed visible state.now name.now value) }
{
    match visible {
        Visible::Numbers => Ok(number_named(state, name)),
        Visible::Everything => match state.tables.variable(name) {
            None => Ok(number_named(state, name)),
            Some(value) => Ok(Some(value.try_clone(alloc)?)),
        },
    }
}

/// Whether a name stands for a value.
#[tactic(auto, using(crate::proofs::StateLemmas::tables_of))]
fn has_value(state: &Expansion, visible: Visible, name: &SharedText) -> bool
    ensures { HasValue visible state.now name.now result }
{
    match visible {
        Visible::Numbers => state.numbers.contains_key(name),
        Visible::Everything => {
            state.tables.variable(name).is_some() || state.numbers.contains_key(name)
        }
    }
}

/// Whether one of the names with values is this one.
fn knows(state: &Expansion, visible: Visible, name: &SharedText) -> bool
    ensures { Knows visible state.now name.now result }
{
    has_value(state, visible, name)
}

/// The fault of an item.
fn item_fault(state: &Expansion, visible: Visible, item: &ExprItem) -> Option<LineKind>
    ensures { IsTold visible state.now (λ values. item_kinds values item.now) result }
{
    match item {
        ExprItem::Name(name) => kind_if(!knows(state, visible, name), LineKind::Forward),
        ExprItem::Local(_) => Some(LineKind::Forward),
        ExprItem::TooLarge => Some(LineKind::Constant),
        ExprItem::Here => Some(LineKind::Forward),
        ExprItem::Map => Some(LineKind::Forward),
        _ => None,
    }
}

/// The fault of an item before `:DEF:`.
fn asked_fault(state: &Expansion, visible: Visible, item: &ExprItem) -> Option<LineKind>
    ensures { IsTold visible state.now (λ values. asked_kinds values unary.Defined item.now)
        result }
{
    match item {
        ExprItem::Name(_) => None,
        _ => item_fault(state, visible, item),
    }
}

/// The fault of an item, before `:DEF:` or not.
fn fault_of(state: &Expansion, visible: Visible, asked: bool, item: &ExprItem) -> Option<LineKind>
    ensures { IsTold visible state.now (λ values. known.kinds_of values asked item.now) result }
{
    if asked {
        return asked_fault(state, visible, item);
    }
    item_fault(state, visible, item)
}

/// Whether `:DEF:` stands first.
fn is_asked(items: &[ExprItem]) -> bool
    ensures { result ≡ known.is_asked items.now }
{
    match items {
        [ExprItem::Unary(UnaryOp::Defined), ..] => true,
        _ => false,
    }
}

/// The fault of the items in an expression that is told.
fn items_fault(state: &Expansion, visible: Visible, items: &[ExprItem]) -> Option<LineKind>
    ensures { IsTold visible state.now (λ values. known.items_kinds values items.now) result }
{
    let mut told = None;
    let mut left = items;
    'items: loop {
        let Some((item, behind)) = left.split_first() else {
            return told;
        };
        told = first_told(told, fault_of(state, visible, is_asked(behind), item));
        left = behind;
    }
}

/// An entry with a value of its own.
fn entry_of(alloc: Global, name: &SharedText, value: Value) -> Result<LaidName, NoMemory>
    ensures { IfOk result (λ entry. entry ≡ valued_entry name.now value false) }
{
    let name = name.share()?;
    Ok(LaidName {
        name,
        meaning: Meaning::Known(value),
        area: None,
        offset: 0,
        size: Some(0),
        thumb: false,
    })
}

/// The entry of a name in label fields.
#[tactic(auto, using(crate::proofs::KnownLemmas::named_label))]
fn label_named(
    alloc: Global,
    state: &Expansion,
    name: &SharedText,
) -> Result<Option<LaidName>, NoMemory>
    ensures { IfOk result (λ entry. IsLabel state.now name.now entry) }
{
    if !state.labels.has(name) {
        return Ok(None);
    }
    let entry = entry_of(alloc, name, Value::Number(0))?;
    Ok(Some(entry))
}

/// The entry of a name.
#[tactic(auto, using(crate::proofs::KnownLemmas::entry_none))]
fn entry_named(
    alloc: Global,
    state: &Expansion,
    visible: Visible,
    name: &SharedText,
) -> Result<Option<LaidName>, NoMemory>
    ensures { IfOk result (λ entry. IsEntry visible state.now name.now entry) }
{
    let found = value_named(alloc, state, visible, name)?;
    let Some(value) = found else {
        return label_named(alloc, state, name);
    };
    let entry = entry_of(alloc, name, value)?;
    Ok(Some(entry))
}

/// The entry of an item that is a name.
fn item_entry(
    alloc: Global,
    state: &Expansion,
    visible: Visible,
    item: &ExprItem,
) -> Result<Option<LaidName>, NoMemory>
    ensures { IfOk result (λ entry. HasEntry visible state.now item.now entry) }
{
    match item {
        ExprItem::Name(name) => entry_named(alloc, state, visible, name),
        _ => Ok(None),
    }
}

/// Entries of names, of which the last stands alone: with one name no index is made.
#[derive(Drop)]
struct Entries {
    names: KnownNames,
    last: Option<LaidName>,
}

/// One entry more, where there is one.
fn add_behind(
    alloc: Global,
    names: &mut KnownNames,
    last: &mut Option<LaidName>,
    entry: Option<LaidName>,
) -> Result<(), NoMemory>
    ensures { OnOk result (names.new ++ one_entry last.new
        ≡ (names.old ++ one_entry last.old) ++ one_entry entry) }
{
    let Some(entry) = entry else {
        return Ok(());
    };
    let before = mem::replace(last, Some(entry));
    add_entry(alloc, names, before)
}

/// The entries of the names in an expression.
fn entries_of(
    alloc: Global,
    state: &Expansion,
    visible: Visible,
    items: &[ExprItem],
) -> Result<Entries, NoMemory>
    ensures { IfOk result (λ entries.
        HasEntries visible state.now items.now (entries.names ++ one_entry entries.last)) }
{
    let mut names = KnownNames::new(alloc);
    let mut last = None;
    'items: for item in items {
        let entry = item_entry(alloc, state, visible, item)?;
        add_behind(alloc, &mut names, &mut last, entry)?;
    }
    Ok(Entries { names, last })
}

/// What an expression sees of these entries.
fn seen_among(entries: &Entries, thumb: bool) -> Seen<'_>
    ensures { seen_names result ≡ record {
      list = entries.now.names ++ one_entry entries.now.last ++ [];
      area = None;
      offset = 0;
      map = 0;
      thumb = thumb;
    } }
{
    Seen {
        names: &entries.names,
        first: None,
        own: entries.last.as_ref(),
        area: None,
        offset: 0,
        map: 0,
        thumb,
    }
}

/// The value of an expression whose items have no fault.
fn value_known(
    alloc: Global,
    state: &Expansion,
    visible: Visible,
    e: &Expr,
) -> Result<Value, EvalFault>
    ensures { Gives visible state.now e.now.items result }
{
    let entries = entries_of(alloc, state, visible, e.items.as_slice())?;
    let seen = seen_among(&entries, state.thumb);
    value_seen(alloc, e, &seen)
}

/// The value of an expression, or the kind of its fault.
fn expression_value(
    alloc: Global,
    state: &Expansion,
    visible: Visible,
    e: &Expr,
) -> Result<Result<Value, LineKind>, NoMemory>
    requires { IsExpression e.now.items }
    ensures { IfOk result (λ value. IsValueOf visible state.now (Ok e.now) value) }
{
    if let Some(kind) = items_fault(state, visible, e.items.as_slice()) {
        return Ok(Err(kind));
    }
    told_value(value_known(alloc, state, visible, e))
}

/// The value of what stands behind an operation, with these names.
fn value_with(
    alloc: Global,
    state: &Expansion,
    visible: Visible,
    operand: &Result<Expr, LineKind>,
) -> Result<Result<Value, LineKind>, NoMemory>
    requires { WasRead operand.now }
    ensures { IfOk result (λ value. IsValueOf visible state.now operand.now value) }
{
    match operand {
        Ok(e) => expression_value(alloc, state, visible, e),
        Err(kind) => Ok(Err(*kind)),
    }
}

/// The value of an expression of IF, WHILE, SETA, SETL or SETS.
#[tactic(auto, unfolding(expand_model::specs::Known::value_of))]
pub fn value_of(
    alloc: Global,
    state: &Expansion,
    operand: &Result<Expr, LineKind>,
) -> Result<Result<Value, LineKind>, NoMemory>
    requires { WasRead operand.now }
    ensures { IfOk result (λ value. Values state.now (λ s. value ≡ model.value_of s operand.now)) }
{
    value_with(alloc, state, Visible::Everything, operand)
}

fn as_number(value: Result<Value, LineKind>) -> Option<u32>
    ensures { result ≡ model.as_number value }
{
    match value {
        Ok(Value::Number(number)) => Some(number),
        _ => None,
    }
}

/// The number that an EQU's expression is, where it is known without the layout.
#[tactic(auto, unfolding(expand_model::specs::Known::known_number))]
pub fn known_number(
    alloc: Global,
    state: &Expansion,
    operand: &Result<Expr, LineKind>,
) -> Result<Option<u32>, NoMemory>
    requires { WasRead operand.now }
    ensures { IfOk result
        (λ number. Values state.now (λ s. number ≡ model.known_number s operand.now)) }
{
    Ok(as_number(value_with(alloc, state, Visible::Numbers, operand)?))
}
