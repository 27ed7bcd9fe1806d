//! Names without a value stay names in a literal.

ghost use Rattle.std.specs.Prelude.{◌≡◌, IfOk};
ghost use Rattle.std.specs.Option.{option_copied};
ghost use Rattle.asm_expr.specs.Seeing.{seen_names};
ghost use Rattle.asm_model.specs.AtLine as at_line;
ghost use Rattle.asm_names.specs.Steps as steps;

use crate::copies::item_copy;
use asm_expr::Seen;
use asm_expr::names::entry_named;
use asm_model::{ExprItem, LaidName, Meaning, SharedText, UnaryOp, Value};
use sdt_fault::NoMemory;
use std::alloc::Global;

fn has_value(entry: Option<&LaidName>) -> bool
    ensures { result ≡ at_line.has_value (option_copied entry.entry) }
{
    let Some(entry) = entry else {
        return false;
    };
    match &entry.meaning {
        Meaning::Later => false,
        Meaning::Faulty(_) => false,
        Meaning::Register => false,
        _ => true,
    }
}

/// A name; where it has no value, a place with this symbol.
fn kept(alloc: Global, seen: &Seen<'_>, name: &SharedText) -> Result<ExprItem, NoMemory>
    ensures { IfOk result (λ kept. kept
        ≡ at_line.kept_name (seen_names seen.now) (ExprItem.Name name.now)) }
{
    let symbol = name.share()?;
    if has_value(entry_named(seen, name)) {
        return Ok(ExprItem::Name(symbol));
    }
    Ok(ExprItem::Constant(Value::Place { symbol, plus: 0 }))
}

/// An item, of which a name without a value is a place.
fn kept_name(alloc: Global, seen: &Seen<'_>, item: &ExprItem) -> Result<ExprItem, NoMemory>
    ensures { IfOk result (λ kept. kept ≡ at_line.kept_name (seen_names seen.now) item.now) }
{
    match item {
        ExprItem::Name(name) => kept(alloc, seen, name),
        _ => item_copy(alloc, item),
    }
}

/// The operator of one operand that stands first.
fn operator_first(items: &[ExprItem]) -> Option<UnaryOp>
    ensures { result ≡ steps.operator_first items.now }
{
    match items {
        [ExprItem::Unary(op), ..] => Some(*op),
        _ => None,
    }
}

/// An item before an operator: the operators that speak of a name itself leave it as it is.
fn kept_before(
    alloc: Global,
    seen: &Seen<'_>,
    operator: Option<UnaryOp>,
    item: &ExprItem,
) -> Result<ExprItem, NoMemory>
    ensures { IfOk result (λ kept. kept
        ≡ steps.kept_before (seen_names seen.now) operator item.now) }
{
    match operator {
        Some(UnaryOp::Size) => item_copy(alloc, item),
        Some(UnaryOp::Defined) => item_copy(alloc, item),
        _ => kept_name(alloc, seen, item),
    }
}

/// The items, in which names without a value are places.
pub fn kept_items(
    alloc: Global,
    seen: &Seen<'_>,
    items: &[ExprItem],
) -> Result<Vec<ExprItem>, NoMemory>
    ensures { IfOk result (λ kept. kept.items ≡ steps.kept_items (seen_names seen.now) items.now) }
{
    let mut all = Vec::with_capacity(alloc, items.len())?;
    let mut left = items;
    'items: loop {
        match left {
            [] => return Ok(all),
            [item, behind @ ..] => {
                let kept = kept_before(alloc, seen, operator_first(behind), item)?;
                all.push(kept)?;
                left = behind;
            }
        }
    }
}
