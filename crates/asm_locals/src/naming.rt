//! References to local labels as names, in all that a line says.

ghost use Rattle.std.specs.Prelude.{◌≡◌, map, true, IfOk, OnOk};
ghost use Rattle.asm_locals.specs.Naming as naming;
ghost use Rattle.asm_locals.specs.Passes.{found, target_of};

use crate::labels::Nearest;
use asm_model::{Expr, ExprItem, SharedText};
use sdt_fault::digits::push_hexadecimal_places;
use sdt_fault::{List, NoMemory};
use std::alloc::Global;
use std::mem;

/// The name of a statement's local label.
pub fn hidden_name(alloc: Global, statement: u64) -> Result<SharedText, NoMemory>
    ensures { IfOk result (λ name. name ≡ naming.hidden_name statement) }
{
    let mut name = Vec::new(alloc);
    name.push(b'\n')?;
    push_hexadecimal_places(&mut name, statement, 8)?;
    SharedText::from_vec(alloc, name)
}

/// The statement that an item names.
fn target(item: &ExprItem, labels: &Nearest) -> Option<u64>
    ensures { result ≡ target_of labels.now item.now }
{
    match item {
        ExprItem::Local(text) => labels.find(text.as_slice()),
        _ => None,
    }
}

fn name_item(alloc: Global, item: &mut ExprItem, labels: &Nearest) -> Result<(), NoMemory>
    ensures { OnOk result (item.new ≡ naming.named_item (found labels.now) item.old) }
{
    if let Some(statement) = target(item, labels) {
        *item = ExprItem::Name(hidden_name(alloc, statement)?);
    }
    Ok(())
}

fn name_items(alloc: Global, items: &mut [ExprItem], labels: &Nearest) -> Result<(), NoMemory>
    ensures { OnOk result (items.new ≡ map (naming.named_item (found labels.now)) items.old) }
{
    'items: for item in items.iter_mut() {
        name_item(alloc, item, labels)?;
    }
    Ok(())
}

/// Whether items are one item that is no reference, as those of most expressions.
fn is_plain(items: &[ExprItem]) -> bool
    ensures { (targets : naming.Targets) → result ≡ true
        → map (naming.named_item targets) items.now ≡ items.now }
{
    match items {
        [ExprItem::Local(_)] => false,
        [_] => true,
        _ => false,
    }
}

/// Whether expressions are one that names no label.
fn are_plain(exprs: &[Expr]) -> bool
    ensures { (targets : naming.Targets) → result ≡ true
        → naming.all_named targets exprs.now ≡ exprs.now }
{
    match exprs {
        [expr] => is_plain(expr.items.as_slice()),
        _ => false,
    }
}

pub fn name_expr(alloc: Global, expr: &mut Expr, labels: &Nearest) -> Result<(), NoMemory>
    ensures { OnOk result (expr.new ≡ naming.named (found labels.now) expr.old) }
{
    if is_plain(expr.items.as_slice()) {
        return Ok(());
    }
    let mut items = mem::replace(&mut expr.items, List::from_vec(Vec::new(alloc))).into_vec();
    name_items(alloc, items.as_mut_slice(), labels)?;
    expr.items = List::from_vec(items);
    Ok(())
}

fn name_exprs(alloc: Global, exprs: &mut [Expr], labels: &Nearest) -> Result<(), NoMemory>
    ensures { OnOk result (exprs.new ≡ naming.all_named (found labels.now) exprs.old) }
{
    'exprs: for expr in exprs.iter_mut() {
        name_expr(alloc, expr, labels)?;
    }
    Ok(())
}

pub fn name_all(alloc: Global, exprs: &mut List<Expr>, labels: &Nearest) -> Result<(), NoMemory>
    ensures { OnOk result (exprs.new ≡ naming.all_named (found labels.now) exprs.old) }
{
    if are_plain(exprs.as_slice()) {
        return Ok(());
    }
    let mut named = mem::replace(exprs, List::from_vec(Vec::new(alloc))).into_vec();
    name_exprs(alloc, named.as_mut_slice(), labels)?;
    *exprs = List::from_vec(named);
    Ok(())
}
