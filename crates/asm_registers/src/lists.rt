//! Register lists.

ghost use Rattle.std.specs.Prelude.{◌≡◌, ◌∷◌, []};
ghost use Rattle.asm_model.specs.Kinds.{told_kind};
ghost use Rattle.source_model.specs.Registers as registers;
ghost use Rattle.asm_registers.specs.Scoped.{told_of};

use crate::naming::{Scope, one, two};
use crate::numbers::number_of;
use asm_expr::told::{first_told, kind_if};
use asm_model::{ListItem, Register};
use asm_sets::NameMap;
use sdt_fault::kinds::LineKind;

fn item_kind(scope: &Scope<'_>, item: &ListItem) -> Option<LineKind>
    ensures { result ≡ told_of scope.now (registers.item_registers item.now) }
{
    match item {
        ListItem::One(register) => one(scope, register),
        ListItem::Range { first, last } => two(scope, first, last),
    }
}

/// The fault of the registers in a list.
pub fn items_kind(scope: &Scope<'_>, items: &[ListItem]) -> Option<LineKind>
    ensures { result ≡ told_of scope.now (registers.list_registers items.now) }
{
    let mut told = None;
    let mut left = items;
    'items: loop {
        match left {
            [] => return told,
            [item, behind @ ..] => {
                told = first_told(told, item_kind(scope, item));
                left = behind;
            }
        }
    }
}

/// Whether a range falls.
fn falls(known: &NameMap<u8>, first: &Register, last: &Register) -> bool
    ensures { result ≡ registers.falls (registers.number_of known.now first.now)
        (registers.number_of known.now last.now) }
{
    match (number_of(known, first), number_of(known, last)) {
        (Some(first), Some(last)) => last < first,
        (_, _) => false,
    }
}

fn range_kind(known: &NameMap<u8>, item: &ListItem) -> Option<LineKind>
    ensures { result ≡ told_kind (registers.range_kinds known.now (item.now ∷ [])) }
{
    match item {
        ListItem::One(_) => None,
        ListItem::Range { first, last } => kind_if(falls(known, first, last), LineKind::BadOperand),
    }
}

/// The fault of a list with a range that falls.
pub fn ranges_kind(known: &NameMap<u8>, items: &[ListItem]) -> Option<LineKind>
    ensures { result ≡ told_kind (registers.range_kinds known.now items.now) }
{
    let mut told = None;
    let mut left = items;
    'items: loop {
        match left {
            [] => return told,
            [item, behind @ ..] => {
                told = first_told(told, range_kind(known, item));
                left = behind;
            }
        }
    }
}
