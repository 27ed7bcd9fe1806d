//! What statements define.

ghost use Rattle.std.specs.Prelude.{◌≡◌, ℕ, List};
ghost use Rattle.std.specs.List.{list_any};
ghost use Rattle.asm_model.specs.Labels as defined;
ghost use Rattle.asm_model.specs.LayoutKinds as layout;

use asm_model::{DirectiveLine, Expr, ExprItem, Statement, What};

/// Whether a label on a directive is one of its place.
fn is_place(line: &DirectiveLine) -> bool
    ensures { (name : List ℕ) → result
        ≡ layout.has_place (defined.directive_defines name line.now) }
{
    match line {
        DirectiveLine::Equ { .. }
        | DirectiveLine::Rn { .. }
        | DirectiveLine::Field { .. }
        | DirectiveLine::Rout => false,
        DirectiveLine::Area { .. }
        | DirectiveLine::Entry
        | DirectiveLine::End
        | DirectiveLine::Export { .. }
        | DirectiveLine::Import { .. }
        | DirectiveLine::Extern { .. }
        | DirectiveLine::Keep { .. }
        | DirectiveLine::Assert { .. }
        | DirectiveLine::Nofp
        | DirectiveLine::Opt { .. }
        | DirectiveLine::Ttl
        | DirectiveLine::Subt
        | DirectiveLine::Constants { .. }
        | DirectiveLine::Space { .. }
        | DirectiveLine::Align { .. }
        | DirectiveLine::Ltorg
        | DirectiveLine::Data
        | DirectiveLine::Map { .. }
        | DirectiveLine::Code16
        | DirectiveLine::Code32 => true,
    }
}

/// Whether a statement has a label of its place.
pub fn has_place(statement: &Statement) -> bool
    ensures { result ≡ layout.has_place (defined.defined_by statement.now) }
{
    match (&statement.label, &statement.what) {
        (None, _) => false,
        (Some(_), What::Directive(line)) => is_place(line),
        (Some(_), What::Nothing | What::Arm(_) | What::Thumb(_) | What::Pseudo(_)) => true,
    }
}

fn is_here(item: &ExprItem) -> bool
    ensures { result ≡ layout.is_here item.now }
{
    match item {
        ExprItem::Here => true,
        _ => false,
    }
}

/// Whether an expression mentions this place.
fn mentions_here(value: &Expr) -> bool
    ensures { result ≡ list_any layout.is_here value.now.items }
{
    value.items.as_slice().iter().any(|item| is_here(item))
}

/// Whether a statement has a name for an expression of this place.
pub fn names_here(statement: &Statement) -> bool
    ensures { result ≡ layout.names_here (defined.defined_by statement.now) }
{
    match (&statement.label, &statement.what) {
        (Some(_), What::Directive(DirectiveLine::Equ { value })) => mentions_here(value),
        (_, _) => false,
    }
}
