//! Where statements may stand.

ghost use Rattle.std.specs.Prelude.{◌≡◌, List, Some};
ghost use Rattle.asm_model.specs.declared.directives.Contents.TheVariants as contents;
ghost use Rattle.asm_model.specs.declared.statements.Statement.{Statement};
ghost use Rattle.asm_model.specs.Kinds.{told_kind};
ghost use Rattle.asm_model.specs.Labels.{defined_by};
ghost use Rattle.asm_model.specs.LayoutKinds as layout;
ghost use Rattle.asm_model.specs.OccupiedCode.{occupied_of_code};

use crate::labels::{has_place, names_here};
use asm_expr::told::kind_if;
use asm_model::{Contents, DirectiveLine, Occupied, Statement, What, occupied_by};
use sdt_fault::kinds::LineKind;

/// Whether it may stand before the first AREA.
fn is_unplaced(occupied: Occupied<'_>) -> bool
    ensures { result ≡ layout.is_unplaced (occupied_of_code occupied.entry) }
{
    match occupied {
        Occupied::Unplaced => true,
        Occupied::Opening(_)
        | Occupied::Marking
        | Occupied::Entering
        | Occupied::Items(_, _)
        | Occupied::Zeroes(_)
        | Occupied::UpTo(_)
        | Occupied::Literals => false,
    }
}

fn is_free(what: &What) -> bool
    ensures { result ≡ layout.is_free what.now }
{
    match what {
        What::Nothing | What::Arm(_) | What::Thumb(_) | What::Pseudo(_) => false,
        What::Directive(line) => is_unplaced(occupied_by(line)),
    }
}

/// The fault of a statement before the first AREA.
pub fn no_area_kind(area: Option<u32>, statement: &Statement) -> Option<LineKind>
    ensures { result ≡ told_kind
        (layout.no_area_kinds area (defined_by statement.now) statement.now.what) }
{
    if area.is_some() {
        return None;
    }
    if !is_free(&statement.what) {
        return Some(LineKind::NoArea);
    }
    if has_place(statement) {
        return Some(LineKind::NoArea);
    }
    kind_if(names_here(statement), LineKind::NoArea)
}

/// Whether it may stand among data that is zero.
fn is_zero(occupied: Occupied<'_>) -> bool
    ensures { result ≡ layout.is_zero (occupied_of_code occupied.entry) }
{
    match occupied {
        Occupied::Unplaced | Occupied::Opening(_) | Occupied::Zeroes(_) | Occupied::UpTo(_) => true,
        Occupied::Marking | Occupied::Entering | Occupied::Items(_, _) | Occupied::Literals =>
            false,
    }
}

fn is_zero_statement(what: &What) -> bool
    ensures { result ≡ layout.is_zero_statement what.now }
{
    match what {
        What::Nothing => true,
        What::Arm(_) | What::Thumb(_) | What::Pseudo(_) => false,
        What::Directive(line) => is_zero(occupied_by(line)),
    }
}

fn is_thumb_instruction(thumb: bool, what: &What) -> bool
    ensures { result ≡ layout.is_thumb_instruction thumb what.now }
{
    match what {
        What::Thumb(_) => true,
        What::Pseudo(_) => thumb,
        What::Nothing | What::Arm(_) | What::Directive(_) => false,
    }
}

pub fn is_entry(what: &What) -> bool
    ensures { result ≡ layout.is_entry what.now }
{
    match what {
        What::Directive(DirectiveLine::Entry) => true,
        _ => false,
    }
}

/// The fault of a statement among data.
fn data_kind(thumb: bool, what: &What) -> Option<LineKind>
    ensures { result ≡ told_kind (layout.contents_kinds (Some contents.Data) thumb what.now) }
{
    if is_thumb_instruction(thumb, what) {
        return Some(LineKind::BadOperand);
    }
    kind_if(is_entry(what), LineKind::BadOperand)
}

/// The fault of a statement that may not stand in its area.
pub fn contents_kind(contents: Option<Contents>, thumb: bool, what: &What) -> Option<LineKind>
    ensures { result ≡ told_kind (layout.contents_kinds contents thumb what.now) }
{
    match contents {
        Some(Contents::Data) => data_kind(thumb, what),
        Some(Contents::Zeroes) => kind_if(!is_zero_statement(what), LineKind::BadOperand),
        _ => None,
    }
}

/// The fault of an ENTRY in another state than its area's.
pub fn state_kind(what: &What, area: Option<u32>, thumb: bool, thumb_area: bool) -> Option<LineKind>
    ensures { (all : List Statement) → thumb_area ≡ layout.in_thumb_area area all → result
        ≡ told_kind (layout.state_kinds area thumb what.now all) }
{
    if area.is_none() {
        return None;
    }
    kind_if(is_entry(what) && thumb != thumb_area, LineKind::BadOperand)
}

/// The contents of the area in which a statement stands, behind others that stand in one of these.
pub fn contents_from(what: &What, before: Option<Contents>) -> Option<Contents>
    ensures { result ≡ layout.contents_from what.now before }
{
    match what {
        What::Directive(DirectiveLine::Area { attributes, .. }) => Some(attributes.contents),
        _ => before,
    }
}
