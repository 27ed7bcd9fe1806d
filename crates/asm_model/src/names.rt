//! What an expression is evaluated with.

use crate::shared_texts::SharedText;
use crate::values::Value;
use sdt_fault::List;
use sdt_fault::kinds::LineKind;

/// What a name means.
#[derive(Drop)]
pub enum Meaning {
    /// The source defines the name, and a line doesn't know yet what it means.
    Later,
    /// A label: itself, in its area.
    Label,
    /// An imported name: itself.
    Imported,
    /// A place that an EQU names, and no label: itself, in its area. A branch to it keeps its state.
    Place,
    /// A value.
    Known(Value),
    /// An expression without a value, with the kind of its fault.
    Faulty(LineKind),
    /// A register.
    Register,
}

/// A name that a source defines or imports.
#[derive(Drop)]
pub struct LaidName {
    pub name: SharedText,
    pub meaning: Meaning,
    /// The area of a label or a place, counted from 0.
    pub area: Option<u32>,
    /// Its offset in the area.
    pub offset: u32,
    /// The number of bytes of the statement that defines the name, where it is known.
    pub size: Option<u32>,
    /// Whether it is a label of Thumb code.
    pub thumb: bool,
}

/// The names, and the place, the storage map and the state of a statement.
#[derive(Drop)]
pub struct Names {
    pub list: List<LaidName>,
    /// The statement's area, counted from 0; None before the first.
    pub area: Option<u32>,
    /// The statement's offset in its area.
    pub offset: u32,
    pub map: u32,
    pub thumb: bool,
}
