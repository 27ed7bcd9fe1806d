//! Lines of a source that is laid out.

use asm_model::Statement;

/// Where a statement stands, with what its expressions and its label's entry are made of.
#[derive(Clone, Copy)]
pub struct StatementPlace {
    /// The statement's area, counted from 0; None before the first.
    pub area: Option<u32>,
    /// The statement's offset in its area.
    pub offset: u32,
    /// Whether it stands in Thumb state.
    pub thumb: bool,
    /// Whether its label is one of Thumb code.
    pub thumb_label: bool,
    /// The storage map before it.
    pub map: u32,
}

/// A statement where it stands.
#[derive(Clone, Copy)]
pub struct PlacedLine<'a> {
    pub statement: &'a Statement,
    pub place: StatementPlace,
    /// In bytes.
    pub size: u32,
}
