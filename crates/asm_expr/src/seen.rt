//! What an expression is evaluated with.

ghost use Rattle.std.specs.Option.{option_copied};
ghost use Rattle.asm_expr.specs.Places.{listed, AreFirst};

use crate::known::KnownNames;
use asm_model::LaidName;

/// What an expression is evaluated with.
#[derive(Clone, Copy)]
pub struct Seen<'a> {
    /// The names, with what they mean; where `first` are known, with what they mean later.
    pub names: &'a KnownNames,
    /// The first of the names, with what they mean, where it isn't known of all.
    pub first: Option<&'a [LaidName]>,
    /// One name more, which stands behind those that are known.
    pub own: Option<&'a LaidName>,
    /// The statement's area, counted from 0; None before the first.
    pub area: Option<u32>,
    /// The statement's offset in its area.
    pub offset: u32,
    /// The storage map.
    pub map: u32,
    pub thumb: bool,
    pub ghost are_first: { AreFirst (listed (option_copied first)) names.now },
}
