//! Macros.

use asm_model::{Line, SharedText};
use sdt_fault::List;

#[derive(Drop)]
pub struct Parameter {
    pub name: SharedText,
    /// The text for which an argument of a lone bar stands.
    pub otherwise: SharedText,
}

/// What a macro's calls are written by.
#[derive(Drop)]
pub struct Prototype {
    pub name: SharedText,
    /// The parameter for which the label stands.
    pub label: Option<SharedText>,
    pub parameters: List<Parameter>,
}

#[derive(Drop)]
pub struct Macro {
    pub prototype: Prototype,
    pub body: List<Line>,
}
