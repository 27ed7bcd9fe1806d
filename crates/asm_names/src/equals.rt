//! Names for expressions, and an order of them.

use asm_model::{Expr, SharedText};

/// A name for an expression, by the statement that defines it.
#[derive(Clone, Copy)]
pub struct Equal<'a> {
    pub name: &'a SharedText,
    pub value: &'a Expr,
}

/// Which names can be evaluated, and when.
#[derive(Drop)]
pub struct Order {
    /// The numbers of the names that can be evaluated, each behind those that its expression mentions.
    pub places: Vec<u32>,
    /// For each name, whether it depends neither on itself nor on one that does.
    pub settled: Vec<bool>,
}
