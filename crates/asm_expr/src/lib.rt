//! Expressions and directives, read from tokens, and the values of expressions by what a line sees of names. Public
//! source: the SDT 2.50 Reference Guide, chapter on the assembler; the levels and meanings of operators are this
//! project's profile of it. The layers above read by `read::shared_expression` and, where
//! `directives::directive_of` names a directive, by `says::of_directive`, evaluate by
//! `value_seen` over a `Seen`, and choose between faults by `told` and `kinds`; `KnownNames` is their list of names,
//! found by hash.
#![tactic(auto)]

pub mod areas;
pub mod directive_names;
pub mod directives;
pub mod evaluating;
pub mod kinds;
pub mod known;
mod listing;
pub mod names;
pub mod operands;
pub mod operators;
pub mod parser;
pub mod parts;
pub mod read;
pub mod readings;
pub mod registers;
pub mod rows;
pub mod says;
pub mod seen;
pub mod slots;
pub mod told;
pub mod value;

pub use crate::evaluating::evaluate;
pub use crate::known::KnownNames;
pub use crate::read::parse_expr;
pub use crate::registers::register_named;
pub use crate::says::parse_directive;
pub use crate::seen::Seen;
pub use crate::value::value_seen;
