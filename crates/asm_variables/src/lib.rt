//! What expansion knows at a line: variables and their substitution, the label field and operation of a line,
//! prototypes of macros, the pairing of lines that aren't read, and the values of conditions. Public source: the SDT
//! 2.50 Reference Guide, chapter on the assembler. `asm_expand` keeps its state in an `expansion::Expansion`, and calls
//! `substitution::substitute`, `pairing::skip` and `take_body`, `prototypes::prototype_of`, `operands::arguments` and
//! `values::value_of`.
#![tactic(auto)]

pub mod expansion;
pub mod line_fields;
pub mod line_names;
pub mod maps;
pub mod operands;
pub mod operations;
pub mod pairing;
pub mod prototypes;
pub mod standing;
pub mod substitution;
pub mod values;
pub mod variables;
