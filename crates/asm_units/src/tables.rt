//! What pass 2 looks up for a line.

use asm_instructions::Lookup;
use asm_sets::NameRefs;

/// What pass 2 looks up for a line: names and registers, and what its values ask for besides.
#[derive(Clone, Copy)]
pub struct LineTables<'a> {
    pub lookup: Lookup<'a>,
    /// The labels that are data.
    pub data: &'a NameRefs<'a>,
    /// The sizes of areas, by number.
    pub sizes: &'a [u32],
    /// Of each operand of DCB whether it is a string by what is known at its line.
    pub strings: &'a [bool],
    /// The offset of the word of the statement's literal.
    pub word: Option<u32>,
}
