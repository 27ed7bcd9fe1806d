//! The word of expansion that an operation names.

ghost use Rattle.std.specs.Prelude.{◌≡◌, length};
ghost use Rattle.expand_model.specs.Operations as model;

use asm_model::is_called;
use expand_model::{Operation, Sort};

/// The word of expansion that an operation names, in any case; None where it names none. Most operations have three letters,
/// as one of these words has.
#[tactic(auto, unfolding(expand_model::specs::Operations::operation_of))]
pub fn operation_of(word: &[u8]) -> Option<Operation>
    ensures { result ≡ model.operation_of word.now }
{
    if word.len() == 3 {
        return word_of_three(word);
    }
    if let Some(operation) = structure_word(word) {
        return Some(operation);
    }
    variable_word(word)
}

/// The same, of three letters.
#[tactic(auto, using(crate::proofs::OperationLemmas::get_of_three, crate::proofs::OperationLemmas::none_of_three))]
fn word_of_three(word: &[u8]) -> Option<Operation>
    requires { length word.now ≡ 3 }
    ensures { result ≡ model.operation_of word.now }
{
    if is_called(b"GET", word) {
        return Some(Operation::Get);
    }
    None
}

/// The same, of the words for conditions, loops, macros and files.
#[tactic(auto, unfolding(expand_model::specs::Operations::structure_word))]
fn structure_word(word: &[u8]) -> Option<Operation>
    ensures { result ≡ model.structure_word word.now }
{
    if is_called(b"IF", word) {
        return Some(Operation::If);
    }
    if is_called(b"[", word) {
        return Some(Operation::If);
    }
    if is_called(b"ELSE", word) {
        return Some(Operation::Else);
    }
    if is_called(b"|", word) {
        return Some(Operation::Else);
    }
    if is_called(b"ENDIF", word) {
        return Some(Operation::EndIf);
    }
    if is_called(b"]", word) {
        return Some(Operation::EndIf);
    }
    if is_called(b"WHILE", word) {
        return Some(Operation::While);
    }
    if is_called(b"WEND", word) {
        return Some(Operation::WEnd);
    }
    if is_called(b"MACRO", word) {
        return Some(Operation::Macro);
    }
    if is_called(b"MEND", word) {
        return Some(Operation::MEnd);
    }
    if is_called(b"MEXIT", word) {
        return Some(Operation::MExit);
    }
    if is_called(b"GET", word) {
        return Some(Operation::Get);
    }
    if is_called(b"INCLUDE", word) {
        return Some(Operation::Get);
    }
    None
}

/// The same, of the words for variables.
#[tactic(auto, unfolding(expand_model::specs::Operations::variable_word))]
fn variable_word(word: &[u8]) -> Option<Operation>
    ensures { result ≡ model.variable_word word.now }
{
    if is_called(b"GBLA", word) {
        return Some(Operation::Global(Sort::Arithmetic));
    }
    if is_called(b"GBLL", word) {
        return Some(Operation::Global(Sort::Logical));
    }
    if is_called(b"GBLS", word) {
        return Some(Operation::Global(Sort::Textual));
    }
    if is_called(b"LCLA", word) {
        return Some(Operation::Local(Sort::Arithmetic));
    }
    if is_called(b"LCLL", word) {
        return Some(Operation::Local(Sort::Logical));
    }
    if is_called(b"LCLS", word) {
        return Some(Operation::Local(Sort::Textual));
    }
    if is_called(b"SETA", word) {
        return Some(Operation::Set(Sort::Arithmetic));
    }
    if is_called(b"SETL", word) {
        return Some(Operation::Set(Sort::Logical));
    }
    if is_called(b"SETS", word) {
        return Some(Operation::Set(Sort::Textual));
    }
    None
}
