//! What names stand for in substitution.

ghost use Rattle.std.specs.Prelude.{◌≡◌, ◌++◌, IfOk, OnOk};
ghost use Rattle.std.specs.Option.{is_some, option_copied};
ghost use Rattle.expand_model.specs.States.{State};
ghost use Rattle.expand_model.specs.States as model;
ghost use Rattle.asm_variables.specs.Maps.{value_named};
ghost use Rattle.asm_variables.specs.Variables.{HasTables, Appends};

use asm_model::{SharedText, Value};
use indexmap::IndexMap;
use sdt_fault::NoMemory;
use sdt_fault::digits::push_hexadecimal_places;
use std::alloc::Global;

/// The global variables, and the variables and arguments of the call that is open.
#[derive(Drop)]
pub struct Tables {
    pub globals: IndexMap<SharedText, Value>,
    pub locals: IndexMap<SharedText, Value>,
    pub arguments: IndexMap<SharedText, SharedText>,
}

/// Appends a variable's text.
fn append_value(value: &Value, out: &mut Vec<u8>) -> Result<(), NoMemory>
    ensures { OnOk result (out.new.items ≡ out.old.items ++ model.text_of value.now) }
{
    match value {
        Value::Number(number) => {
            push_hexadecimal_places(out, *number as u64, 8)?;
            Ok(())
        }
        Value::Truth(true) => {
            out.push(b'T')?;
            Ok(())
        }
        Value::Truth(false) => {
            out.push(b'F')?;
            Ok(())
        }
        Value::Words(words) => {
            out.extend_from_slice(words.as_slice())?;
            Ok(())
        }
        Value::Place { symbol, plus } => Ok(()),
    }
}

impl Tables {
    /// The value of a local variable.
    #[tactic(auto, using(crate::proofs::MapLemmas::none_named))]
    fn local(&self, name: &SharedText) -> Option<&Value>
        ensures { option_copied result ≡ value_named self.now.locals name.now }
    {
        if self.locals.is_empty() {
            return None;
        }
        self.locals.get(name)
    }

    /// Whether a local variable has the name.
    #[tactic(auto, using(crate::proofs::MapLemmas::none_named))]
    pub fn has_local(&self, name: &SharedText) -> bool
        ensures { result ≡ is_some (value_named self.now.locals name.now) }
    {
        if self.locals.is_empty() {
            return false;
        }
        self.locals.contains_key(name)
    }

    /// The value of a variable; a local hides a global.
    pub fn variable(&self, name: &SharedText) -> Option<&Value>
        ensures { (s : State) → HasTables self.now s → option_copied result
            ≡ model.variable s name.now }
    {
        if let Some(value) = self.local(name) {
            return Some(value);
        }
        self.globals.get(name)
    }

    /// Appends the text for which a name stands, where there is one.
    pub fn append_text(&self, name: &SharedText, out: &mut Vec<u8>) -> Result<bool, NoMemory>
        ensures { IfOk result (λ known. (s : State) → HasTables self.now s
            → Appends (model.text_named s name.now) known out.old.items out.new.items) }
    {
        if let Some(text) = self.arguments.get(name) {
            out.extend_from_slice(text.as_slice())?;
            return Ok(true);
        }
        match self.variable(name) {
            None => Ok(false),
            Some(value) => {
                append_value(value, out)?;
                Ok(true)
            }
        }
    }
}
