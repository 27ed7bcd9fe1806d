//! Symbols with their numbers.

ghost use Rattle.std.specs.Prelude.{◌≡◌, ◌-◌, ◌<◌, ◌^◌, [], length, Some, OnOk, OnErr};
ghost use Rattle.asm_model.specs.Before.{with_name};
ghost use Rattle.asm_sets.specs.Sets.{number_among};

use asm_model::SharedText;
use asm_sets::NameSet;
use sdt_fault::NoMemory;
use std::alloc::Global;
use std::marker::Model;

/// Symbols in order of their first need.
#[derive(Drop)]
pub struct Symbols {
    names: NameSet,
}

impl Model for Symbols {
    ghost use Rattle.std.specs.Prelude.{ℕ, List, ◌<◌, ◌^◌, length};

    ghost Value = { List (List ℕ) };

    ghost view = { λ a. a.names };

    ghost invariant = { λ a. length a.names < 2 ^ 32 };
}

impl Symbols {
    /// No symbols.
    pub fn new(alloc: Global) -> Symbols
        ensures { result ≡ [] }
    {
        Symbols {
            names: NameSet::new(alloc),
        }
    }

    /// A symbol behind the others, unless it is listed. An `Err` changes nothing.
    pub fn add(&mut self, alloc: Global, name: &SharedText) -> Result<(), NoMemory>
        requires { length self.old < 2 ^ 32 - 1 }
        ensures ok { OnOk result (self.new ≡ with_name (Some name.now) self.old) }
        ensures err { OnErr result (self.new ≡ self.old) }
    {
        self.names.add(alloc, name)?;
        Ok(())
    }

    /// The number of a symbol.
    pub fn number_of(&self, name: &SharedText) -> Option<u32>
        ensures { result ≡ number_among name.now self.now }
    {
        match self.names.number_of(name) {
            None => None,
            Some(number) => Some(number as u32),
        }
    }

    /// The symbols, in order of their numbers.
    pub fn list(&self) -> &[SharedText]
        ensures { result.now ≡ self.now }
    {
        self.names.list()
    }
}
