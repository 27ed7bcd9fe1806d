//! Sets of names that stand elsewhere.

ghost use Rattle.std.specs.Prelude.{◌≡◌, ◌∷◌, [], OnOk};
ghost use Rattle.std.specs.List.{list_any};
ghost use Rattle.asm_model.specs.Forms.{same};
ghost use Rattle.asm_sets.specs.Sets.{HaveSame};

use asm_model::SharedText;
use indexmap::IndexSet;
use sdt_fault::NoMemory;
use std::alloc::Global;
use std::marker::Model;

/// Names, each once.
#[derive(Drop)]
pub struct NameRefs<'a> {
    names: IndexSet<&'a [u8]>,
}

impl<'a> Model for NameRefs<'a> {
    ghost use Rattle.std.specs.Prelude.{ℕ, List, map};

    ghost Value = { List (List ℕ) };

    ghost view = { λ a. map (λ k. k.now) a.names.keys };
}

impl<'a> NameRefs<'a> {
    /// No names.
    pub fn new(alloc: Global) -> NameRefs<'a>
        ensures { result ≡ [] }
    {
        NameRefs {
            names: IndexSet::new(alloc),
        }
    }

    /// A name more, unless it is there. `NoMemory` comes where the index finds no memory; the name itself isn't copied.
    pub fn add(&mut self, name: &'a SharedText) -> Result<(), NoMemory>
        ensures { OnOk result (HaveSame self.new (name.now ∷ self.old)) }
    {
        self.names.insert(name.as_slice())?;
        Ok(())
    }

    /// Whether a name is there.
    pub fn has(&self, name: &SharedText) -> bool
        ensures { result ≡ list_any (same name.now) self.now }
    {
        self.names.contains(name.as_slice())
    }
}
