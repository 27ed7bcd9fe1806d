//! Sets of names of their own.

ghost use Rattle.std.specs.Prelude.{◌≡◌, ◌<◌, ◌∷◌, [], length, Some, IfSome, OnOk, OnErr};
ghost use Rattle.std.specs.List.{list_any};
ghost use Rattle.asm_model.specs.Before.{with_name};
ghost use Rattle.asm_model.specs.Forms.{same};
ghost use Rattle.asm_sets.specs.Sets.{HaveSame, number_among};

use asm_model::SharedText;
use indexmap::IndexSet;
use sdt_fault::NoMemory;
use std::alloc::Global;
use std::marker::Model;

/// Names, each once, in the order in which they were added.
#[derive(Drop)]
pub struct NameSet {
    names: IndexSet<SharedText>,
}

impl Model for NameSet {
    ghost use Rattle.std.specs.Prelude.{ℕ, List};

    ghost Value = { List (List ℕ) };

    ghost view = { λ a. a.names.keys };
}

impl NameSet {
    /// No names.
    pub fn new(alloc: Global) -> NameSet
        ensures { result ≡ [] }
    {
        NameSet {
            names: IndexSet::new(alloc),
        }
    }

    /// A name behind the others, unless it is there. `NoMemory`, where its copy or the index finds no memory, changes nothing.
    pub fn add(&mut self, alloc: Global, name: &SharedText) -> Result<(), NoMemory>
        ensures more { OnOk result (self.new ≡ with_name (Some name.now) self.old) }
        ensures have { OnOk result (HaveSame self.new (name.now ∷ self.old)) }
        ensures err { OnErr result (self.new ≡ self.old) }
    {
        let name = name.share()?;
        self.names.insert(name)?;
        Ok(())
    }

    /// Whether a name is there.
    pub fn has(&self, name: &SharedText) -> bool
        ensures { result ≡ list_any (same name.now) self.now }
    {
        self.names.contains(name)
    }

    /// The number of a name, which is its place.
    pub fn number_of(&self, name: &SharedText) -> Option<usize>
        ensures number { result ≡ number_among name.now self.now }
        ensures below { IfSome result (λ number. number < length self.now) }
    {
        self.names.get_index_of(name)
    }

    /// The names.
    pub fn list(&self) -> &[SharedText]
        ensures { result.now ≡ self.now }
    {
        self.names.as_slice()
    }
}
