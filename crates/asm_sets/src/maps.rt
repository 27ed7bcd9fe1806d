//! Maps from names.

ghost use Rattle.std.specs.Prelude.{◌≡◌, ◌++◌, ◌∷◌, [], ℕ, List, None, Some, OnOk, if◌then◌else◌};
ghost use Rattle.asm_model.specs.Forms.{same};
ghost use Rattle.asm_sets.specs.Sets.{found_in};

use asm_model::SharedText;
use indexmap::IndexMap;
use sdt_fault::NoMemory;
use std::alloc::Global;
use std::marker::Model;

/// Names, each once and with a value, in the order in which they were added.
#[derive(Drop)]
pub struct NameMap<V> {
    entries: IndexMap<SharedText, V>,
}

impl<V> Model for NameMap<V> {
    ghost use Rattle.std.specs.Prelude.{ℕ, List};

    ghost Value = { List (List ℕ × V) };

    ghost view = { λ a. a.entries.entries };
}

impl<V: Copy> NameMap<V> {
    /// No names.
    pub fn new(alloc: Global) -> NameMap<V>
        ensures { result ≡ [] }
    {
        NameMap {
            entries: IndexMap::new(alloc),
        }
    }

    /// The value of a name; None where it isn't there.
    pub fn find(&self, name: &SharedText) -> Option<V>
        ensures { result ≡ found_in name.now self.now }
    {
        self.entries.get(name).copied()
    }

    /// A name more, behind the others, with its value. `NoMemory` comes where its copy or the index finds no memory.
    pub fn add(&mut self, alloc: Global, name: &SharedText, value: V) -> Result<(), NoMemory>
        requires { found_in name.now self.old ≡ None }
        ensures more { OnOk result (self.new ≡ self.old ++ (name.now, value) ∷ []) }
        ensures found { OnOk result ((q : List ℕ) → found_in q self.new
            ≡ (if same q name.now then Some value else found_in q self.old)) }
    {
        let name = name.share()?;
        self.entries.insert(name, value)?;
        Ok(())
    }
}
