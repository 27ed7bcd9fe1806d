//! Names in the label fields of lines. They wait outside the index until an expression is read that may ask for one, as few
//! sources have.

ghost use Rattle.std.specs.Prelude.{◌≡◌, ◌||◌, ℕ, List, false, OnOk};
ghost use Rattle.std.specs.List.{list_any};
ghost use Rattle.asm_model.specs.Forms.{same};
ghost use Rattle.asm_variables.specs.Maps.{has_name};
ghost use Rattle.asm_variables.specs.LineNames.{has_noted};

use crate::maps::{add, is_among};
use asm_model::SharedText;
use indexmap::IndexSet;
use sdt_fault::NoMemory;
use std::alloc::Global;

/// The names of lines, of which some may not be in the index yet.
#[derive(Drop)]
pub struct LineNames {
    pub index: IndexSet<SharedText>,
    pub waiting: Vec<SharedText>,
}

/// Whether a name is one of these.
fn is_one_of(names: &[SharedText], name: &SharedText) -> bool
    ensures { result ≡ list_any (λ n. same n name.now) names.now }
{
    names.iter().any(|other| other == name)
}

/// Puts names into an index.
fn index_all(
    index: &mut IndexSet<SharedText>,
    waiting: &mut Vec<SharedText>,
) -> Result<(), NoMemory>
    ensures { OnOk result ((q : List ℕ) → (list_any (λ n. same n q) waiting.new.items
        || has_name index.new q) ≡ (list_any (λ n. same n q) waiting.old.items
        || has_name index.old q)) }
{
    'names: loop {
        let Some(name) = waiting.pop() else {
            return Ok(());
        };
        add(index, name)?;
    }
}

impl LineNames {
    /// No name.
    pub fn new(alloc: Global) -> LineNames
        ensures { (q : List ℕ) → has_noted result q ≡ false }
    {
        LineNames {
            index: IndexSet::new(alloc),
            waiting: Vec::new(alloc),
        }
    }

    /// One name more.
    pub fn note(&mut self, name: SharedText) -> Result<(), NoMemory>
        ensures { OnOk result ((q : List ℕ) →
            has_noted self.new q ≡ (same name q || has_noted self.old q)) }
    {
        self.waiting.push(name)?;
        Ok(())
    }

    /// Puts the names that wait into the index, so that they are found at once.
    pub fn settle(&mut self) -> Result<(), NoMemory>
        ensures { OnOk result ((q : List ℕ) → has_noted self.new q ≡ has_noted self.old q) }
    {
        index_all(&mut self.index, &mut self.waiting)
    }

    /// Whether a name is among them.
    pub fn has(&self, name: &SharedText) -> bool
        ensures { result ≡ has_noted self.now name.now }
    {
        is_one_of(self.waiting.as_slice(), name) || is_among(&self.index, name)
    }
}
