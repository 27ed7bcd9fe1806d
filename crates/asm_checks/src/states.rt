//! The states of a source's areas, by its statements so far.

ghost use Rattle.std.specs.Prelude.{◌≡◌, ◌∷◌, [], ℕ, List, Some, None, if◌then◌else◌, nat_eq, OnOk};
ghost use Rattle.asm_model.specs.declared.statements.Statement.{Statement};
ghost use Rattle.asm_model.specs.Before as before_of;
ghost use Rattle.asm_model.specs.Directives.{or_else};
ghost use Rattle.asm_model.specs.LayoutKinds as layout;
ghost use Rattle.asm_checks.specs.States.{state_in, AreStates};

use asm_model::What;
use sdt_fault::NoMemory;
use std::alloc::Global;
use std::collections::BTreeMap;

/// Of each area with an instruction, by its number, whether the first is one of Thumb state.
#[derive(Drop)]
pub struct States {
    first: BTreeMap<u32, bool>,
}

fn is_instruction(what: &What) -> bool
    ensures { result ≡ layout.is_instruction what.now }
{
    match what {
        What::Arm(_) => true,
        What::Thumb(_) => true,
        What::Pseudo(_) => true,
        What::Nothing | What::Directive(_) => false,
    }
}

impl States {
    /// Before the first statement.
    pub fn new(alloc: Global) -> States
        ensures { AreStates [] result }
    {
        States {
            first: BTreeMap::new(alloc),
        }
    }

    /// Notes the state of an instruction, which counts where it is its area's first.
    fn run(&mut self, area: u32, thumb: bool) -> Result<(), NoMemory>
        ensures { OnOk result ((k : ℕ) → state_in self.new k
            ≡ or_else (state_in self.old k) (if nat_eq area k then Some thumb else None)) }
    {
        if self.first.get(&area).is_none() {
            self.first.insert(area, thumb)?;
        }
        Ok(())
    }

    /// Notes a statement more, by its area and its state.
    pub fn note(&mut self, what: &What, area: Option<u32>, thumb: bool) -> Result<(), NoMemory>
        ensures { OnOk result ((s : Statement) (before : List Statement)
            → AreStates before self.old → s.what ≡ what.now → before_of.area_behind (s ∷ before)
            ≡ area → before_of.thumb_behind before ≡ thumb → AreStates (s ∷ before) self.new) }
    {
        if !is_instruction(what) {
            return Ok(());
        }
        match area {
            None => Ok(()),
            Some(area) => self.run(area, thumb),
        }
    }

    /// Whether an area is one of Thumb code.
    pub fn is_thumb(&self, area: Option<u32>) -> bool
        ensures { (all : List Statement) → AreStates all self.now → result
            ≡ layout.in_thumb_area area all }
    {
        match area {
            None => false,
            Some(area) => self.first.get(&area) == Some(&true),
        }
    }
}
