//! The names that lines have for registers.

ghost use Rattle.std.specs.Prelude.{◌≡◌, ℕ, List, IfOk};

use crate::shared_texts::SharedText;
use sdt_fault::NoMemory;
use std::alloc::Global;
use std::marker::Model;
use std::rc::Rc;

/// A name of a register, of the size of a pointer, so that the operands of a line stay small.
#[derive(Drop)]
pub struct RegisterName {
    name: Rc<SharedText>,
}

impl Model for RegisterName {
    ghost Value = { List ℕ };

    ghost view = { λ register. register.name.value };
}

impl RegisterName {
    /// Takes the name.
    pub fn of(alloc: Global, name: SharedText) -> Result<RegisterName, NoMemory>
        ensures { IfOk result (λ register. register ≡ name) }
    {
        let name = Rc::new(alloc, name)?;
        Ok(RegisterName { name })
    }

    /// The same name, shared.
    pub fn share(&self) -> Result<RegisterName, NoMemory>
        ensures { IfOk result (λ register. register ≡ self.now) }
    {
        let name = self.name.clone()?;
        Ok(RegisterName { name })
    }

    /// The name.
    pub fn as_text(&self) -> &SharedText
        ensures { result.now ≡ self.now }
    {
        &self.name
    }
}
