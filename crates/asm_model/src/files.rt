//! The names of source files.

ghost use Rattle.std.specs.Prelude.{◌≡◌, ℕ, List, IfOk};

use sdt_fault::{NoMemory, Text};
use std::alloc::Global;
use std::marker::Model;
use std::rc::Rc;

/// The name of a source file, which all of its lines share.
#[derive(Drop)]
pub struct FileName {
    name: Rc<Text>,
}

impl Model for FileName {
    ghost Value = { List ℕ };

    ghost view = { λ file. file.name.value };
}

impl FileName {
    /// A copy of the name, for lines to share.
    pub fn of(alloc: Global, name: &Text) -> Result<FileName, NoMemory>
        ensures { IfOk result (λ file. file ≡ name.now) }
    {
        let name = Rc::new(alloc, name.try_clone(alloc)?)?;
        Ok(FileName { name })
    }

    /// The same name, shared.
    pub fn share(&self) -> Result<FileName, NoMemory>
        ensures { IfOk result (λ file. file ≡ self.now) }
    {
        let name = self.name.clone()?;
        Ok(FileName { name })
    }

    /// The name.
    pub fn as_text(&self) -> &Text
        ensures { result.now ≡ self.now }
    {
        &self.name
    }
}
