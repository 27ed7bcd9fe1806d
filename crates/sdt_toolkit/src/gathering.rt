//! Values of any type in lists and under names: where memory ends, what is given up costs one proof, whatever it is.

ghost use Rattle.std.specs.Prelude.{◌≡◌, ◌∷◌, ◌++◌, [], IfOk, OnOk};
ghost use Rattle.sdt_toolkit.specs.Inputs as inputs;

use crate::names::module_of;
use link_model::Named;
use sdt_fault::{NoMemory, Text};
use std::alloc::Global;

/// Puts an item at the end.
pub fn put<T: Drop>(list: &mut Vec<T>, item: T) -> Result<(), NoMemory>
    ensures { OnOk result (list.new.items ≡ list.old.items ++ item ∷ []) }
{
    list.push(item)?;
    Ok(())
}

/// A list of one item.
pub fn list_of_one<T: Drop>(alloc: Global, item: T) -> Result<Vec<T>, NoMemory>
    ensures { IfOk result (λ list. list.items ≡ item ∷ []) }
{
    let mut list = Vec::new(alloc);
    list.push(item)?;
    Ok(list)
}

/// A value under a file's name, with the file's module.
pub fn named<T: Drop>(alloc: Global, name: &Text, value: T) -> Result<Named<T>, NoMemory>
    ensures { IfOk result (λ n. n ≡ record { name = name.now; «module» = inputs.module_of name.now; value = value }) }
{
    Ok(Named {
        name: name.try_clone(alloc)?,
        module: module_of(alloc, name)?,
        value,
    })
}
