//! Lists of one item, and with one item more. Generic, so that no proof goes through the forms of an item that is
//! given up where memory is wanted.

ghost use Rattle.std.specs.Prelude.{◌≡◌, ◌∷◌, ◌++◌, [], IfOk, OnOk, OnErr};

use sdt_fault::{List, NoMemory};
use std::alloc::Global;

/// One item more. An `Err` changes nothing.
pub(crate) fn push<T: Drop>(items: &mut Vec<T>, item: T) -> Result<(), NoMemory>
    ensures ok { OnOk result (items.new.items ≡ items.old.items ++ item ∷ []) }
    ensures err { OnErr result (items.new.items ≡ items.old.items) }
{
    items.push(item)?;
    Ok(())
}

/// The list of one item.
pub(crate) fn only<T: Drop>(alloc: Global, item: T) -> Result<List<T>, NoMemory>
    ensures { IfOk result (λ all. all ≡ item ∷ []) }
{
    let mut items = Vec::with_capacity(alloc, 1)?;
    items.push(item)?;
    Ok(List::from_vec(items))
}

/// A list, with an item behind it.
pub(crate) fn with_last<T: Drop>(list: List<T>, item: T) -> Result<List<T>, NoMemory>
    ensures { IfOk result (λ all. all ≡ list ++ item ∷ []) }
{
    let mut items = list.into_vec();
    items.push(item)?;
    Ok(List::from_vec(items))
}
