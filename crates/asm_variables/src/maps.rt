//! Maps from names, of which an entry is put in.

ghost use Rattle.std.specs.Prelude.{◌≡◌, ◌||◌, ℕ, List, Some, if◌then◌else◌, OnOk};
ghost use Rattle.asm_model.specs.Forms.{same};
ghost use Rattle.asm_variables.specs.Maps.{has_name, value_named};

use asm_model::SharedText;
use indexmap::{IndexMap, IndexSet};
use sdt_fault::NoMemory;

/// Gives a name a value, in the place of the one that it had.
pub fn put<V: Drop>(
    map: &mut IndexMap<SharedText, V>,
    name: SharedText,
    value: V,
) -> Result<(), NoMemory>
    ensures { OnOk result ((q : List ℕ) →
        value_named map.new q ≡ (if same name q then Some value else value_named map.old q)) }
{
    map.insert(name, value)?;
    Ok(())
}

/// One name more.
pub fn add(names: &mut IndexSet<SharedText>, name: SharedText) -> Result<(), NoMemory>
    ensures { OnOk result ((q : List ℕ) →
        has_name names.new q ≡ (same name q || has_name names.old q)) }
{
    names.insert(name)?;
    Ok(())
}

/// Whether a name is among them.
pub fn is_among(names: &IndexSet<SharedText>, name: &SharedText) -> bool
    ensures { result ≡ has_name names.now name.now }
{
    names.contains(name)
}
