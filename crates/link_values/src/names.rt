//! Names found by an index.

ghost use Rattle.std.specs.Prelude.{◌≡◌, ℕ, List, Some, OnOk, if◌then◌else◌};
ghost use Rattle.std.specs.Str.{bytes_eq};
ghost use Rattle.link_values.specs.Index.{found_in};

use indexmap::IndexMap;
use sdt_fault::NoMemory;

/// What a name has.
pub fn find<V: Copy>(index: &IndexMap<&[u8], V>, name: &[u8]) -> Option<V>
    ensures { result ≡ found_in index.now name.now }
{
    index.get(name).copied()
}

/// Gives a name a value, in the place of the one that it had.
pub fn put<'a, V: Copy>(
    index: &mut IndexMap<&'a [u8], V>,
    name: &'a [u8],
    value: V,
) -> Result<(), NoMemory>
    ensures { OnOk result ((q : List ℕ) → found_in index.new q
        ≡ (if bytes_eq name.now q then Some value else found_in index.old q)) }
{
    index.insert(name, value)?;
    Ok(())
}
