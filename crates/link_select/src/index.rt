//! Names found by an index: a map to numbers from names, which stay where they are.

ghost use Rattle.std.specs.Prelude.{◌≡◌, ℕ, List, Option, Some, OnOk, if◌then◌else◌};
ghost use Rattle.std.specs.Str.{bytes_eq};
ghost use Rattle.link_select.specs.Index.{number_in};

use indexmap::IndexMap;
use sdt_fault::NoMemory;

/// The number of a name.
pub fn find(index: &IndexMap<&[u8], usize>, name: &[u8]) -> Option<usize>
    ensures { result ≡ number_in index.now name.now }
{
    index.get(name).copied()
}

/// Gives a name a number, in the place of the one that it had.
pub fn put<'a>(
    index: &mut IndexMap<&'a [u8], usize>,
    name: &'a [u8],
    number: usize,
) -> Result<(), NoMemory>
    ensures { OnOk result ((q : List ℕ) → number_in index.new q ≡ (if bytes_eq name.now q then Some number else number_in index.old q)) }
{
    index.insert(name, number)?;
    Ok(())
}
