//! Names found by an index: a map to numbers from names, which stay where they are.

ghost use Rattle.std.specs.Prelude.{◌≡◌, ℕ, List, OnOk, IfOk};
ghost use Rattle.aof_object.specs.Index.{number_in, or_number};

use indexmap::IndexMap;
use sdt_fault::NoMemory;

/// The number of a name.
pub fn find_name(index: &IndexMap<&[u8], u32>, name: &[u8]) -> Option<u32>
    ensures { result ≡ number_in index.now name.now }
{
    index.get(name).copied()
}

/// Notes the number of a name that has none yet. Gives the number that the name had.
pub fn note_name<'a>(
    index: &mut IndexMap<&'a [u8], u32>,
    name: &'a [u8],
    number: u32,
) -> Result<Option<u32>, NoMemory>
    ensures found { IfOk result (λ found. found ≡ number_in index.old name.now) }
    ensures noted { OnOk result ((q : List ℕ) → number_in index.new q ≡ or_number (number_in index.old q) name.now number q) }
{
    // A new name, which most are, is looked up once so.
    let found = index.insert(name, number)?;
    if let Some(first) = found {
        index.insert(name, first)?;
    }
    Ok(found)
}
