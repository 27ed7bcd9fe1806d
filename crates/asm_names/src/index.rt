//! Names, found by an index.

ghost use Rattle.std.specs.Prelude.{◌≡◌, ◌<◌, ◌^◌, ℕ, List, length, Some, OnOk, IfOk, IsSome, if◌then◌else◌};
ghost use Rattle.asm_model.specs.Forms.{same};
ghost use Rattle.asm_names.specs.Index.{number_in, IsIndexOf};
ghost use Rattle.asm_names.specs.Equals.{pairs_of};

use crate::equals::Equal;
use asm_model::SharedText;
use indexmap::IndexMap;
use sdt_fault::NoMemory;
use std::alloc::Global;

/// The number of a name.
pub fn find(index: &IndexMap<&[u8], u32>, name: &SharedText) -> Option<u32>
    ensures { result ≡ number_in index.now name.now }
{
    index.get(name.as_slice()).copied()
}

/// The number of a name that has one.
pub fn number_of(index: &IndexMap<&[u8], u32>, name: &SharedText) -> u32
    requires { IsSome (number_in index.now name.now) }
    ensures { number_in index.now name.now ≡ Some result }
{
    find(index, name).unwrap()
}

/// Gives a name a number, in the place of the one that it had.
fn put<'a>(
    index: &mut IndexMap<&'a [u8], u32>,
    name: &'a SharedText,
    number: u32,
) -> Result<(), NoMemory>
    ensures { OnOk result ((q : List ℕ) → number_in index.new q
        ≡ (if same q name.now then Some number else number_in index.old q)) }
{
    index.insert(name.as_slice(), number)?;
    Ok(())
}

/// The number of the first expression that each name is for. The last one is noted first, and gives way to earlier ones.
pub fn index_of<'a>(
    alloc: Global,
    equals: &[Equal<'a>],
) -> Result<IndexMap<&'a [u8], u32>, NoMemory>
    requires { length equals.now < 2 ^ 32 }
    ensures { IfOk result (λ index. IsIndexOf 0 (pairs_of equals.now) index) }
{
    let mut index = IndexMap::new(alloc);
    for i in (0..equals.len()).rev() {
        put(&mut index, equals[i].name, i as u32)?;
    }
    Ok(index)
}
