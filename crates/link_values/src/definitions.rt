//! The definitions of names, found by an index.

ghost use Rattle.std.specs.Prelude.{◌≡◌, ℕ, List, Some, OnOk, IfOk, if◌then◌else◌};
ghost use Rattle.std.specs.Str.{bytes_eq};
ghost use Rattle.link_values.specs.Index.{found_in, place_of, IsIndexOf};

use crate::names::put;
use indexmap::IndexMap;
use link_model::Definition;
use sdt_fault::NoMemory;
use std::alloc::Global;

/// A symbol by its object's number and its own.
#[derive(Clone, Copy)]
pub struct Defined {
    pub object: u32,
    pub symbol: u32,
}

fn put_definition<'a>(
    index: &mut IndexMap<&'a [u8], Defined>,
    definition: &'a Definition,
) -> Result<(), NoMemory>
    ensures { OnOk result ((q : List ℕ) → found_in index.new q
        ≡ (if bytes_eq definition.now.name q then Some (place_of definition.now)
        else found_in index.old q)) }
{
    let defined = Defined {
        object: definition.object,
        symbol: definition.symbol,
    };
    put(index, definition.name.as_slice(), defined)
}

/// The first definition of each name. The last one is noted first, and gives way to earlier ones.
pub fn index_definitions<'a>(
    alloc: Global,
    definitions: &'a [Definition],
) -> Result<IndexMap<&'a [u8], Defined>, NoMemory>
    ensures { IfOk result (λ index. IsIndexOf definitions.now index) }
{
    let mut index = IndexMap::new(alloc);
    for i in (0..definitions.len()).rev() {
        put_definition(&mut index, &definitions[i])?;
    }
    Ok(index)
}
