//! The string table as it is built, and where its names stand.

ghost use Rattle.std.specs.Prelude.{◌≡◌, ℕ, List as Items, [], ◌∷◌, map, unwrap_or, OnOk};
ghost use Rattle.aof_object.specs.Index.{number_in, or_number};
ghost use Rattle.aof_object.specs.Spelling.{gathered, area_names, symbol_names, place};
ghost use Rattle.aof_object.specs.Places.{Tells, IsTable};

use crate::records::{Area, Symbol};
use indexmap::IndexMap;
use sdt_fault::{NoMemory, Text};

/// Where a name stands in the string table.
fn find_place(places: &IndexMap<&[u8], usize>, name: &[u8]) -> Option<usize>
    ensures { result ≡ number_in places.now name.now }
{
    places.get(name).copied()
}

/// Where a name stands that is in the table.
pub fn place_of(places: &IndexMap<&[u8], usize>, name: &Text) -> usize
    ensures { (ns : Items (Items ℕ)) → Tells places.now ns → result ≡ place ns name.now }
{
    find_place(places, name.as_slice()).unwrap_or(0)
}

/// Adds a name that is not in the table yet.
fn gather_name<'a>(
    bytes: &mut Vec<u8>,
    places: &mut IndexMap<&'a [u8], usize>,
    name: &'a [u8],
) -> Result<(), NoMemory>
    ensures { OnOk result ((ns : Items (Items ℕ)) → IsTable bytes.old.items places.old ns → IsTable bytes.new.items places.new (gathered ns (name.now ∷ []))) }
{
    if let None = find_place(places, name) {
        let so_far = bytes.as_slice();
        let end = so_far.len();
        places.insert(name, 4 + end)?;
        bytes.extend_from_slice(name)?;
        bytes.push(0)?;
    }
    Ok(())
}

/// Adds the names of areas.
pub fn gather_areas<'a>(
    bytes: &mut Vec<u8>,
    places: &mut IndexMap<&'a [u8], usize>,
    areas: &'a [Area],
) -> Result<(), NoMemory>
    ensures { OnOk result ((ns : Items (Items ℕ)) → IsTable bytes.old.items places.old ns → IsTable bytes.new.items places.new (gathered ns (area_names areas.now))) }
{
    for area in areas {
        gather_name(bytes, places, area.name.as_slice())?;
    }
    Ok(())
}

/// Adds the names of symbols.
pub fn gather_symbols<'a>(
    bytes: &mut Vec<u8>,
    places: &mut IndexMap<&'a [u8], usize>,
    symbols: &'a [Symbol],
) -> Result<(), NoMemory>
    ensures { OnOk result ((ns : Items (Items ℕ)) → IsTable bytes.old.items places.old ns → IsTable bytes.new.items places.new (gathered ns (symbol_names symbols.now))) }
{
    for symbol in symbols {
        gather_name(bytes, places, symbol.name.as_slice())?;
    }
    Ok(())
}
