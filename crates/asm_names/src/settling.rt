//! Names for expressions get their values, each by those before it.

ghost use Rattle.std.specs.Prelude.{map, IfOk};
ghost use Rattle.std.specs.List.{slice_get};
ghost use Rattle.asm_names.specs.Owing.{owed_of};
ghost use Rattle.asm_names.specs.Source.{IsEntryOf, IsEntryAt, Settles};

use crate::KnownNames;
use crate::dues::Due;
use crate::final_values::final_value;
use crate::made::equal_entry;
use asm_expr::known::add_entry;
use asm_expr::told::told_value;
use asm_model::LaidName;
use sdt_fault::NoMemory;
use std::alloc::Global;

/// The entry that a name has by the names that are known.
fn entry_of(
    alloc: Global,
    known: &KnownNames,
    declared: &KnownNames,
    due: &Due<'_>,
) -> Result<LaidName, NoMemory>
    ensures { IfOk result (λ entry. IsEntryOf known.now declared.now (owed_of due.now) entry) }
{
    let line = due.line;
    let value = told_value(final_value(alloc, due.value, known, &line))?;
    equal_entry(alloc, declared, line.place.area, due.name, value)
}

fn entry_at(
    alloc: Global,
    known: &KnownNames,
    declared: &KnownNames,
    dues: &[Due<'_>],
    place: u32,
) -> Result<Option<LaidName>, NoMemory>
    ensures { IfOk result
        (λ entry. IsEntryAt known.now declared.now (slice_get (map owed_of dues.now) place) entry) }
{
    match dues.get(place as usize) {
        None => Ok(None),
        Some(due) => Ok(Some(entry_of(alloc, known, declared, due)?)),
    }
}

/// The names that are known behind those for expressions, of which each is evaluated at its place.
pub fn settled(
    alloc: Global,
    first: KnownNames,
    declared: &KnownNames,
    dues: &[Due<'_>],
    places: &[u32],
) -> Result<KnownNames, NoMemory>
    ensures { IfOk result
        (λ known. Settles declared.now (map owed_of dues.now) first places.now known) }
{
    let mut known = first;
    'places: for place in places {
        let entry = entry_at(alloc, &known, declared, dues, *place)?;
        add_entry(alloc, &mut known, entry)?;
    }
    Ok(known)
}
