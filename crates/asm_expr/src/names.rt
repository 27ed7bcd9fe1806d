//! The names with which an expression is evaluated.

ghost use Rattle.std.specs.Prelude.{◌≡◌, ◌++◌};
ghost use Rattle.std.specs.Option.{option_copied};
ghost use Rattle.asm_model.specs.Meaning.{named_in};
ghost use Rattle.asm_expr.specs.Places.{one_entry, AreFirst};
ghost use Rattle.asm_expr.specs.Seeing.{seen_names};

use crate::known::entry_in;
use crate::operands::is;
use crate::seen::Seen;
use asm_model::{LaidName, SharedText};

/// An entry, where it has the name.
fn own_named<'a>(own: Option<&'a LaidName>, name: &SharedText) -> Option<&'a LaidName>
    ensures { option_copied result ≡ named_in name.now (one_entry (option_copied own.entry)) }
{
    match own {
        None => None,
        Some(entry) => {
            if is(entry.name.as_slice(), name.as_slice()) {
                return Some(entry);
            }
            None
        }
    }
}

/// The first entry with the name, where all names are known.
fn known_named<'a>(seen: &Seen<'a>, name: &SharedText) -> Option<&'a LaidName>
    ensures { option_copied result
        ≡ named_in name.now (seen.now.names.now ++ one_entry (option_copied seen.now.own)) }
{
    let names = seen.names;
    if let Some(entry) = names.find(name) {
        return Some(entry);
    }
    own_named(seen.own, name)
}

/// The first entry with the name, where the first names are known. One place serves these and all.
fn first_named<'a>(
    seen: &Seen<'a>,
    first: &'a [LaidName],
    name: &SharedText,
) -> Option<&'a LaidName>
    requires { AreFirst first.now seen.now.names.now }
    ensures { option_copied result ≡ named_in name.now
        (first.now ++ one_entry (option_copied seen.now.own) ++ seen.now.names.now) }
{
    let names = seen.names;
    let place = names.place_of(name);
    if let Some(entry) = entry_in(first, place) {
        return Some(entry);
    }
    if let Some(entry) = own_named(seen.own, name) {
        return Some(entry);
    }
    entry_in(names.list(), place)
}

/// The first entry with the name.
pub fn entry_named<'a>(seen: &Seen<'a>, name: &SharedText) -> Option<&'a LaidName>
    ensures { option_copied result ≡ named_in name.now (seen_names seen.now).list }
{
    match seen.first {
        None => known_named(seen, name),
        Some(first) => first_named(seen, first, name),
    }
}
