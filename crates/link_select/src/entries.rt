//! Where the program begins.

ghost use Rattle.std.specs.Prelude.{◌≡◌, ◌++◌, ◌^◌, ◌<◌, length, slice_get};
ghost use Rattle.std.specs.Option.{option_copied, option_to_list};
ghost use Rattle.chunk_file.specs.Reading.{Gives};
ghost use Rattle.link_model.specs.Definitions.{is_thumb, linked_entry};
ghost use Rattle.link_select.specs.Entries.{entered_by, entered_from, only_entry, Counts};

use aof_object::{Area, Entry, Object};
use link_model::{LinkedEntry, Named};
use sdt_fault::Text;
use sdt_fault::answer::Fault;
use sdt_fault::refusal::Refusal;
use std::alloc::Global;

/// The entry of an object, with the object's name.
#[derive(Drop)]
pub struct Entered {
    pub name: Text,
    pub entry: LinkedEntry,
}

fn has_thumb_code(area: Option<&Area>) -> bool
    ensures { result ≡ is_thumb (option_copied area.entry) }
{
    match area {
        None => false,
        Some(area) => area.flags().is_thumb(),
    }
}

fn entry_of(number: u32, object: &Object, entry: Entry) -> LinkedEntry
    ensures { result ≡ linked_entry number object.now entry }
{
    LinkedEntry {
        object: number,
        area: entry.area,
        offset: entry.offset,
        thumb: has_thumb_code(object.areas.as_slice().get(entry.area as usize)),
    }
}

/// The entry that was found, and that of the object of a number: one of them, or none.
fn with_entry(
    alloc: Global,
    found: Option<Entered>,
    number: u32,
    object: &Named<Object>,
) -> Result<Option<Entered>, Fault>
    ensures { Counts (option_to_list found ++ entered_by number object.now object.now.value.entry) result }
{
    let Some(entry) = object.value.entry else {
        return Ok(found);
    };
    let name = object.name.try_clone(alloc)?;
    match found {
        None => Ok(Some(Entered {
            name,
            entry: entry_of(number, &object.value, entry),
        })),
        Some(first) => Err(Fault::Refused(Refusal::TwoEntries {
            first: first.name,
            second: name,
        })),
    }
}

/// The entry of the one object that has one.
pub fn one_entry(alloc: Global, objects: &[Named<Object>]) -> Result<LinkedEntry, Fault>
    requires { length objects.now < 2 ^ 32 }
    ensures { Gives result (only_entry (entered_from 0 objects.now)) }
{
    let mut found = None;
    for (i, object) in objects.iter().enumerate() {
        found = with_entry(alloc, found, i as u32, object)?;
    }
    match found {
        None => Err(Fault::Refused(Refusal::NoEntry)),
        Some(entered) => Ok(entered.entry),
    }
}
