//! Symbols and areas of linked objects by their numbers.

ghost use Rattle.std.specs.Prelude.{◌≡◌, IfOk, ◌+◌};
ghost use Rattle.std.specs.Option.{option_copied};
ghost use Rattle.link_model.specs.Meaning.{symbol_of};
ghost use Rattle.link_model.specs.Members.{objects_in};
ghost use Rattle.link_model.specs.RegionValues.{area_of};

use aof_object::{Area, Object, Symbol};
use link_model::{AreaName, Named};
use sdt_fault::NoMemory;

/// The symbol of these numbers.
pub fn symbol_at(objects: &[Named<Object>], object: u32, number: u32) -> Option<&Symbol>
    ensures { option_copied result ≡ symbol_of (objects_in objects.now) object number }
{
    match objects.get(object as usize) {
        None => None,
        Some(found) => found.value.symbols.as_slice().get(number as usize),
    }
}

/// The area of a name.
pub fn area_at(objects: &[Named<Object>], name: AreaName) -> Option<&Area>
    ensures { option_copied result ≡ area_of (objects_in objects.now) name }
{
    match objects.get(name.object as usize) {
        None => None,
        Some(found) => found.value.areas.as_slice().get(name.area as usize),
    }
}

/// The sum of an address and a size. No memory has so many bytes that it needs more bits.
pub fn sum(address: u64, size: u64) -> Result<u64, NoMemory>
    ensures { IfOk result (λ end. end ≡ address + size) }
{
    if size > u64::MAX - address {
        return Err(NoMemory);
    }
    Ok(address + size)
}
