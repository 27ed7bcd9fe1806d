//! Where areas go. A region is named by its number in the order of the description, counted from 0; without
//! a scatter description there are three, RO, RW and ZI.

ghost use Rattle.std.specs.Prelude.{◌≡◌, IfOk};

use sdt_fault::{List, NoMemory, Text};

/// The number of an object, an area or a region. No memory holds so many that it needs more bits.
pub fn to_u32(place: usize) -> Result<u32, NoMemory>
    ensures { IfOk result (λ number. number ≡ place) }
{
    if place > u32::MAX as usize {
        return Err(NoMemory);
    }
    Ok(place as u32)
}

/// An area of a linked object, both by their numbers counted from 0.
#[derive(Clone, Copy, PartialEq, Eq, Hash)]
pub struct AreaName {
    pub object: u32,
    pub area: u32,
}

/// The areas of each region, in the order in which they stand there.
#[derive(Drop)]
pub struct Assigned {
    pub regions: List<List<AreaName>>,
}

/// An area with the number of its region and its execution address, which is 2^32 where an empty area stands
/// at the end of memory.
#[derive(Clone, Copy)]
pub struct PlacedArea {
    pub area: AreaName,
    pub region: u32,
    pub address: u64,
}

/// A piece of code in a region by which branches there reach a target of the other state. The target is an
/// offset in bytes, counted modulo 2^32, from the start of an area; `thumb` is the target's state.
#[derive(Clone, Copy, PartialEq, Eq, Hash)]
pub struct Veneer {
    pub region: u32,
    pub area: AreaName,
    pub offset: u32,
    pub thumb: bool,
}

/// A veneer and its execution address, a multiple of 4.
#[derive(Clone, Copy)]
pub struct PlacedVeneer {
    pub veneer: Veneer,
    pub address: u32,
}

/// Where regions, areas and veneers stand. `boot` is the address of the startup code, which a scatter image
/// has and no other.
#[derive(Drop)]
pub struct Placement {
    pub regions: List<Region>,
    pub areas: List<PlacedArea>,
    pub veneers: List<PlacedVeneer>,
    pub boot: Option<u32>,
}

/// An execution region: the number of the load region that holds it, its load and execution addresses, and
/// in bytes what is loaded and the zero-initialised part behind it. An address is 2^32 where an empty region
/// stands at the end of memory; maps and tables of the startup code write it 0.
#[derive(Drop)]
pub struct Region {
    pub name: Text,
    pub load_region: u32,
    pub load: u64,
    pub base: u64,
    pub length: u64,
    pub zero: u64,
}
