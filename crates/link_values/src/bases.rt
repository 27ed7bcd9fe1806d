//! The addresses of areas, found by an index.

ghost use Rattle.std.specs.Prelude.{◌≡◌, Some, OnOk, IfOk, if◌then◌else◌};
ghost use Rattle.link_model.specs.declared.placing.AreaName.{AreaName};
ghost use Rattle.link_model.specs.RegionValues.{reduced_by};
ghost use Rattle.link_values.specs.Bases.{address_in, is_same, base_of, AreAddresses, AreBases};

use indexmap::IndexMap;
use link_model::{AreaName, PlacedArea, Placement};
use sdt_fault::NoMemory;
use std::alloc::Global;

/// The address of each area of a placement, as branches take it.
#[derive(Drop)]
pub struct AreaBases {
    addresses: IndexMap<AreaName, u64>,
}

/// An address as branches take it: in a scatter image, which has a boot area, modulo 2^32.
pub fn reduced(boot: Option<u32>, address: u64) -> u64
    ensures { result ≡ reduced_by boot address }
{
    match boot {
        None => address,
        Some(_) => address % 0x1_0000_0000,
    }
}

fn put_area(
    addresses: &mut IndexMap<AreaName, u64>,
    boot: Option<u32>,
    area: &PlacedArea,
) -> Result<(), NoMemory>
    ensures { OnOk result ((a : AreaName) → address_in addresses.new a
        ≡ (if is_same area.now.area a then Some (reduced_by boot area.now.address)
        else address_in addresses.old a)) }
{
    addresses.insert(area.area, reduced(boot, area.address))?;
    Ok(())
}

fn index_areas(
    alloc: Global,
    boot: Option<u32>,
    areas: &[PlacedArea],
) -> Result<IndexMap<AreaName, u64>, NoMemory>
    ensures { IfOk result (λ addresses. AreAddresses boot areas.now addresses) }
{
    let mut addresses = IndexMap::new(alloc);
    for i in (0..areas.len()).rev() {
        put_area(&mut addresses, boot, &areas[i])?;
    }
    Ok(addresses)
}

/// The addresses of a placement's areas, in a scatter image modulo 2^32.
pub fn area_bases(alloc: Global, placement: &Placement) -> Result<AreaBases, NoMemory>
    ensures { IfOk result (λ bases. AreBases placement.now bases) }
{
    Ok(AreaBases {
        addresses: index_areas(alloc, placement.boot, placement.areas.as_slice())?,
    })
}

/// The address of the area of these numbers, or 0 where none has them.
pub fn base_at(bases: &AreaBases, object: u32, area: u32) -> u64
    ensures { result ≡ base_of bases.now object area }
{
    match bases.addresses.get(&AreaName { object, area }) {
        None => 0,
        Some(address) => *address,
    }
}
