//! The veneers of a placement, found by an index, and the detours of branches by them.

ghost use Rattle.std.specs.Prelude.{◌≡◌, ◌<◌, ◌≤◌, ◌^◌, false, Some, OnOk, IfOk, if◌then◌else◌, nat_eq};
ghost use Rattle.patch_model.specs.Fields.{field_of};
ghost use Rattle.indexmap.specs.IndexMap.{get};
ghost use Rattle.link_model.specs.declared.placing.Veneer.{Veneer as VeneerModel};
ghost use Rattle.link_model.specs.Veneers.{IsIn};
ghost use Rattle.link_values.specs.Placed.{base_in};
ghost use Rattle.link_values.specs.Values.{home};
ghost use Rattle.link_apply.specs.Detours.{is_same, veneer_in, AreVeneers};
ghost use Rattle.link_apply.specs.Flaws.{is_outside};
ghost use Rattle.link_apply.specs.Judged.{IsWay};
ghost use Rattle.link_apply.specs.Placed.{target_in, veneers_at};
ghost use Rattle.link_apply.specs.Sites.{values_at, IsSite, Knows};
ghost use Rattle.link_apply.specs.Targets.{way_by, IsWayOf};

use crate::patching::target_at;
use crate::relocations::Detour;
use crate::sites::{PlacedLink, Site};
use crate::starts::FieldDirectives;
use aof_object::Reloc;
use indexmap::IndexMap;
use link_model::{AreaName, PlacedVeneer, Veneer};
use link_values::{AreaOffset, BranchTarget, base_at};
use sdt_fault::NoMemory;
use std::alloc::Global;

fn put_veneer(veneers: &mut IndexMap<Veneer, u32>, placed: &PlacedVeneer) -> Result<(), NoMemory>
    ensures { OnOk result ((v : VeneerModel) → veneer_in veneers.new v
        ≡ (if is_same placed.now.veneer v then Some placed.now.address
        else veneer_in veneers.old v)) }
{
    veneers.insert(placed.veneer, placed.address)?;
    Ok(())
}

/// The addresses of veneers.
pub fn index_veneers(
    alloc: Global,
    placed: &[PlacedVeneer],
) -> Result<IndexMap<Veneer, u32>, NoMemory>
    ensures { IfOk result (λ veneers. AreVeneers placed.now veneers) }
{
    let mut veneers = IndexMap::new(alloc);
    for i in (0..placed.len()).rev() {
        put_veneer(&mut veneers, &placed[i])?;
    }
    Ok(veneers)
}

fn find_veneer(veneers: &IndexMap<Veneer, u32>, veneer: Veneer) -> Option<u32>
    ensures { result ≡ veneer_in veneers.now veneer }
{
    veneers.get(&veneer).copied()
}

/// The address of a region's veneer.
fn veneer_at(known: &PlacedLink<'_>, region: u32, target: BranchTarget) -> Option<u32>
    requires { Knows known.now }
    ensures { result ≡ veneers_at known.now.placement.now region (home target.place) target.thumb }
{
    let veneer = Veneer {
        region,
        area: AreaName {
            object: target.place.object,
            area: target.place.area,
        },
        offset: target.place.offset,
        thumb: target.thumb,
    };
    find_veneer(&known.veneers, veneer)
}

/// The address of an area.
fn address_at(known: &PlacedLink<'_>, object: u32, area: u32) -> u64
    requires { Knows known.now }
    ensures value { result ≡ base_in known.now.placement.now object area }
    ensures bound { result ≤ 2 ^ 32 }
{
    base_at(&known.bases, object, area)
}

/// The address of a place, reduced modulo 2^32.
pub fn address_of(known: &PlacedLink<'_>, place: AreaOffset) -> u64
    requires { Knows known.now }
    ensures value { result ≡ target_in known.now.placement.now (home place) }
    ensures bound { result < 2 ^ 32 }
{
    (address_at(known, place.object, place.area) + place.offset as u64) % 0x1_0000_0000
}

/// How a branch of a region goes to its target.
fn detour_to(known: &PlacedLink<'_>, region: u32, target: Option<BranchTarget>) -> Detour
    requires { Knows known.now }
    ensures way { IsWayOf known.now.placement.now region target result.veneer result.goal }
    ensures target { result.target ≡ target }
    ensures goal { result.goal < 2 ^ 33 }
{
    let Some(to) = target else {
        return Detour {
            target,
            veneer: None,
            goal: 0,
        };
    };
    Detour {
        target,
        veneer: veneer_at(known, region, to),
        goal: address_of(known, to.place),
    }
}

/// How the branch of a relocation of an area goes. `start` is what the area's relocations do where it begins.
pub fn detour_at(
    known: &PlacedLink<'_>,
    site: &Site<'_>,
    start: FieldDirectives,
    reloc: Reloc,
) -> Detour
    requires known { Knows known.now }
    requires site { IsSite known.now site.now }
    requires inside { is_outside site.now.area.now.bytes (field_of reloc) ≡ false }
    requires own { IsIn site.now.area.now.relocs reloc }
    requires there { get nat_eq site.now.starts (field_of reloc).place ≡ Some start }
    ensures way { IsWayOf known.now.placement.now site.now.placed.region
        result.target result.veneer result.goal }
    ensures goes { IsWay (values_at known.now site.now) site.now.placed.address
        site.now.placed.area.area site.now.area.now reloc (way_by result.target) }
    ensures goal { result.goal < 2 ^ 33 }
{
    let target = target_at(site.symbols, start, site.placed.address, site.area, reloc);
    detour_to(known, site.placed.region, target)
}
