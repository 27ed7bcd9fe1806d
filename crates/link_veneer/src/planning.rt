//! The plan of veneers.

ghost use Rattle.std.specs.Prelude.{◌≡◌, OnOk, IfOk};
ghost use Rattle.std.specs.List.{flat_map};
ghost use Rattle.chunk_file.specs.Reading.{Gives};
ghost use Rattle.link_model.specs.Members.{link_of, objects_in};
ghost use Rattle.link_model.specs.RegionValues.{area_of};
ghost use Rattle.link_model.specs.Veneers.{needed_by_header, needed_from, needed_in, veneers_of};
ghost use Rattle.link_values.specs.Index.{IsIndexOf};
ghost use Rattle.link_veneer.specs.Needing.{with_all};
ghost use Rattle.link_veneer.specs.Planning.{planned_veneers};

use crate::interworking::first_refusal;
use crate::needing::{add_area, add_one};
use indexmap::{IndexMap, IndexSet};
use link_model::{AreaName, Assigned, Linked, LinkedEntry, Veneer, to_u32};
use link_values::{Defined, area_at, index_definitions};
use sdt_fault::answer::Fault;
use sdt_fault::{List, NoMemory};
use std::alloc::Global;

/// Adds the veneer of a header's call of a Thumb entry.
fn add_header(
    needs: &mut IndexSet<Veneer>,
    header: bool,
    entry: &LinkedEntry,
) -> Result<(), NoMemory>
    ensures { OnOk result (needs.new.keys ≡ with_all needs.old.keys
        (needed_by_header header entry.now)) }
{
    if header && entry.thumb {
        let need = Veneer {
            region: 0,
            area: AreaName {
                object: entry.object,
                area: entry.area,
            },
            offset: entry.offset,
            thumb: true,
        };
        add_one(needs, need)?;
    }
    Ok(())
}

/// Adds the veneers that the area of a name in a region needs.
fn add_named(
    alloc: Global,
    linked: &Linked,
    index: &IndexMap<&[u8], Defined>,
    needs: &mut IndexSet<Veneer>,
    region: u32,
    name: AreaName,
) -> Result<(), NoMemory>
    requires { IsIndexOf linked.now.definitions index.now }
    ensures { OnOk result (needs.new.keys ≡ with_all needs.old.keys (needed_in
        (link_of linked.now) region name (area_of (objects_in linked.now.objects) name))) }
{
    match area_at(linked.objects.as_slice(), name) {
        None => Ok(()),
        Some(area) => add_area(alloc, linked, index, needs, region, name, area),
    }
}

/// Adds those of a region's areas.
fn add_region(
    alloc: Global,
    linked: &Linked,
    index: &IndexMap<&[u8], Defined>,
    needs: &mut IndexSet<Veneer>,
    region: u32,
    names: &[AreaName],
) -> Result<(), NoMemory>
    requires { IsIndexOf linked.now.definitions index.now }
    ensures { OnOk result (needs.new.keys ≡ with_all needs.old.keys (flat_map (λ a. needed_in
        (link_of linked.now) region a (area_of (objects_in linked.now.objects) a)) names.now)) }
{
    for name in names {
        add_named(alloc, linked, index, needs, region, *name)?;
    }
    Ok(())
}

/// Adds those of all regions.
fn add_regions(
    alloc: Global,
    linked: &Linked,
    index: &IndexMap<&[u8], Defined>,
    needs: &mut IndexSet<Veneer>,
    regions: &[List<AreaName>],
) -> Result<(), NoMemory>
    requires { IsIndexOf linked.now.definitions index.now }
    ensures { OnOk result (needs.new.keys ≡ with_all needs.old.keys (needed_from
        (link_of linked.now) 0 regions.now)) }
{
    for (k, names) in regions.iter().enumerate() {
        add_region(alloc, linked, index, needs, to_u32(k)?, names.as_slice())?;
    }
    Ok(())
}

#[tactic(auto, using(crate::proofs::PlanLemmas::both_added, crate::proofs::PlanLemmas::all_needs))]
fn veneers(
    alloc: Global,
    linked: &Linked,
    index: &IndexMap<&[u8], Defined>,
    regions: &[List<AreaName>],
    header: bool,
) -> Result<List<Veneer>, NoMemory>
    requires { IsIndexOf linked.now.definitions index.now }
    ensures { IfOk result (λ vs. vs ≡ veneers_of (link_of linked.now) regions.now header) }
{
    let mut needs = IndexSet::new(alloc);
    add_header(&mut needs, header, &linked.entry)?;
    add_regions(alloc, linked, index, &mut needs, regions)?;
    Ok(List::from_vec(Vec::from_slice(alloc, needs.as_slice())?))
}

/// The veneers that a link needs, each once and in order of first need: for the call of the entry by the
/// header of an AIF, which `header` says is there, then for the regions' areas in their order.
///
/// Refuses the first branch in input order that goes to a symbol of the other state whose area lacks the
/// interworking attribute, by `NotInterworking`.
pub fn plan_veneers(
    alloc: Global,
    linked: &Linked,
    assigned: &Assigned,
    header: bool,
) -> Result<List<Veneer>, Fault>
    // The answer is that of the definition, unless memory was refused.
    ensures exact { Gives result (planned_veneers linked.now assigned.now header) }
{
    let index = index_definitions(alloc, linked.definitions.as_slice())?;
    if let Some(refusal) = first_refusal(alloc, linked, &index)? {
        return Err(Fault::Refused(refusal));
    }
    let regions = assigned.regions.as_slice();
    Ok(veneers(alloc, linked, &index, regions, header)?)
}
