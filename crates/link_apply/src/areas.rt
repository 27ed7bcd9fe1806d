//! Areas whose relocations are judged and whose fields are patched at once.

ghost use Rattle.std.specs.Prelude.{◌≡◌, ◌+◌, ◌<◌, ◌≤◌, ◌^◌, false, length, map, nat_eq, Some, IfOk};
ghost use Rattle.chunk_file.specs.Reading.{Gives};
ghost use Rattle.indexmap.specs.IndexMap.{get};
ghost use Rattle.link_model.specs.Options.{refused_or};
ghost use Rattle.link_model.specs.Veneers.{IsIn};
ghost use Rattle.patch_model.specs.Fields.{field_of, kind_of as field_kind, size_of as kind_size};
ghost use Rattle.link_apply.specs.Flaws.{is_outside};
ghost use Rattle.link_apply.specs.Judged.{IsWay};
ghost use Rattle.link_apply.specs.Patching.{bytes_at, first_refusal, flaw_at, number_at};
ghost use Rattle.link_apply.specs.Sites.{values_at, IsSite, Knows};
ghost use Rattle.link_apply.specs.Targets.{way_by, IsWayOf};
ghost use Rattle.link_apply.specs.Written.{AreFitting, AreInside};

use crate::detours::detour_at;
use crate::flaws::Flaw;
use crate::judging::is_outside_of;
use crate::patching::new_number;
use crate::relocations::{Detour, flaw_of_relocation};
use crate::sites::{PlacedLink, Site};
use crate::starts::FieldDirectives;
use crate::telling::refusal_of;
use crate::writing::put_numbers;
use aof_object::{Object, Reloc};
use indexmap::IndexMap;
use link_model::Named;
use sdt_fault::answer::Fault;
use sdt_fault::{Bytes, List};
use std::alloc::Global;

/// What an area's relocations do where the field of one begins.
fn start_at(starts: &IndexMap<u64, FieldDirectives>, reloc: Reloc) -> Option<FieldDirectives>
    ensures { result ≡ get nat_eq starts.now (field_of reloc).place }
{
    starts.get(&u64::from(reloc.field().place)).copied()
}

/// What the field of a relocation is to hold, or the relocation's flaw, by how its branch goes.
fn judged_by(
    known: &PlacedLink<'_>,
    site: &Site<'_>,
    start: FieldDirectives,
    reloc: Reloc,
    detour: Detour,
) -> Result<u32, Flaw>
    requires known { Knows known.now }
    requires site { IsSite known.now site.now }
    requires inside { is_outside site.now.area.now.bytes (field_of reloc) ≡ false }
    requires own { IsIn site.now.area.now.relocs reloc }
    requires there { get nat_eq site.now.starts (field_of reloc).place ≡ Some start }
    requires way { IsWayOf known.now.placement.now site.now.placed.region
        detour.target detour.veneer detour.goal }
    requires goes { IsWay (values_at known.now site.now) site.now.placed.address
        site.now.placed.area.area site.now.area.now reloc (way_by detour.target) }
    requires goal { detour.goal < 2 ^ 33 }
    ensures exact { result ≡ refused_or (flaw_at known.now site.now reloc)
        (number_at known.now site.now reloc) }
    ensures fits { IfOk result (λ number. number < 256 ^ kind_size (field_kind reloc)) }
{
    let base = site.placed.address;
    let number = site.placed.area.area;
    let flaw = flaw_of_relocation(
        &site.starts,
        start,
        site.even,
        number,
        base,
        site.area,
        reloc,
        detour,
    );
    match flaw {
        Some(flaw) => Err(flaw),
        None => Ok(new_number(start, base, site.area, reloc, detour)),
    }
}

/// What the field of a relocation of an area is to hold, or the relocation's flaw.
fn judged(known: &PlacedLink<'_>, site: &Site<'_>, reloc: Reloc) -> Result<u32, Flaw>
    requires known { Knows known.now }
    requires site { IsSite known.now site.now }
    requires own { IsIn site.now.area.now.relocs reloc }
    ensures exact { result ≡ refused_or (flaw_at known.now site.now reloc)
        (number_at known.now site.now reloc) }
    ensures fits { IfOk result (λ number. number < 256 ^ kind_size (field_kind reloc)) }
    ensures inside { IfOk result (λ _. (field_of reloc).place + kind_size (field_kind reloc)
        ≤ length site.now.area.now.bytes) }
{
    if is_outside_of(site.area.bytes.as_slice(), reloc) {
        return Err(Flaw::Malformed);
    }
    let Some(start) = start_at(&site.starts, reloc) else {
        return Err(Flaw::Malformed);
    };
    let detour = detour_at(known, site, start, reloc);
    judged_by(known, site, start, reloc, detour)
}

/// What the fields of an area's relocations are to hold, in their order, or the refusal of the first that has
/// a flaw.
fn numbers_of(
    alloc: Global,
    known: &PlacedLink<'_>,
    site: &Site<'_>,
    object: &Named<Object>,
) -> Result<List<u32>, Fault>
    requires known { Knows known.now }
    requires site { IsSite known.now site.now }
    ensures exact { Gives result (refused_or
        (first_refusal known.now site.now object.now site.now.area.now.relocs)
        (map (number_at known.now site.now) site.now.area.now.relocs)) }
    ensures fitting { IfOk result (λ numbers. AreFitting site.now.area.now.relocs numbers) }
    ensures inside { IfOk result (λ _. AreInside (length site.now.area.now.bytes)
        site.now.area.now.relocs) }
{
    let mut numbers = Vec::new(alloc);
    for reloc in site.area.relocs.as_slice() {
        match judged(known, site, *reloc) {
            Ok(number) => numbers.push(number)?,
            Err(flaw) => {
                let refusal = refusal_of(alloc, object, site.area, *reloc, flaw)?;
                return Err(Fault::Refused(refusal));
            }
        }
    }
    Ok(List::from_vec(numbers))
}

/// The bytes of an area with its fields patched, or the refusal of its first relocation that has a flaw.
pub fn patched(
    alloc: Global,
    known: &PlacedLink<'_>,
    site: &Site<'_>,
    object: &Named<Object>,
) -> Result<Bytes, Fault>
    requires known { Knows known.now }
    requires site { IsSite known.now site.now }
    ensures { Gives result (refused_or
        (first_refusal known.now site.now object.now site.now.area.now.relocs)
        (bytes_at known.now site.now)) }
{
    let numbers = numbers_of(alloc, known, site, object)?;
    let mut bytes = Vec::from_slice(alloc, site.area.bytes.as_slice())?;
    put_numbers(&mut bytes, site.area.relocs.as_slice(), numbers.as_slice());
    Ok(Bytes::from_vec(bytes))
}
