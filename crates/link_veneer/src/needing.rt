//! The veneers that relocations need.

ghost use Rattle.std.specs.Prelude.{◌≡◌, ◌+◌, ◌-◌, ◌^◌, ◌<◌, ℕ, false, [], None, Some, OnOk, IfSome};
ghost use Rattle.patch_model.specs.Patched.{pc_offset, is_branch as reads_as_branch, bias, biased_displacement};
ghost use Rattle.link_model.specs.Members.{link_of};
ghost use Rattle.link_model.specs.Veneers.{needed_by, needed_in, IsIn};
ghost use Rattle.link_model.specs.Options.{first_given};
ghost use Rattle.link_veneer.specs.Fields.{AreMarks};
ghost use Rattle.link_veneer.specs.Interworking.{refused_by};
ghost use Rattle.link_values.specs.Index.{IsIndexOf};
ghost use Rattle.link_veneer.specs.Needing.{led, led_from, veneer_to, with_all, with_one};

use crate::fields::{is_alone, is_branch, marks_of};
use crate::targets::named_target;
use aof_object::{Area, Reloc};
use indexmap::{IndexMap, IndexSet};
use link_model::{AreaName, Linked, Veneer};
use link_values::{BranchTarget, Defined};
use sdt_fault::NoMemory;
use sdt_word::word_at;
use std::alloc::Global;

/// Whether the word is B or BL or, in Thumb state, the pair of BL.
fn is_branch_word(thumb: bool, word: u32) -> bool
    ensures { result ≡ reads_as_branch thumb word }
{
    if thumb {
        return word / 0x800 % 32 == 30 && word / 0x0800_0000 % 32 == 31;
    }
    word / 0x1000_0000 % 16 < 15 && word / 0x0200_0000 % 8 == 5
}

/// How far behind the branch its target is, for a branch at an address, counted from 2^32 below.
fn reach(thumb: bool, word: u32) -> u64
    ensures value { result ≡ pc_offset thumb + biased_displacement thumb word + (2 ^ 32 - bias thumb) }
    ensures bound { result < 2 ^ 33 }
{
    if thumb {
        let low = (word % 0x800 * 0x800 + word / 0x1_0000 % 0x800 + 0x20_0000) % 0x40_0000;
        return 4 + (low * 2) as u64 + 0xFFC0_0000;
    }
    let low = (word % 0x100_0000 + 0x80_0000) % 0x100_0000;
    8 + (low * 4) as u64 + 0xFE00_0000
}

/// The veneer of a branch in a state, where it goes by one.
fn veneer_for(region: u32, thumb: bool, distance: u64, to: BranchTarget) -> Option<Veneer>
    requires { distance < 2 ^ 34 }
    ensures { result ≡ veneer_to region thumb distance to }
{
    if to.thumb == thumb {
        return None;
    }
    Some(Veneer {
        region,
        area: AreaName {
            object: to.place.object,
            area: to.place.area,
        },
        offset: ((to.place.offset as u64 + distance) % 0x1_0000_0000) as u32,
        thumb: to.thumb,
    })
}

/// How far a branch at a place in an area leads from the area's start, where one is there.
fn distance(bytes: &[u8], thumb: bool, at: u32) -> Option<u64>
    ensures value { result ≡ led_from bytes.now thumb at }
    ensures bound { IfSome result (λ d. d < 2 ^ 34) }
{
    if (at as usize) + 4 > bytes.len() {
        return None;
    }
    let word = word_at(bytes, at as usize);
    if !is_branch_word(thumb, word) {
        return None;
    }
    Some(at as u64 + reach(thumb, word))
}

/// The veneer of a relocation that has its field alone, if a branch is there that goes by one.
fn led_by(
    linked: &Linked,
    index: &IndexMap<&[u8], Defined>,
    region: u32,
    object: u32,
    bytes: &[u8],
    reloc: Reloc,
) -> Option<Veneer>
    requires { IsIndexOf linked.now.definitions index.now }
    ensures { result ≡ led (link_of linked.now) region object bytes.now reloc }
{
    let thumb = reloc.offset % 2 == 1;
    let far = distance(bytes, thumb, reloc.field().place)?;
    let to = named_target(linked, index, object, reloc.number())?;
    veneer_for(region, thumb, far, to)
}

/// The veneer that a relocation of an area in a region needs.
pub fn needed(
    linked: &Linked,
    index: &IndexMap<&[u8], Defined>,
    marks: &IndexMap<u32, bool>,
    region: u32,
    name: AreaName,
    area: &Area,
    reloc: Reloc,
) -> Option<Veneer>
    requires index { IsIndexOf linked.now.definitions index.now }
    requires marks { AreMarks area.now.relocs marks.now }
    requires there { IsIn area.now.relocs reloc }
    ensures { result ≡ needed_by (link_of linked.now) region name area.now reloc }
{
    if !is_branch(reloc) {
        return None;
    }
    if !is_alone(marks, reloc) {
        return None;
    }
    led_by(
        linked,
        index,
        region,
        name.object,
        area.bytes.as_slice(),
        reloc,
    )
}

/// Whether the branch of a relocation leads to code of the other state. One that doesn't needs no veneer.
fn leads_away(
    linked: &Linked,
    index: &IndexMap<&[u8], Defined>,
    name: AreaName,
    area: &Area,
    reloc: Reloc,
) -> bool
    requires index { IsIndexOf linked.now.definitions index.now }
    requires there { IsIn area.now.relocs reloc }
    ensures { result ≡ false → (region : ℕ) → needed_by (link_of linked.now) region name area.now reloc ≡ None }
{
    if !is_branch(reloc) {
        return false;
    }
    led_by(linked, index, 0, name.object, area.bytes.as_slice(), reloc).is_some()
}

/// Whether a branch of an area leads to code of the other state. An area without one needs no veneer, whether its fields
/// stand alone or not.
pub fn has_other_state(
    linked: &Linked,
    index: &IndexMap<&[u8], Defined>,
    name: AreaName,
    area: &Area,
) -> bool
    requires { IsIndexOf linked.now.definitions index.now }
    ensures needs { result ≡ false → (region : ℕ) → needed_in (link_of linked.now) region name (Some area.now) ≡ [] }
    ensures refusals { result ≡ false → first_given (refused_by (link_of linked.now) name area.now) area.now.relocs ≡ None }
{
    for reloc in area.relocs.as_slice() {
        if leads_away(linked, index, name, area, *reloc) {
            return true;
        }
    }
    false
}

/// Adds a veneer behind the others, unless it is among them.
pub fn add_one(needs: &mut IndexSet<Veneer>, need: Veneer) -> Result<(), NoMemory>
    ensures { OnOk result (needs.new.keys ≡ with_one needs.old.keys need) }
{
    needs.insert(need)?;
    Ok(())
}

/// Adds the veneers that an area in a region needs.
pub fn add_area(
    alloc: Global,
    linked: &Linked,
    index: &IndexMap<&[u8], Defined>,
    needs: &mut IndexSet<Veneer>,
    region: u32,
    name: AreaName,
    area: &Area,
) -> Result<(), NoMemory>
    requires { IsIndexOf linked.now.definitions index.now }
    ensures { OnOk result (needs.new.keys ≡ with_all needs.old.keys (needed_in
        (link_of linked.now) region name (Some area.now))) }
{
    if !has_other_state(linked, index, name, area) {
        return Ok(());
    }
    add_each(alloc, linked, index, needs, region, name, area)
}

/// The same, with a note of which fields stand alone.
fn add_each(
    alloc: Global,
    linked: &Linked,
    index: &IndexMap<&[u8], Defined>,
    needs: &mut IndexSet<Veneer>,
    region: u32,
    name: AreaName,
    area: &Area,
) -> Result<(), NoMemory>
    requires { IsIndexOf linked.now.definitions index.now }
    ensures { OnOk result (needs.new.keys ≡ with_all needs.old.keys (needed_in
        (link_of linked.now) region name (Some area.now))) }
{
    let relocs = area.relocs.as_slice();
    let marks = marks_of(alloc, relocs)?;
    for reloc in relocs {
        if let Some(need) = needed(linked, index, &marks, region, name, area, *reloc) {
            add_one(needs, need)?;
        }
    }
    Ok(())
}
