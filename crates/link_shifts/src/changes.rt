//! What is added and taken away of what moves at the addresses of an image.

ghost use Rattle.std.specs.Prelude.{◌≡◌, ◌-◌, ℕ, nat_eq, if◌then◌else◌, IfOk, OnOk};
ghost use Rattle.link_model.specs.Members.{link_of};
ghost use Rattle.link_shifts.specs.Balances.{none, weighed as with_one};
ghost use Rattle.link_shifts.specs.Changes.{area_change, change_by, change_in, is_word_at, times_in, veneers_change, areas_change, AreChanges, Grows};
ghost use Rattle.link_shifts.specs.Tells.{Tells};
ghost use Rattle.link_values.specs.Shifts.{names_moving as names_moving_of, veneer_shifts};
ghost use Rattle.patch_model.specs.Fields.{is_relative};

use crate::balances::{Balance, weighed};
use crate::moving::{Image, names_moving};
use aof_object::{FieldKind, Reloc};
use indexmap::IndexMap;
use link_model::{PlacedArea, PlacedVeneer};
use link_values::{area_at, sum};
use sdt_fault::NoMemory;
use std::alloc::Global;

fn change_at(changes: &IndexMap<u64, Balance>, address: u64) -> Balance
    ensures { result ≡ change_in changes.now address }
{
    match changes.get(&address) {
        None => Balance { more: 0, less: 0 },
        Some(change) => *change,
    }
}

/// How often the word at an address is shifted.
pub fn shifts_at(changes: &IndexMap<u64, Balance>, address: u64) -> u64
    ensures { result ≡ times_in changes.now address }
{
    let change = change_at(changes, address);
    change.more.saturating_sub(change.less)
}

fn note(
    changes: &mut IndexMap<u64, Balance>,
    address: u64,
    relative: bool,
    moving: bool,
) -> Result<(), NoMemory>
    ensures { OnOk result ((x : ℕ) → change_in changes.new x
        ≡ (if nat_eq address x then with_one relative moving (change_in changes.old address)
        else change_in changes.old x)) }
{
    let change = weighed(relative, moving, change_at(changes, address))?;
    changes.insert(address, change)?;
    Ok(())
}

/// Notes a relocation of an area at an address, if its field is a word.
fn note_reloc(
    changes: &mut IndexMap<u64, Balance>,
    image: &Image<'_>,
    object: u32,
    address: u64,
    reloc: Reloc,
) -> Result<(), NoMemory>
    requires { Tells image.now }
    ensures { OnOk result ((x : ℕ) → change_in changes.new x ≡ (if is_word_at address x reloc
        then with_one (is_relative reloc)
        (names_moving_of (link_of image.now.linked.now) image.now.placement.now object reloc)
        (change_in changes.old x)
        else change_in changes.old x)) }
{
    let field = reloc.field();
    let FieldKind::Word = field.kind else {
        return Ok(());
    };
    let at = sum(address, u64::from(field.place))?;
    let relative = reloc.is_relative();
    let moving = names_moving(image, object, reloc);
    note(changes, at, relative, moving)
}

fn note_relocs(
    changes: &mut IndexMap<u64, Balance>,
    image: &Image<'_>,
    object: u32,
    address: u64,
    relocs: &[Reloc],
) -> Result<(), NoMemory>
    requires { Tells image.now }
    ensures { OnOk result ((x : ℕ) → Grows (change_in changes.old x)
        (change_by (names_moving_of (link_of image.now.linked.now) image.now.placement.now object)
        address x relocs.now) (change_in changes.new x)) }
{
    for reloc in relocs {
        note_reloc(changes, image, object, address, *reloc)?;
    }
    Ok(())
}

fn note_area(
    changes: &mut IndexMap<u64, Balance>,
    image: &Image<'_>,
    placed: PlacedArea,
) -> Result<(), NoMemory>
    requires { Tells image.now }
    ensures { OnOk result ((x : ℕ) → Grows (change_in changes.old x)
        (area_change (link_of image.now.linked.now) image.now.placement.now x placed)
        (change_in changes.new x)) }
{
    let Some(area) = area_at(image.linked.objects.as_slice(), placed.area) else {
        return Ok(());
    };
    note_relocs(
        changes,
        image,
        placed.area.object,
        placed.address,
        area.relocs.as_slice(),
    )
}

/// Of all areas of an image.
fn areas_changes(
    alloc: Global,
    image: &Image<'_>,
    areas: &[PlacedArea],
) -> Result<IndexMap<u64, Balance>, NoMemory>
    requires { Tells image.now }
    ensures { IfOk result (λ changes. (x : ℕ) → change_in changes x
        ≡ areas_change (link_of image.now.linked.now) image.now.placement.now x areas.now) }
{
    let mut changes = IndexMap::new(alloc);
    for placed in areas {
        note_area(&mut changes, image, *placed)?;
    }
    Ok(changes)
}

/// Notes the target's address in a veneer to Thumb code.
fn note_veneer(changes: &mut IndexMap<u64, Balance>, placed: PlacedVeneer) -> Result<(), NoMemory>
    ensures { OnOk result ((x : ℕ) → Grows (change_in changes.old x)
        (record { more = veneer_shifts x placed; less = 0 }) (change_in changes.new x)) }
{
    if !placed.veneer.thumb {
        return Ok(());
    }
    note(changes, u64::from(placed.address) + 8, false, true)
}

fn note_veneers(
    changes: &mut IndexMap<u64, Balance>,
    veneers: &[PlacedVeneer],
) -> Result<(), NoMemory>
    ensures { OnOk result ((x : ℕ) → Grows (change_in changes.old x)
        (veneers_change x veneers.now) (change_in changes.new x)) }
{
    for placed in veneers {
        note_veneer(changes, *placed)?;
    }
    Ok(())
}

/// Of all words of an image.
pub fn changes_of(alloc: Global, image: &Image<'_>) -> Result<IndexMap<u64, Balance>, NoMemory>
    requires { Tells image.now }
    ensures { IfOk result (λ changes. AreChanges (link_of image.now.linked.now) image.now.placement.now changes) }
{
    let mut changes = areas_changes(alloc, image, image.placement.areas.as_slice())?;
    note_veneers(&mut changes, image.placement.veneers.as_slice())?;
    Ok(changes)
}
