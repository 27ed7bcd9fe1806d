//! What can't be moved with an image.

ghost use Rattle.std.specs.Prelude.{◌≡◌, ◌+◌, ◌-◌, ◌||◌, slice_get, IfOk, Some};
ghost use Rattle.std.specs.List.{filter_map};
ghost use Rattle.std.specs.Option.{option_map};
ghost use Rattle.link_values.specs.Shifts.{has_bad_shifts as bad_shifts, is_bad_branch as bad_branch, is_unmovable, names_moving as names_moving_of, image_base as base_of_image, unmovable, unmovable_from, unmovable_in, not_relocatable};
ghost use Rattle.link_model.specs.Members.{link_of};
ghost use Rattle.link_shifts.specs.Balances.{AreBalances};
ghost use Rattle.link_shifts.specs.Tells.{Tells};
ghost use Rattle.link_values.specs.Placed.{base_in};
ghost use Rattle.patch_model.specs.Fields.{field_of};

use crate::balances::{Balance, Spot, balance_at, balances_of, spot_of};
use crate::moving::{Image, names_moving};
use aof_object::{Area, FieldKind, Object, Reloc};
use indexmap::IndexMap;
use link_model::{Linked, Named, Placement, to_u32};
use link_values::{area_bases, base_at, gathered, region_numbers};
use sdt_fault::NoMemory;
use sdt_fault::refusal::Refusal;
use std::alloc::Global;

/// Where an image begins: with its first region.
pub fn image_base(placement: &Placement) -> u64
    ensures { result ≡ base_of_image placement.now }
{
    match placement.regions.as_slice().first() {
        None => 0,
        Some(region) => region.base,
    }
}

/// Whether a field at an offset in the image has shifts that can't be made.
fn has_bad_shifts(kind: FieldKind, offset: u64, balance: Balance) -> bool
    ensures { result ≡ bad_shifts kind offset balance.more balance.less }
{
    match kind {
        FieldKind::Word => {
            if offset % 4 == 0 {
                return balance.more < balance.less;
            }
            balance.more != balance.less
        }
        _ => balance.more != balance.less,
    }
}

/// Whether a field is that of a branch to what stays.
fn is_bad_branch(kind: FieldKind, moving: bool) -> bool
    ensures { result ≡ bad_branch kind moving }
{
    match kind {
        FieldKind::Branch(_) => !moving,
        _ => false,
    }
}

/// Whether a relocation whose field is at an offset in the image can't be moved.
fn cannot_move(moving: bool, offset: u64, balance: Balance, kind: FieldKind) -> bool
    ensures { result ≡ (bad_branch kind moving || bad_shifts kind offset balance.more balance.less) }
{
    if is_bad_branch(kind, moving) {
        return true;
    }
    has_bad_shifts(kind, offset, balance)
}

/// An area of an object, both with their numbers, and what its fields gain and lose.
#[derive(Drop)]
struct Judged<'a> {
    named: &'a Named<Object>,
    object: u32,
    number: u32,
    area: &'a Area,
    balances: &'a IndexMap<Spot, Balance>,
}

/// Whether a relocation of an area can't be moved.
#[tactic(auto, using(crate::proofs::FieldLemmas::field_balance))]
fn is_stuck(image: &Image<'_>, judged: &Judged<'_>, reloc: Reloc) -> Result<bool, NoMemory>
    requires image { Tells image.now }
    requires balances { AreBalances (names_moving_of (link_of image.now.linked.now) image.now.placement.now judged.now.object)
        judged.now.area.now.relocs judged.now.balances.now }
    ensures { IfOk result (λ stuck. stuck ≡ is_unmovable
        (names_moving_of (link_of image.now.linked.now) image.now.placement.now judged.now.object)
        (base_in image.now.placement.now judged.now.object judged.now.number + (field_of reloc).place
        - base_of_image image.now.placement.now) judged.now.area.now.relocs reloc) }
{
    let address = base_at(image.names.bases, judged.object, judged.number);
    let field = reloc.field();
    let place = u64::from(field.place);
    if address > u64::MAX - place {
        return Err(NoMemory);
    }
    let offset = (address + place).saturating_sub(image_base(image.placement));
    let moving = names_moving(image, judged.object, reloc);
    let balance = balance_at(judged.balances, spot_of(reloc));
    Ok(cannot_move(moving, offset, balance, field.kind))
}

/// The refusal of a relocation of an area, if it can't be moved.
fn refusal_at(
    alloc: Global,
    image: &Image<'_>,
    judged: &Judged<'_>,
    reloc: Reloc,
) -> Result<Option<Refusal>, NoMemory>
    requires image { Tells image.now }
    requires balances { AreBalances (names_moving_of (link_of image.now.linked.now) image.now.placement.now judged.now.object)
        judged.now.area.now.relocs judged.now.balances.now }
    ensures { IfOk result (λ found. found ≡ unmovable (link_of image.now.linked.now) image.now.placement.now
        judged.now.named.now judged.now.object judged.now.number judged.now.area.now reloc) }
{
    if !is_stuck(image, judged, reloc)? {
        return Ok(None);
    }
    Ok(Some(Refusal::NotRelocatable {
        object: judged.named.name.try_clone(alloc)?,
        area: judged.area.name.try_clone(alloc)?,
        offset: reloc.field().place,
    }))
}

/// That of the first of these relocations of an area that can't be moved.
fn first_refusal(
    alloc: Global,
    image: &Image<'_>,
    judged: &Judged<'_>,
    relocs: &[Reloc],
) -> Result<Option<Refusal>, NoMemory>
    requires image { Tells image.now }
    requires balances { AreBalances (names_moving_of (link_of image.now.linked.now) image.now.placement.now judged.now.object)
        judged.now.area.now.relocs judged.now.balances.now }
    ensures { IfOk result (λ found. found ≡ slice_get (filter_map (unmovable (link_of image.now.linked.now)
        image.now.placement.now judged.now.named.now judged.now.object judged.now.number judged.now.area.now) relocs.now) 0) }
{
    for reloc in relocs {
        if let Some(refusal) = refusal_at(alloc, image, judged, *reloc)? {
            return Ok(Some(refusal));
        }
    }
    Ok(None)
}

/// The refusal of the first relocation of an area that can't be moved.
fn refusal_in(
    alloc: Global,
    image: &Image<'_>,
    named: &Named<Object>,
    object: u32,
    number: u32,
    area: &Area,
) -> Result<Option<Refusal>, NoMemory>
    requires { Tells image.now }
    ensures { IfOk result (λ found. found ≡ slice_get (filter_map
        (unmovable (link_of image.now.linked.now) image.now.placement.now named.now object number area.now)
        area.now.relocs) 0) }
{
    let relocs = area.relocs.as_slice();
    let balances = balances_of(alloc, image, object, relocs)?;
    let judged = Judged {
        named,
        object,
        number,
        area,
        balances: &balances,
    };
    first_refusal(alloc, image, &judged, relocs)
}

fn refusal_of_object(
    alloc: Global,
    image: &Image<'_>,
    named: &Named<Object>,
    object: u32,
) -> Result<Option<Refusal>, NoMemory>
    requires { Tells image.now }
    ensures { IfOk result (λ found. found ≡ slice_get (unmovable_in
        (link_of image.now.linked.now) image.now.placement.now named.now object 0 named.now.value.areas) 0) }
{
    for (k, area) in named.value.areas.as_slice().iter().enumerate() {
        let number = to_u32(k)?;
        if let Some(refusal) = refusal_in(alloc, image, named, object, number, area)? {
            return Ok(Some(refusal));
        }
    }
    Ok(None)
}

/// The refusal of the first relocation that can't be moved.
pub fn refusal_of(alloc: Global, image: &Image<'_>) -> Result<Option<Refusal>, NoMemory>
    requires { Tells image.now }
    ensures { IfOk result (λ found. found ≡ not_relocatable image.now.linked.now image.now.placement.now) }
{
    for (i, named) in image.linked.objects.as_slice().iter().enumerate() {
        let number = to_u32(i)?;
        if let Some(refusal) = refusal_of_object(alloc, image, named, number)? {
            return Ok(Some(refusal));
        }
    }
    Ok(None)
}

/// The refusal of the first relocation of a placed link that can't be moved with its image, `NotRelocatable`, in input
/// order: objects, areas, relocations.
pub fn first_unmovable(
    alloc: Global,
    linked: &Linked,
    placement: &Placement,
) -> Result<Option<Refusal>, NoMemory>
    ensures { IfOk result (λ found. found ≡ not_relocatable linked.now placement.now) }
{
    let bases = area_bases(alloc, placement)?;
    let numbers = region_numbers(alloc, placement.boot, placement.regions.as_slice())?;
    let image = Image {
        linked,
        placement,
        names: gathered(alloc, linked, placement, &bases, numbers.as_slice())?,
    };
    refusal_of(alloc, &image)
}
