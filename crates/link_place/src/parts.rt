//! The regions of a description, with what stands in each.

ghost use Rattle.std.specs.Prelude.{◌≡◌, ◌+◌, ◌++◌, ◌%◌, ◌^◌, ◌≤◌, ◌∷◌, [], length, map, slice_get, unwrap_or, OnOk, IfOk, sum_by, nat_le};
ghost use Rattle.std.specs.List.{AllByRecursion, filter_map, flat_map};
ghost use Rattle.std.specs.Option.{option_copied};
ghost use Rattle.place_model.specs.Assignment.{described_regions, plain_regions};
ghost use Rattle.place_model.specs.Plans.{header_in, startup_in};
ghost use Rattle.link_items.specs.LinkedItems.{item_of, item_at, region_veneer};
ghost use Rattle.link_place.specs.Parts.{area_piece, area_pieces, area_named, pieces_by, piece_of, veneer_pieces, contents_in, things_in, zeros_in, part_by, parts_from, parts_of, load_group, plain_group, groups_of, piece_count, IsAligned, IsAlignedArea, AreAligned};

use crate::pieces::{AreaPiece, Piece};
use aof_object::{Area, Object};
use link_model::{AreaName, Named, Veneer};
use place_model::{Kind, ScatterBase, ScatterLoad, ScatterRegion};
use sdt_fault::{List, NoMemory, Text};
use std::alloc::Global;

/// What is placed.
#[derive(Clone, Copy)]
pub struct Input<'a> {
    pub kind: &'a Kind,
    pub objects: &'a [Named<Object>],
    pub assigned: &'a [List<AreaName>],
    pub veneers: &'a [Veneer],
}

/// A load region, or where it has no name, the regions of an image that is linked without a description, and
/// how many execution regions it has.
#[derive(Drop)]
pub struct Group {
    pub name: Option<Text>,
    pub base: u32,
    pub maximum: Option<u32>,
    pub count: usize,
}

/// An execution region: what is loaded of it, and its zero part.
#[derive(Drop)]
pub struct Part {
    pub name: Text,
    pub base: ScatterBase,
    pub maximum: Option<u32>,
    pub things: List<Piece>,
    pub zeros: List<Piece>,
}

fn push_header(out: &mut Vec<Piece>, kind: &Kind, number: u32) -> Result<(), NoMemory>
    ensures { OnOk result (out.new.items ≡ out.old.items ++ map (piece_of number) (header_in kind.now number)) }
{
    match kind {
        Kind::Aif { .. } => {
            if number == 0 {
                out.push(Piece::Header)?;
            }
            Ok(())
        }
        _ => Ok(()),
    }
}

fn push_startup(out: &mut Vec<Piece>, kind: &Kind, number: u32) -> Result<(), NoMemory>
    ensures { OnOk result (out.new.items ≡ out.old.items ++ map (piece_of number) (startup_in kind.now number 0)) }
{
    match kind {
        Kind::Scatter(_) => {
            if number == 0 {
                out.push(Piece::Startup)?;
            }
            Ok(())
        }
        _ => Ok(()),
    }
}

/// The piece that an area is, of which the alignment is at most 2^16.
fn area_piece(name: AreaName, area: &Area) -> Piece
    requires { area.now.attributes % 256 ≤ 16 }
    ensures { result ≡ area_piece (item_of name.object [] name.area area.now) }
{
    Piece::Area(AreaPiece {
        name,
        multiple: 1 << area.flags().alignment(),
        size: area.size,
        written: !area.flags().is_read_only(),
    })
}

fn area_of<'a>(objects: &'a [Named<Object>], name: AreaName) -> Option<&'a Area>
    ensures { option_copied result ≡ area_named objects.now name }
{
    match objects.get(name.object as usize) {
        None => None,
        Some(object) => object.value.areas.as_slice().get(name.area as usize),
    }
}

/// Adds an area, where it belongs to the zero part or, where `zero` is false, to the rest.
fn push_area(
    out: &mut Vec<Piece>,
    objects: &[Named<Object>],
    name: AreaName,
    zero: bool,
) -> Result<(), NoMemory>
    requires { IsAlignedArea (area_named objects.now name) }
    ensures { OnOk result (out.new.items ≡ out.old.items ++ pieces_by zero name (area_named objects.now name)) }
{
    let Some(area) = area_of(objects, name) else {
        return Ok(());
    };
    if area.flags().is_zero_initialised() == zero {
        out.push(area_piece(name, area))?;
    }
    Ok(())
}

fn push_areas(
    out: &mut Vec<Piece>,
    objects: &[Named<Object>],
    names: &[AreaName],
    zero: bool,
) -> Result<(), NoMemory>
    requires { AllByRecursion IsAligned (filter_map (item_at objects.now) names.now) }
    ensures { OnOk result (out.new.items ≡ out.old.items ++ area_pieces zero (filter_map (item_at objects.now) names.now)) }
{
    for name in names {
        push_area(out, objects, *name, zero)?;
    }
    Ok(())
}

fn push_veneers(out: &mut Vec<Piece>, veneers: &[Veneer], number: u32) -> Result<(), NoMemory>
    ensures { OnOk result (out.new.items ≡ out.old.items ++ veneer_pieces number (map region_veneer veneers.now)) }
{
    for veneer in veneers {
        if veneer.region == number {
            out.push(Piece::Veneer(*veneer))?;
        }
    }
    Ok(())
}

/// The areas of the region of a number.
fn areas_of<'a>(assigned: &'a [List<AreaName>], number: u32) -> &'a [AreaName]
    ensures { result.now ≡ unwrap_or (slice_get assigned.now number) [] }
{
    match assigned.get(number as usize) {
        None => &[],
        Some(names) => names.as_slice(),
    }
}

fn things_of(alloc: Global, input: &Input<'_>, number: u32) -> Result<List<Piece>, NoMemory>
    requires { AreAligned (contents_in input.now) }
    ensures { IfOk result (λ pieces. pieces ≡ map (piece_of number) (things_in input.now.kind.now (contents_in input.now) number)) }
{
    let mut out = Vec::new(alloc);
    push_header(&mut out, input.kind, number)?;
    push_areas(
        &mut out,
        input.objects,
        areas_of(input.assigned, number),
        false,
    )?;
    push_veneers(&mut out, input.veneers, number)?;
    push_startup(&mut out, input.kind, number)?;
    Ok(List::from_vec(out))
}

fn zeros_of(alloc: Global, input: &Input<'_>, number: u32) -> Result<List<Piece>, NoMemory>
    requires { AreAligned (contents_in input.now) }
    ensures { IfOk result (λ pieces. pieces ≡ map (piece_of number) (zeros_in (contents_in input.now) number)) }
{
    let mut out = Vec::new(alloc);
    push_areas(
        &mut out,
        input.objects,
        areas_of(input.assigned, number),
        true,
    )?;
    Ok(List::from_vec(out))
}

fn part_of(
    alloc: Global,
    input: &Input<'_>,
    number: u32,
    name: &[u8],
    base: ScatterBase,
    maximum: Option<u32>,
) -> Result<Part, NoMemory>
    requires { AreAligned (contents_in input.now) }
    ensures { IfOk result (λ part. part ≡ part_by input.now.kind.now (contents_in input.now) number name.now base maximum) }
{
    Ok(Part {
        name: Text::from_slice(alloc, name)?,
        base,
        maximum,
        things: things_of(alloc, input, number)?,
        zeros: zeros_of(alloc, input, number)?,
    })
}

/// Adds the regions of a load region, which are counted from a number on.
fn push_parts(
    alloc: Global,
    out: &mut Vec<Part>,
    input: &Input<'_>,
    first: u32,
    regions: &[ScatterRegion],
) -> Result<(), NoMemory>
    requires aligned { AreAligned (contents_in input.now) }
    requires few { first + length regions.now ≤ 64 }
    ensures { OnOk result (out.new.items ≡ out.old.items ++ parts_from input.now.kind.now (contents_in input.now) first regions.now) }
{
    for (i, region) in regions.iter().enumerate() {
        let name = region.name.as_slice();
        let number = first + i as u32;
        out.push(part_of(alloc, input, number, name, region.base, region.max)?)?;
    }
    Ok(())
}

fn parts_of_loads(
    alloc: Global,
    input: &Input<'_>,
    loads: &[ScatterLoad],
) -> Result<Vec<Part>, NoMemory>
    requires aligned { AreAligned (contents_in input.now) }
    requires few { length (flat_map (λ l. l.regions) loads.now) ≤ 64 }
    ensures { IfOk result (λ parts. parts.items ≡ parts_from input.now.kind.now (contents_in input.now) 0 (flat_map (λ l. l.regions) loads.now)) }
{
    let mut out = Vec::new(alloc);
    for load in loads {
        let first = out.len() as u32;
        push_parts(alloc, &mut out, input, first, load.regions.as_slice())?;
    }
    Ok(out)
}

fn plain_parts(alloc: Global, input: &Input<'_>, base: u32) -> Result<Vec<Part>, NoMemory>
    requires { AreAligned (contents_in input.now) }
    ensures { IfOk result (λ parts. parts.items ≡ parts_from input.now.kind.now (contents_in input.now) 0 (plain_regions base)) }
{
    let mut out = Vec::new(alloc);
    out.push(part_of(alloc, input, 0, b"RO", ScatterBase::At(base), None)?)?;
    out.push(part_of(alloc, input, 1, b"RW", ScatterBase::Plus(0), None)?)?;
    out.push(part_of(alloc, input, 2, b"ZI", ScatterBase::Plus(0), None)?)?;
    Ok(out)
}

/// All regions.
pub fn all_parts(alloc: Global, input: &Input<'_>) -> Result<Vec<Part>, NoMemory>
    requires aligned { AreAligned (contents_in input.now) }
    requires few { length (described_regions input.now.kind.now) ≤ 64 }
    ensures { IfOk result (λ parts. parts.items ≡ parts_of input.now.kind.now (contents_in input.now)) }
{
    match input.kind {
        Kind::Scatter(scatter) => parts_of_loads(alloc, input, scatter.loads.as_slice()),
        Kind::Plain { base } => plain_parts(alloc, input, *base),
        Kind::Aif { base, .. } => plain_parts(alloc, input, *base),
    }
}

fn group_of(alloc: Global, load: &ScatterLoad) -> Result<Group, NoMemory>
    ensures { IfOk result (λ group. group ≡ load_group load.now) }
{
    Ok(Group {
        name: Some(load.name.try_clone(alloc)?),
        base: load.base,
        maximum: load.max,
        count: load.regions.as_slice().len(),
    })
}

fn groups_of_loads(alloc: Global, loads: &[ScatterLoad]) -> Result<Vec<Group>, NoMemory>
    ensures { IfOk result (λ groups. groups.items ≡ map load_group loads.now) }
{
    let mut out = Vec::new(alloc);
    for load in loads {
        out.push(group_of(alloc, load)?)?;
    }
    Ok(out)
}

fn plain_group(alloc: Global, base: u32) -> Result<Vec<Group>, NoMemory>
    ensures { IfOk result (λ groups. groups.items ≡ plain_group base ∷ []) }
{
    let mut out = Vec::new(alloc);
    out.push(Group {
        name: None,
        base,
        maximum: None,
        count: 3,
    })?;
    Ok(out)
}

/// All load regions.
pub fn all_groups(alloc: Global, kind: &Kind) -> Result<Vec<Group>, NoMemory>
    ensures { IfOk result (λ groups. groups.items ≡ groups_of kind.now) }
{
    match kind {
        Kind::Scatter(scatter) => groups_of_loads(alloc, scatter.loads.as_slice()),
        Kind::Plain { base } => plain_group(alloc, *base),
        Kind::Aif { base, .. } => plain_group(alloc, *base),
    }
}

/// Whether the parts and their pieces are at most 2^28. More are refused for want of memory; so many have
/// addresses below 2^63.
pub fn are_few(parts: &[Part]) -> bool
    ensures { result ≡ nat_le (sum_by piece_count parts.now) (2 ^ 28) }
{
    let mut room = 1usize << 28;
    for part in parts {
        let things = part.things.as_slice().len();
        let zeros = part.zeros.as_slice().len();
        let count = things.saturating_add(zeros).saturating_add(1);
        if count > room {
            return false;
        }
        room -= count;
    }
    true
}
