//! Load regions, execution regions, and what stands in them.

ghost use Rattle.std.specs.Prelude.{◌≡◌, ◌∷◌, ◌++◌, OnOk, IfOk, true, false};
ghost use Rattle.std.specs.Option.{option_copied};
ghost use Rattle.place_model.specs.Assignment.{description};
ghost use Rattle.link_model.specs.RegionValues as model;
ghost use Rattle.link_values.specs.Bases.{AreBases};
ghost use Rattle.link_items.specs.LinkedItems.{has_header};
ghost use Rattle.link_report.specs.Regions as texts;

use crate::lines::{
    attributes_of, name_of_area, object_name, place_of, push, push_eight, push_field, state_word,
};
use aof_object::{Area, Object};
use link_model::{Named, PlacedArea, PlacedVeneer, Placement, Region, Veneer, to_u32};
use link_values::{AreaBases, area_at, sum};
use place_model::{Kind, ScatterLoad};
use sdt_fault::NoMemory;

/// The name of a load region; of the one that no description names, a dash.
fn load_name(name: &[u8]) -> &[u8]
    ensures { result.now ≡ texts.load_name name.now }
{
    if name.is_empty() { b"-" } else { name }
}

fn length_in(number: u32, region: &Region) -> u64
    ensures { result ≡ texts.length_in number region.now }
{
    if region.load_region == number {
        region.length
    } else {
        0
    }
}

/// How many bytes the load region of a number has.
fn load_size(regions: &[Region], number: u32) -> Result<u64, NoMemory>
    ensures { IfOk result (λ size. size ≡ texts.load_size regions.now number) }
{
    let mut size = 0;
    for region in regions {
        size = sum(size, length_in(number, region))?;
    }
    Ok(size)
}

fn push_load(
    out: &mut Vec<u8>,
    regions: &[Region],
    number: u32,
    name: &[u8],
    base: u32,
) -> Result<(), NoMemory>
    ensures { OnOk result (out.new.items ≡ out.old.items ++ texts.load_line regions.now number name.now base) }
{
    push(out, b"load")?;
    push_field(out, load_name(name))?;
    push_eight(out, u64::from(base))?;
    push_eight(out, load_size(regions, number)?)?;
    push(out, b"\n")
}

fn push_described(
    out: &mut Vec<u8>,
    regions: &[Region],
    loads: &[ScatterLoad],
) -> Result<(), NoMemory>
    ensures { OnOk result (out.new.items ≡ out.old.items ++ texts.loads_text regions.now 0 loads.now) }
{
    for (k, load) in loads.iter().enumerate() {
        push_load(out, regions, to_u32(k)?, load.name.as_slice(), load.base)?;
    }
    Ok(())
}

/// Appends the lines of the load regions of an image of a form.
pub fn push_loads(out: &mut Vec<u8>, kind: &Kind, regions: &[Region]) -> Result<(), NoMemory>
    ensures { OnOk result (out.new.items ≡ out.old.items ++ texts.loads_text regions.now 0 (description kind.now)) }
{
    match kind {
        Kind::Scatter(scatter) => push_described(out, regions, scatter.loads.as_slice()),
        Kind::Plain { base } => push_load(out, regions, 0, b"", *base),
        Kind::Aif { base, .. } => push_load(out, regions, 0, b"", *base),
    }
}

fn size_of(area: Option<&Area>) -> u32
    ensures { result ≡ model.size_of (option_copied area.entry) }
{
    match area {
        None => 0,
        Some(area) => area.size,
    }
}

fn is_zero(area: Option<&Area>) -> bool
    ensures { result ≡ texts.is_zero (option_copied area.entry) }
{
    match area {
        None => false,
        Some(area) => area.flags().is_zero_initialised(),
    }
}

fn is_of_part(part: bool, zeros: bool) -> bool
    ensures { result ≡ texts.is_of_part part zeros }
{
    if part { zeros } else { !zeros }
}

fn push_area(
    out: &mut Vec<u8>,
    objects: &[Named<Object>],
    placed: PlacedArea,
) -> Result<(), NoMemory>
    ensures { OnOk result (out.new.items ≡ out.old.items ++ texts.area_line objects.now placed) }
{
    let area = area_at(objects, placed.area);
    push(out, b"area")?;
    push_eight(out, placed.address)?;
    push_eight(out, u64::from(size_of(area)))?;
    push_eight(out, u64::from(attributes_of(area)))?;
    push_field(out, object_name(objects, placed.area.object))?;
    push_field(out, name_of_area(area))?;
    push(out, b"\n")
}

/// Appends the line of an area, if it stands in the region of a number and in this part of it.
fn push_area_in(
    out: &mut Vec<u8>,
    objects: &[Named<Object>],
    number: u32,
    zeros: bool,
    placed: PlacedArea,
) -> Result<(), NoMemory>
    ensures { OnOk result (out.new.items ≡ out.old.items ++ texts.area_in objects.now number zeros placed) }
{
    if placed.region != number {
        return Ok(());
    }
    if !is_of_part(zeros, is_zero(area_at(objects, placed.area))) {
        return Ok(());
    }
    push_area(out, objects, placed)
}

fn push_areas(
    out: &mut Vec<u8>,
    objects: &[Named<Object>],
    number: u32,
    zeros: bool,
    areas: &[PlacedArea],
) -> Result<(), NoMemory>
    ensures { OnOk result (out.new.items ≡ out.old.items ++ texts.areas_text objects.now number zeros areas.now) }
{
    for placed in areas {
        push_area_in(out, objects, number, zeros, *placed)?;
    }
    Ok(())
}

fn veneer_size(thumb: bool) -> u64
    ensures { result ≡ texts.veneer_size thumb }
{
    if thumb { 12 } else { 8 }
}

/// Appends the last fields of a veneer's line, which tell of its target.
fn push_target(
    out: &mut Vec<u8>,
    objects: &[Named<Object>],
    placement: &Placement,
    bases: &AreaBases,
    veneer: Veneer,
) -> Result<(), NoMemory>
    requires { AreBases placement.now bases.now }
    ensures { OnOk result (out.new.items ≡ out.old.items ++ (32 ∷ texts.target_text objects.now placement.now veneer)) }
{
    push_eight(out, place_of(bases, veneer.area, veneer.offset))?;
    push_field(out, object_name(objects, veneer.area.object))?;
    push_field(out, name_of_area(area_at(objects, veneer.area)))?;
    push(out, b"\n")
}

fn push_veneer(
    out: &mut Vec<u8>,
    objects: &[Named<Object>],
    placement: &Placement,
    bases: &AreaBases,
    placed: PlacedVeneer,
) -> Result<(), NoMemory>
    requires { AreBases placement.now bases.now }
    ensures { OnOk result (out.new.items ≡ out.old.items ++ texts.veneer_line objects.now placement.now placed) }
{
    let veneer = placed.veneer;
    push(out, b"veneer")?;
    push_eight(out, u64::from(placed.address))?;
    push_eight(out, veneer_size(veneer.thumb))?;
    push_field(out, state_word(veneer.thumb))?;
    push_target(out, objects, placement, bases, veneer)
}

/// Appends the line of a veneer, if it stands in the region of a number.
fn push_veneer_in(
    out: &mut Vec<u8>,
    objects: &[Named<Object>],
    placement: &Placement,
    bases: &AreaBases,
    number: u32,
    placed: PlacedVeneer,
) -> Result<(), NoMemory>
    requires { AreBases placement.now bases.now }
    ensures { OnOk result (out.new.items ≡ out.old.items ++ texts.veneer_in objects.now placement.now number placed) }
{
    if placed.veneer.region != number {
        return Ok(());
    }
    push_veneer(out, objects, placement, bases, placed)
}

fn push_veneers(
    out: &mut Vec<u8>,
    objects: &[Named<Object>],
    placement: &Placement,
    bases: &AreaBases,
    number: u32,
    veneers: &[PlacedVeneer],
) -> Result<(), NoMemory>
    requires { AreBases placement.now bases.now }
    ensures { OnOk result (out.new.items ≡ out.old.items ++ texts.veneers_text objects.now placement.now number veneers.now) }
{
    for placed in veneers {
        push_veneer_in(out, objects, placement, bases, number, *placed)?;
    }
    Ok(())
}

fn has_header(kind: &Kind) -> bool
    ensures { result ≡ has_header kind.now }
{
    match kind {
        Kind::Aif { .. } => true,
        Kind::Scatter(_) | Kind::Plain { .. } => false,
    }
}

fn push_header(out: &mut Vec<u8>, kind: &Kind, number: u32, region: &Region) -> Result<(), NoMemory>
    ensures { OnOk result (out.new.items ≡ out.old.items ++ texts.header_text kind.now number region.now) }
{
    if !has_header(kind) {
        return Ok(());
    }
    if number != 0 {
        return Ok(());
    }
    push(out, b"header")?;
    push_eight(out, region.base)?;
    push_eight(out, 128)?;
    push(out, b"\n")
}

fn push_start_line(out: &mut Vec<u8>, boot: u32, region: &Region) -> Result<(), NoMemory>
    ensures { OnOk result (out.new.items ≡ out.old.items ++ texts.start_line boot region.now) }
{
    let end = sum(region.base, region.length)?;
    push(out, b"start")?;
    push_eight(out, u64::from(boot))?;
    push_eight(out, end.saturating_sub(u64::from(boot)))?;
    push(out, b"\n")
}

fn push_start(
    out: &mut Vec<u8>,
    boot: Option<u32>,
    number: u32,
    region: &Region,
) -> Result<(), NoMemory>
    ensures { OnOk result (out.new.items ≡ out.old.items ++ texts.start_text boot number region.now) }
{
    let Some(boot) = boot else {
        return Ok(());
    };
    if number != 0 {
        return Ok(());
    }
    push_start_line(out, boot, region)
}

fn push_zero(out: &mut Vec<u8>, region: &Region) -> Result<(), NoMemory>
    ensures { OnOk result (out.new.items ≡ out.old.items ++ texts.zero_text region.now) }
{
    if region.zero == 0 {
        return Ok(());
    }
    push(out, b"zero")?;
    push_eight(out, sum(region.base, region.length)?)?;
    push_eight(out, region.zero)?;
    push(out, b"\n")
}

fn push_region_line(out: &mut Vec<u8>, region: &Region) -> Result<(), NoMemory>
    ensures { OnOk result (out.new.items ≡ out.old.items ++ texts.region_line region.now) }
{
    push(out, b"exec")?;
    push_field(out, region.name.as_slice())?;
    push_eight(out, region.load)?;
    push_eight(out, region.base)?;
    push_eight(out, region.length)?;
    push_eight(out, region.zero)?;
    push(out, b"\n")
}

fn push_region(
    out: &mut Vec<u8>,
    kind: &Kind,
    objects: &[Named<Object>],
    placement: &Placement,
    bases: &AreaBases,
    number: u32,
    region: &Region,
) -> Result<(), NoMemory>
    requires { AreBases placement.now bases.now }
    ensures { OnOk result (out.new.items ≡ out.old.items ++ texts.region_text kind.now objects.now placement.now number region.now) }
{
    let areas = placement.areas.as_slice();
    let veneers = placement.veneers.as_slice();
    push_region_line(out, region)?;
    push_header(out, kind, number, region)?;
    push_areas(out, objects, number, false, areas)?;
    push_veneers(out, objects, placement, bases, number, veneers)?;
    push_start(out, placement.boot, number, region)?;
    push_zero(out, region)?;
    push_areas(out, objects, number, true, areas)?;
    Ok(())
}

/// Appends the lines of the execution regions, each with what stands in it. All areas are looked at for each region, of
/// which there are 64 at most.
pub fn push_regions(
    out: &mut Vec<u8>,
    kind: &Kind,
    objects: &[Named<Object>],
    placement: &Placement,
    bases: &AreaBases,
) -> Result<(), NoMemory>
    requires { AreBases placement.now bases.now }
    ensures { OnOk result (out.new.items ≡ out.old.items ++ texts.regions_text kind.now objects.now placement.now 0 placement.now.regions) }
{
    for (k, region) in placement.regions.as_slice().iter().enumerate() {
        push_region(out, kind, objects, placement, bases, to_u32(k)?, region)?;
    }
    Ok(())
}
