//! Where areas, veneers and the startup code stand.

ghost use Rattle.std.specs.Prelude.{◌≡◌, ◌+◌, ◌^◌, ◌<◌, ◌≤◌, ◌++◌, length, map, OnOk, IfOk};
ghost use Rattle.std.specs.List.{AllByRecursion};
ghost use Rattle.std.specs.Option.{option_or};
ghost use Rattle.link_place.specs.Pieces.{reach, seats, size_in};
ghost use Rattle.link_place.specs.Checks.{IsLow};
ghost use Rattle.link_place.specs.Placings.{area_at, veneer_at, boot_at, seat_at, region_seats, all_seats, AreStood, AreAll, IsFor, AreFor};
ghost use Rattle.link_place.specs.Judgements.{placement_by};

use crate::layouts::{Layout, RegionLayout};
use crate::parts::Part;
use crate::pieces::{Piece, size_of, start_of};
use link_model::{PlacedArea, PlacedVeneer, Placement, Region};
use sdt_fault::{List, NoMemory};
use std::alloc::Global;

/// What was placed so far.
#[derive(Drop)]
pub struct Placing {
    pub areas: Vec<PlacedArea>,
    pub veneers: Vec<PlacedVeneer>,
    pub boot: Option<u32>,
}

/// Places a piece of the region of a number.
fn put(
    out: &mut Placing,
    words: u32,
    region: u32,
    piece: Piece,
    address: u64,
) -> Result<(), NoMemory>
    requires low { address + size_in words piece ≤ 2 ^ 32 }
    ensures areas { OnOk result (out.new.areas.items ≡ out.old.areas.items ++ area_at (seat_at region piece address)) }
    ensures veneers { OnOk result (out.new.veneers.items ≡ out.old.veneers.items ++ veneer_at (seat_at region piece address)) }
    ensures boot { OnOk result (out.new.boot ≡ option_or out.old.boot (boot_at (seat_at region piece address))) }
{
    match piece {
        Piece::Header => Ok(()),
        Piece::Area(area) => {
            out.areas.push(PlacedArea {
                area: area.name,
                region,
                address,
            })?;
            Ok(())
        }
        Piece::Veneer(veneer) => {
            out.veneers.push(PlacedVeneer {
                veneer,
                address: address as u32,
            })?;
            Ok(())
        }
        Piece::Startup => {
            if out.boot.is_none() {
                out.boot = Some(address as u32);
            }
            Ok(())
        }
    }
}

/// Places pieces of the region of a number.
fn put_all(
    out: &mut Placing,
    words: u32,
    origin: u32,
    region: u32,
    at: u64,
    pieces: &[Piece],
) -> Result<(), NoMemory>
    requires words { words < 2 ^ 30 }
    requires low { at + reach words origin at pieces.now ≤ 2 ^ 32 }
    ensures { OnOk result (AreStood out.old out.new (seats words origin region at pieces.now)) }
{
    let mut end = at;
    for piece in pieces {
        let address = start_of(*piece, origin, end);
        put(out, words, region, *piece, address)?;
        end = address + size_of(*piece, words);
    }
    Ok(())
}

/// Places all pieces of a region.
fn put_region(
    out: &mut Placing,
    words: u32,
    origin: u32,
    number: u32,
    part: &Part,
    laid: &RegionLayout,
) -> Result<(), NoMemory>
    requires words { words < 2 ^ 30 }
    requires low { IsLow laid.now }
    requires own { IsFor words origin part.now laid.now }
    ensures { OnOk result (AreStood out.old out.new (region_seats words origin number part.now laid.now)) }
{
    let region = &laid.region;
    let zeros = region.base + region.length;
    put_all(
        out,
        words,
        origin,
        number,
        region.base,
        part.things.as_slice(),
    )?;
    put_all(out, words, origin, number, zeros, part.zeros.as_slice())
}

fn put_regions(
    alloc: Global,
    words: u32,
    origin: u32,
    parts: &[Part],
    regions: &[RegionLayout],
) -> Result<Placing, NoMemory>
    requires words { words < 2 ^ 30 }
    requires few { length parts.now < 2 ^ 32 }
    requires low { AllByRecursion IsLow regions.now }
    requires own { AreFor words origin parts.now regions.now }
    ensures { IfOk result (λ placing. AreAll placing (all_seats words origin 0 parts.now regions.now)) }
{
    let mut out = Placing {
        areas: Vec::new(alloc),
        veneers: Vec::new(alloc),
        boot: None,
    };
    for (i, part) in parts.iter().enumerate() {
        put_region(&mut out, words, origin, i as u32, part, &regions[i])?;
    }
    Ok(out)
}

fn region_of(alloc: Global, laid: &RegionLayout) -> Result<Region, NoMemory>
    ensures { IfOk result (λ region. region ≡ laid.now.region) }
{
    let region = &laid.region;
    Ok(Region {
        name: region.name.try_clone(alloc)?,
        load_region: region.load_region,
        load: region.load,
        base: region.base,
        length: region.length,
        zero: region.zero,
    })
}

fn regions_of(alloc: Global, regions: &[RegionLayout]) -> Result<Vec<Region>, NoMemory>
    ensures { IfOk result (λ out. out.items ≡ map (λ l. l.region) regions.now) }
{
    let mut out = Vec::new(alloc);
    for laid in regions {
        out.push(region_of(alloc, laid)?)?;
    }
    Ok(out)
}

/// The placement of a layout.
pub fn placement(
    alloc: Global,
    origin: u32,
    parts: &[Part],
    layout: &Layout,
) -> Result<Placement, NoMemory>
    requires words { layout.now.words < 2 ^ 30 }
    requires few { length parts.now < 2 ^ 32 }
    requires low { AllByRecursion IsLow layout.now.regions }
    requires own { AreFor layout.now.words origin parts.now layout.now.regions }
    ensures { IfOk result (λ p. p ≡ placement_by origin parts.now layout.now) }
{
    let regions = layout.regions.as_slice();
    let placing = put_regions(alloc, layout.words, origin, parts, regions)?;
    let Placing {
        areas,
        veneers,
        boot,
    } = placing;
    Ok(Placement {
        regions: List::from_vec(regions_of(alloc, regions)?),
        areas: List::from_vec(areas),
        veneers: List::from_vec(veneers),
        boot,
    })
}
