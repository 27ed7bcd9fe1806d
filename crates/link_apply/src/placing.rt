//! The pieces of placed areas, or the first refusal among them.

ghost use Rattle.std.specs.Prelude.{◌≡◌, ◌++◌, ◌≤◌, ◌^◌, List as Items, OnOk, Some, slice_get};
ghost use Rattle.std.specs.List.{cons_option};
ghost use Rattle.link_apply.specs.declared.laying.RegionPiece.{RegionPiece as Piece};
ghost use Rattle.chunk_file.specs.Reading.{Gives};
ghost use Rattle.link_model.specs.Members.{link_of};
ghost use Rattle.link_model.specs.Options.{refused_or};
ghost use Rattle.link_model.specs.RegionValues.{area_of};
ghost use Rattle.link_apply.specs.Flaws.{apply_refusal, refusals_at, refusals_in};
ghost use Rattle.link_apply.specs.Patching.{first_refusal};
ghost use Rattle.link_apply.specs.Pieces.{area_region_piece, area_region_pieces, site_piece};
ghost use Rattle.link_apply.specs.Sites.{known_values, IsSite, Knows};

use crate::areas::patched;
use crate::laying::RegionPiece;
use crate::sites::{PlacedLink, Site, site_of};
use aof_object::{Area, Object};
use link_model::{Named, PlacedArea};
use sdt_fault::answer::Fault;
use sdt_fault::{List, NoMemory};
use std::alloc::Global;

/// The piece of an area of an object, which a zero-initialised one doesn't have, or its refusal.
fn piece_of(
    alloc: Global,
    known: &PlacedLink<'_>,
    site: &Site<'_>,
    object: &Named<Object>,
) -> Result<Option<RegionPiece>, Fault>
    requires known { Knows known.now }
    requires site { IsSite known.now site.now }
    ensures { Gives result (refused_or
        (first_refusal known.now site.now object.now site.now.area.now.relocs)
        (site_piece known.now site.now)) }
{
    let bytes = patched(alloc, known, site, object)?;
    if site.area.flags().is_zero_initialised() {
        return Ok(None);
    }
    Ok(Some(RegionPiece {
        region: site.placed.region,
        address: site.placed.address,
        bytes,
    }))
}

/// The piece of a placed area of an object, or its refusal.
fn piece_in(
    alloc: Global,
    known: &PlacedLink<'_>,
    placed: PlacedArea,
    object: &Named<Object>,
    area: &Area,
) -> Result<Option<RegionPiece>, Fault>
    requires known { Knows known.now }
    requires address { placed.address ≤ 2 ^ 32 }
    ensures { Gives result (refused_or
        (slice_get (refusals_in known.now.placement.now
        (known_values known.now placed.area.object) placed object.now (Some area.now)) 0)
        (area_region_piece (link_of known.now.linked.now) known.now.placement.now placed
        (Some area.now))) }
{
    let site = site_of(alloc, known, placed, area)?;
    piece_of(alloc, known, &site, object)
}

/// The piece of a placed area, or its refusal.
fn piece_at(
    alloc: Global,
    known: &PlacedLink<'_>,
    placed: PlacedArea,
) -> Result<Option<RegionPiece>, Fault>
    requires known { Knows known.now }
    requires address { placed.address ≤ 2 ^ 32 }
    ensures { Gives result (refused_or
        (slice_get (refusals_at known.now.linked.now known.now.placement.now placed
        (slice_get known.now.linked.now.objects placed.area.object)) 0)
        (area_region_piece (link_of known.now.linked.now) known.now.placement.now placed
        (area_of (link_of known.now.linked.now).objects placed.area))) }
{
    let objects = known.linked.objects.as_slice();
    let Some(object) = objects.get(placed.area.object as usize) else {
        return Ok(None);
    };
    let Some(area) = object.value.areas.as_slice().get(placed.area.area as usize) else {
        return Ok(None);
    };
    piece_in(alloc, known, placed, object, area)
}

fn add_piece(pieces: &mut Vec<RegionPiece>, piece: Option<RegionPiece>) -> Result<(), NoMemory>
    ensures { OnOk result ((rest : Items Piece) → pieces.new.items ++ rest
        ≡ pieces.old.items ++ cons_option piece rest) }
{
    if let Some(piece) = piece {
        pieces.push(piece)?;
    }
    Ok(())
}

/// The pieces of all placed areas, or the first refusal in their order.
pub fn pieces_of_areas(alloc: Global, known: &PlacedLink<'_>) -> Result<List<RegionPiece>, Fault>
    requires { Knows known.now }
    ensures { Gives result (refused_or (apply_refusal known.now.linked.now known.now.placement.now)
        (area_region_pieces (link_of known.now.linked.now) known.now.placement.now
        known.now.placement.now.areas)) }
{
    let mut pieces = Vec::new(alloc);
    for placed in known.placement.areas.as_slice() {
        let piece = piece_at(alloc, known, *placed)?;
        add_piece(&mut pieces, piece)?;
    }
    Ok(List::from_vec(pieces))
}
