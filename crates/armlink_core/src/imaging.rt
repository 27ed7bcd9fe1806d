//! The image of a link that is made.

ghost use Rattle.std.specs.Prelude.{◌≡◌, ◌+◌, ◌^◌, ◌≤◌, sum_by, IfOk};
ghost use Rattle.std.specs.List.{AllByRecursion};
ghost use Rattle.chunk_file.specs.Reading.{Gives};
ghost use Rattle.armlink_core.specs.Images.{form_of, image_made, image_of};
ghost use Rattle.armlink_core.specs.Moves.{can_move, moves_in};
ghost use Rattle.armlink_core.specs.Placing.{IsRoomy};
ghost use Rattle.armlink_core.specs.Sizes.{region_size};

use crate::loads::load_regions;
use crate::making::PlacedImage;
use crate::starting::{bound_in, call_of, entry_of, start_of};
use link_model::{Image, ImageKind};
use link_shifts::movements;
use place_model::Kind;
use sdt_fault::answer::Fault;
use sdt_fault::{List, NoMemory};
use std::alloc::Global;

fn form_of(kind: &Kind) -> ImageKind
    ensures { result ≡ form_of kind.now }
{
    match kind {
        Kind::Scatter(_) => ImageKind::Scatter,
        Kind::Plain { .. } => ImageKind::Plain,
        Kind::Aif { relocatable, .. } => ImageKind::Aif {
            relocatable: *relocatable,
        },
    }
}

fn image_of(
    alloc: Global,
    kind: &Kind,
    made: PlacedImage,
    moves: List<u32>,
) -> Result<Image, NoMemory>
    requires whole { sum_by region_size made.placement.regions ≤ 2 ^ 26 }
    requires each { AllByRecursion (λ r. r.length + r.zero ≤ 2 ^ 26) made.placement.regions }
    ensures { IfOk result (λ i. i ≡ image_of kind.now made moves) }
{
    let PlacedImage {
        linked,
        placement,
        bytes,
        ..
    } = made;
    Ok(Image {
        kind: form_of(kind),
        loads: load_regions(alloc, placement.regions.as_slice(), bytes.as_slice(), kind)?,
        start: start_of(kind, &placement),
        entry: entry_of(&linked, &placement),
        call: call_of(kind, &linked, &placement),
        thumb: linked.entry.thumb,
        bound: bound_in(kind, &placement, moves.as_slice()),
        moves,
        regions: placement.regions,
    })
}

fn can_move(kind: &Kind) -> bool
    ensures { result ≡ can_move kind.now }
{
    match kind {
        Kind::Aif { relocatable, .. } => *relocatable,
        Kind::Scatter(_) | Kind::Plain { .. } => false,
    }
}

/// The offsets of what is shifted where an image of a form is moved.
pub fn moves_in(alloc: Global, kind: &Kind, made: &PlacedImage) -> Result<List<u32>, Fault>
    ensures { Gives result (moves_in kind.now made.now.linked made.now.placement) }
{
    if !can_move(kind) {
        return Ok(List::from_vec(Vec::new(alloc)));
    }
    movements(alloc, &made.linked, &made.placement)
}

/// The image of what is placed.
pub fn image_by(alloc: Global, made: PlacedImage, kind: &Kind) -> Result<Image, Fault>
    requires roomy { IsRoomy made }
    ensures { Gives result (image_made kind.now made) }
{
    let moves = moves_in(alloc, kind, &made)?;
    Ok(image_of(alloc, kind, made, moves)?)
}
