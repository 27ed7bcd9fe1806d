//! Regions of fewer pieces, which take as many bytes from any address on as all of theirs: an area joins the one before
//! it where it always begins at its end.

ghost use Rattle.std.specs.Prelude.{◌≡◌, ◌++◌, IfOk, List as Items, OnOk, Some, map};
ghost use Rattle.link_place.specs.Merging.{follows, joined, merged, merged_behind, merged_part};

use crate::parts::Part;
use crate::pieces::{AreaPiece, Piece};
use sdt_fault::{List, NoMemory};
use std::alloc::Global;

/// Whether an area always begins where another ends, and both together have less than 2^32 bytes.
fn follows(first: AreaPiece, second: AreaPiece) -> bool
    ensures { result ≡ follows first second }
{
    if first.multiple == 0 {
        return false;
    }
    if second.multiple == 0 {
        return false;
    }
    if first.multiple % second.multiple != 0 {
        return false;
    }
    if first.size % second.multiple != 0 {
        return false;
    }
    second.size <= u32::MAX - first.size
}

/// Two areas as one of the size of both.
fn joined(first: Piece, second: Piece) -> Option<Piece>
    ensures { result ≡ joined first second }
{
    let Piece::Area(first) = first else {
        return None;
    };
    let Piece::Area(second) = second else {
        return None;
    };
    if !follows(first, second) {
        return None;
    }
    Some(Piece::Area(AreaPiece {
        name: first.name,
        multiple: first.multiple,
        size: first.size + second.size,
        written: first.written,
    }))
}

/// Joins a piece to the last one, or puts the last one behind those that can grow no more; gives what is the last one
/// then.
fn put_piece(out: &mut Vec<Piece>, last: Option<Piece>, piece: Piece) -> Result<Piece, NoMemory>
    ensures { IfOk result (λ next. (rest : Items PieceModel) → out.new.items ++ merged_behind (Some next) rest
        ≡ out.old.items ++ merged_behind last (piece ∷ rest)) }
{
    let Some(last) = last else {
        return Ok(piece);
    };
    match joined(last, piece) {
        Some(both) => Ok(both),
        None => {
            out.push(last)?;
            Ok(piece)
        }
    }
}

ghost use Rattle.std.specs.Prelude.{◌∷◌, []};
ghost use Rattle.link_place.specs.declared.pieces.Piece.{Piece as PieceModel};

fn put_last(out: &mut Vec<Piece>, last: Option<Piece>) -> Result<(), NoMemory>
    ensures { OnOk result (out.new.items ≡ out.old.items ++ merged_behind last []) }
{
    if let Some(last) = last {
        out.push(last)?;
    }
    Ok(())
}

fn merged(alloc: Global, pieces: &[Piece]) -> Result<List<Piece>, NoMemory>
    ensures { IfOk result (λ out. out ≡ merged pieces.now) }
{
    let mut out = Vec::new(alloc);
    let mut last = None;
    for piece in pieces {
        last = Some(put_piece(&mut out, last, *piece)?);
    }
    put_last(&mut out, last)?;
    Ok(List::from_vec(out))
}

fn merged_part(alloc: Global, part: &Part) -> Result<Part, NoMemory>
    ensures { IfOk result (λ out. out ≡ merged_part part.now) }
{
    Ok(Part {
        name: part.name.try_clone(alloc)?,
        base: part.base,
        maximum: part.maximum,
        things: merged(alloc, part.things.as_slice())?,
        zeros: merged(alloc, part.zeros.as_slice())?,
    })
}

/// The parts with fewer pieces.
pub fn merged_parts(alloc: Global, parts: &[Part]) -> Result<Vec<Part>, NoMemory>
    ensures { IfOk result (λ out. out.items ≡ map merged_part parts.now) }
{
    let mut out = Vec::with_capacity(alloc, parts.len())?;
    for part in parts {
        out.push(merged_part(alloc, part)?)?;
    }
    Ok(out)
}
