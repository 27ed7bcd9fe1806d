//! The bytes of veneers.

ghost use Rattle.std.specs.Prelude.{◌≡◌, ◌<◌, ◌++◌, ◌^◌, map, true, false, IfOk, OnOk};
ghost use Rattle.link_apply.specs.PatchedBytes.{veneer_bytes};
ghost use Rattle.link_apply.specs.Pieces.{veneer_region_piece};
ghost use Rattle.link_apply.specs.Sites.{Knows};

use crate::detours::address_of;
use crate::laying::RegionPiece;
use crate::numbers::{bias, pc_offset, total, with_displacement};
use crate::sites::PlacedLink;
use link_model::PlacedVeneer;
use link_values::AreaOffset;
use sdt_fault::{Bytes, NoMemory};
use sdt_word::{push_half, push_word};
use std::alloc::Global;

/// LDR r12, the word behind; BX r12; and that word, the target in Thumb state.
fn bytes_to_thumb(alloc: Global, target: u64) -> Result<Vec<u8>, NoMemory>
    requires { target < 2 ^ 32 }
    ensures { IfOk result (λ bytes. bytes.items ≡ veneer_bytes 0 target true) }
{
    let mut bytes = Vec::new(alloc);
    push_word(&mut bytes, 0xE59F_C000)?;
    push_word(&mut bytes, 0xE12F_FF1C)?;
    push_word(&mut bytes, ((target + 1) % 0x1_0000_0000) as u32)?;
    Ok(bytes)
}

/// BX pc and MOV r8, r8 in Thumb state; B to the target in ARM state.
fn bytes_to_arm(alloc: Global, address: u64, target: u64) -> Result<Vec<u8>, NoMemory>
    requires address { address < 2 ^ 32 }
    requires target { target < 2 ^ 32 }
    ensures { IfOk result (λ bytes. bytes.items ≡ veneer_bytes address target false) }
{
    let to = total(target, bias(false), address + 4 + pc_offset(false));
    let mut bytes = Vec::new(alloc);
    push_half(&mut bytes, 0x4778)?;
    push_half(&mut bytes, 0x46C0)?;
    push_word(&mut bytes, with_displacement(false, 0xEA00_0000, to))?;
    Ok(bytes)
}

/// Of a veneer at an address, by its target's address and state.
fn bytes_of_veneer(
    alloc: Global,
    address: u64,
    target: u64,
    thumb: bool,
) -> Result<Vec<u8>, NoMemory>
    requires address { address < 2 ^ 32 }
    requires target { target < 2 ^ 32 }
    ensures { IfOk result (λ bytes. bytes.items ≡ veneer_bytes address target thumb) }
{
    if thumb {
        return bytes_to_thumb(alloc, target);
    }
    bytes_to_arm(alloc, address, target)
}

fn piece_of_veneer(
    alloc: Global,
    known: &PlacedLink<'_>,
    placed: &PlacedVeneer,
) -> Result<RegionPiece, NoMemory>
    requires { Knows known.now }
    ensures { IfOk result (λ piece. piece ≡ veneer_region_piece known.now.placement.now placed.now) }
{
    let place = AreaOffset {
        object: placed.veneer.area.object,
        area: placed.veneer.area.area,
        offset: placed.veneer.offset,
    };
    let target = address_of(known, place);
    let bytes = bytes_of_veneer(alloc, placed.address as u64, target, placed.veneer.thumb)?;
    Ok(RegionPiece {
        region: placed.veneer.region,
        address: placed.address as u64,
        bytes: Bytes::from_vec(bytes),
    })
}

/// Appends the pieces of a placement's veneers.
pub fn add_veneers(
    alloc: Global,
    known: &PlacedLink<'_>,
    pieces: &mut Vec<RegionPiece>,
) -> Result<(), NoMemory>
    requires { Knows known.now }
    ensures { OnOk result (pieces.new.items ≡ pieces.old.items
        ++ map (veneer_region_piece known.now.placement.now) known.now.placement.now.veneers) }
{
    for placed in known.placement.veneers.as_slice() {
        pieces.push(piece_of_veneer(alloc, known, placed)?)?;
    }
    Ok(())
}
