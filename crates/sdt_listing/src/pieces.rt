//! Texts of numbers and registers, listed piece by piece.

ghost use Rattle.std.specs.Prelude.{◌≡◌, ◌++◌, ◌∷◌, OnOk, codes};
ghost use Rattle.sdt_listing.specs.Parts as parts;
ghost use Rattle.sdt_listing.specs.Pieces as pieces;

use crate::arm_names::{sign, status_name};
use crate::parts::{
    condition_name, mark, push, push_address, push_eight, push_four, push_hex, push_list,
    push_next, push_number, push_register, push_shifted, push_shifted_by,
};
use sdt_fault::NoMemory;
use sdt_fault::digits::push_decimal;
use sdt_word::{Condition, ShiftKind};
use std::alloc::Global;

/// A piece of a text.
#[derive(Clone, Copy)]
pub enum Piece {
    /// A character.
    Letter(u8),
    /// One that stands only where it applies.
    Marked(bool, u8),
    /// What says whether an offset is added.
    Sign(bool),
    Register(u8),
    /// A register behind others.
    Next(u8),
    Number(u32),
    /// A number without its mark.
    Hex(u32),
    Address(u32),
    Decimal(u64),
    /// Eight digits.
    Eight(u32),
    /// Four digits.
    Four(u16),
    /// Eight digits behind a space.
    Field(u32),
    /// A register shifted by a number.
    Shifted(u8, ShiftKind, u8),
    /// A register shifted by another.
    ShiftedBy(u8, ShiftKind, u8),
    /// A status register, which may be the saved one.
    Status(bool),
    /// The registers of a list.
    Listed(u16),
    /// The registers of a list from r0 to r7.
    LowListed(u8),
}

/// Where a transfer reaches: before or after an offset is added to the base or taken away, which may be
/// written back.
#[derive(Clone, Copy)]
pub struct ListedPlace {
    pub pre: bool,
    pub up: bool,
    pub write_back: bool,
    pub base: u8,
}

/// The offset of a transfer.
#[derive(Clone, Copy)]
pub enum Offset {
    Number(u32),
    Register(u8),
    Shifted(u8, ShiftKind, u8),
}

fn push_field(out: &mut Vec<u8>, number: u32) -> Result<(), NoMemory>
    ensures { OnOk result (out.new.items ≡ out.old.items ++ (32 ∷ parts.eight number)) }
{
    push(out, b" ")?;
    push_eight(out, number)
}

fn push_piece(alloc: Global, out: &mut Vec<u8>, piece: Piece) -> Result<(), NoMemory>
    ensures { OnOk result (out.new.items ≡ out.old.items ++ pieces.piece piece) }
{
    match piece {
        Piece::Letter(letter) => push(out, &[letter]),
        Piece::Marked(applies, letter) => push(out, mark(applies, &[letter])),
        Piece::Sign(up) => push(out, sign(up)),
        Piece::Register(n) => push_register(alloc, out, n),
        Piece::Next(n) => push_next(alloc, out, n),
        Piece::Number(n) => push_number(alloc, out, n),
        Piece::Hex(n) => push_hex(alloc, out, n),
        Piece::Address(n) => push_address(out, n),
        Piece::Decimal(n) => push_decimal(alloc, out, n),
        Piece::Eight(n) => push_eight(out, n),
        Piece::Four(n) => push_four(out, n),
        Piece::Field(n) => push_field(out, n),
        Piece::Shifted(rm, shift, amount) => push_shifted(alloc, out, rm, shift, amount),
        Piece::ShiftedBy(rm, shift, rs) => push_shifted_by(alloc, out, rm, shift, rs),
        Piece::Status(saved) => push(out, status_name(saved)),
        Piece::Listed(list) => push_list(alloc, out, list, 16),
        Piece::LowListed(list) => push_list(alloc, out, u16::from(list), 8),
    }
}

/// Appends pieces.
pub fn push_pieces(alloc: Global, out: &mut Vec<u8>, all: &[Piece]) -> Result<(), NoMemory>
    ensures { OnOk result (out.new.items ≡ out.old.items ++ pieces.pieces all.now) }
{
    for piece in all {
        push_piece(alloc, out, *piece)?;
    }
    Ok(())
}

/// Appends an operation with its condition and its suffix, and its operands.
pub fn push_spoken(
    alloc: Global,
    out: &mut Vec<u8>,
    operation: &[u8],
    condition: Condition,
    suffix: &[u8],
    operands: &[Piece],
) -> Result<(), NoMemory>
    ensures { OnOk result (out.new.items ≡ out.old.items ++ parts.spoken operation.now condition suffix.now (pieces.pieces operands.now)) }
{
    push(out, operation)?;
    push(out, condition_name(condition))?;
    push(out, suffix)?;
    push(out, b" ")?;
    push_pieces(alloc, out, operands)
}

// A place with an offset.
#[tactic(auto, unfolding(crate::specs::Parts::indexed))]
fn push_indexed(
    alloc: Global,
    out: &mut Vec<u8>,
    place: ListedPlace,
    by: &[Piece],
) -> Result<(), NoMemory>
    ensures { OnOk result (out.new.items ≡ out.old.items ++ parts.indexed place.pre place.write_back place.base (pieces.pieces by.now)) }
{
    let base = Piece::Register(place.base);
    if place.pre {
        push_pieces(
            alloc,
            out,
            &[Piece::Letter(b'['), base, Piece::Letter(b',')],
        )?;
        push_pieces(alloc, out, by)?;
        let end = [Piece::Letter(b']'), Piece::Marked(place.write_back, b'!')];
        return push_pieces(alloc, out, &end);
    }
    let start = [
        Piece::Letter(b'['),
        base,
        Piece::Letter(b']'),
        Piece::Letter(b','),
    ];
    push_pieces(alloc, out, &start)?;
    push_pieces(alloc, out, by)
}

fn is_left_out(place: ListedPlace, v: u32) -> bool
    ensures { result ≡ parts.is_left_out place.pre place.write_back v }
{
    place.pre && !place.write_back && v == 0
}

// A place with a number as its offset.
#[tactic(auto, unfolding(crate::specs::Parts::indexed_by))]
fn push_indexed_by(
    alloc: Global,
    out: &mut Vec<u8>,
    place: ListedPlace,
    v: u32,
) -> Result<(), NoMemory>
    ensures { OnOk result (out.new.items ≡ out.old.items ++ parts.indexed_by place.pre place.up place.write_back place.base v) }
{
    if is_left_out(place, v) {
        let plain = [
            Piece::Letter(b'['),
            Piece::Register(place.base),
            Piece::Letter(b']'),
        ];
        return push_pieces(alloc, out, &plain);
    }
    if place.up {
        return push_indexed(alloc, out, place, &[Piece::Number(v)]);
    }
    let taken = [Piece::Letter(b'#'), Piece::Letter(b'-'), Piece::Hex(v)];
    push_indexed(alloc, out, place, &taken)
}

#[tactic(auto, unfolding(crate::specs::Pieces::placed))]
fn push_placed(
    alloc: Global,
    out: &mut Vec<u8>,
    place: ListedPlace,
    by: Offset,
) -> Result<(), NoMemory>
    ensures { OnOk result (out.new.items ≡ out.old.items ++ pieces.placed place by) }
{
    let sign = Piece::Sign(place.up);
    match by {
        Offset::Number(n) => push_indexed_by(alloc, out, place, n),
        Offset::Register(m) => push_indexed(alloc, out, place, &[sign, Piece::Register(m)]),
        Offset::Shifted(rm, shift, amount) => {
            push_indexed(
                alloc,
                out,
                place,
                &[sign, Piece::Shifted(rm, shift, amount)],
            )
        }
    }
}

/// Appends a transfer of a register at a place.
pub fn push_transfer(
    alloc: Global,
    out: &mut Vec<u8>,
    operation: &[u8],
    condition: Condition,
    suffix: &[u8],
    rd: u8,
    place: ListedPlace,
    by: Offset,
) -> Result<(), NoMemory>
    ensures { OnOk result (out.new.items
        ≡ out.old.items ++ parts.spoken operation.now condition suffix.now (parts.register rd ++ (codes "," ++ pieces.placed place by))) }
{
    let first = [Piece::Register(rd), Piece::Letter(b',')];
    push_spoken(alloc, out, operation, condition, suffix, &first)?;
    push_placed(alloc, out, place, by)
}
