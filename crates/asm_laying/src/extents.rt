//! What statements take up in their areas.

ghost use Rattle.std.specs.Prelude.{◌≡◌, ◌*◌, [], length, min, if◌then◌else◌, IfOk};
ghost use Rattle.asm_model.specs.Extents as extents;
ghost use Rattle.asm_model.specs.Extents.{Block, Padding, Loading};
ghost use Rattle.asm_model.specs.Readings.{mapped, on_both};
ghost use Rattle.asm_model.specs.declared.values.Value.TheVariants as value;
ghost use Rattle.asm_model.specs.declared.statements.What.TheVariants as kinds;
ghost use Rattle.asm_offsets.specs.Coded.{extent_of_code};
ghost use Rattle.asm_expr.specs.Seeing.{seen_names};
ghost use Rattle.asm_model.specs.Said.{AllRead, BoundaryRead, DirectiveSaid, PseudoSaid, WhatSaid};
ghost use Rattle.asm_model.specs.declared.directives.Held.TheVariants as held;
ghost use Rattle.asm_model.specs.OccupiedCode.{occupied_of_code};
ghost use Rattle.asm_model.specs.SaidParts.{OccupiedSaid};
ghost use Rattle.asm_laying.specs.Reading.{all_capped, capped, coded, is_words, marks, most_bytes, IsHeld, IsOccupied, IsTaken};

use crate::numbers::{as_multiple, bytes_of, is_moved, more_bytes};
use crate::values::{literal_there, number_there, value_there};
use asm_expr::Seen;
use asm_expr::kinds::earlier;
use asm_model::{
    Boundary, DirectiveLine, Expr, Held, Occupied, PseudoLine, ThumbLine, Value, What, held_by,
    item_alignment, occupied_by,
};
use asm_offsets::Extent;
use sdt_fault::kinds::LineKind;
use sdt_fault::{List as Listed, NoMemory};
use std::alloc::Global;

/// What a statement takes up, and of each value that may be a string whether it is one.
#[derive(Drop)]
pub struct SizedStatement {
    pub extent: Result<Extent, LineKind>,
    pub strings: Listed<bool>,
}

/// The bytes of values that may be strings, and of each whether it is one.
#[derive(Drop)]
pub struct Counted {
    pub bytes: u32,
    pub strings: Vec<bool>,
}

/// Bytes that are aligned so.
fn block(alignment: u32, bytes: u32) -> Extent
    ensures { extent_of_code result ≡ capped (Block alignment bytes) }
{
    Extent::Block { alignment, bytes }
}

/// So many items of a width.
fn items(alignment: u32, width: u32, count: usize) -> Extent
    ensures { extent_of_code result ≡ capped (Block alignment (width * count)) }
{
    Extent::Block {
        alignment,
        bytes: bytes_of(width, count),
    }
}

fn instruction(thumb: bool) -> Extent
    ensures { extent_of_code result ≡ capped (extents.instruction thumb) }
{
    if thumb {
        return block(2, 2);
    }
    block(4, 4)
}

/// Where an ENTRY stands: aligned as an instruction.
fn entry(thumb: bool) -> Extent
    ensures { extent_of_code result ≡ capped (if thumb then Block 2 0 else Block 4 0) }
{
    if thumb {
        return block(2, 0);
    }
    block(4, 0)
}

fn thumb_extent(line: &ThumbLine) -> Extent
    ensures { extent_of_code result ≡ capped (extents.thumb_extent line.now) }
{
    match line {
        ThumbLine::BranchLink { .. } => block(2, 4),
        ThumbLine::ShiftImmediate { .. }
        | ThumbLine::AddSubtract { .. }
        | ThumbLine::DataImmediate { .. }
        | ThumbLine::DataRegister { .. }
        | ThumbLine::HighRegister { .. }
        | ThumbLine::LoadLiteral { .. }
        | ThumbLine::TransferRegister { .. }
        | ThumbLine::TransferSigned { .. }
        | ThumbLine::TransferImmediate { .. }
        | ThumbLine::TransferHalf { .. }
        | ThumbLine::TransferStack { .. }
        | ThumbLine::LoadAddress { .. }
        | ThumbLine::AdjustStack { .. }
        | ThumbLine::PushPop { .. }
        | ThumbLine::TransferMultiple { .. }
        | ThumbLine::BranchConditional { .. }
        | ThumbLine::SoftwareInterrupt { .. }
        | ThumbLine::Branch { .. } => block(2, 2),
    }
}

/// An instruction that loads a literal.
fn load(thumb: bool, literal: Value) -> Extent
    ensures { extent_of_code result ≡ (if thumb then Loading 2 literal else Loading 4 literal) }
{
    if thumb {
        return Extent::Loading { bytes: 2, literal };
    }
    Extent::Loading { bytes: 4, literal }
}

fn load_number(thumb: bool, number: u32) -> Extent
    ensures { extent_of_code result ≡ capped (extents.loading thumb (value.Number number)) }
{
    if thumb {
        return load(true, Value::Number(number));
    }
    if is_moved(number) {
        return block(4, 4);
    }
    load(false, Value::Number(number))
}

fn load_place(thumb: bool, literal: Value) -> Extent
    ensures { extent_of_code result
        ≡ capped (if thumb then Loading 2 literal else Loading 4 literal) }
{
    load(thumb, literal)
}

/// LDR with a literal.
fn loading(thumb: bool, literal: Value) -> Extent
    ensures { extent_of_code result ≡ capped (extents.loading thumb literal) }
{
    match literal {
        Value::Number(number) => load_number(thumb, number),
        _ => load_place(thumb, literal),
    }
}

fn loading_of(thumb: bool, literal: Result<Value, LineKind>) -> Result<Extent, LineKind>
    ensures { coded result ≡ all_capped (mapped (extents.loading thumb) literal) }
{
    match literal {
        Ok(literal) => Ok(loading(thumb, literal)),
        Err(kind) => Err(kind),
    }
}

fn pseudo_extent(
    alloc: Global,
    seen: &Seen<'_>,
    line: &PseudoLine,
) -> Result<Result<Extent, LineKind>, NoMemory>
    requires { PseudoSaid line.now }
    ensures { IfOk result (λ extent. coded extent
        ≡ all_capped (extents.pseudo_extent (seen_names seen.now) line.now)) }
{
    match line {
        PseudoLine::LoadConstant { value, .. } => {
            let literal = literal_there(alloc, value, seen)?;
            Ok(loading_of(seen.thumb, literal))
        }
        PseudoLine::Address { .. } => Ok(Ok(instruction(seen.thumb))),
        PseudoLine::LongAddress { .. } => Ok(Ok(block(4, 8))),
        PseudoLine::NoOperation => Ok(Ok(instruction(seen.thumb))),
    }
}

/// The bytes of a value that may be a string.
fn byte_count(value: &Result<Value, LineKind>) -> usize
    ensures { result ≡ extents.byte_count value.now }
{
    match value {
        Ok(Value::Words(words)) => words.as_slice().len(),
        _ => 1,
    }
}

/// Whether a value is a string.
fn is_string(value: &Result<Value, LineKind>) -> bool
    ensures { result ≡ is_words value.now }
{
    match value {
        Ok(Value::Words(_)) => true,
        _ => false,
    }
}

/// The bytes and marks of values that may be strings.
fn byte_counts(alloc: Global, seen: &Seen<'_>, operands: &[Expr]) -> Result<Counted, NoMemory>
    requires { AllRead operands.now }
    ensures bytes { IfOk result (λ counted. counted.bytes
        ≡ min (extents.byte_counts (seen_names seen.now) operands.now) most_bytes) }
    ensures strings { IfOk result (λ counted. counted.strings.items
        ≡ marks (seen_names seen.now) operands.now) }
{
    let mut bytes: u32 = 0;
    let mut strings = Vec::with_capacity(alloc, operands.len())?;
    let mut left = operands;
    'operands: loop {
        match left {
            [] => return Ok(Counted { bytes, strings }),
            [operand, behind @ ..] => {
                let value = value_there(alloc, operand, seen)?;
                bytes = more_bytes(bytes, byte_count(&value));
                strings.push(is_string(&value))?;
                left = behind;
            }
        }
    }
}

/// What values that may be strings take up.
fn bytes_taken(
    alloc: Global,
    seen: &Seen<'_>,
    alignment: u32,
    values: &[Expr],
) -> Result<SizedStatement, NoMemory>
    requires { AllRead values.now }
    ensures { IfOk result
        (λ taken. IsHeld (seen_names seen.now) alignment held.Strings values.now taken) }
{
    let counted = byte_counts(alloc, seen, values)?;
    let Counted { bytes, strings } = counted;
    Ok(SizedStatement {
        extent: Ok(Extent::Block { alignment, bytes }),
        strings: Listed::from_vec(strings),
    })
}

/// What a statement without strings takes up.
fn plainly(alloc: Global, extent: Result<Extent, LineKind>) -> SizedStatement
    ensures extent { result.extent ≡ extent }
    ensures strings { result.strings ≡ [] }
{
    SizedStatement {
        extent,
        strings: Listed::from_vec(Vec::new(alloc)),
    }
}

fn space_of(number: Result<u32, LineKind>) -> Result<Extent, LineKind>
    ensures { coded result ≡ all_capped (mapped (λ n. Block 1 n) number) }
{
    match number {
        Ok(number) => Ok(block(1, number)),
        Err(kind) => Err(kind),
    }
}

fn multiple_of(multiple: Result<u32, LineKind>) -> Result<Extent, LineKind>
    ensures { coded result ≡ all_capped (mapped (λ m. Padding m 0) multiple) }
{
    match multiple {
        Ok(multiple) => Ok(Extent::Padding {
            multiple,
            offset: 0,
        }),
        Err(kind) => Err(kind),
    }
}

fn behind_of(
    multiple: Result<u32, LineKind>,
    offset: Result<u32, LineKind>,
) -> Result<Extent, LineKind>
    ensures { coded result ≡ all_capped (on_both (λ m n. Padding m n) multiple offset) }
{
    match (multiple, offset) {
        (Ok(multiple), Ok(offset)) => Ok(Extent::Padding { multiple, offset }),
        (Ok(_), Err(kind)) => Err(kind),
        (Err(kind), Ok(_)) => Err(kind),
        (Err(kind), Err(other)) => Err(earlier(kind, other)),
    }
}

fn padding(
    alloc: Global,
    seen: &Seen<'_>,
    boundary: &Boundary,
) -> Result<Result<Extent, LineKind>, NoMemory>
    requires { BoundaryRead boundary.now }
    ensures { IfOk result (λ extent. coded extent
        ≡ all_capped (extents.padding (seen_names seen.now) boundary.now)) }
{
    match boundary {
        Boundary::Word => Ok(Ok(Extent::Padding {
            multiple: 4,
            offset: 0,
        })),
        Boundary::Multiple { of } => {
            let number = number_there(alloc, of, seen)?;
            Ok(multiple_of(as_multiple(number)))
        }
        Boundary::Behind { multiple, offset } => {
            let number = number_there(alloc, multiple, seen)?;
            let offset = number_there(alloc, offset, seen)?;
            Ok(behind_of(as_multiple(number), offset))
        }
    }
}

/// What values that are held so take up.
fn held_extent(
    alloc: Global,
    seen: &Seen<'_>,
    alignment: u32,
    held: Held,
    values: &[Expr],
) -> Result<SizedStatement, NoMemory>
    requires { AllRead values.now }
    ensures { IfOk result
        (λ taken. IsHeld (seen_names seen.now) alignment held values.now taken) }
{
    match held {
        Held::Relocatable => Ok(plainly(alloc, Ok(items(alignment, 4, values.len())))),
        Held::Fixed(width) => Ok(plainly(alloc, Ok(items(alignment, width as u32, values.len())))),
        Held::Strings => bytes_taken(alloc, seen, alignment, values),
    }
}

fn occupied_extent(
    alloc: Global,
    seen: &Seen<'_>,
    occupied: Occupied<'_>,
) -> Result<SizedStatement, NoMemory>
    requires { OccupiedSaid (occupied_of_code occupied) }
    ensures { IfOk result
        (λ taken. IsOccupied (seen_names seen.now) (occupied_of_code occupied.entry) taken) }
{
    match occupied {
        Occupied::Unplaced | Occupied::Opening(_) | Occupied::Marking => {
            Ok(plainly(alloc, Ok(block(1, 0))))
        }
        Occupied::Entering => Ok(plainly(alloc, Ok(entry(seen.thumb)))),
        Occupied::Items(item, values) => {
            held_extent(alloc, seen, item_alignment(item), held_by(item), values)
        }
        Occupied::Zeroes(size) => {
            let number = number_there(alloc, size, seen)?;
            Ok(plainly(alloc, space_of(number)))
        }
        Occupied::UpTo(boundary) => {
            let extent = padding(alloc, seen, boundary)?;
            Ok(plainly(alloc, extent))
        }
        Occupied::Literals => Ok(plainly(alloc, Ok(Extent::Pool))),
    }
}

fn directive_extent(
    alloc: Global,
    seen: &Seen<'_>,
    line: &DirectiveLine,
) -> Result<SizedStatement, NoMemory>
    requires { DirectiveSaid line.now }
    ensures { IfOk result
        (λ taken. IsTaken (seen_names seen.now) (kinds.Directive line.now) taken) }
{
    occupied_extent(alloc, seen, occupied_by(line))
}

/// What a statement takes up, by what is known at its line, or the kind of its fault; and which operands are strings.
pub fn extent_of(alloc: Global, seen: &Seen<'_>, what: &What) -> Result<SizedStatement, NoMemory>
    requires { WhatSaid what.now }
    ensures { IfOk result (λ taken. IsTaken (seen_names seen.now) what.now taken) }
{
    match what {
        What::Nothing => Ok(plainly(alloc, Ok(block(1, 0)))),
        What::Arm(_) => Ok(plainly(alloc, Ok(block(4, 4)))),
        What::Thumb(line) => Ok(plainly(alloc, Ok(thumb_extent(line)))),
        What::Pseudo(line) => {
            let extent = pseudo_extent(alloc, seen, line)?;
            Ok(plainly(alloc, extent))
        }
        What::Directive(line) => directive_extent(alloc, seen, line),
    }
}
