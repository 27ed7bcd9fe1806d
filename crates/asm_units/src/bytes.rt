//! Numbers of some bytes, and strings.

ghost use Rattle.std.specs.Prelude.{◌≡◌, ◌-◌, ◌*◌, ◌%◌, ◌^◌, ◌||◌, nat_le, nat_lt, Ok, Err, IfOk, if◌then◌else◌};
ghost use Rattle.sdt_word.specs.Bytes.{bytes_of};
ghost use Rattle.sdt_fault.specs.declared.kinds.LineKind.TheVariants.{Forward};
ghost use Rattle.asm_model.specs.Readings.{and_then, mapped};
ghost use Rattle.asm_model.specs.Said.{AllRead, IsRead};
ghost use Rattle.source_model.specs.Contexts.{number_in, value_of};
ghost use Rattle.source_model.specs.Units as units;
ghost use Rattle.asm_instructions.specs.Lookups.{context_of};
ghost use Rattle.asm_units.specs.Emitting.{all_emitted, emitted_of};
ghost use Rattle.asm_units.specs.Marked as marked;

use crate::emitted::{Emission, Emitted};
use crate::joining::{bytes_unit, push_next};
use crate::tables::LineTables;
use asm_instructions::values::{number_there, value_there};
use asm_model::{Expr, Value};
use sdt_fault::kinds::LineKind;
use sdt_fault::{Bytes, NoMemory};
use std::alloc::Global;

/// Whether a number fits so many bytes, signed or unsigned.
fn fits(width: u8, number: u32) -> bool
    ensures { result ≡ (nat_lt number (2 ^ (8 * width))
        || nat_le (2 ^ 32 - 2 ^ (8 * width - 1)) number) }
{
    match width {
        0 => number == 0 || number == 0xFFFF_FFFF,
        1 => number < 0x100 || number >= 0xFFFF_FF80,
        2 => number < 0x1_0000 || number >= 0xFFFF_8000,
        3 => number < 0x100_0000 || number >= 0xFF80_0000,
        _ => true,
    }
}

/// The lowest bytes of a number, so many.
fn low_bytes(alloc: Global, width: u8, number: u32) -> Result<Bytes, NoMemory>
    ensures { IfOk result (λ b. b ≡ bytes_of (number % 2 ^ (8 * width)) width) }
{
    let mut bytes = Vec::new(alloc);
    let mut left = number;
    for _at in 0..width {
        bytes.push((left % 0x100) as u8)?;
        left /= 0x100;
    }
    Ok(Bytes::from_vec(bytes))
}

/// A number in so many bytes.
fn narrow(alloc: Global, width: u8, number: u32) -> Result<Result<Bytes, LineKind>, NoMemory>
    ensures { IfOk result (λ b. b ≡ units.narrow width number) }
{
    if !fits(width, number) {
        return Ok(Err(LineKind::OutOfRange));
    }
    let bytes = low_bytes(alloc, width, number)?;
    Ok(Ok(bytes))
}

fn number_of(
    alloc: Global,
    width: u8,
    number: Result<u32, LineKind>,
) -> Result<Result<Bytes, LineKind>, NoMemory>
    ensures { IfOk result (λ b. b ≡ and_then number (units.narrow width)) }
{
    match number {
        Ok(number) => narrow(alloc, width, number),
        Err(kind) => Ok(Err(kind)),
    }
}

fn number(
    alloc: Global,
    tables: &LineTables<'_>,
    width: u8,
    operand: &Expr,
) -> Result<Result<Emitted, LineKind>, NoMemory>
    requires { IsRead operand.now }
    ensures { IfOk result (λ number. mapped emitted_of number
        ≡ mapped (λ b. units.Bytes b)
        (and_then (number_in (context_of tables.now.lookup) operand.now) (units.narrow width))) }
{
    let number = number_there(alloc, &tables.lookup, operand)?;
    let bytes = number_of(alloc, width, number)?;
    Ok(bytes_unit(bytes))
}

/// Numbers of so many bytes each.
pub fn numbers(
    alloc: Global,
    tables: &LineTables<'_>,
    width: u8,
    operands: &[Expr],
) -> Result<Result<Emission, LineKind>, NoMemory>
    requires { AllRead operands.now }
    ensures { IfOk result (λ us. all_emitted us
        ≡ units.number_units (context_of tables.now.lookup) width operands.now) }
{
    let mut so_far = Ok(Emission::Nothing);
    let mut left = operands;
    'operands: loop {
        match left {
            [] => return Ok(so_far),
            [operand, behind @ ..] => {
                let next = number(alloc, tables, width, operand)?;
                so_far = push_next(alloc, so_far, next)?;
                left = behind;
            }
        }
    }
}

/// A string, where its line knew that it is one.
fn string_of(mark: bool, words: Bytes) -> Result<Bytes, LineKind>
    ensures { result ≡ (if mark then Ok words else Err Forward) }
{
    if mark {
        return Ok(words);
    }
    Err(LineKind::Forward)
}

fn operand_of(
    alloc: Global,
    mark: bool,
    value: Result<Value, LineKind>,
) -> Result<Result<Bytes, LineKind>, NoMemory>
    ensures { IfOk result (λ b. b ≡ marked.marked_operand mark value) }
{
    match value {
        Ok(Value::Words(words)) => Ok(string_of(mark, words)),
        Ok(Value::Number(number)) => narrow(alloc, 1, number),
        Ok(_) => Ok(Err(LineKind::WrongType)),
        Err(kind) => Ok(Err(kind)),
    }
}

fn operand_bytes(
    alloc: Global,
    tables: &LineTables<'_>,
    mark: bool,
    operand: &Expr,
) -> Result<Result<Emitted, LineKind>, NoMemory>
    requires { IsRead operand.now }
    ensures { IfOk result (λ bytes. mapped emitted_of bytes
        ≡ mapped (λ b. units.Bytes b)
        (marked.marked_operand mark (value_of (context_of tables.now.lookup) operand.now))) }
{
    let value = value_there(alloc, &tables.lookup, operand)?;
    let bytes = operand_of(alloc, mark, value)?;
    Ok(bytes_unit(bytes))
}

fn first_mark(marks: &[bool]) -> bool
    ensures { result ≡ marked.first_mark marks.now }
{
    match marks {
        [] => false,
        [first, ..] => *first,
    }
}

fn other_marks(marks: &[bool]) -> &[bool]
    ensures { result.now ≡ marked.other_marks marks.now }
{
    match marks {
        [] => marks,
        [_, others @ ..] => others,
    }
}

/// The bytes of DCB.
pub fn bytes(
    alloc: Global,
    tables: &LineTables<'_>,
    operands: &[Expr],
) -> Result<Result<Emission, LineKind>, NoMemory>
    requires { AllRead operands.now }
    ensures { IfOk result (λ us. all_emitted us
        ≡ marked.marked_units (context_of tables.now.lookup) tables.now.strings.now operands.now) }
{
    let mut so_far = Ok(Emission::Nothing);
    let mut marks = tables.strings;
    let mut left = operands;
    'operands: loop {
        match left {
            [] => return Ok(so_far),
            [operand, behind @ ..] => {
                let next = operand_bytes(alloc, tables, first_mark(marks), operand)?;
                so_far = push_next(alloc, so_far, next)?;
                marks = other_marks(marks);
                left = behind;
            }
        }
    }
}
