//! Operands of lines of Thumb state.

ghost use Rattle.std.specs.Prelude.{◌≡◌, ◌<◌, ◌≤◌, IfOk};
ghost use Rattle.asm_model.specs.Readings.{and_then};
ghost use Rattle.source_model.specs.ThumbForms as forms;
ghost use Rattle.asm_instructions.specs.Lookups.{context_of};

use crate::immediates::negated;
use crate::lookups::{Lookup, register};
use asm_expr::kinds::{both, earlier};
use asm_model::Register;
use sdt_fault::kinds::LineKind;
use thumb_isa::ThumbInstr;

/// Registers that have no row, with a number.
pub fn no_row(number: Result<u32, LineKind>) -> Result<ThumbInstr, LineKind>
    ensures { result ≡ forms.no_row number }
{
    match number {
        Ok(_) => Err(LineKind::BadOperand),
        Err(kind) => Err(earlier(LineKind::BadOperand, kind)),
    }
}

/// A register from r0 to r7.
pub fn low_number(number: u8) -> Result<u8, LineKind>
    ensures { result ≡ forms.low_number number }
{
    if number < 8 {
        return Ok(number);
    }
    Err(LineKind::BadOperand)
}

/// A register of a line, which is one from r0 to r7.
pub fn low(lookup: &Lookup<'_>, r: &Register) -> Result<u8, LineKind>
    ensures { result ≡ forms.low (context_of lookup.now) r.now }
{
    low_number(register(lookup, r))
}

/// Two of them.
pub fn low_two(lookup: &Lookup<'_>, r: &Register, s: &Register) -> Result<(u8, u8), LineKind>
    ensures { result ≡ forms.low_two (context_of lookup.now) r.now s.now }
{
    both(low(lookup, r), low(lookup, s))
}

/// Three of them.
pub fn low_three(
    lookup: &Lookup<'_>,
    r: &Register,
    s: &Register,
    t: &Register,
) -> Result<((u8, u8), u8), LineKind>
    ensures { result ≡ forms.low_three (context_of lookup.now) r.now s.now t.now }
{
    both(low_two(lookup, r, s), low(lookup, t))
}

/// A number of whole units, of which there may be fewer than a limit.
fn units_below(unit: u32, limit: u32, number: u32) -> Result<u8, LineKind>
    requires positive { 0 < unit }
    requires narrow { limit ≤ 256 }
    ensures { result ≡ forms.units_below unit limit number }
{
    if number % unit != 0 {
        return Err(LineKind::BadOperand);
    }
    if number / unit < limit {
        return Ok((number / unit) as u8);
    }
    Err(LineKind::OutOfRange)
}

/// The same of an immediate operand.
pub fn immediate_below(unit: u32, limit: u32, number: u32) -> Result<u8, LineKind>
    requires positive { 0 < unit }
    requires narrow { limit ≤ 256 }
    ensures { result ≡ forms.immediate_below unit limit number }
{
    if number % unit != 0 {
        return Err(LineKind::Constant);
    }
    if number / unit < limit {
        return Ok((number / unit) as u8);
    }
    Err(LineKind::Constant)
}

fn or_other(
    subtract: bool,
    first: Result<u8, LineKind>,
    other: Result<u8, LineKind>,
) -> Result<(bool, u8), LineKind>
    ensures { result ≡ forms.or_other subtract first other }
{
    match first {
        Ok(number) => Ok((subtract, number)),
        Err(_) => Ok((!subtract, other?)),
    }
}

/// A number that is added or taken away, or its negation the other way.
pub fn summed(unit: u32, limit: u32, subtract: bool, number: u32) -> Result<(bool, u8), LineKind>
    requires positive { 0 < unit }
    requires narrow { limit ≤ 256 }
    ensures { result ≡ forms.summed unit limit subtract number }
{
    let first = immediate_below(unit, limit, number);
    let other = immediate_below(unit, limit, negated(number));
    or_other(subtract, first, other)
}

/// An offset of whole units behind a base.
pub fn offset_below(unit: u32, limit: u32, number: Result<u32, LineKind>) -> Result<u8, LineKind>
    requires positive { 0 < unit }
    requires narrow { limit ≤ 256 }
    ensures { result ≡ and_then number (forms.units_below unit limit) }
{
    let number = number?;
    units_below(unit, limit, number)
}
