//! Numbers as they stand in reports, maps and listings.

ghost use Rattle.std.specs.Prelude.{◌≡◌, ◌<◌, ◌++◌, ◌∷◌, [], OnOk, true};
ghost use Rattle.std.specs.Fmt.{decimal, digit_glyph};
ghost use Rattle.sdt_fault.specs.Digits.{hexadecimal, hexadecimal_places};

use crate::NoMemory;
use std::alloc::Global;

// The upper-case hexadecimal digit of a number below 16.
fn hexadecimal_digit(digit: u8) -> u8
    requires { digit < 16 }
    ensures { result ≡ digit_glyph true digit }
{
    if digit < 10 {
        b'0' + digit
    } else {
        b'A' + (digit - 10)
    }
}

/// Appends the last `places` hexadecimal digits of the number, in upper case.
pub fn push_hexadecimal_places(out: &mut Vec<u8>, number: u64, places: u8) -> Result<(), NoMemory>
    ensures { OnOk result (out.new.items ≡ out.old.items ++ hexadecimal_places places number) }
{
    if places == 0 {
        return Ok(());
    }
    push_hexadecimal_places(out, number / 16, places - 1)?;
    out.push(hexadecimal_digit((number % 16) as u8))?;
    Ok(())
}

#[tactic(auto, unfolding(crate::specs::Digits::hexadecimal))]
/// Appends the number in eight upper-case hexadecimal digits, or in as many as it needs.
pub fn push_hexadecimal(alloc: Global, out: &mut Vec<u8>, number: u64) -> Result<(), NoMemory>
    ensures { OnOk result (out.new.items ≡ out.old.items ++ hexadecimal number) }
{
    if number < 0x1_0000_0000 {
        return push_hexadecimal_places(out, number, 8);
    }
    out.extend_from_slice(format!(in alloc; "{number:X}")?.as_bytes())?;
    Ok(())
}

/// Appends the number in decimal.
pub fn push_decimal(alloc: Global, out: &mut Vec<u8>, number: u64) -> Result<(), NoMemory>
    ensures { OnOk result (out.new.items ≡ out.old.items ++ decimal number) }
{
    out.extend_from_slice(format!(in alloc; "{number}")?.as_bytes())?;
    Ok(())
}
