//! Numbers that instructions and areas have.

ghost use Rattle.std.specs.Prelude.{◌≡◌, ◌+◌, ◌*◌, ◌==◌, nat_lt, min};
ghost use Rattle.std.specs.List.{list_any};
ghost use Rattle.sdt_word.specs.Numbers.{rotated};
ghost use Rattle.asm_model.specs.Extents as extents;
ghost use Rattle.asm_laying.specs.Reading.{most_bytes};

use sdt_fault::kinds::LineKind;
use sdt_word::rotate;

/// The places by which an immediate byte is rotated.
const PLACES: [u32; 16] = [0, 2, 4, 6, 8, 10, 12, 14, 16, 18, 20, 22, 24, 26, 28, 30];

const POWERS: [u32; 32] = [
    0x1,
    0x2,
    0x4,
    0x8,
    0x10,
    0x20,
    0x40,
    0x80,
    0x100,
    0x200,
    0x400,
    0x800,
    0x1000,
    0x2000,
    0x4000,
    0x8000,
    0x1_0000,
    0x2_0000,
    0x4_0000,
    0x8_0000,
    0x10_0000,
    0x20_0000,
    0x40_0000,
    0x80_0000,
    0x100_0000,
    0x200_0000,
    0x400_0000,
    0x800_0000,
    0x1000_0000,
    0x2000_0000,
    0x4000_0000,
    0x8000_0000,
];

/// Whether a number that is rotated right by so many places is a byte.
fn is_byte(number: u32, places: u32) -> bool
    ensures { result ≡ nat_lt (rotated number places) 256 }
{
    if places < 32 {
        return rotate(number, places) < 256;
    }
    number < 256
}

fn is_immediate(number: u32) -> bool
    ensures { result ≡ extents.is_immediate number }
{
    PLACES.iter().any(|places| is_byte(number, *places))
}

/// Whether MOV or MVN encodes a number.
pub fn is_moved(number: u32) -> bool
    ensures { result ≡ extents.is_moved number }
{
    if is_immediate(number) {
        return true;
    }
    is_immediate(0xFFFF_FFFF - number)
}

fn is_among(number: u32, powers: &[u32]) -> bool
    ensures { result ≡ list_any (λ power. number == power) powers.now }
{
    powers.iter().any(|power| number == *power)
}

fn is_power(number: u32) -> bool
    ensures { result ≡ extents.is_power number }
{
    is_among(number, &POWERS)
}

/// A number as a multiple to align to.
pub fn as_multiple(number: Result<u32, LineKind>) -> Result<u32, LineKind>
    ensures { result ≡ extents.as_multiple number }
{
    match number {
        Ok(number) => {
            if is_power(number) {
                return Ok(number);
            }
            Err(LineKind::BadOperand)
        }
        Err(kind) => Err(kind),
    }
}

/// The bytes of so many items of a width, up to the most that are counted.
pub fn bytes_of(width: u32, count: usize) -> u32
    ensures { result ≡ min (width * count) most_bytes }
{
    (width as u64).saturating_mul(count as u64).min(0xFFFF_FFFF) as u32
}

/// So many bytes more, up to the most that are counted.
pub fn more_bytes(bytes: u32, count: usize) -> u32
    ensures { result ≡ min (bytes + count) most_bytes }
{
    (bytes as u64).saturating_add(count as u64).min(0xFFFF_FFFF) as u32
}
