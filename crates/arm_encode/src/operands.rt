//! Immediate operands: a byte rotated right by an even number of places.

ghost use Rattle.std.specs.Prelude.{◌≡◌, ◌≢◌, ◌/◌, ◌%◌, ◌<◌, ℕ, MatchOption};
ghost use Rattle.sdt_word.specs.Numbers.{IsLeastRotation, operand};

use sdt_word::rotate;

/// The 12 bits, rotation and byte, of the immediate operand that is `v`, with the least rotation.
pub fn immediate(v: u32) -> Option<u16>
    ensures { MatchOption result ((r byte : ℕ) → r < 16 → byte < 256 → operand r byte ≢ v) (λ x. IsLeastRotation v (x / 256) (x % 256)) }
{
    for r in 0..16u16 {
        let byte = rotate(v, (32 - 2 * u32::from(r)) % 32);
        if byte < 256 {
            return Some(r * 256 + byte as u16);
        }
    }
    None
}
