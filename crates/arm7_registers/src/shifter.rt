//! The shifter: the second operand with its carry.

ghost use Rattle.std.specs.Prelude.{◌≡◌, ◌<◌, ◌%◌, ◌^◌};
ghost use Rattle.sdt_word.specs.Numbers.{flag};
ghost use Rattle.sdt_word.specs.declared.codes.ShiftKind.TheVariants as shift;
ghost use Rattle.arm7_model.specs.Arithmetic.{as_64_bits, immediate_operand, shifted_by, shifted_by_amount, shifted_by_register};
ghost use Rattle.arm7_registers.specs.Values.{shifted_of};

use sdt_word::{ShiftKind, is_set, rotate};

/// An operand and the carry that the shifter gives with it.
#[derive(Clone, Copy)]
pub struct Operand {
    pub value: u32,
    pub carry: bool,
}

/// The low word of 64 bits.
fn low_word(v: u64) -> u32
    ensures { result ≡ v % 2 ^ 32 }
{
    (v % 0x1_0000_0000) as u32
}

/// Left by `n`, not 0: the carry is the last bit that goes out.
#[tactic(auto, using(crate::proofs::ShifterLemmas::left_far))]
fn shifted_left(v: u32, n: u32) -> Operand
    requires { 0 < n }
    ensures { shifted_of result ≡ shifted_by shift.Lsl v n }
{
    if n > 32 {
        return Operand {
            value: 0,
            carry: false,
        };
    }
    let wide = u64::from(v) << n;
    Operand {
        value: low_word(wide),
        carry: (wide >> 32) % 2 == 1,
    }
}

/// Right by `n`, not 0, with zeros coming in.
#[tactic(auto, using(crate::proofs::ShifterLemmas::right_far))]
fn shifted_right(v: u32, n: u32) -> Operand
    requires { 0 < n }
    ensures { shifted_of result ≡ shifted_by shift.Lsr v n }
{
    if n > 32 {
        return Operand {
            value: 0,
            carry: false,
        };
    }
    let wide = u64::from(v);
    Operand {
        value: (wide >> n) as u32,
        carry: (wide >> (n - 1)) % 2 == 1,
    }
}

/// A word with its sign carried on to 64 bits.
pub fn as_64_bits(v: u32) -> u64
    ensures { result ≡ as_64_bits v }
{
    if is_set(v, 31) {
        u64::from(v) + 0xFFFF_FFFF_0000_0000
    } else {
        u64::from(v)
    }
}

/// Right by `n`, not 0, with the sign coming in.
fn shifted_signed(v: u32, n: u32) -> Operand
    requires { 0 < n }
    ensures { shifted_of result ≡ shifted_by shift.Asr v n }
{
    let places = n.min(32);
    let wide = as_64_bits(v);
    Operand {
        value: low_word(wide >> places),
        carry: (wide >> (places - 1)) % 2 == 1,
    }
}

/// Round to the right by `n`, not 0.
fn rotated(v: u32, n: u32) -> Operand
    ensures { shifted_of result ≡ shifted_by shift.Ror v n }
{
    let value = rotate(v, n % 32);
    Operand {
        value,
        carry: is_set(value, 31),
    }
}

/// A word shifted by an amount other than 0.
pub fn shifted_by(kind: ShiftKind, v: u32, n: u32) -> Operand
    requires { 0 < n }
    ensures { shifted_of result ≡ shifted_by kind v n }
{
    match kind {
        ShiftKind::Lsl => shifted_left(v, n),
        ShiftKind::Lsr => shifted_right(v, n),
        ShiftKind::Asr => shifted_signed(v, n),
        ShiftKind::Ror => rotated(v, n),
    }
}

/// A word shifted by the low byte `n` of a register: by 0 the word and the carry stay.
#[tactic(auto, unfolding(arm7_model::specs::Arithmetic::shifted_by_register))]
pub fn shifted_by_register(kind: ShiftKind, v: u32, n: u32, carry: bool) -> Operand
    ensures { shifted_of result ≡ shifted_by_register kind v n (flag carry) }
{
    if n == 0 {
        return Operand { value: v, carry };
    }
    shifted_by(kind, v, n)
}

/// A word shifted by the amount in an instruction: LSR and ASR by 0 stand for 32, and ROR by 0 for a
/// rotation by one place through the carry.
#[tactic(auto, unfolding(arm7_model::specs::Arithmetic::shifted_by_amount))]
pub fn shifted_by_amount(kind: ShiftKind, v: u32, n: u32, carry: bool) -> Operand
    ensures { shifted_of result ≡ shifted_by_amount kind v n (flag carry) }
{
    if n != 0 {
        return shifted_by(kind, v, n);
    }
    match kind {
        ShiftKind::Lsl => Operand { value: v, carry },
        ShiftKind::Lsr | ShiftKind::Asr => shifted_by(kind, v, 32),
        ShiftKind::Ror => rotated_through_carry(v, carry),
    }
}

/// One place to the right, with the carry coming in at the top.
#[tactic(auto, unfolding(arm7_model::specs::Arithmetic::shifted_by_amount))]
fn rotated_through_carry(v: u32, carry: bool) -> Operand
    ensures { shifted_of result ≡ shifted_by_amount shift.Ror v 0 (flag carry) }
{
    Operand {
        value: u32::from(carry) * 0x8000_0000 + v / 2,
        carry: v % 2 == 1,
    }
}

/// An immediate operand: a byte rotated right by twice `r`.
#[tactic(auto, unfolding(arm7_model::specs::Arithmetic::immediate_operand))]
pub fn immediate_operand(r: u8, byte: u8, carry: bool) -> Operand
    requires { r < 16 }
    ensures { shifted_of result ≡ immediate_operand r byte (flag carry) }
{
    let value = rotate(u32::from(byte), 2 * u32::from(r));
    if r == 0 {
        return Operand { value, carry };
    }
    Operand {
        value,
        carry: is_set(value, 31),
    }
}
