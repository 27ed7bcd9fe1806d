//! The parts of an instruction's text: names, numbers, shifted registers and addresses.

ghost use Rattle.std.specs.Prelude.{◌≡◌, ◌==◌, ◌<◌, ◌≤◌, ◌+◌, ◌-◌, ◌++◌, OnOk, codes};
ghost use Rattle.sdt_word.specs.Numbers.{bit, places_from, registers};
ghost use Rattle.sdt_listing.specs.Parts as parts;

use sdt_fault::NoMemory;
use sdt_fault::digits::{push_decimal, push_hexadecimal_places};
use sdt_word::{Condition, ShiftKind, field, sign_extend};
use std::alloc::Global;

/// Appends a piece.
pub fn push(out: &mut Vec<u8>, piece: &[u8]) -> Result<(), NoMemory>
    ensures { OnOk result (out.new.items ≡ out.old.items ++ piece.now) }
{
    out.extend_from_slice(piece)?;
    Ok(())
}

/// The piece where it applies, and else nothing.
pub fn mark(applies: bool, piece: &[u8]) -> &[u8]
    ensures { result.now ≡ parts.mark applies piece.now }
{
    if applies { piece } else { b"" }
}

pub fn condition_name(condition: Condition) -> &'static [u8]
    ensures { result.now ≡ parts.condition_name condition }
{
    match condition {
        Condition::Eq => b"EQ",
        Condition::Ne => b"NE",
        Condition::Cs => b"CS",
        Condition::Cc => b"CC",
        Condition::Mi => b"MI",
        Condition::Pl => b"PL",
        Condition::Vs => b"VS",
        Condition::Vc => b"VC",
        Condition::Hi => b"HI",
        Condition::Ls => b"LS",
        Condition::Ge => b"GE",
        Condition::Lt => b"LT",
        Condition::Gt => b"GT",
        Condition::Le => b"LE",
        Condition::Al => b"",
    }
}

// A kind of shift behind a register, before its amount.
fn by_shift(shift: ShiftKind) -> &'static [u8]
    ensures { result.now ≡ codes "," ++ (parts.shift_name shift ++ codes " ") }
{
    match shift {
        ShiftKind::Lsl => b",LSL ",
        ShiftKind::Lsr => b",LSR ",
        ShiftKind::Asr => b",ASR ",
        ShiftKind::Ror => b",ROR ",
    }
}

/// Appends a register's name.
#[tactic(auto, unfolding(crate::specs::Parts::register))]
pub fn push_register(alloc: Global, out: &mut Vec<u8>, n: u8) -> Result<(), NoMemory>
    ensures { OnOk result (out.new.items ≡ out.old.items ++ parts.register n) }
{
    if n == 13 {
        return push(out, b"sp");
    }
    if n == 14 {
        return push(out, b"lr");
    }
    if n == 15 {
        return push(out, b"pc");
    }
    push(out, b"r")?;
    push_decimal(alloc, out, u64::from(n))
}

/// Appends a register behind others.
pub fn push_next(alloc: Global, out: &mut Vec<u8>, n: u8) -> Result<(), NoMemory>
    ensures { OnOk result (out.new.items ≡ out.old.items ++ parts.next n) }
{
    push(out, b",")?;
    push_register(alloc, out, n)
}

/// Appends a number in hexadecimal, without leading zeros.
#[tactic(auto, unfolding(crate::specs::Parts::hex))]
pub fn push_hex(alloc: Global, out: &mut Vec<u8>, n: u32) -> Result<(), NoMemory>
    ensures { OnOk result (out.new.items ≡ out.old.items ++ parts.hex n) }
{
    push(out, b"0x")?;
    let n = u64::from(n);
    push(out, format!(in alloc; "{n:X}")?.as_bytes())
}

/// Appends a number as an operand.
pub fn push_number(alloc: Global, out: &mut Vec<u8>, n: u32) -> Result<(), NoMemory>
    ensures { OnOk result (out.new.items ≡ out.old.items ++ parts.number n) }
{
    push(out, b"#")?;
    push_hex(alloc, out, n)
}

/// Appends eight digits.
#[tactic(auto, unfolding(crate::specs::Parts::eight))]
pub fn push_eight(out: &mut Vec<u8>, n: u32) -> Result<(), NoMemory>
    ensures { OnOk result (out.new.items ≡ out.old.items ++ parts.eight n) }
{
    push_hexadecimal_places(out, u64::from(n), 8)
}

/// Appends four digits.
#[tactic(auto, unfolding(crate::specs::Parts::four))]
pub fn push_four(out: &mut Vec<u8>, n: u16) -> Result<(), NoMemory>
    ensures { OnOk result (out.new.items ≡ out.old.items ++ parts.four n) }
{
    push_hexadecimal_places(out, u64::from(n), 4)
}

/// Appends an address.
pub fn push_address(out: &mut Vec<u8>, n: u32) -> Result<(), NoMemory>
    ensures { OnOk result (out.new.items ≡ out.old.items ++ parts.address n) }
{
    push(out, b"0x")?;
    push_eight(out, n)
}

fn by_zero(shift: ShiftKind) -> &'static [u8]
    ensures { result.now ≡ parts.by_zero shift }
{
    match shift {
        ShiftKind::Lsl => b"",
        ShiftKind::Lsr => b",LSR #0x20",
        ShiftKind::Asr => b",ASR #0x20",
        ShiftKind::Ror => b",RRX",
    }
}

/// Appends a register shifted by a number.
#[tactic(auto, unfolding(crate::specs::Parts::shifted))]
pub fn push_shifted(
    alloc: Global,
    out: &mut Vec<u8>,
    m: u8,
    shift: ShiftKind,
    amount: u8,
) -> Result<(), NoMemory>
    ensures { OnOk result (out.new.items ≡ out.old.items ++ parts.shifted m shift amount) }
{
    push_register(alloc, out, m)?;
    if amount == 0 {
        return push(out, by_zero(shift));
    }
    push(out, by_shift(shift))?;
    push_number(alloc, out, u32::from(amount))
}

/// Appends a register shifted by a register.
pub fn push_shifted_by(
    alloc: Global,
    out: &mut Vec<u8>,
    m: u8,
    shift: ShiftKind,
    rs: u8,
) -> Result<(), NoMemory>
    ensures { OnOk result (out.new.items ≡ out.old.items ++ parts.shifted_by m shift rs) }
{
    push_register(alloc, out, m)?;
    push(out, by_shift(shift))?;
    push_register(alloc, out, rs)
}

// Whether a list has a register.
fn lists(list: u16, k: u8) -> bool
    requires { k < 16 }
    ensures { result ≡ (bit list k == 1) }
{
    field(u32::from(list), u32::from(k), 1) == 1
}

/// Appends each register from `k` on of a list of `count` bits, with a comma before it.
pub fn push_named(
    alloc: Global,
    out: &mut Vec<u8>,
    list: u16,
    k: u8,
    count: u8,
) -> Result<(), NoMemory>
    requires within { k ≤ count }
    requires count { count ≤ 16 }
    ensures { OnOk result (out.new.items ≡ out.old.items ++ parts.named (places_from k (count - k) list)) }
{
    if k == count {
        return Ok(());
    }
    if !lists(list, k) {
        return push_named(alloc, out, list, k + 1, count);
    }
    push_next(alloc, out, k)?;
    push_named(alloc, out, list, k + 1, count)
}

/// Appends registers in braces, each of which comes with a comma before it.
pub fn push_braced(out: &mut Vec<u8>, names: &[u8]) -> Result<(), NoMemory>
    ensures { OnOk result (out.new.items ≡ out.old.items ++ parts.braced names.now) }
{
    push(out, b"{")?;
    if !names.is_empty() {
        push(out, &names[1..])?;
    }
    push(out, b"}")
}

/// Where a displacement of `width` bits, in units of a size, leads from a number of bytes ahead of an
/// address.
pub fn target(at: u32, ahead: u32, size: u32, width: u32, d: u32) -> u32
    requires low { 1 ≤ width }
    requires high { width ≤ 32 }
    ensures { result ≡ parts.target (at + ahead) size width d }
{
    at.wrapping_add(ahead)
        .wrapping_add(size.wrapping_mul(sign_extend(d, width)))
}

/// Appends the registers of a list of `count` bits in braces.
pub fn push_list(alloc: Global, out: &mut Vec<u8>, list: u16, count: u8) -> Result<(), NoMemory>
    requires { count ≤ 16 }
    ensures { OnOk result (out.new.items ≡ out.old.items ++ parts.braced (parts.named (registers count list))) }
{
    let mut names = Vec::new(alloc);
    push_named(alloc, &mut names, list, 0, count)?;
    push_braced(out, names.as_slice())
}
