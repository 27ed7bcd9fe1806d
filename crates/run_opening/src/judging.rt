//! What is judged before a bus is made: what meets, and what is no memory.

ghost use Rattle.std.specs.Prelude.{◌≡◌, ◌+◌, ◌<◌, ◌≤◌, ◌^◌, ◌&&◌, ◌||◌, ℕ, false, true, map, MatchOption};
ghost use Rattle.arm7_bus.specs.Meets.{IsFound, seats_have, seats_share};
ghost use Rattle.arm7_bus.specs.Seats.{has_access, seats_by};
ghost use Rattle.arm7_bus.specs.States.{bank_has};
ghost use Rattle.run_opening.specs.Banks.{banks_share, is_lacking, lacks, memory_bank, two_have};

use crate::image::Need;
use arm7_bus::meets::{first_shared, lesser};
use sdt_outside::Device;
use sdt_word::Range32;

/// The least address that the range shares with a bank.
fn shared_with_banks(banks: &[Range32], r: Range32) -> Option<u32>
    ensures { IsFound (λ a. has_access r.base r.size a 1 && bank_has (map memory_bank banks.now) a 1) result }
{
    let [first, rest @ ..] = banks else {
        return None;
    };
    lesser(first_shared(r, *first), shared_with_banks(rest, r))
}

/// The least address that two banks share.
fn shared_by_banks(banks: &[Range32]) -> Option<u32>
    ensures { IsFound (λ a. banks_share (map memory_bank banks.now) a) result }
{
    let [first, rest @ ..] = banks else {
        return None;
    };
    lesser(shared_with_banks(rest, *first), shared_by_banks(rest))
}

fn range_of(device: &Box<dyn Device>) -> Range32
    ensures { (result.base ≡ base device.now) × (result.size ≡ size device.now) }
{
    device.range()
}

fn shared_with(device: &Box<dyn Device>, r: Range32) -> Option<u32>
    ensures { IsFound (λ a. has_access r.base r.size a 1 && has_access (base device.now) (size device.now) a 1) result }
{
    first_shared(r, range_of(device))
}

/// The least address that the range shares with a device.
fn shared_with_devices(devices: &[Box<dyn Device>], r: Range32) -> Option<u32>
    ensures { IsFound (λ a. has_access r.base r.size a 1 && seats_have (seats_by base size state touched devices.now) a) result }
{
    let [first, rest @ ..] = devices else {
        return None;
    };
    lesser(shared_with(first, r), shared_with_devices(rest, r))
}

/// The least address that two devices share.
fn shared_by_devices(devices: &[Box<dyn Device>]) -> Option<u32>
    ensures { IsFound (λ a. seats_share (seats_by base size state touched devices.now) a) result }
{
    let [first, rest @ ..] = devices else {
        return None;
    };
    lesser(
        shared_with_devices(rest, range_of(first)),
        shared_by_devices(rest),
    )
}

/// The least address that a bank shares with a device.
fn shared_by_both(banks: &[Range32], devices: &[Box<dyn Device>]) -> Option<u32>
    ensures { IsFound (λ a. bank_has (map memory_bank banks.now) a 1 && seats_have (seats_by base size state touched devices.now) a) result }
{
    let [first, rest @ ..] = banks else {
        return None;
    };
    lesser(
        shared_with_devices(devices, *first),
        shared_by_both(rest, devices),
    )
}

/// The least address that two banks, two devices, or one of each have.
pub fn least_shared(banks: &[Range32], devices: &[Box<dyn Device>]) -> Option<u32>
    ensures { IsFound (λ a. two_have (map memory_bank banks.now) (seats_by base size state touched devices.now) a) result }
{
    let alike = lesser(shared_by_banks(banks), shared_by_devices(devices));
    lesser(alike, shared_by_both(banks, devices))
}

/// The end of the first bank that has the address.
fn end_of_bank(banks: &[Range32], a: u64) -> Option<u64>
    requires { a < 2 ^ 32 }
    ensures none { result ≡ None → bank_has (map memory_bank banks.now) a 1 ≡ false }
    ensures some { (e : ℕ) → result ≡ Some e → (a < e) × (e ≤ 2 ^ 32) × ((x : ℕ) → a ≤ x → x < e → bank_has (map memory_bank banks.now) x 1 ≡ true) }
{
    let [first, rest @ ..] = banks else {
        return None;
    };
    let base = u64::from(first.base);
    if base <= a && a < base + first.size {
        return Some(base + first.size);
    }
    end_of_bank(rest, a)
}

/// The least address of a need that no bank has. Of a need that would end above 2^32 that is its base.
fn first_lacking(banks: &[Range32], need: Need) -> Option<u32>
    ensures { IsFound (λ a. lacks (map memory_bank banks.now) need a) result }
{
    let base = u64::from(need.base);
    if need.size > (1 << 32) - base {
        return Some(need.base);
    }
    let end = base + need.size;
    let mut a = base;
    'banks: while a < end {
        match end_of_bank(banks, a) {
            Some(next) => a = next,
            None => return Some(a as u32),
        }
    }
    None
}

/// The least address that is needed and that no bank has.
pub fn least_lacking(banks: &[Range32], needs: &[Need]) -> Option<u32>
    ensures { IsFound (λ a. is_lacking (map memory_bank banks.now) needs.now a) result }
{
    let mut least = None;
    for need in needs {
        least = lesser(least, first_lacking(banks, *need));
    }
    least
}
