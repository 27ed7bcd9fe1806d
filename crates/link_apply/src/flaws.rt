//! What can be wrong with a relocation, judged from numbers.

ghost use Rattle.std.specs.Prelude.{◌≡◌, ◌+◌, ◌<◌, ◌^◌, ◌≤◌, Some, None, true, false};
ghost use Rattle.link_apply.specs.Flaws.{has_bad_way, is_far, is_far_behind, is_far_way, is_odd, narrow_flaw, way_flaw};
ghost use Rattle.link_apply.specs.Targets.{way_by};

use crate::numbers::{bias, biased_displacement, pc_offset, total};
use link_values::BranchTarget;

/// The form, the sum of a byte or a half-word, or the distance of a branch.
#[derive(Clone, Copy)]
pub enum Flaw {
    Malformed,
    Overflow,
    OutOfReach,
}

/// Of a byte's sum.
pub fn flaw_of_byte(sum: u64) -> Option<Flaw>
    ensures { result ≡ narrow_flaw 8 sum }
{
    if sum < 0x100 {
        return None;
    }
    if sum >= 0xFFFF_FF80 {
        return None;
    }
    Some(Flaw::Overflow)
}

/// Of a half-word's sum.
pub fn flaw_of_half(sum: u64) -> Option<Flaw>
    ensures { result ≡ narrow_flaw 16 sum }
{
    if sum < 0x1_0000 {
        return None;
    }
    if sum >= 0xFFFF_8000 {
        return None;
    }
    Some(Flaw::Overflow)
}

/// Whether no branch of a state has the displacement.
fn is_unaligned(thumb: bool, displacement: u64) -> bool
    ensures { result ≡ is_odd thumb displacement }
{
    if thumb {
        return displacement % 2 != 0;
    }
    displacement % 4 != 0
}

/// Whether no branch of a state reaches from one number to another.
fn is_too_far(thumb: bool, from: u64, to: u64) -> bool
    requires { from < 2 ^ 63 }
    ensures { result ≡ is_far thumb from to }
{
    if to < from {
        return true;
    }
    from + 2 * bias(thumb) <= to
}

/// Of a branch that leads to what it names itself.
pub fn flaw_of_direct(thumb: bool, word: u32, added: u64, subtracted: u64) -> Option<Flaw>
    requires added { added < 2 ^ 63 }
    requires subtracted { subtracted < 2 ^ 63 }
    ensures { result ≡ way_flaw thumb 0 word added subtracted 0 (way_by None) 0 }
{
    let from = biased_displacement(thumb, word);
    if is_unaligned(thumb, total(from, added, subtracted)) {
        return Some(Flaw::Malformed);
    }
    if is_too_far(thumb, subtracted, from + added) {
        return Some(Flaw::OutOfReach);
    }
    None
}

/// Whether the B of a veneer to ARM code doesn't reach its target.
fn is_too_far_behind(thumb: bool, veneer: u64, goal: u64) -> bool
    requires veneer { veneer < 2 ^ 33 }
    requires goal { goal < 2 ^ 33 }
    ensures { result ≡ is_far_behind thumb veneer goal }
{
    if thumb {
        return false;
    }
    is_too_far(false, veneer + 4 + pc_offset(false), goal + bias(false))
}

/// Of a branch at an address that goes by a veneer.
pub fn flaw_of_detour(
    thumb: bool,
    at: u64,
    veneer: u64,
    target: BranchTarget,
    goal: u64,
) -> Option<Flaw>
    requires at { at < 2 ^ 34 }
    requires veneer { veneer < 2 ^ 33 }
    requires goal { goal < 2 ^ 33 }
    ensures { result ≡ way_flaw thumb at 0 0 0 veneer (way_by (Some target)) goal }
{
    if is_unaligned(target.thumb, goal) {
        return Some(Flaw::Malformed);
    }
    if is_unaligned(thumb, total(veneer, bias(thumb), at + pc_offset(thumb))) {
        return Some(Flaw::Malformed);
    }
    if is_too_far(thumb, at + pc_offset(thumb), veneer + bias(thumb)) {
        return Some(Flaw::OutOfReach);
    }
    if is_too_far_behind(target.thumb, veneer, goal) {
        return Some(Flaw::OutOfReach);
    }
    None
}
