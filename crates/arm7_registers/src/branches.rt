//! Branches and exchanges of state.

ghost use Rattle.std.specs.Prelude.{◌≡◌, ◌<◌, ◌≤◌};
ghost use Rattle.arm7_model.specs.Branches.{branch_target, branched, exchanged, is_host, linked_first, linked_second, status_with_thumb};

use crate::registers::{operand_at, register, set_pc, set_register};
use arm7_model::ArmState;
use sdt_word::sign_extend;

/// A status register with this bit T.
#[tactic(auto, unfolding(arm7_model::specs::Branches::status_with_thumb))]
fn status_with_thumb(t: u32, status: u32) -> u32
    requires { t < 2 }
    ensures { result ≡ status_with_thumb t status }
{
    (status / 64) * 64 + t * 32 + status % 32
}

/// BX: bit 0 of the target is the state, and the target is an address of that state.
#[tactic(auto, unfolding(arm7_model::specs::Branches::exchanged))]
pub fn exchange_state(state: &mut ArmState, v: u32)
    ensures { state.new ≡ exchanged v state.old }
{
    state.cpsr = status_with_thumb(v % 2, state.cpsr);
    set_pc(state, v);
}

/// The target of a branch: `d` of `width` bits as signed units of `size` bytes from pc.
#[tactic(auto, unfolding(arm7_model::specs::Branches::branch_target))]
pub fn branch_target(state: &ArmState, size: u32, width: u32, d: u32) -> u32
    requires low { 1 ≤ width }
    requires high { width ≤ 32 }
    ensures { result ≡ branch_target size width d state.now }
{
    operand_at(state, 15).wrapping_add(size.wrapping_mul(sign_extend(d, width)))
}

/// B and BL of ARM state.
#[tactic(auto, unfolding(arm7_model::specs::Branches::branched))]
pub fn branch(state: &mut ArmState, link: bool, d: u32)
    ensures { state.new ≡ branched link d state.old }
{
    let target = branch_target(state, 4, 24, d);
    if link {
        let next = register(state, 15);
        set_register(state, 14, next);
    }
    set_register(state, 15, target);
}

/// The first half of Thumb's BL: lr is a base.
#[tactic(auto, unfolding(arm7_model::specs::Branches::linked_first))]
pub fn link_first(state: &mut ArmState, i: u32)
    ensures { state.new ≡ linked_first i state.old }
{
    let base = operand_at(state, 15).wrapping_add(sign_extend(i, 11).wrapping_mul(4096));
    set_register(state, 14, base);
}

/// The second half: pc is what lies `2 i` above the base.
#[tactic(auto, unfolding(arm7_model::specs::Branches::linked_second))]
pub fn link_second(state: &mut ArmState, i: u32)
    ensures { state.new ≡ linked_second i state.old }
{
    let next = register(state, 15);
    let target = register(state, 14).wrapping_add(i.wrapping_mul(2));
    set_register(state, 14, next - next % 2 + 1);
    set_pc(state, target);
}

/// Whether a software interrupt is the host's.
#[tactic(auto, unfolding(arm7_model::specs::Branches::is_host))]
pub fn is_host(number: u32) -> bool
    ensures { result ≡ is_host number }
{
    number == 0x00 || number == 0x02 || number == 0x11
}
