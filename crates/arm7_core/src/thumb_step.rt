//! A step in Thumb state.

ghost use Rattle.std.specs.Prelude.{◌≡◌, [], true};
ghost use Rattle.arm7_model.specs.Registers.{IsValid, is_thumb, register};
ghost use Rattle.arm7_model.specs.Step.{advanced};
ghost use Rattle.arm7_transfers.specs.Steps.{Executes, IsStepped};
ghost use Rattle.arm7_transfers.specs.Ready.{IsReady};
ghost use Rattle.arm7_transfers.specs.Views.{state_of};

use crate::halves::Halves;
use crate::thumb_effect::do_thumb;
use arm7_bus::Bus;
use arm7_model::{ArmState, Event};
use arm7_registers::{register, set_register};
use arm7_transfers::{Outcome, fetch, finish, prefetch_abort};
use sdt_outside::Device;
use sdt_word::Width;

/// Does what the instruction of a half-word does.
#[tactic(auto, unfolding(arm7_model::specs::Step::done))]
fn execute(core: &mut ArmState, halves: &mut Halves, bus: &mut Bus, at: u32, word: u32) -> Outcome
    requires ready { IsReady (state_of base size state touched bus.old) }
    requires quiet { (state_of base size state touched bus.old).contents.stores ≡ [] }
    ensures executes { Executes true word core.old (state_of base size state touched bus.old) result core.new (state_of base size state touched bus.new) }
    ensures ready { IsReady (state_of base size state touched bus.new) }
{
    match halves.reading(at, word) {
        Some(i) => do_thumb(core, bus, i),
        None => Outcome::Unpredictable,
    }
}

/// pc goes from an address to the next instruction. In this state that needs no look at CPSR.
#[inline(always)]
#[tactic(auto, unfolding(arm7_model::specs::Step::advanced))]
fn advance(core: &mut ArmState, at: u32)
    requires thumb { is_thumb core.old.cpsr ≡ true }
    requires at { at ≡ register core.old 15 }
    ensures { core.new ≡ advanced core.old }
{
    set_register(core, 15, at.wrapping_add(2));
}

/// A step in Thumb state, after the devices' ticks and with no interrupt to come. It is the model's, with the
/// answers of the bus's devices; where a page has no frame, only its fetch is made.
pub fn step_half(core: &mut ArmState, halves: &mut Halves, bus: &mut Bus) -> Event
    requires valid { IsValid core.old }
    requires thumb { is_thumb core.old.cpsr ≡ true }
    requires ready { IsReady (state_of base size state touched bus.old) }
    requires quiet { (state_of base size state touched bus.old).contents.stores ≡ [] }
    ensures step { IsStepped core.old (state_of base size state touched bus.old) result core.new (state_of base size state touched bus.new) }
    ensures ready { IsReady (state_of base size state touched bus.new) }
{
    let at = register(core, 15);
    let Some(word) = fetch(bus, at, Width::Half) else {
        return prefetch_abort(core, at);
    };
    advance(core, at);
    let outcome = execute(core, halves, bus, at, word);
    finish(core, at, word, outcome)
}

/// A step in Thumb state that remembers no half-word.
pub fn step_thumb(core: &mut ArmState, bus: &mut Bus) -> Event
    requires valid { IsValid core.old }
    requires thumb { is_thumb core.old.cpsr ≡ true }
    requires ready { IsReady (state_of base size state touched bus.old) }
    requires quiet { (state_of base size state touched bus.old).contents.stores ≡ [] }
    ensures step { IsStepped core.old (state_of base size state touched bus.old) result core.new (state_of base size state touched bus.new) }
    ensures ready { IsReady (state_of base size state touched bus.new) }
{
    let mut halves = Halves::new();
    step_half(core, &mut halves, bus)
}
