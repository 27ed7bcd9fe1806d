//! The steps of a Step, and why a Go pauses.

ghost use Rattle.std.specs.Prelude.{◌≡◌, ◌≤◌, map, IfSome};
ghost use Rattle.sdt_outside.specs.Counts.{Rose};
ghost use Rattle.arm7_model.specs.Registers.{IsValid, register};
ghost use Rattle.arm7_bus.specs.Meets.{IsFound};
ghost use Rattle.arm7_bus.specs.Places.{place_of};
ghost use Rattle.arm7_transfers.specs.Ready.{IsReady};
ghost use Rattle.arm7_transfers.specs.Views.{state_of};
ghost use Rattle.armsd_core.specs.Carried.{GoTurn, Makes};
ghost use Rattle.armsd_core.specs.Goes.{Goes, IsPause, Steps, is_hit};

use crate::points::Points;
use crate::reason::{Reason, reason_of};
use arm7_bus::Bus;
use arm7_bus::meets::{first_shared, lesser};
use arm7_core::Machine;
use arm7_run::run_for;
use sdt_outside::{Device, Sink};
use sdt_word::Range32;

/// Steps that were made: why they ended, which isn't there where the sink failed, and how many count.
#[derive(Clone, Copy)]
pub struct Made {
    pub reason: Option<Reason>,
    pub steps: u64,
}

/// The address of the next instruction.
#[tactic(auto, unfolding(arm7_model::specs::Registers::register))]
pub fn pc_of(machine: &Machine) -> u32
    ensures { result ≡ register machine.now.state 15 }
{
    machine.state.r[15]
}

/// The least address that a range shares with one of the stores.
fn least_stored(stores: &[Range32], range: Range32) -> Option<u32>
    ensures { IsFound (is_hit (Some range) (map place_of stores.now)) result }
{
    let [first, rest @ ..] = stores else {
        return None;
    };
    lesser(first_shared(range, *first), least_stored(rest, range))
}

/// The least address of the watched range that the last step stored to.
fn hit(bus: &Bus, watch: Option<Range32>) -> Option<u32>
    ensures { IsFound (is_hit watch (state_of base size state touched bus.now).contents.stores) result }
{
    let Some(range) = watch else {
        return None;
    };
    let stores = bus.last_stores();
    least_stored(&stores.list[..stores.count as usize], range)
}

/// Why a Go pauses behind a step that goes on.
pub fn pause(
    machine: &Machine,
    bus: &Bus,
    points: &Points,
    watch: Option<Range32>,
) -> Option<Reason>
    ensures { IsPause points.now watch (register machine.now.state 15) (state_of base size state touched bus.now).contents.stores result }
{
    if let Some(a) = hit(bus, watch) {
        return Some(Reason::Watch(a));
    }
    if points.has(pc_of(machine)) {
        return Some(Reason::Break);
    }
    None
}

/// Makes so many steps, up to a stop of the machine.
pub fn step_for<K: Sink>(m: &mut Machine, bus: &mut Bus, sink: &mut K, steps: u64) -> Made
    requires valid { IsValid m.old.state }
    requires ready { IsReady (state_of base size state touched bus.old) }
    ensures makes { Makes (Steps m.old.state (state_of base size state touched bus.old)) steps result.reason result.steps
        m.new.state (state_of base size state touched bus.new) (K.bytes sink.old) (K.bytes sink.new)
        (Rose (K.faults sink.old) (K.faults sink.new)) }
    ensures few { result.steps ≤ steps }
    ensures faults { K.faults sink.old ≤ K.faults sink.new }
    ensures valid { IsValid m.new.state }
    ensures ready { IsReady (state_of base size state touched bus.new) }
{
    let end = run_for(m, bus, sink, steps);
    Made {
        reason: reason_of(end.stop),
        steps: end.steps,
    }
}

/// Makes a step of a Go; None where the Go goes on behind it.
fn go_on<K: Sink>(
    m: &mut Machine,
    bus: &mut Bus,
    sink: &mut K,
    points: &Points,
    watch: Option<Range32>,
) -> Option<Made>
    requires valid { IsValid m.old.state }
    requires ready { IsReady (state_of base size state touched bus.old) }
    ensures turns { GoTurn points.now watch result m.old.state (state_of base size state touched bus.old)
        m.new.state (state_of base size state touched bus.new) (K.bytes sink.old) (K.bytes sink.new)
        (Rose (K.faults sink.old) (K.faults sink.new)) }
    ensures few { IfSome result (λ end. end.steps ≤ 1) }
    ensures faults { K.faults sink.old ≤ K.faults sink.new }
    ensures valid { IsValid m.new.state }
    ensures ready { IsReady (state_of base size state touched bus.new) }
{
    let one = step_for(m, bus, sink, 1);
    let Some(Reason::Count) = one.reason else {
        return Some(one);
    };
    match pause(m, bus, points, watch) {
        None => None,
        Some(why) => Some(Made {
            reason: Some(why),
            steps: 1,
        }),
    }
}

/// Makes at most so many steps, up to a stop of the machine, a breakpoint where a step leads, or a store to the watched range.
pub fn go_for<K: Sink>(
    m: &mut Machine,
    bus: &mut Bus,
    sink: &mut K,
    points: &Points,
    watch: Option<Range32>,
    steps: u64,
) -> Made
    requires valid { IsValid m.old.state }
    requires ready { IsReady (state_of base size state touched bus.old) }
    ensures makes { Makes (Goes points.now watch m.old.state (state_of base size state touched bus.old)) steps result.reason result.steps
        m.new.state (state_of base size state touched bus.new) (K.bytes sink.old) (K.bytes sink.new)
        (Rose (K.faults sink.old) (K.faults sink.new)) }
    ensures few { result.steps ≤ steps }
    ensures faults { K.faults sink.old ≤ K.faults sink.new }
    ensures valid { IsValid m.new.state }
    ensures ready { IsReady (state_of base size state touched bus.new) }
{
    'steps: for made in 0..steps {
        if let Some(end) = go_on(m, bus, sink, points, watch) {
            return Made {
                reason: end.reason,
                steps: made + end.steps,
            };
        }
    }
    Made {
        reason: Some(Reason::Count),
        steps,
    }
}
