//! Ends of a step.

ghost use Rattle.std.specs.Prelude.{◌≡◌, ◌+◌, ◌%◌, ◌^◌};
ghost use Rattle.arm7_model.specs.declared.event.Event.TheVariants as event;
ghost use Rattle.arm7_model.specs.declared.event.Exception.TheVariants as exception;
ghost use Rattle.arm7_model.specs.Outcomes.{entered};
ghost use Rattle.arm7_transfers.specs.Ends.{event_of, registers_after};

use crate::Outcome;
use arm7_model::{ArmState, Event, Exception};
use arm7_registers::{enter, register, set_register};

/// Takes the prefetch abort of the instruction at address `at`.
pub fn prefetch_abort(state: &mut ArmState, at: u32) -> Event
    ensures event { result ≡ event.Took exception.PrefetchAbort }
    ensures registers { state.new ≡ entered exception.PrefetchAbort ((at + 4) % 2 ^ 32) state.old }
{
    enter(state, Exception::PrefetchAbort, at.wrapping_add(4));
    Event::Took(Exception::PrefetchAbort)
}

/// Ends the step of the instruction with this word at address `at` by its outcome. An instruction that did
/// not run has left all registers but pc as they were.
#[inline(always)]
pub fn finish(state: &mut ArmState, at: u32, word: u32, outcome: Outcome) -> Event
    ensures event { result ≡ event_of outcome word }
    ensures registers { state.new ≡ registers_after outcome at state.old }
{
    match outcome {
        Outcome::Ran => Event::Ran,
        Outcome::Aborted => {
            set_register(state, 15, at);
            enter(state, Exception::DataAbort, at.wrapping_add(8));
            Event::Took(Exception::DataAbort)
        }
        Outcome::Unpredictable => {
            set_register(state, 15, at);
            Event::Unpredictable(word)
        }
        Outcome::Raised(exception) => {
            let next = register(state, 15);
            enter(state, exception, next);
            Event::Took(exception)
        }
        Outcome::Host(number) => Event::Host(number),
        Outcome::NoFrame(address) => {
            set_register(state, 15, at);
            Event::NoFrame(address)
        }
    }
}
