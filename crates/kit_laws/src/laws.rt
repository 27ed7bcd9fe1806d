//! The law of the interrupt handler. Its call does nothing; its contract is the law.

ghost use Rattle.kit_laws.specs.Laws.{RunsAreTransparent};

use arm7_model::{step_is_one, step_is_valid};

/// The run of a program over the handler, with its interrupts struck out, is its run without interrupts.
pub fn runs_are_transparent()
    ensures { RunsAreTransparent }
{
    step_is_one();
    step_is_valid();
}
