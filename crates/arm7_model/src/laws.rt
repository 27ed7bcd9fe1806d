//! The laws of steps and runs. Their calls do nothing; their contracts are the laws.

ghost use Rattle.std.specs.Prelude.{◌≡◌};
ghost use Rattle.arm7_model.specs.Laws.{RunIsOne, RunIsValid, RunsJoin, RunsShow, RunsSplit, StepIsOne, StepIsValid, StepsRun};

use arm_isa::arm_reading_law;
use thumb_isa::thumb_reading_law;

/// A step is a function of the state, the lines and the devices' answers.
pub fn step_is_one()
    ensures { StepIsOne }
{
    arm_reading_law();
    thumb_reading_law();
}

/// Runs join end to end.
pub fn runs_join()
    ensures { RunsJoin }
{}

/// A run splits behind each of its steps.
pub fn runs_split()
    ensures { RunsSplit }
{}

/// A run shows the states and events between.
pub fn runs_show()
    ensures { RunsShow }
{}

/// Steps one behind the other are a run.
pub fn steps_run()
    ensures { StepsRun }
{}

/// A run is a function of the state and the inputs.
pub fn run_is_one()
    ensures { RunIsOne }
{
    arm_reading_law();
    thumb_reading_law();
}

/// A step leaves a valid state.
pub fn step_is_valid()
    ensures { StepIsValid }
{}

/// A run leaves a valid state.
pub fn run_is_valid()
    ensures { RunIsValid }
{}
