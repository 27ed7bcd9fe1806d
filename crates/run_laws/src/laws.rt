//! The laws. Their calls do nothing; their contracts are the laws.

ghost use Rattle.run_laws.specs.Laws.{BoardIsOne, BusRunIsOne, BusRunsAreRuns, BusStepIsOne, DevicesAreLeft, ExitsAlike, MadeStepsAreOne, RunLeavesDevices, RunsAreBusRuns, SmallBanksHaveFrames, SmallBanksHaveRoom, StartedExitsAlike, StepsAreMade};

use arm7_model::{step_is_one, step_is_valid};
use kit_laws::runs_are_transparent;

/// Registers and a bus have at most one step.
pub fn bus_step_is_one()
    ensures { BusStepIsOne }
{
    step_is_one();
}

/// And at most one run.
pub fn bus_run_is_one()
    ensures { BusRunIsOne }
{
    step_is_one();
    step_is_valid();
}

/// The board of a bus that is ready is one.
pub fn board_is_one()
    ensures { BoardIsOne }
{}

/// A run over a bus is a run of the model.
pub fn bus_runs_are_runs()
    ensures { BusRunsAreRuns }
{}

/// Such a run of the model is a run over the bus, where all stores to memory lie in used pages.
pub fn runs_are_bus_runs()
    ensures { RunsAreBusRuns }
{}

/// The steps of such a run of the model are those that the machine makes.
pub fn steps_are_made()
    ensures { StepsAreMade }
{}

/// The machine makes one list of steps from one place.
pub fn made_steps_are_one()
    ensures { MadeStepsAreOne }
{
    step_is_one();
    step_is_valid();
}

/// Steps that access no device leave the counts of accesses of all devices.
pub fn devices_are_left()
    ensures { DevicesAreLeft }
{}

/// A run whose steps access no device leaves the counts of accesses of all devices.
pub fn run_leaves_devices()
    ensures { RunLeavesDevices }
{}

/// Over an interrupt handler, a run that ends by SWI 0x11 over devices ends so over silent ones, with the same text.
pub fn exits_alike()
    ensures { ExitsAlike }
{
    runs_are_transparent();
}

/// So it does where quiet steps, as those of startup code, lead to the program.
pub fn started_exits_alike()
    ensures { StartedExitsAlike }
{
    step_is_valid();
    bus_run_is_one();
    exits_alike();
}

/// Banks that touch at most 65,536 pages have frames for every image that lies in them: `run` refuses none for MemoryBytes.
pub fn small_banks_have_room()
    ensures { SmallBanksHaveRoom }
{}

/// And for every store: no run over them ends for want of a frame.
pub fn small_banks_have_frames()
    ensures { SmallBanksHaveFrames }
{}
