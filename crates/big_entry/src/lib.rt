//! Law: how the startup code enters the program of the source that `make-big` makes. This project's, over `boot_code`
//! and `arm7_model`; there is no engine. `sdt_toolkit` calls `program_is_entered`.
#![tactic(auto)]

ghost use Rattle.big_entry.specs.Entries.{ProgramIsEntered};

use arm7_model::step_is_valid;

/// Where it leads to the program's first word, with memory as a view that has the program there, the state is one from which
/// the program runs.
pub fn program_is_entered()
    ensures { ProgramIsEntered }
{
    step_is_valid();
}
