//! Law: the program of the source that `make-big` makes runs from its first word to its exit, one step a word, and
//! leaves the sum in r4. This project's, over the machine of `arm7_model`; there is no engine. `sdt_toolkit` calls
//! `big_runs`, and the proofs of `big_entry` cite its definitions.
#![tactic(auto)]

ghost use Rattle.big_run.specs.Runs.{BigRuns};

/// From its entry the program exits after as many steps as it has words, with the sum in r4.
pub fn big_runs()
    ensures { BigRuns }
{}
