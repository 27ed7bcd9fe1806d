//! The states of a source's areas.

ghost use Rattle.std.specs.Prelude.{◌+◌, ◌<◌, [], length, None, IfOk, OnOk};
ghost use Rattle.asm_model.specs.Laid.{reversed};
ghost use Rattle.asm_checks.specs.States.{AreStates};
ghost use Rattle.asm_laying.specs.Carried.{most_statements};
ghost use Rattle.asm_laying.specs.Numbered.{AreNumbered};

use asm_checks::States;
use asm_laying::areas::Areas;
use asm_laying::carried::START;
use asm_model::Statement;
use sdt_fault::NoMemory;
use std::alloc::Global;

/// Notes the states of the areas of a source, by its statements in their order, where none are noted yet.
fn note_each(
    alloc: Global,
    areas: &mut Areas,
    states: &mut States,
    statements: &[Statement],
) -> Result<(), NoMemory>
    requires few { length statements.now < most_statements + 1 }
    requires numbered { AreNumbered [] None [] areas.old }
    requires none { AreStates [] states.old }
    ensures { OnOk result (AreStates (reversed statements.now []) states.new) }
{
    let mut behind = START;
    let mut left = statements;
    'statements: loop {
        match left {
            [] => return Ok(()),
            [statement, rest @ ..] => {
                areas.enter(alloc, &statement.what)?;
                states.note(&statement.what, areas.current, behind.thumb)?;
                behind = behind.stepped(&statement.what);
                left = rest;
            }
        }
    }
}

/// The states of the areas of a source, by its statements in their order.
pub fn states_of(alloc: Global, statements: &[Statement]) -> Result<States, NoMemory>
    requires { length statements.now < most_statements + 1 }
    ensures { IfOk result (λ states. AreStates (reversed statements.now []) states) }
{
    let mut areas = Areas::new(alloc);
    let mut states = States::new(alloc);
    let noted = note_each(alloc, &mut areas, &mut states, statements);
    drop(areas);
    match noted {
        Ok(()) => Ok(states),
        Err(e) => {
            drop(states);
            Err(e)
        }
    }
}
