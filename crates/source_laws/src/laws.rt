//! Laws of the definitions, each proved as the contract of an empty function.

ghost use Rattle.source_laws.specs.Laws.{OneObject, SourcesKeepStates, SourcesStandApart};

/// Where each statement is of the state that those before it leave, each line has an instruction of its state.
pub fn sources_keep_states()
    ensures { SourcesKeepStates }
{}

/// Two things that stand in an area of a source without faults are the same or don't meet.
pub fn sources_stand_apart()
    ensures { SourcesStandApart }
{}

/// Statements make one object at most.
pub fn one_object()
    ensures { OneObject }
{}
