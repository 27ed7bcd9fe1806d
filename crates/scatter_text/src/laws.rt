//! Laws of descriptions, each proved as the contract of an empty function.

ghost use Rattle.scatter_text.specs.Laws.{FaultLaw, OneSpelled, ReadingLaw};

/// What is read is what the text spells, and valid; and what it spells is read, if it is valid.
pub fn reading_law()
    ensures { ReadingLaw }
{}

/// A text spells one description at most.
pub fn one_spelled()
    ensures { OneSpelled }
{}

/// A refusal tells a fault that is there.
pub fn fault_law()
    ensures { FaultLaw }
{}
