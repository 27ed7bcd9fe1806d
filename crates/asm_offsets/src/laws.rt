//! Laws of the definitions, each proved as the contract of an empty function.

ghost use Rattle.asm_offsets.specs.Laws.{ExtentsArePlaceable, LiteralsArePlaced};

/// What statements take up can be placed.
pub fn extents_are_placeable()
    ensures { ExtentsArePlaceable }
{}

/// The entry that a statement's literal was given stands at the literal's word.
pub fn literals_are_placed()
    ensures { LiteralsArePlaced }
{}
