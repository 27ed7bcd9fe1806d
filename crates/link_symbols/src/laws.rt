//! Laws of the definitions, each proved as the contract of an empty function.

ghost use Rattle.link_symbols.specs.Examples.{WorkedExample};
ghost use Rattle.link_symbols.specs.Laws.{DefinitionsLaw, FitsLaw, LocalsLaw};

/// Each definition of a linked object has a symbol of its name, whose value is the final one.
pub fn definitions_law()
    ensures { DefinitionsLaw }
{}

/// Local symbols stand first.
pub fn locals_law()
    ensures { LocalsLaw }
{}

/// What sections and symbols have are words and half-words.
pub fn fits_law()
    ensures { FitsLaw }
{}

/// The tables of a link that were worked out by hand.
pub fn worked_example()
    ensures { WorkedExample }
{}
