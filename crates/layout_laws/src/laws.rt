//! Laws of the definitions, each proved as the contract of an empty function.

ghost use Rattle.layout_laws.specs.Final.{KnownNamesAreFinal, KnownValuesAreFinal, NoOtherNamesAre};

/// Names that a round doesn't change are the final ones.
pub fn no_other_names_are()
    ensures { NoOtherNamesAre }
{}

/// A value that is known at its line is the final one.
pub fn known_values_are_final()
    ensures { KnownValuesAreFinal }
{}

/// Names that are known behind the last line, where each name for an expression is known at its line, are the final ones.
pub fn known_names_are_final()
    ensures { KnownNamesAreFinal }
{}
