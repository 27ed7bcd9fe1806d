//! Laws of the definitions, each proved as the contract of an empty function.

ghost use Rattle.asm_model.specs.FaultSets.{ToldOfAll, ToldOfDirectives, ToldOfValues};

/// The kind that is told of a list of kinds is the first of its set.
pub fn told_of_all()
    ensures { ToldOfAll }
{}

/// The fault of an expression's value is the first of its kinds.
pub fn told_of_values()
    ensures { ToldOfValues }
{}

/// The fault of a line that is read as a directive is the first of its kinds.
pub fn told_of_directives()
    ensures { ToldOfDirectives }
{}
