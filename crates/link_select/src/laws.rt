//! Laws of the definitions, each proved as the contract of an empty function.

ghost use Rattle.link_select.specs.Laws.{DuplicateLaw, UndefinedLaw};

/// A name is refused as exported twice exactly where two objects export it, and that name is the first of
/// these by the order of the objects and their symbols, told with the first later object that exports it.
pub fn duplicate_law()
    ensures { DuplicateLaw }
{}

/// A name is refused as undefined exactly where a non-weak reference has no meaning, and it is the first of
/// these by the order of the objects and their symbols.
pub fn undefined_law()
    ensures { UndefinedLaw }
{}
