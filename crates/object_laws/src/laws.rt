//! Laws of the definitions, each proved as the contract of an empty function.

ghost use Rattle.object_laws.specs.Laws.{ObjectsAreValid};

/// The object of statements without faults is valid, where areas and symbols are fewer than 2^24.
pub fn objects_are_valid()
    ensures { ObjectsAreValid }
{}
