//! Laws of the definitions, each proved as the contract of an empty function.

ghost use Rattle.stand_laws.specs.Laws.{ObjectsStand};

/// Wherever an object is placed, its source's statements stand.
pub fn objects_stand()
    ensures { ObjectsStand }
{}
