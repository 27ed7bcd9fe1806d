//! Laws of the definitions, each proved as the contract of an empty function.

ghost use Rattle.armlink_core.specs.Laws.{LinkedSizes, NamelessImages, NamelessScatters, NamelessScatterTables, NamelessTables, ScatterSizes};

/// An image has the form that was asked for, and no region of more than 64 MiB.
pub fn image_sizes()
    ensures linked { LinkedSizes }
    ensures scattered { ScatterSizes }
{}

/// What reports call the objects of a link decides nothing of its image: the same objects of the same modules give the same.
pub fn image_names()
    ensures linked { NamelessImages }
    ensures scattered { NamelessScatters }
{}

/// Nor of its tables.
pub fn table_names()
    ensures linked { NamelessTables }
    ensures scattered { NamelessScatterTables }
{}
