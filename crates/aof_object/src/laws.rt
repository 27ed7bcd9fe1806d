//! Laws of the format, each proved as the contract of an empty function.

ghost use Rattle.aof_object.specs.Grammar.{ObjectLaw, OneRecord, SpellingLaw};

/// The object that reading gives is what the bytes say, and where it gives none they say none.
pub fn object_law()
    ensures { ObjectLaw }
{}

/// Bytes have at most one record.
pub fn one_record()
    ensures { OneRecord }
{}

/// The spelling of a valid object, where it has fewer than 2^32 bytes, reads as this object.
pub fn spelling_law()
    ensures { SpellingLaw }
{}
