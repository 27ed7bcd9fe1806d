//! Laws of the format, each proved as the contract of an empty function.

ghost use Rattle.alf_archive.specs.Grammar.{ArchiveLaw, OneRecord, SpellingLaw};

/// The library that reading gives is what the bytes say, and where it gives none they say none.
pub fn archive_law()
    ensures { ArchiveLaw }
{}

/// Bytes have at most one record.
pub fn one_record()
    ensures { OneRecord }
{}

/// The spelling of a library whose members have names of their own and valid objects, where it has fewer
/// than 2^32 bytes, reads as this library.
pub fn spelling_law()
    ensures { SpellingLaw }
{}
