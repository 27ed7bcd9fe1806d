//! Laws of the format, each proved as the contract of an empty function.

ghost use Rattle.chunk_file.specs.Grammar.{TableLaw, ChunksLaw, OneRecord, SizeLaw, SpellingLaw};

/// The table that reading gives is what the bytes say, and where it gives none they say none.
pub fn table_law()
    ensures { TableLaw }
{}

/// The same for the chunks.
pub fn chunks_law()
    ensures { ChunksLaw }
{}

/// Bytes have at most one record.
pub fn one_record()
    ensures { OneRecord }
{}

/// The size of a spelling by which `write_chunks` judges is its number of bytes.
pub fn size_law()
    ensures { SizeLaw }
{}

/// The spelling of chunks, where it has fewer than 2^32 bytes, reads as these chunks.
pub fn spelling_law()
    ensures { SpellingLaw }
{}
