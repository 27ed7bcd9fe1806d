//! Laws of the format, each proved as the contract of an empty function.

ghost use Rattle.elf_image.specs.Examples.{WorkedExample};
ghost use Rattle.elf_image.specs.Files.{LoadLaw, WrittenLaw};
ghost use Rattle.elf_image.specs.NamedExamples.{NamedExample};
ghost use Rattle.elf_image.specs.Reading.{ElfLaw, FirstFailedLaw, OneRecord};
ghost use Rattle.elf_image.specs.Symbols.{SectionsLaw, SymbolsLaw};
ghost use Rattle.elf_image.specs.Tables.{NamedLaw, NamedLoadLaw};

/// What reading gives is what the bytes say, and where it gives no record they say none.
pub fn elf_law()
    ensures { ElfLaw }
{}

/// Bytes have at most one record.
pub fn one_record()
    ensures { OneRecord }
{}

/// The check that reading tells is the first that fails, and the first that fails is told.
pub fn first_failed_law()
    ensures { FirstFailedLaw }
{}

/// The file that is written reads as its image's record, whose entry is the image's start.
pub fn written_law()
    ensures { WrittenLaw }
{}

/// What the file that is written loads is what its image's load regions are.
pub fn load_law()
    ensures { LoadLaw }
{}

/// With sections and symbols the file reads as the same record.
pub fn named_law()
    ensures { NamedLaw }
{}

/// With sections and symbols the file loads the same.
pub fn named_load_law()
    ensures { NamedLoadLaw }
{}

/// The words and the size of a file that was worked out by hand, and what is told of it where it is cut.
pub fn worked_example()
    ensures { WorkedExample }
{}

/// A debugger finds the sections of the file where they are written.
pub fn sections_law()
    ensures { SectionsLaw }
{}

/// A debugger finds the symbols of the file where they are written.
pub fn symbols_law()
    ensures { SymbolsLaw }
{}

/// The words and the size of a file with sections and symbols that was worked out by hand.
pub fn named_example()
    ensures { NamedExample }
{}
