//! Laws of the definitions, each proved as the contract of an empty function.

ghost use Rattle.image_laws.specs.AifFiles.{FixedFile, RelocatableFile};

/// Of the image of a plan, as an ARM image file, what is written is the file that the plan has.
pub fn file_law()
    ensures fixed { FixedFile }
    ensures relocatable { RelocatableFile }
{}
