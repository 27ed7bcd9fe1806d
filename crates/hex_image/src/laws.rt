//! Laws of the forms, each proved as the contract of an empty function.

ghost use Rattle.hex_image.specs.Examples.{WorkedExamples};
ghost use Rattle.hex_image.specs.Faults.{FirstFaultLaw};
ghost use Rattle.hex_image.specs.Laws.{IhexLaw, SrecLaw};

/// The line that is told of a text at fault is the first with which no image begins.
pub fn first_fault_law()
    ensures { FirstFaultLaw }
{}

/// A text in Intel HEX that is written reads as an image with the same byte of each address and the same start.
pub fn ihex_law()
    ensures { IhexLaw }
{}

/// So does a text of S-records.
pub fn srec_law()
    ensures { SrecLaw }
{}

/// The texts of an image that were worked out by hand, what they read as, and what is told of texts at fault.
pub fn worked_examples()
    ensures { WorkedExamples }
{}
