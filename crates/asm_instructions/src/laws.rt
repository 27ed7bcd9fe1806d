//! Laws of the definitions, each proved as the contract of an empty function.

ghost use Rattle.asm_instructions.specs.Fits.{FittingInstructionsAreWritten, InstructionsFit, PseudoInstructionsFit};
ghost use Rattle.asm_instructions.specs.ThumbFits.{FittingThumbCodesAreWritten, ThumbInstructionsFit, ThumbPseudoInstructionsFit};

/// The instruction that a line says fits its row of the instruction table and keeps the row's conditions.
pub fn instructions_fit()
    ensures { InstructionsFit }
{}

/// So does each instruction of a pseudo-instruction.
pub fn pseudo_instructions_fit()
    ensures { PseudoInstructionsFit }
{}

/// An instruction that fits its row is read from the word that its fields make there: it is the one that is encoded.
pub fn fitting_instructions_are_written()
    ensures { FittingInstructionsAreWritten }
{}

/// What a line of Thumb state says fits its row of the instruction table and keeps the row's conditions; each half of BL
/// has 11 bits.
pub fn thumb_instructions_fit()
    ensures { ThumbInstructionsFit }
{}

/// So does the instruction of a pseudo-instruction in Thumb state.
pub fn thumb_pseudo_instructions_fit()
    ensures { ThumbPseudoInstructionsFit }
{}

/// What fits its row in Thumb state is read from the half-words that its fields make there, both halves of BL too.
pub fn fitting_thumb_codes_are_written()
    ensures { FittingThumbCodesAreWritten }
{}
