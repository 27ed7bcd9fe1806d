//! Laws of the definitions, each proved as the contract of an empty function.

ghost use Rattle.asm_model.specs.Immediates.{ImmediatesHaveRotations, RotationsAreImmediates};
ghost use Rattle.asm_model.specs.OffsetLaws.{PaddingIsLeast};

/// Padding is the least that serves.
pub fn padding_is_least()
    ensures { PaddingIsLeast }
{}

/// A number that counts as an immediate is a rotated byte.
pub fn immediates_have_rotations()
    ensures { ImmediatesHaveRotations }
{}

/// A rotated byte counts as an immediate.
pub fn rotations_are_immediates()
    ensures { RotationsAreImmediates }
{}
