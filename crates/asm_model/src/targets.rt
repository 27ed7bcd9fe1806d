//! Targets of branches that may be left to the linker.

ghost use Rattle.std.specs.Prelude.{◌≡◌};
ghost use Rattle.std.specs.Option.{option_copied};
ghost use Rattle.asm_model.specs.Symbols as symbols;

use crate::arm_lines::ArmLine;
use crate::exprs::Expr;
use crate::thumb_lines::ThumbLine;

/// The target of a branch of ARM state.
pub fn arm_target(line: &ArmLine) -> Option<&Expr>
    ensures { option_copied result ≡ symbols.arm_target line.now }
{
    match line {
        ArmLine::Branch { target, .. } => Some(target),
        ArmLine::DataImmediate { .. }
        | ArmLine::DataShifted { .. }
        | ArmLine::DataRegisterShifted { .. }
        | ArmLine::Multiply { .. }
        | ArmLine::MultiplyLong { .. }
        | ArmLine::Swap { .. }
        | ArmLine::BranchExchange { .. }
        | ArmLine::ReadStatus { .. }
        | ArmLine::WriteStatus { .. }
        | ArmLine::WriteStatusImmediate { .. }
        | ArmLine::TransferImmediate { .. }
        | ArmLine::TransferShifted { .. }
        | ArmLine::TransferHalf { .. }
        | ArmLine::TransferBlock { .. }
        | ArmLine::SoftwareInterrupt { .. } => None,
    }
}

/// The target of a branch of Thumb state that has two halves.
pub fn thumb_target(line: &ThumbLine) -> Option<&Expr>
    ensures { option_copied result ≡ symbols.thumb_target line.now }
{
    match line {
        ThumbLine::BranchLink { target } => Some(target),
        ThumbLine::ShiftImmediate { .. }
        | ThumbLine::AddSubtract { .. }
        | ThumbLine::DataImmediate { .. }
        | ThumbLine::DataRegister { .. }
        | ThumbLine::HighRegister { .. }
        | ThumbLine::LoadLiteral { .. }
        | ThumbLine::TransferRegister { .. }
        | ThumbLine::TransferSigned { .. }
        | ThumbLine::TransferImmediate { .. }
        | ThumbLine::TransferHalf { .. }
        | ThumbLine::TransferStack { .. }
        | ThumbLine::LoadAddress { .. }
        | ThumbLine::AdjustStack { .. }
        | ThumbLine::PushPop { .. }
        | ThumbLine::TransferMultiple { .. }
        | ThumbLine::BranchConditional { .. }
        | ThumbLine::SoftwareInterrupt { .. }
        | ThumbLine::Branch { .. } => None,
    }
}
