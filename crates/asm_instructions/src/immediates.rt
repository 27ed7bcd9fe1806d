//! Numbers as operands: a byte rotated right, or the twin of the operation.

ghost use Rattle.std.specs.Prelude.{◌≡◌};
ghost use Rattle.source_model.specs.Immediates as immediates;

use arm_encode::immediate as operand_of;
use arm_isa::{ArmInstr, Operation};
use sdt_fault::kinds::LineKind;
use sdt_word::Condition;

/// The least rotation of a number and the byte.
pub fn immediate(number: u32) -> Option<(u8, u8)>
    ensures { result ≡ immediates.immediate number }
{
    match operand_of(number) {
        None => None,
        Some(operand) => Some(((operand / 256) as u8, (operand % 256) as u8)),
    }
}

pub fn negated(number: u32) -> u32
    ensures { result ≡ immediates.negated number }
{
    number.wrapping_neg()
}

/// The operation that does the same with another number.
fn twin(operation: Operation, number: u32) -> Option<(Operation, u32)>
    ensures { result ≡ immediates.twin operation number }
{
    match operation {
        Operation::Mov => Some((Operation::Mvn, 0xFFFF_FFFF - number)),
        Operation::Mvn => Some((Operation::Mov, 0xFFFF_FFFF - number)),
        Operation::And => Some((Operation::Bic, 0xFFFF_FFFF - number)),
        Operation::Bic => Some((Operation::And, 0xFFFF_FFFF - number)),
        Operation::Add => Some((Operation::Sub, negated(number))),
        Operation::Sub => Some((Operation::Add, negated(number))),
        Operation::Cmp => Some((Operation::Cmn, negated(number))),
        Operation::Cmn => Some((Operation::Cmp, negated(number))),
        _ => None,
    }
}

fn twin_instruction(
    condition: Condition,
    set_flags: bool,
    rn: u8,
    rd: u8,
    twin: Option<(Operation, u32)>,
) -> Result<ArmInstr, LineKind>
    ensures { result ≡ immediates.twin_instruction condition set_flags rn rd twin }
{
    let Some((operation, number)) = twin else {
        return Err(LineKind::Constant);
    };
    let Some((rotation, byte)) = immediate(number) else {
        return Err(LineKind::Constant);
    };
    Ok(ArmInstr::DataImmediate {
        condition,
        operation,
        set_flags,
        rn,
        rd,
        rotation,
        byte,
    })
}

/// The instruction of an operation with a number.
#[tactic(auto, unfolding(source_model::specs::Immediates::data_immediate))]
pub fn data_immediate(
    condition: Condition,
    operation: Operation,
    set_flags: bool,
    rn: u8,
    rd: u8,
    number: u32,
) -> Result<ArmInstr, LineKind>
    ensures { result ≡ immediates.data_immediate condition operation set_flags rn rd number }
{
    let Some((rotation, byte)) = immediate(number) else {
        return twin_instruction(condition, set_flags, rn, rd, twin(operation, number));
    };
    Ok(ArmInstr::DataImmediate {
        condition,
        operation,
        set_flags,
        rn,
        rd,
        rotation,
        byte,
    })
}

/// The instruction that writes a number into fields of a status register.
pub fn status_of(
    condition: Condition,
    saved: bool,
    fields: u8,
    number: u32,
) -> Result<ArmInstr, LineKind>
    ensures { result ≡ immediates.status_of condition saved fields (immediates.immediate number) }
{
    let Some((rotation, byte)) = immediate(number) else {
        return Err(LineKind::Constant);
    };
    Ok(ArmInstr::WriteStatusImmediate {
        condition,
        saved,
        fields,
        rotation,
        byte,
    })
}
