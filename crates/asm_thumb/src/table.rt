//! The operation words of Thumb state.

use crate::mnemonics::Mnemonic;
use sdt_word::{Condition, Width};
use thumb_isa::{ImmediateOperation, SignedTransfer, ThumbOperation, ThumbShift};

/// The words of the integer core.
pub static WORDS: [(&[u8], Mnemonic); 53] = [
    (b"MOV", Mnemonic::Immediate(ImmediateOperation::Mov)),
    (b"CMP", Mnemonic::Immediate(ImmediateOperation::Cmp)),
    (b"ADD", Mnemonic::Immediate(ImmediateOperation::Add)),
    (b"SUB", Mnemonic::Immediate(ImmediateOperation::Sub)),
    (b"LSL", Mnemonic::Shift(ThumbShift::Lsl)),
    (b"LSR", Mnemonic::Shift(ThumbShift::Lsr)),
    (b"ASR", Mnemonic::Shift(ThumbShift::Asr)),
    (b"AND", Mnemonic::Register(ThumbOperation::And)),
    (b"EOR", Mnemonic::Register(ThumbOperation::Eor)),
    (b"ADC", Mnemonic::Register(ThumbOperation::Adc)),
    (b"SBC", Mnemonic::Register(ThumbOperation::Sbc)),
    (b"ROR", Mnemonic::Register(ThumbOperation::Ror)),
    (b"TST", Mnemonic::Register(ThumbOperation::Tst)),
    (b"NEG", Mnemonic::Register(ThumbOperation::Neg)),
    (b"CMN", Mnemonic::Register(ThumbOperation::Cmn)),
    (b"ORR", Mnemonic::Register(ThumbOperation::Orr)),
    (b"MUL", Mnemonic::Register(ThumbOperation::Mul)),
    (b"BIC", Mnemonic::Register(ThumbOperation::Bic)),
    (b"MVN", Mnemonic::Register(ThumbOperation::Mvn)),
    (
        b"LDR",
        Mnemonic::Transfer {
            load: true,
            width: Width::Word,
        },
    ),
    (
        b"STR",
        Mnemonic::Transfer {
            load: false,
            width: Width::Word,
        },
    ),
    (
        b"LDRB",
        Mnemonic::Transfer {
            load: true,
            width: Width::Byte,
        },
    ),
    (
        b"STRB",
        Mnemonic::Transfer {
            load: false,
            width: Width::Byte,
        },
    ),
    (
        b"LDRH",
        Mnemonic::Transfer {
            load: true,
            width: Width::Half,
        },
    ),
    (
        b"STRH",
        Mnemonic::Transfer {
            load: false,
            width: Width::Half,
        },
    ),
    (
        b"LDRSB",
        Mnemonic::TransferSigned(SignedTransfer::LoadSignedByte),
    ),
    (
        b"LDRSH",
        Mnemonic::TransferSigned(SignedTransfer::LoadSignedHalf),
    ),
    (b"PUSH", Mnemonic::PushPop { load: false }),
    (b"POP", Mnemonic::PushPop { load: true }),
    (b"STMIA", Mnemonic::TransferMultiple { load: false }),
    (b"LDMIA", Mnemonic::TransferMultiple { load: true }),
    (b"B", Mnemonic::Branch),
    (b"BL", Mnemonic::BranchLink),
    (b"BX", Mnemonic::BranchExchange),
    (b"BEQ", Mnemonic::BranchConditional(Condition::Eq)),
    (b"BNE", Mnemonic::BranchConditional(Condition::Ne)),
    (b"BCS", Mnemonic::BranchConditional(Condition::Cs)),
    (b"BHS", Mnemonic::BranchConditional(Condition::Cs)),
    (b"BCC", Mnemonic::BranchConditional(Condition::Cc)),
    (b"BLO", Mnemonic::BranchConditional(Condition::Cc)),
    (b"BMI", Mnemonic::BranchConditional(Condition::Mi)),
    (b"BPL", Mnemonic::BranchConditional(Condition::Pl)),
    (b"BVS", Mnemonic::BranchConditional(Condition::Vs)),
    (b"BVC", Mnemonic::BranchConditional(Condition::Vc)),
    (b"BHI", Mnemonic::BranchConditional(Condition::Hi)),
    (b"BLS", Mnemonic::BranchConditional(Condition::Ls)),
    (b"BGE", Mnemonic::BranchConditional(Condition::Ge)),
    (b"BLT", Mnemonic::BranchConditional(Condition::Lt)),
    (b"BGT", Mnemonic::BranchConditional(Condition::Gt)),
    (b"BLE", Mnemonic::BranchConditional(Condition::Le)),
    (b"SWI", Mnemonic::SoftwareInterrupt),
    (b"ADR", Mnemonic::Address),
    (b"NOP", Mnemonic::NoOperation),
];
