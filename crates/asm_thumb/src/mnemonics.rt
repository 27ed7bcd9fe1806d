//! What an operation word of Thumb state says.

ghost use Rattle.std.specs.Prelude.{◌≡◌};
ghost use Rattle.asm_arm.specs.Mnemonics as arm_words;
ghost use Rattle.asm_thumb.specs.Mnemonics as words;

use crate::table::WORDS;
use asm_arm::mnemonics::{Mnemonic as ArmMnemonic, operation_named as arm_operation};
use asm_expr::rows::row_of;
use sdt_word::{Condition, Width};
use thumb_isa::{ImmediateOperation, SignedTransfer, ThumbOperation, ThumbShift};

/// What an operation word of Thumb state says.
#[derive(Clone, Copy)]
pub enum Mnemonic {
    /// MOV, CMP, ADD and SUB, with a number or registers.
    Immediate(ImmediateOperation),
    /// LSL, LSR and ASR, by a number or a register.
    Shift(ThumbShift),
    /// The other operations of two registers.
    Register(ThumbOperation),
    /// LDR and STR, with B and H.
    Transfer { load: bool, width: Width },
    /// LDRSB and LDRSH.
    TransferSigned(SignedTransfer),
    /// POP, which loads, and PUSH.
    PushPop { load: bool },
    /// LDMIA, which loads, and STMIA.
    TransferMultiple { load: bool },
    /// BEQ to BLE.
    BranchConditional(Condition),
    /// B
    Branch,
    /// BL
    BranchLink,
    /// BX
    BranchExchange,
    /// SWI
    SoftwareInterrupt,
    /// ADR
    Address,
    /// NOP
    NoOperation,
    /// A word of the FPA.
    FloatingPoint,
}

/// A word of ARM state as one of the FPA.
fn float_word(word: ArmMnemonic) -> Option<Mnemonic>
    ensures { result ≡ words.float_word word }
{
    match word {
        ArmMnemonic::FloatingPoint => Some(Mnemonic::FloatingPoint),
        _ => None,
    }
}

/// A word of the FPA, which is that of ARM state.
fn floating(word: &[u8]) -> Option<Mnemonic>
    ensures { result ≡ words.floating (arm_words.operation_named word.now) }
{
    match arm_operation(word) {
        Some((word, _)) => float_word(word),
        None => None,
    }
}

/// What an operation word says in any case; None where no operation has that word.
#[tactic(auto, unfolding(crate::specs::Mnemonics::core_named, crate::specs::Mnemonics::operation_named))]
pub fn operation_named(word: &[u8]) -> Option<Mnemonic>
    ensures { result ≡ words.operation_named word.now }
{
    match row_of(word, &WORDS) {
        Some(mnemonic) => Some(mnemonic),
        None => floating(word),
    }
}
