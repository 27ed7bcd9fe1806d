//! The instructions of ARM state, one variant for each row of the architecture manual's encodings.
//! Registers are 0 to 15; a field has as many bits as in its row.

ghost use Rattle.std.specs.Prelude.{◌≡◌, ◌<◌, ◌≤◌};
ghost use Rattle.arm_isa.specs.Codes.{half_code, operation_code};

use sdt_word::{Condition, ShiftKind};

/// What a data-processing instruction does, by its code, 0 to 15 in this order.
#[derive(Clone, Copy)]
pub enum Operation {
    And,
    Eor,
    Sub,
    Rsb,
    Add,
    Adc,
    Sbc,
    Rsc,
    Tst,
    Teq,
    Cmp,
    Cmn,
    Orr,
    Mov,
    Bic,
    Mvn,
}

/// What a half-word transfer moves, by its code, 1 to 3 in this order.
#[derive(Clone, Copy)]
pub enum HalfKind {
    Half,
    SignedByte,
    SignedHalf,
}

/// An instruction of ARM state.
#[derive(Clone, Copy)]
pub enum ArmInstr {
    /// `ADD{c}{S} Rd,Rn,#v`, v the byte rotated right by twice the rotation.
    DataImmediate {
        condition: Condition,
        operation: Operation,
        set_flags: bool,
        rn: u8,
        rd: u8,
        rotation: u8,
        byte: u8,
    },
    /// `ADD{c}{S} Rd,Rn,Rm,LSL #a`
    DataShifted {
        condition: Condition,
        operation: Operation,
        set_flags: bool,
        rn: u8,
        rd: u8,
        amount: u8,
        shift: ShiftKind,
        rm: u8,
    },
    /// `ADD{c}{S} Rd,Rn,Rm,LSL Rs`
    DataRegisterShifted {
        condition: Condition,
        operation: Operation,
        set_flags: bool,
        rn: u8,
        rd: u8,
        rs: u8,
        shift: ShiftKind,
        rm: u8,
    },
    /// `MUL{c}{S} Rd,Rm,Rs`; with `accumulate` `MLA{c}{S} Rd,Rm,Rs,Rn`.
    Multiply {
        condition: Condition,
        accumulate: bool,
        set_flags: bool,
        rd: u8,
        rn: u8,
        rs: u8,
        rm: u8,
    },
    /// `UMULL`, `UMLAL`, `SMULL`, `SMLAL{c}{S} Rl,Rh,Rm,Rs`
    MultiplyLong {
        condition: Condition,
        signed: bool,
        accumulate: bool,
        set_flags: bool,
        high: u8,
        low: u8,
        rs: u8,
        rm: u8,
    },
    /// `SWP{c}{B} Rd,Rm,[Rn]`
    Swap {
        condition: Condition,
        byte: bool,
        rn: u8,
        rd: u8,
        rm: u8,
    },
    /// `BX{c} Rm`
    BranchExchange {
        condition: Condition,
        rm: u8,
    },
    /// `MRS{c} Rd,CPSR`, or `SPSR` where `saved`.
    ReadStatus {
        condition: Condition,
        saved: bool,
        rd: u8,
    },
    /// `MSR{c} CPSR_fsxc,Rm`; `fields` has a bit for each of the letters, f the highest.
    WriteStatus {
        condition: Condition,
        saved: bool,
        fields: u8,
        rm: u8,
    },
    /// `MSR{c} CPSR_fsxc,#v`
    WriteStatusImmediate {
        condition: Condition,
        saved: bool,
        fields: u8,
        rotation: u8,
        byte: u8,
    },
    /// `LDR{c}{B}{T} Rd,[Rn,#v]{!}` or `[Rn],#v`
    TransferImmediate {
        condition: Condition,
        pre: bool,
        up: bool,
        byte: bool,
        write_back: bool,
        load: bool,
        rn: u8,
        rd: u8,
        offset: u16,
    },
    /// `LDR{c}{B}{T} Rd,[Rn,Rm,LSL #a]{!}` or `[Rn],Rm,LSL #a`
    TransferShifted {
        condition: Condition,
        pre: bool,
        up: bool,
        byte: bool,
        write_back: bool,
        load: bool,
        rn: u8,
        rd: u8,
        amount: u8,
        shift: ShiftKind,
        rm: u8,
    },
    /// `LDR{c}H`, `SB`, `SH`, `STR{c}H`; the offset is `high` and `low` as one byte where
    /// `immediate`, and else the register `low`.
    TransferHalf {
        condition: Condition,
        pre: bool,
        up: bool,
        immediate: bool,
        write_back: bool,
        load: bool,
        rn: u8,
        rd: u8,
        high: u8,
        kind: HalfKind,
        low: u8,
    },
    /// `LDM{c}IA Rn{!},{list}{^}`; bit k of the list is register k, `user` the mark `^`.
    TransferBlock {
        condition: Condition,
        pre: bool,
        up: bool,
        user: bool,
        write_back: bool,
        load: bool,
        rn: u8,
        list: u16,
    },
    /// `B{c}`, and `BL{c}` where `link`; the displacement is 24 bits, in words.
    Branch {
        condition: Condition,
        link: bool,
        displacement: u32,
    },
    /// `SWI{c} n`, a number of 24 bits.
    SoftwareInterrupt {
        condition: Condition,
        number: u32,
    },
    /// A word that takes the undefined exception, by its bits 27 to 0.
    Undefined {
        condition: Condition,
        bits: u32,
    },
}

impl Operation {
    pub fn code(self) -> u32
        ensures { result ≡ operation_code self }
    {
        self as u32
    }

    /// The operation of a code.
    pub fn from_code(code: u32) -> Operation
        requires { code < 16 }
        ensures { operation_code result ≡ code }
    {
        match code {
            0 => Operation::And,
            1 => Operation::Eor,
            2 => Operation::Sub,
            3 => Operation::Rsb,
            4 => Operation::Add,
            5 => Operation::Adc,
            6 => Operation::Sbc,
            7 => Operation::Rsc,
            8 => Operation::Tst,
            9 => Operation::Teq,
            10 => Operation::Cmp,
            11 => Operation::Cmn,
            12 => Operation::Orr,
            13 => Operation::Mov,
            14 => Operation::Bic,
            _ => Operation::Mvn,
        }
    }
}

impl HalfKind {
    pub fn code(self) -> u32
        ensures { result ≡ half_code self }
    {
        match self {
            HalfKind::Half => 1,
            HalfKind::SignedByte => 2,
            HalfKind::SignedHalf => 3,
        }
    }

    /// The kind of a code.
    pub fn from_code(code: u32) -> HalfKind
        requires low { 1 ≤ code }
        requires high { code < 4 }
        ensures { half_code result ≡ code }
    {
        match code {
            1 => HalfKind::Half,
            2 => HalfKind::SignedByte,
            _ => HalfKind::SignedHalf,
        }
    }
}
