//! The instructions of Thumb state, one variant for each row of the architecture manual's encodings.
//! Registers are 0 to 7 where their field has three bits; a field has as many bits as in its row.

ghost use Rattle.std.specs.Prelude.{◌≡◌, ◌<◌};
ghost use Rattle.thumb_isa.specs.Codes.{high_code, immediate_code, signed_code, thumb_operation_code, thumb_shift_code};

use sdt_word::Condition;

/// A shift by a number, by its code, 0 to 2 in this order.
#[derive(Clone, Copy)]
pub enum ThumbShift {
    Lsl,
    Lsr,
    Asr,
}

/// An operation with a byte, by its code, 0 to 3 in this order.
#[derive(Clone, Copy)]
pub enum ImmediateOperation {
    Mov,
    Cmp,
    Add,
    Sub,
}

/// An operation of two low registers, by its code, 0 to 15 in this order.
#[derive(Clone, Copy)]
pub enum ThumbOperation {
    And,
    Eor,
    Lsl,
    Lsr,
    Asr,
    Adc,
    Sbc,
    Ror,
    Tst,
    Neg,
    Cmp,
    Cmn,
    Orr,
    Mul,
    Bic,
    Mvn,
}

/// An operation that may name high registers, by its code, 0 to 3 in this order.
#[derive(Clone, Copy)]
pub enum HighOperation {
    Add,
    Cmp,
    Mov,
    Bx,
}

/// A transfer of a half-word or of a signed byte, by its code, 0 to 3 in this order.
#[derive(Clone, Copy)]
pub enum SignedTransfer {
    StoreHalf,
    LoadSignedByte,
    LoadHalf,
    LoadSignedHalf,
}

/// An instruction of Thumb state.
#[derive(Clone, Copy)]
pub enum ThumbInstr {
    /// `LSL`, `LSR`, `ASR Rd,Rs,#i`
    ShiftImmediate {
        shift: ThumbShift,
        amount: u8,
        rs: u8,
        rd: u8,
    },
    /// `ADD`, `SUB Rd,Rs,Rn`, or with a number of three bits where `immediate`.
    AddSubtract {
        immediate: bool,
        subtract: bool,
        operand: u8,
        rs: u8,
        rd: u8,
    },
    /// `MOV`, `CMP`, `ADD`, `SUB Rd,#i`
    DataImmediate {
        operation: ImmediateOperation,
        rd: u8,
        immediate: u8,
    },
    /// `AND Rd,Rs` and the like.
    DataRegister {
        operation: ThumbOperation,
        rs: u8,
        rd: u8,
    },
    /// `ADD`, `CMP`, `MOV Rd,Rs`, `BX Rs`; `high_rd` and `high_rs` make the register 8 more.
    HighRegister {
        operation: HighOperation,
        high_rd: bool,
        high_rs: bool,
        rs: u8,
        rd: u8,
    },
    /// `LDR Rd,[pc,#4i]`
    LoadLiteral {
        rd: u8,
        offset: u8,
    },
    /// `STR`, `STRB`, `LDR`, `LDRB Rd,[Rn,Ro]`
    TransferRegister {
        load: bool,
        byte: bool,
        ro: u8,
        rn: u8,
        rd: u8,
    },
    /// `STRH`, `LDRSB`, `LDRH`, `LDRSH Rd,[Rn,Ro]`
    TransferSigned {
        kind: SignedTransfer,
        ro: u8,
        rn: u8,
        rd: u8,
    },
    /// `STR`, `LDR Rd,[Rn,#4i]`, `STRB`, `LDRB Rd,[Rn,#i]`
    TransferImmediate {
        byte: bool,
        load: bool,
        offset: u8,
        rn: u8,
        rd: u8,
    },
    /// `STRH`, `LDRH Rd,[Rn,#2i]`
    TransferHalf {
        load: bool,
        offset: u8,
        rn: u8,
        rd: u8,
    },
    /// `STR`, `LDR Rd,[sp,#4i]`
    TransferStack {
        load: bool,
        rd: u8,
        offset: u8,
    },
    /// `ADD Rd,pc,#4i`, or from sp where `stack`.
    LoadAddress {
        stack: bool,
        rd: u8,
        offset: u8,
    },
    /// `ADD sp,#4i`, `SUB sp,#4i`, of seven bits.
    AdjustStack {
        subtract: bool,
        offset: u8,
    },
    /// `PUSH {list}`, `POP {list}`; `link` adds lr to a push and pc to a pop.
    PushPop {
        load: bool,
        link: bool,
        list: u8,
    },
    /// `STMIA`, `LDMIA Rn!,{list}`
    TransferMultiple {
        load: bool,
        rn: u8,
        list: u8,
    },
    /// `B{c}`, of any condition but AL; the offset is in half-words.
    BranchConditional {
        condition: Condition,
        offset: u8,
    },
    /// `SWI i`
    SoftwareInterrupt {
        number: u8,
    },
    /// `B`, of 11 bits, in half-words.
    Branch {
        offset: u16,
    },
    /// The first half of `BL`, or the second, of 11 bits.
    BranchLink {
        second: bool,
        offset: u16,
    },
    /// A half-word that takes the undefined exception.
    Undefined {
        number: u8,
    },
}

impl ThumbShift {
    pub fn code(self) -> u32
        ensures { result ≡ thumb_shift_code self }
    {
        self as u32
    }

    /// The shift of a code.
    pub fn from_code(code: u32) -> ThumbShift
        requires { code < 3 }
        ensures { thumb_shift_code result ≡ code }
    {
        match code {
            0 => ThumbShift::Lsl,
            1 => ThumbShift::Lsr,
            _ => ThumbShift::Asr,
        }
    }
}

impl ImmediateOperation {
    pub fn code(self) -> u32
        ensures { result ≡ immediate_code self }
    {
        self as u32
    }

    /// The operation of a code.
    pub fn from_code(code: u32) -> ImmediateOperation
        requires { code < 4 }
        ensures { immediate_code result ≡ code }
    {
        match code {
            0 => ImmediateOperation::Mov,
            1 => ImmediateOperation::Cmp,
            2 => ImmediateOperation::Add,
            _ => ImmediateOperation::Sub,
        }
    }
}

impl ThumbOperation {
    pub fn code(self) -> u32
        ensures { result ≡ thumb_operation_code self }
    {
        self as u32
    }

    /// The operation of a code.
    pub fn from_code(code: u32) -> ThumbOperation
        requires { code < 16 }
        ensures { thumb_operation_code result ≡ code }
    {
        match code {
            0 => ThumbOperation::And,
            1 => ThumbOperation::Eor,
            2 => ThumbOperation::Lsl,
            3 => ThumbOperation::Lsr,
            4 => ThumbOperation::Asr,
            5 => ThumbOperation::Adc,
            6 => ThumbOperation::Sbc,
            7 => ThumbOperation::Ror,
            8 => ThumbOperation::Tst,
            9 => ThumbOperation::Neg,
            10 => ThumbOperation::Cmp,
            11 => ThumbOperation::Cmn,
            12 => ThumbOperation::Orr,
            13 => ThumbOperation::Mul,
            14 => ThumbOperation::Bic,
            _ => ThumbOperation::Mvn,
        }
    }
}

impl HighOperation {
    pub fn code(self) -> u32
        ensures { result ≡ high_code self }
    {
        self as u32
    }

    /// The operation of a code.
    pub fn from_code(code: u32) -> HighOperation
        requires { code < 4 }
        ensures { high_code result ≡ code }
    {
        match code {
            0 => HighOperation::Add,
            1 => HighOperation::Cmp,
            2 => HighOperation::Mov,
            _ => HighOperation::Bx,
        }
    }
}

impl SignedTransfer {
    pub fn code(self) -> u32
        ensures { result ≡ signed_code self }
    {
        self as u32
    }

    /// The transfer of a code.
    pub fn from_code(code: u32) -> SignedTransfer
        requires { code < 4 }
        ensures { signed_code result ≡ code }
    {
        match code {
            0 => SignedTransfer::StoreHalf,
            1 => SignedTransfer::LoadSignedByte,
            2 => SignedTransfer::LoadHalf,
            _ => SignedTransfer::LoadSignedHalf,
        }
    }
}
