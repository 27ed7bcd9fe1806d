//! Lines of Thumb state: one variant for each row of the instruction table that has a text. No line says the
//! undefined row, and BL says both its halves.

use crate::exprs::Expr;
use crate::operands::{LiteralAddress, Register, RegisterList, ThumbOperand};
use sdt_word::Condition;
use thumb_isa::{HighOperation, ImmediateOperation, SignedTransfer, ThumbOperation, ThumbShift};

/// An instruction as a line says it. A name that RN gives a register stands where one of r0 to r7 could; the
/// instruction is that of the row which the register itself gives.
#[derive(Drop)]
pub enum ThumbLine {
    /// `LSL`, `LSR`, `ASR Rd,Rs,#i`
    ShiftImmediate {
        shift: ThumbShift,
        rd: Register,
        rs: Register,
        amount: Expr,
    },
    /// `ADD`, `SUB Rd,Rs,Rn` or `#n`
    AddSubtract {
        subtract: bool,
        rd: Register,
        rs: Register,
        operand: ThumbOperand,
    },
    /// `MOV`, `CMP`, `ADD`, `SUB Rd,#i`
    DataImmediate {
        operation: ImmediateOperation,
        rd: Register,
        value: Expr,
    },
    /// `AND Rd,Rs` and the like.
    DataRegister {
        operation: ThumbOperation,
        rd: Register,
        rs: Register,
    },
    /// `ADD`, `CMP`, `MOV Rd,Rs`, `BX Rs`; BX has register 0 as its Rd.
    HighRegister {
        operation: HighOperation,
        rd: Register,
        rs: Register,
    },
    /// `LDR Rd,[pc,#v]` and `LDR Rd,label`
    LoadLiteral {
        rd: Register,
        address: LiteralAddress,
    },
    /// `STR`, `STRB`, `LDR`, `LDRB Rd,[Rn,Ro]`
    TransferRegister {
        load: bool,
        byte: bool,
        rd: Register,
        rn: Register,
        ro: Register,
    },
    /// `STRH`, `LDRSB`, `LDRH`, `LDRSH Rd,[Rn,Ro]`
    TransferSigned {
        kind: SignedTransfer,
        rd: Register,
        rn: Register,
        ro: Register,
    },
    /// `STR`, `LDR`, `STRB`, `LDRB Rd,[Rn,#v]`
    TransferImmediate {
        load: bool,
        byte: bool,
        rd: Register,
        rn: Register,
        offset: Expr,
    },
    /// `STRH`, `LDRH Rd,[Rn,#v]`
    TransferHalf {
        load: bool,
        rd: Register,
        rn: Register,
        offset: Expr,
    },
    /// `STR`, `LDR Rd,[sp,#v]`
    TransferStack {
        load: bool,
        rd: Register,
        offset: Expr,
    },
    /// `ADD Rd,pc,#v`, or from sp where `stack`.
    LoadAddress {
        stack: bool,
        rd: Register,
        offset: Expr,
    },
    /// `ADD sp,#v`, `SUB sp,#v`
    AdjustStack {
        subtract: bool,
        offset: Expr,
    },
    /// `PUSH {list}`, `POP {list}`
    PushPop {
        load: bool,
        list: RegisterList,
    },
    /// `STMIA`, `LDMIA Rn!,{list}`
    TransferMultiple {
        load: bool,
        rn: Register,
        list: RegisterList,
    },
    /// `B{c}`
    BranchConditional {
        condition: Condition,
        target: Expr,
    },
    /// `SWI n`
    SoftwareInterrupt {
        number: Expr,
    },
    /// `B`
    Branch {
        target: Expr,
    },
    /// `BL`, both halves.
    BranchLink {
        target: Expr,
    },
}
