//! Lines of ARM state: one variant for each row of the instruction table that has a text. No line says the
//! undefined row.

use crate::exprs::Expr;
use crate::operands::{
    Address, BlockMode, HalfOffset, Indexing, Register, RegisterList, Shift, StatusFields,
    StatusRegister,
};
use arm_isa::{HalfKind, Operation};
use sdt_word::{Condition, ShiftKind};

/// An instruction as a line says it. A register that the form leaves out is register 0.
#[derive(Drop)]
pub enum ArmLine {
    /// `ADD{c}{S} Rd,Rn,#v`; MOV and MVN have no Rn, comparisons no Rd.
    DataImmediate {
        condition: Condition,
        operation: Operation,
        set_flags: bool,
        rd: Register,
        rn: Register,
        value: Expr,
    },
    /// `ADD{c}{S} Rd,Rn,Rm,LSL #a`
    DataShifted {
        condition: Condition,
        operation: Operation,
        set_flags: bool,
        rd: Register,
        rn: Register,
        rm: Register,
        shift: Shift,
    },
    /// `ADD{c}{S} Rd,Rn,Rm,LSL Rs`
    DataRegisterShifted {
        condition: Condition,
        operation: Operation,
        set_flags: bool,
        rd: Register,
        rn: Register,
        rm: Register,
        shift: ShiftKind,
        rs: Register,
    },
    /// `MUL{c}{S} Rd,Rm,Rs`; with `accumulate` `MLA{c}{S} Rd,Rm,Rs,Rn`.
    Multiply {
        condition: Condition,
        accumulate: bool,
        set_flags: bool,
        rd: Register,
        rm: Register,
        rs: Register,
        rn: Register,
    },
    /// `UMULL`, `UMLAL`, `SMULL`, `SMLAL{c}{S} Rl,Rh,Rm,Rs`
    MultiplyLong {
        condition: Condition,
        signed: bool,
        accumulate: bool,
        set_flags: bool,
        low: Register,
        high: Register,
        rm: Register,
        rs: Register,
    },
    /// `SWP{c}{B} Rd,Rm,[Rn]`
    Swap {
        condition: Condition,
        byte: bool,
        rd: Register,
        rm: Register,
        rn: Register,
    },
    /// `BX{c} Rm`
    BranchExchange {
        condition: Condition,
        rm: Register,
    },
    /// `MRS{c} Rd,CPSR` or `SPSR`; None where the word names no status register.
    ReadStatus {
        condition: Condition,
        status: Option<StatusRegister>,
        rd: Register,
    },
    /// `MSR{c} CPSR_fsxc,Rm` or `SPSR_fsxc`; None where the word names no fields of a status register.
    WriteStatus {
        condition: Condition,
        fields: Option<StatusFields>,
        rm: Register,
    },
    /// `MSR{c} CPSR_fsxc,#v`, with `fields` the same.
    WriteStatusImmediate {
        condition: Condition,
        fields: Option<StatusFields>,
        value: Expr,
    },
    /// `LDR{c}{B}{T} Rd,[Rn,#v]{!}` or `[Rn],#v`, `STR` the same, and `LDR`, `STR Rd,label`.
    TransferImmediate {
        condition: Condition,
        load: bool,
        byte: bool,
        rd: Register,
        address: Address,
    },
    /// `LDR{c}{B}{T} Rd,[Rn,Rm,LSL #a]{!}` or `[Rn],Rm,LSL #a`; `-Rm` where `subtract`.
    TransferShifted {
        condition: Condition,
        load: bool,
        byte: bool,
        rd: Register,
        rn: Register,
        indexing: Indexing,
        subtract: bool,
        rm: Register,
        shift: Shift,
    },
    /// `LDR{c}H`, `SB`, `SH`, `STR{c}H`
    TransferHalf {
        condition: Condition,
        load: bool,
        kind: HalfKind,
        rd: Register,
        rn: Register,
        indexing: Indexing,
        offset: HalfOffset,
    },
    /// `LDM{c}IA Rn{!},{list}{^}`; `user` is the mark `^`.
    TransferBlock {
        condition: Condition,
        load: bool,
        mode: BlockMode,
        rn: Register,
        write_back: bool,
        list: RegisterList,
        user: bool,
    },
    /// `B{c}`, and `BL{c}` where `link`.
    Branch {
        condition: Condition,
        link: bool,
        target: Expr,
    },
    /// `SWI{c} #n`
    SoftwareInterrupt {
        condition: Condition,
        number: Expr,
    },
}
