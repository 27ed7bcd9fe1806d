//! The stems of operation words by their first letter, their conditions and their suffixes. Of two stems that begin
//! alike the shorter stands first.

use crate::mnemonics::{Mnemonic, Stem};
use arm_isa::{HalfKind, Operation};
use asm_model::BlockMode;
use sdt_word::Condition;

/// A word of the FPA.
const FLOAT: Stem = Stem::Float(Mnemonic::FloatingPoint);

/// The stems that begin with A.
pub static A_STEMS: [(&[u8], Stem); 10] = [
    (b"AND", Stem::Data(Operation::And)),
    (b"ADD", Stem::Data(Operation::Add)),
    (b"ADC", Stem::Data(Operation::Adc)),
    (b"ADR", Stem::Bare(Mnemonic::Address)),
    (b"ADRL", Stem::Bare(Mnemonic::LongAddress)),
    (b"ADF", FLOAT),
    (b"ABS", FLOAT),
    (b"ASN", FLOAT),
    (b"ACS", FLOAT),
    (b"ATN", FLOAT),
];

/// The stems that begin with B.
pub static B_STEMS: [(&[u8], Stem); 4] = [
    (b"BIC", Stem::Data(Operation::Bic)),
    (b"B", Stem::Bare(Mnemonic::Branch { link: false })),
    (b"BL", Stem::Bare(Mnemonic::Branch { link: true })),
    (b"BX", Stem::Bare(Mnemonic::BranchExchange)),
];

/// The stems that begin with C.
pub static C_STEMS: [(&[u8], Stem); 7] = [
    (b"CMP", Stem::Data(Operation::Cmp)),
    (b"CMN", Stem::Data(Operation::Cmn)),
    (b"COS", FLOAT),
    (b"CMF", FLOAT),
    (b"CNF", FLOAT),
    (b"CMFE", FLOAT),
    (b"CNFE", FLOAT),
];

/// The stems that begin with D.
pub static D_STEMS: [(&[u8], Stem); 1] = [(b"DVF", FLOAT)];

/// The stems that begin with E.
pub static E_STEMS: [(&[u8], Stem); 2] = [(b"EOR", Stem::Data(Operation::Eor)), (b"EXP", FLOAT)];

/// The stems that begin with F.
pub static F_STEMS: [(&[u8], Stem); 5] = [
    (b"FML", FLOAT),
    (b"FDV", FLOAT),
    (b"FRD", FLOAT),
    (b"FLT", FLOAT),
    (b"FIX", FLOAT),
];

/// The stems that begin with L.
pub static L_STEMS: [(&[u8], Stem); 6] = [
    (b"LDR", Stem::Transfer(true)),
    (b"LDM", Stem::TransferBlock(true)),
    (b"LOG", FLOAT),
    (b"LGN", FLOAT),
    (b"LDF", FLOAT),
    (b"LFM", Stem::FloatBlock),
];

/// The stems that begin with M.
pub static M_STEMS: [(&[u8], Stem); 9] = [
    (b"MOV", Stem::Data(Operation::Mov)),
    (b"MVN", Stem::Data(Operation::Mvn)),
    (b"MUL", Stem::Multiply(false)),
    (b"MLA", Stem::Multiply(true)),
    (b"MRS", Stem::Bare(Mnemonic::ReadStatus)),
    (b"MSR", Stem::Bare(Mnemonic::WriteStatus)),
    (b"MUF", FLOAT),
    (b"MVF", FLOAT),
    (b"MNF", FLOAT),
];

/// The stems that begin with N.
pub static N_STEMS: [(&[u8], Stem); 2] = [
    (b"NOP", Stem::Alone(Mnemonic::NoOperation)),
    (b"NRM", FLOAT),
];

/// The stems that begin with O.
pub static O_STEMS: [(&[u8], Stem); 1] = [(b"ORR", Stem::Data(Operation::Orr))];

/// The stems that begin with P.
pub static P_STEMS: [(&[u8], Stem); 2] = [(b"POW", FLOAT), (b"POL", FLOAT)];

/// The stems that begin with R.
pub static R_STEMS: [(&[u8], Stem); 9] = [
    (b"RSB", Stem::Data(Operation::Rsb)),
    (b"RSC", Stem::Data(Operation::Rsc)),
    (b"RSF", FLOAT),
    (b"RDF", FLOAT),
    (b"RPW", FLOAT),
    (b"RMF", FLOAT),
    (b"RND", FLOAT),
    (b"RFS", FLOAT),
    (b"RFC", FLOAT),
];

/// The stems that begin with S.
pub static S_STEMS: [(&[u8], Stem); 13] = [
    (b"SUB", Stem::Data(Operation::Sub)),
    (b"SBC", Stem::Data(Operation::Sbc)),
    (b"SMULL", Stem::MultiplyLong(true, false)),
    (b"SMLAL", Stem::MultiplyLong(true, true)),
    (b"STR", Stem::Transfer(false)),
    (b"STM", Stem::TransferBlock(false)),
    (b"SWP", Stem::Swap),
    (b"SWI", Stem::Bare(Mnemonic::SoftwareInterrupt)),
    (b"SUF", FLOAT),
    (b"SQT", FLOAT),
    (b"SIN", FLOAT),
    (b"STF", FLOAT),
    (b"SFM", Stem::FloatBlock),
];

/// The stems that begin with T.
pub static T_STEMS: [(&[u8], Stem); 3] = [
    (b"TST", Stem::Data(Operation::Tst)),
    (b"TEQ", Stem::Data(Operation::Teq)),
    (b"TAN", FLOAT),
];

/// The stems that begin with U.
pub static U_STEMS: [(&[u8], Stem); 3] = [
    (b"UMULL", Stem::MultiplyLong(false, false)),
    (b"UMLAL", Stem::MultiplyLong(false, true)),
    (b"URD", FLOAT),
];

/// The stems that begin with W.
pub static W_STEMS: [(&[u8], Stem); 2] = [(b"WFS", FLOAT), (b"WFC", FLOAT)];

/// The conditions.
pub static CONDITIONS: [(&[u8], Condition); 17] = [
    (b"EQ", Condition::Eq),
    (b"NE", Condition::Ne),
    (b"CS", Condition::Cs),
    (b"HS", Condition::Cs),
    (b"CC", Condition::Cc),
    (b"LO", Condition::Cc),
    (b"MI", Condition::Mi),
    (b"PL", Condition::Pl),
    (b"VS", Condition::Vs),
    (b"VC", Condition::Vc),
    (b"HI", Condition::Hi),
    (b"LS", Condition::Ls),
    (b"GE", Condition::Ge),
    (b"LT", Condition::Lt),
    (b"GT", Condition::Gt),
    (b"LE", Condition::Le),
    (b"AL", Condition::Al),
];

/// Whether the flags are set.
pub static FLAGS: [(&[u8], bool); 2] = [(b"", false), (b"S", true)];

/// Whether a byte is swapped.
pub static BYTE: [(&[u8], bool); 2] = [(b"", false), (b"B", true)];

/// Whether a byte is moved, and whether the address is translated.
pub static WORD: [(&[u8], (bool, bool)); 4] = [
    (b"", (false, false)),
    (b"B", (true, false)),
    (b"T", (false, true)),
    (b"BT", (true, true)),
];

/// What a load of less than a word moves, but for a plain byte.
pub static HALF_LOADS: [(&[u8], HalfKind); 3] = [
    (b"H", HalfKind::Half),
    (b"SB", HalfKind::SignedByte),
    (b"SH", HalfKind::SignedHalf),
];

/// The same of a store, which has no sign.
pub static HALF_STORES: [(&[u8], HalfKind); 1] = [(b"H", HalfKind::Half)];

/// The order of a load of several registers.
pub static LOAD_MODES: [(&[u8], BlockMode); 8] = [
    (b"IA", BlockMode::IncrementAfter),
    (b"IB", BlockMode::IncrementBefore),
    (b"DA", BlockMode::DecrementAfter),
    (b"DB", BlockMode::DecrementBefore),
    (b"FD", BlockMode::IncrementAfter),
    (b"ED", BlockMode::IncrementBefore),
    (b"FA", BlockMode::DecrementAfter),
    (b"EA", BlockMode::DecrementBefore),
];

/// The order of a store of several registers.
pub static STORE_MODES: [(&[u8], BlockMode); 8] = [
    (b"IA", BlockMode::IncrementAfter),
    (b"IB", BlockMode::IncrementBefore),
    (b"DA", BlockMode::DecrementAfter),
    (b"DB", BlockMode::DecrementBefore),
    (b"FD", BlockMode::DecrementBefore),
    (b"ED", BlockMode::DecrementAfter),
    (b"FA", BlockMode::IncrementBefore),
    (b"EA", BlockMode::IncrementAfter),
];

/// The order of a transfer of floating-point registers: none, or that of a stack.
pub static FLOAT_MODES: [(&[u8], Mnemonic); 3] = [
    (b"", Mnemonic::FloatingPoint),
    (b"FD", Mnemonic::FloatingPoint),
    (b"EA", Mnemonic::FloatingPoint),
];
