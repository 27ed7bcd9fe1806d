//! The names of operations and of their forms in ARM state.

ghost use Rattle.std.specs.Prelude.{◌≡◌};
ghost use Rattle.sdt_listing.specs.ArmTexts as texts;

use arm_isa::{HalfKind, Operation};

pub fn operation_name(operation: Operation) -> &'static [u8]
    ensures { result.now ≡ texts.operation_name operation }
{
    match operation {
        Operation::And => b"AND",
        Operation::Eor => b"EOR",
        Operation::Sub => b"SUB",
        Operation::Rsb => b"RSB",
        Operation::Add => b"ADD",
        Operation::Adc => b"ADC",
        Operation::Sbc => b"SBC",
        Operation::Rsc => b"RSC",
        Operation::Tst => b"TST",
        Operation::Teq => b"TEQ",
        Operation::Cmp => b"CMP",
        Operation::Cmn => b"CMN",
        Operation::Orr => b"ORR",
        Operation::Mov => b"MOV",
        Operation::Bic => b"BIC",
        Operation::Mvn => b"MVN",
    }
}

pub fn is_comparison(operation: Operation) -> bool
    ensures { result ≡ texts.is_comparison operation }
{
    match operation {
        Operation::Tst | Operation::Teq | Operation::Cmp | Operation::Cmn => true,
        _ => false,
    }
}

pub fn is_move(operation: Operation) -> bool
    ensures { result ≡ texts.is_move operation }
{
    match operation {
        Operation::Mov | Operation::Mvn => true,
        _ => false,
    }
}

pub fn marks_flags(operation: Operation, set_flags: bool) -> bool
    ensures { result ≡ texts.marks_flags operation set_flags }
{
    !is_comparison(operation) && set_flags
}

pub fn multiply_name(accumulate: bool) -> &'static [u8]
    ensures { result.now ≡ texts.multiply_name accumulate }
{
    if accumulate { b"MLA" } else { b"MUL" }
}

pub fn long_name(signed: bool, accumulate: bool) -> &'static [u8]
    ensures { result.now ≡ texts.long_name signed accumulate }
{
    match (signed, accumulate) {
        (true, true) => b"SMLAL",
        (true, false) => b"SMULL",
        (false, true) => b"UMLAL",
        (false, false) => b"UMULL",
    }
}

pub fn status_name(saved: bool) -> &'static [u8]
    ensures { result.now ≡ texts.status_name saved }
{
    if saved { b"SPSR" } else { b"CPSR" }
}

pub fn transfer_name(load: bool) -> &'static [u8]
    ensures { result.now ≡ texts.transfer_name load }
{
    if load { b"LDR" } else { b"STR" }
}

pub fn word_suffix(pre: bool, byte: bool, write_back: bool) -> &'static [u8]
    ensures { result.now ≡ texts.word_suffix pre byte write_back }
{
    match (byte, !pre && write_back) {
        (true, true) => b"BT",
        (true, false) => b"B",
        (false, true) => b"T",
        (false, false) => b"",
    }
}

pub fn half_suffix(kind: HalfKind) -> &'static [u8]
    ensures { result.now ≡ texts.half_suffix kind }
{
    match kind {
        HalfKind::Half => b"H",
        HalfKind::SignedByte => b"SB",
        HalfKind::SignedHalf => b"SH",
    }
}

pub fn sign(up: bool) -> &'static [u8]
    ensures { result.now ≡ texts.sign up }
{
    if up { b"" } else { b"-" }
}

pub fn block_mode(pre: bool, up: bool) -> &'static [u8]
    ensures { result.now ≡ texts.block_mode pre up }
{
    match (pre, up) {
        (true, true) => b"IB",
        (true, false) => b"DB",
        (false, true) => b"IA",
        (false, false) => b"DA",
    }
}

pub fn block_name(load: bool) -> &'static [u8]
    ensures { result.now ≡ texts.block_name load }
{
    if load { b"LDM" } else { b"STM" }
}

pub fn branch_name(link: bool) -> &'static [u8]
    ensures { result.now ≡ texts.branch_name link }
{
    if link { b"BL" } else { b"B" }
}
