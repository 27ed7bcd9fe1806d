//! Instructions of Thumb state: their operands, when they are unpredictable, and what those do that touch
//! registers alone.

ghost use Rattle.std.specs.Prelude.{◌≡◌, ◌<◌, ◌≤◌, ◌*◌, ◌^◌, ◌==◌, ◌&&◌, ◌||◌, not, if◌then◌else◌};
ghost use Rattle.sdt_word.specs.declared.codes.Width.TheVariants as width;
ghost use Rattle.sdt_word.specs.Rows.{FitsRow};
ghost use Rattle.thumb_isa.specs.ThumbRows.{thumb_fields, thumb_row};
ghost use Rattle.thumb_isa.specs.declared.instr.ThumbOperation.TheVariants as thumb;
ghost use Rattle.arm7_model.specs.ArmStep.{is_lowest};
ghost use Rattle.arm7_model.specs.Blocks.{lists};
ghost use Rattle.arm7_model.specs.Registers.{register};
ghost use Rattle.arm7_model.specs.ThumbStep.{address_loaded, bad_high, bad_place, combined, has_sign, high_done, high_number, immediate_done, is_misaligned, multiple_write_back, pc_base, plain_operand, register_done, shift_kind, shifted_register, signed_load, signed_width, stack_adjusted, stack_list, thumb_branched, thumb_unpredictable};
ghost use Rattle.arm7_registers.specs.Values.{shifted_of};

use crate::addresses::{aligned, is_lowest, lists, moved_by};
use crate::branches::{branch_target, exchange_state};
use crate::flags::carry_in;
use crate::operands::byte_width;
use crate::processing::{calculate, multiply};
use crate::registers::{operand_at, register, set_register};
use crate::shifter::{Operand, shifted_by_register};
use arm_isa::Operation;
use arm7_model::ArmState;
use sdt_word::{ShiftKind, Width};
use thumb_isa::{
    HighOperation, ImmediateOperation, SignedTransfer, ThumbInstr, ThumbOperation, ThumbShift,
};

/// The kind of a shift by a number.
pub fn shift_kind(shift: ThumbShift) -> ShiftKind
    ensures { result ≡ shift_kind shift }
{
    match shift {
        ThumbShift::Lsl => ShiftKind::Lsl,
        ThumbShift::Lsr => ShiftKind::Lsr,
        ThumbShift::Asr => ShiftKind::Asr,
    }
}

/// A number as an operand: the shifter's carry is C.
#[tactic(auto, unfolding(arm7_model::specs::ThumbStep::plain_operand))]
pub fn plain_operand(v: u32, state: &ArmState) -> Operand
    ensures { shifted_of result ≡ plain_operand v state.now }
{
    Operand {
        value: v,
        carry: carry_in(state.cpsr),
    }
}

/// A register of the upper eight where `high`.
pub fn high_number(high: bool, k: u8) -> u8
    requires { k < 8 }
    ensures value { result ≡ high_number high k }
    ensures below { result < 16 }
{
    if high { k + 8 } else { k }
}

/// pc as a base: the low two bits are cleared.
#[tactic(auto, unfolding(arm7_model::specs::ThumbStep::pc_base))]
pub fn pc_base(state: &ArmState) -> u32
    ensures { result ≡ pc_base state.now }
{
    aligned(operand_at(state, 15), Width::Word)
}

/// The width of a transfer of a half-word or of a signed byte.
pub fn signed_width(kind: SignedTransfer) -> Width
    ensures { result ≡ signed_width kind }
{
    match kind {
        SignedTransfer::LoadSignedByte => Width::Byte,
        _ => Width::Half,
    }
}

/// Whether it is a load.
pub fn signed_load(kind: SignedTransfer) -> bool
    ensures { result ≡ signed_load kind }
{
    !matches!(kind, SignedTransfer::StoreHalf)
}

/// Whether what it loads has a sign.
pub fn has_sign(kind: SignedTransfer) -> bool
    ensures { result ≡ has_sign kind }
{
    matches!(
        kind,
        SignedTransfer::LoadSignedByte | SignedTransfer::LoadSignedHalf
    )
}

/// The list of PUSH, which stores lr too where `link`, or of POP, which then loads pc.
pub fn stack_list(load: bool, link: bool, list: u8) -> u32
    ensures value { result ≡ stack_list load link list }
    ensures below { result < 2 ^ 16 }
{
    match (link, load) {
        (true, true) => u32::from(list) + 0x8000,
        (true, false) => u32::from(list) + 0x4000,
        (false, _) => u32::from(list),
    }
}

/// Whether LDMIA or STMIA writes its base back: a load with its base in the list leaves the loaded value.
pub fn multiple_write_back(load: bool, rn: u8, list: u8) -> bool
    requires { rn < 16 }
    ensures { result ≡ multiple_write_back load rn list }
{
    !(load && lists(u32::from(list), rn))
}

/// MOV, CMP, ADD and SUB of a register and a byte.
#[tactic(auto, unfolding(arm7_model::specs::ThumbStep::immediate_done))]
pub fn do_immediate(state: &mut ArmState, operation: ImmediateOperation, rd: u8, byte: u8)
    requires { rd < 16 }
    ensures { state.new ≡ immediate_done operation rd byte state.old }
{
    let operand = plain_operand(u32::from(byte), state);
    match operation {
        ImmediateOperation::Mov => calculate(state, Operation::Mov, true, 0, rd, operand),
        ImmediateOperation::Cmp => calculate(state, Operation::Cmp, true, rd, 0, operand),
        ImmediateOperation::Add => calculate(state, Operation::Add, true, rd, rd, operand),
        ImmediateOperation::Sub => calculate(state, Operation::Sub, true, rd, rd, operand),
    }
}

/// An operation of two registers.
#[tactic(auto, unfolding(arm7_model::specs::ThumbStep::combined))]
fn combine(state: &mut ArmState, operation: Operation, rs: u8, rd: u8)
    requires source { rs < 16 }
    requires target { rd < 16 }
    ensures { state.new ≡ combined operation rs rd state.old }
{
    let operand = plain_operand(register(state, rs), state);
    calculate(state, operation, true, rd, rd, operand);
}

/// A shift of register `rd` by register `rs`.
#[tactic(auto, unfolding(arm7_model::specs::ThumbStep::shifted_register))]
fn shift_register(state: &mut ArmState, kind: ShiftKind, rs: u8, rd: u8)
    requires source { rs < 16 }
    requires target { rd < 16 }
    ensures { state.new ≡ shifted_register kind rs rd state.old }
{
    let n = register(state, rs) % 256;
    let operand = shifted_by_register(kind, register(state, rd), n, carry_in(state.cpsr));
    calculate(state, Operation::Mov, true, 0, rd, operand);
}

/// 0 less register `rs`.
#[tactic(auto, unfolding(arm7_model::specs::ThumbStep::register_done))]
fn negate(state: &mut ArmState, rs: u8, rd: u8)
    requires source { rs < 16 }
    requires target { rd < 16 }
    ensures { state.new ≡ register_done thumb.Neg rs rd state.old }
{
    let operand = plain_operand(0, state);
    calculate(state, Operation::Rsb, true, rs, rd, operand);
}

/// The operations of two low registers.
#[tactic(auto, unfolding(arm7_model::specs::ThumbStep::register_done))]
pub fn do_register(state: &mut ArmState, operation: ThumbOperation, rs: u8, rd: u8)
    requires source { rs < 16 }
    requires target { rd < 16 }
    ensures { state.new ≡ register_done operation rs rd state.old }
{
    match operation {
        ThumbOperation::And => combine(state, Operation::And, rs, rd),
        ThumbOperation::Eor => combine(state, Operation::Eor, rs, rd),
        ThumbOperation::Lsl => shift_register(state, ShiftKind::Lsl, rs, rd),
        ThumbOperation::Lsr => shift_register(state, ShiftKind::Lsr, rs, rd),
        ThumbOperation::Asr => shift_register(state, ShiftKind::Asr, rs, rd),
        ThumbOperation::Adc => combine(state, Operation::Adc, rs, rd),
        ThumbOperation::Sbc => combine(state, Operation::Sbc, rs, rd),
        ThumbOperation::Ror => shift_register(state, ShiftKind::Ror, rs, rd),
        ThumbOperation::Tst => combine(state, Operation::Tst, rs, rd),
        ThumbOperation::Neg => negate(state, rs, rd),
        ThumbOperation::Cmp => combine(state, Operation::Cmp, rs, rd),
        ThumbOperation::Cmn => combine(state, Operation::Cmn, rs, rd),
        ThumbOperation::Orr => combine(state, Operation::Orr, rs, rd),
        ThumbOperation::Mul => multiply(state, false, true, rd, 0, rd, rs),
        ThumbOperation::Bic => combine(state, Operation::Bic, rs, rd),
        ThumbOperation::Mvn => combine(state, Operation::Mvn, rs, rd),
    }
}

/// The operations that may name high registers; of these only CMP sets flags.
#[tactic(auto, unfolding(arm7_model::specs::ThumbStep::high_done))]
pub fn do_high(state: &mut ArmState, operation: HighOperation, rs: u8, rd: u8)
    requires source { rs < 16 }
    requires target { rd < 16 }
    ensures { state.new ≡ high_done operation rs rd state.old }
{
    let v = operand_at(state, rs);
    let operand = plain_operand(v, state);
    match operation {
        HighOperation::Add => calculate(state, Operation::Add, false, rd, rd, operand),
        HighOperation::Cmp => calculate(state, Operation::Cmp, true, rd, 0, operand),
        HighOperation::Mov => calculate(state, Operation::Mov, false, 0, rd, operand),
        HighOperation::Bx => exchange_state(state, v),
    }
}

/// sp or pc, as LoadAddress adds to it.
fn address_base(state: &ArmState, stack: bool) -> u32
    ensures { result ≡ (if stack then register state.now 13 else pc_base state.now) }
{
    if stack {
        register(state, 13)
    } else {
        pc_base(state)
    }
}

/// ADD of pc or sp and `4 i` into a register.
#[tactic(auto, unfolding(arm7_model::specs::ThumbStep::address_loaded))]
pub fn load_address(state: &mut ArmState, stack: bool, rd: u8, i: u8)
    requires { rd < 16 }
    ensures { state.new ≡ address_loaded stack rd i state.old }
{
    let address = address_base(state, stack).wrapping_add(4 * u32::from(i));
    set_register(state, rd, address);
}

/// ADD and SUB of `4 i` and sp.
#[tactic(auto, unfolding(arm7_model::specs::ThumbStep::stack_adjusted))]
pub fn adjust_stack(state: &mut ArmState, subtract: bool, i: u8)
    ensures { state.new ≡ stack_adjusted subtract i state.old }
{
    let address = moved_by(!subtract, register(state, 13), 4 * u32::from(i));
    set_register(state, 13, address);
}

/// A branch by an offset of `width` bits in half-words.
#[tactic(auto, unfolding(arm7_model::specs::ThumbStep::thumb_branched))]
pub fn branch_thumb(state: &mut ArmState, width: u32, i: u32)
    requires low { 1 ≤ width }
    requires high { width ≤ 32 }
    ensures { state.new ≡ thumb_branched width i state.old }
{
    let target = branch_target(state, 2, width, i);
    set_register(state, 15, target);
}

/// Whether a high operation names two low registers, compares pc, or branches to an address that no
/// state has.
#[tactic(auto, unfolding(arm7_model::specs::ThumbStep::bad_high))]
fn bad_high(
    operation: HighOperation,
    high_rd: bool,
    high_rs: bool,
    rs: u8,
    rd: u8,
    state: &ArmState,
) -> bool
    requires source { rs < 8 }
    requires target { rd < 8 }
    ensures { result ≡ bad_high operation high_rd high_rs rs rd state.now }
{
    match operation {
        HighOperation::Add | HighOperation::Mov => !high_rd && !high_rs,
        HighOperation::Cmp => (!high_rd && !high_rs) || high_number(high_rd, rd) == 15,
        HighOperation::Bx => operand_at(state, high_number(high_rs, rs)) % 4 == 2,
    }
}

/// Whether an address isn't a multiple of its width.
#[tactic(auto, unfolding(arm7_model::specs::ThumbStep::is_misaligned))]
fn is_misaligned(width: Width, a: u32) -> bool
    ensures { result ≡ is_misaligned width a }
{
    match width {
        Width::Byte => false,
        Width::Half => a % 2 != 0,
        Width::Word => a % 4 != 0,
    }
}

/// The same of an offset from register `rn`.
#[tactic(auto, unfolding(arm7_model::specs::ThumbStep::bad_place))]
fn bad_place(width: Width, rn: u8, offset: u32, state: &ArmState) -> bool
    requires { rn < 16 }
    ensures { result ≡ bad_place width rn offset state.now }
{
    is_misaligned(width, moved_by(true, register(state, rn), offset))
}

/// The offset of a transfer: `i` bytes or words.
pub fn immediate_offset(byte: bool, i: u8) -> u32
    ensures { result ≡ (if byte then i else 4 * i) }
{
    if byte { u32::from(i) } else { 4 * u32::from(i) }
}

/// Whether a block of several registers has none, an unaligned base, or a store of its base not as the
/// lowest.
fn bad_multiple(load: bool, rn: u8, list: u8, state: &ArmState) -> bool
    requires { rn < 16 }
    ensures { result ≡ (list == 0 || (bad_place width.Word rn 0 state.now || (not load && (lists list rn && not (is_lowest list rn))))) }
{
    list == 0
        || bad_place(Width::Word, rn, 0, state)
        || (!load && lists(u32::from(list), rn) && !is_lowest(u32::from(list), rn))
}

/// Whether an instruction is unpredictable in a state with pc at the next instruction.
#[tactic(auto, unfolding(arm7_model::specs::ThumbStep::thumb_unpredictable))]
pub fn thumb_unpredictable(i: &ThumbInstr, state: &ArmState) -> bool
    requires { FitsRow (thumb_row i.now) (thumb_fields i.now) }
    ensures { result ≡ thumb_unpredictable i.now state.now }
{
    match *i {
        ThumbInstr::DataRegister {
            operation: ThumbOperation::Mul,
            rs,
            rd,
        } => rd == rs,
        ThumbInstr::HighRegister {
            operation,
            high_rd,
            high_rs,
            rs,
            rd,
        } => { bad_high(operation, high_rd, high_rs, rs, rd, state) }
        ThumbInstr::TransferRegister { byte, ro, rn, .. } => {
            bad_place(byte_width(byte), rn, register(state, ro), state)
        }
        ThumbInstr::TransferSigned { kind, ro, rn, .. } => {
            bad_place(signed_width(kind), rn, register(state, ro), state)
        }
        ThumbInstr::TransferImmediate {
            byte,
            offset,
            rn,
            ..
        } => { bad_place(byte_width(byte), rn, immediate_offset(byte, offset), state) }
        ThumbInstr::TransferHalf { offset, rn, .. } => {
            bad_place(Width::Half, rn, 2 * u32::from(offset), state)
        }
        ThumbInstr::TransferStack { offset, .. } => {
            bad_place(Width::Word, 13, 4 * u32::from(offset), state)
        }
        ThumbInstr::PushPop { link, list, .. } => list == 0 && !link,
        ThumbInstr::TransferMultiple { load, rn, list } => bad_multiple(load, rn, list, state),
        _ => false,
    }
}
