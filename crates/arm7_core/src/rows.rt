//! Rows of Thumb state that aren't named operations of the registers.

ghost use Rattle.std.specs.Prelude.{◌≡◌, ◌<◌, ◌+◌, ◌*◌, ◌%◌, ◌^◌, true, false, not, if◌then◌else◌};
ghost use Rattle.arm_isa.specs.declared.instr.Operation.TheVariants as operation;
ghost use Rattle.arm7_model.specs.Arithmetic.{carry_in, passes, shifted_by_amount};
ghost use Rattle.arm7_model.specs.Branches.{linked_first, linked_second};
ghost use Rattle.arm7_model.specs.Data.{calculated};
ghost use Rattle.arm7_model.specs.Registers.{register};
ghost use Rattle.arm7_model.specs.ThumbStep.{multiple_write_back, pc_base, plain_operand, shift_kind, stack_list, thumb_branched};

use arm_isa::Operation;
use arm7_model::ArmState;
use arm7_registers::{
    branch_thumb, calculate, carry_in, link_first, link_second, multiple_write_back, passes,
    pc_base, plain_operand, register, shift_kind, shifted_by_amount, stack_list,
};
use arm7_transfers::{Base, Block};
use sdt_word::Condition;
use thumb_isa::ThumbShift;

/// A shift by a number.
pub fn shift_immediate(core: &mut ArmState, shift: ThumbShift, amount: u8, rs: u8, rd: u8)
    requires source { rs < 16 }
    requires target { rd < 16 }
    ensures { core.new ≡ calculated operation.Mov true 0 rd (shifted_by_amount (shift_kind shift) (register core.old rs) amount (carry_in core.old.cpsr)) core.old }
{
    let operand = shifted_by_amount(
        shift_kind(shift),
        register(core, rs),
        u32::from(amount),
        carry_in(core.cpsr),
    );
    calculate(core, Operation::Mov, true, 0, rd, operand);
}

/// ADD or SUB.
fn sum_operation(subtract: bool) -> Operation
    ensures { result ≡ (if subtract then operation.Sub else operation.Add) }
{
    if subtract {
        Operation::Sub
    } else {
        Operation::Add
    }
}

/// A number of three bits, or a register.
fn sum_operand(core: &ArmState, immediate: bool, operand: u8) -> u32
    requires { operand < 16 }
    ensures { result ≡ (if immediate then operand else register core.now operand) }
{
    if immediate {
        u32::from(operand)
    } else {
        register(core, operand)
    }
}

/// ADD and SUB of two registers, or of a register and a number of three bits.
pub fn add_subtract(
    core: &mut ArmState,
    immediate: bool,
    subtract: bool,
    operand: u8,
    rs: u8,
    rd: u8,
)
    requires second { operand < 16 }
    requires source { rs < 16 }
    requires target { rd < 16 }
    ensures { core.new ≡ calculated (if subtract then operation.Sub else operation.Add) true rs rd (plain_operand (if immediate then operand else register core.old operand) core.old) core.old }
{
    let v = plain_operand(sum_operand(core, immediate, operand), core);
    calculate(core, sum_operation(subtract), true, rs, rd, v);
}

/// The address of a literal.
pub fn literal_address(core: &ArmState, offset: u8) -> u32
    ensures { result ≡ (pc_base core.now + 4 * offset) % 2 ^ 32 }
{
    pc_base(core).wrapping_add(4 * u32::from(offset))
}

/// The base of an access at an offset above a register.
pub fn above(rn: u8, offset: u32) -> Base
    ensures { result ≡ record { pre = true; up = true; write_back = false; register = rn; offset = offset } }
{
    Base {
        pre: true,
        up: true,
        write_back: false,
        register: rn,
        offset,
    }
}

/// A branch where its condition passes.
pub fn branch_where(core: &mut ArmState, condition: Condition, offset: u8)
    ensures { core.new ≡ (if passes condition core.old.cpsr then thumb_branched 8 offset core.old else core.old) }
{
    if passes(condition, core.cpsr) {
        branch_thumb(core, 8, u32::from(offset));
    }
}

/// A half of BL.
pub fn link_half(core: &mut ArmState, second: bool, offset: u16)
    ensures { core.new ≡ (if second then linked_second offset else linked_first offset) core.old }
{
    if second {
        link_second(core, u32::from(offset));
    } else {
        link_first(core, u32::from(offset));
    }
}

/// The block of PUSH, which stores below sp, and of POP.
pub fn stack_block(load: bool, link: bool, list: u8) -> Block
    ensures { result ≡ record { pre = not load; up = load; user = false; write_back = true; register = 13; list = stack_list load link list } }
{
    Block {
        pre: !load,
        up: load,
        user: false,
        write_back: true,
        register: 13,
        list: stack_list(load, link, list),
    }
}

/// The block of LDMIA and STMIA.
pub fn multiple_block(load: bool, rn: u8, list: u8) -> Block
    requires { rn < 16 }
    ensures { result ≡ record { pre = false; up = true; user = false; write_back = multiple_write_back load rn list; register = rn; list = list } }
{
    Block {
        pre: false,
        up: true,
        user: false,
        write_back: multiple_write_back(load, rn, list),
        register: rn,
        list: u32::from(list),
    }
}
