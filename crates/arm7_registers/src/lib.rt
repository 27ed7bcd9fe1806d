//! What the instructions of the ARM7TDMI do to its registers: one function for each definition of the
//! model that touches no memory.
#![tactic(auto)]

mod addresses;
mod arithmetic;
mod arm;
mod branches;
mod exceptions;
mod flags;
mod modes;
mod operands;
mod processing;
mod registers;
mod shifter;
mod thumb;

pub use crate::addresses::{
    aligned, block_end, block_start, is_lowest, listed_at, lists, loaded_value, moved_by,
    next_word, set_base, set_block_base, set_listed, set_loaded_pc, transfer_address, writes_back,
};
pub use crate::arithmetic::{Computation, computed, difference, is_comparison, sum_with};
pub use crate::arm::{arm_condition, arm_unpredictable};
pub use crate::branches::{
    branch, branch_target, exchange_state, is_host, link_first, link_second,
};
pub use crate::exceptions::{advance, can_fetch, enter, fetch_width, interrupt};
pub use crate::flags::{bit, carry_in, overflow_in, passes, with_flags};
pub use crate::modes::{bank_in, has_mode, has_saved, is_thumb, is_user};
pub use crate::operands::{
    byte_width, half_offset, half_signed, half_width, register_shifted_operand, shifted_operand,
    transfer_at,
};
pub use crate::processing::{
    calculate, multiply, multiply_long, read_status, status_after, status_with, write_status,
};
pub use crate::registers::{
    operand_at, register, restore, saved, set_cpsr, set_pc, set_register, set_result, set_saved,
    set_user_register, stored_at, user_register,
};
pub use crate::shifter::{
    Operand, as_64_bits, immediate_operand, shifted_by, shifted_by_amount, shifted_by_register,
};
pub use crate::thumb::{
    adjust_stack, branch_thumb, do_high, do_immediate, do_register, has_sign, high_number,
    immediate_offset, load_address, multiple_write_back, pc_base, plain_operand, shift_kind,
    signed_load, signed_width, stack_list, thumb_unpredictable,
};
