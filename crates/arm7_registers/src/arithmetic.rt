//! What a data-processing operation computes.

ghost use Rattle.std.specs.Prelude.{◌≡◌, ◌==◌, ◌&&◌, not, true, false, MatchOption};
ghost use Rattle.sdt_word.specs.Numbers.{bit, flag};
ghost use Rattle.arm7_model.specs.Arithmetic.{computed, difference, is_comparison, overflow_in, sum_with};
ghost use Rattle.arm7_registers.specs.Values.{computed_of};

use crate::flags::{bit, carry_in, overflow_in};
use crate::shifter::Operand;
use arm_isa::Operation;

/// A result with its carry and overflow.
#[derive(Clone, Copy)]
pub struct Computation {
    pub value: u32,
    pub carry: bool,
    pub overflow: bool,
}

/// Whether two operands have one sign and their sum the other.
fn overflows(a: u32, b: u32, sum: u32) -> bool
    ensures { result ≡ (bit a 31 == bit b 31 && not (bit sum 31 == bit a 31)) }
{
    bit(a, 31) == bit(b, 31) && bit(sum, 31) != bit(a, 31)
}

/// Two words and a carry.
#[tactic(auto, unfolding(arm7_model::specs::Arithmetic::sum_with))]
pub fn sum_with(a: u32, b: u32, carry: bool) -> Computation
    ensures { computed_of result ≡ sum_with a b (flag carry) }
{
    let sum = u64::from(a) + u64::from(b) + u64::from(carry);
    let value = (sum % 0x1_0000_0000) as u32;
    Computation {
        value,
        carry: sum >= 0x1_0000_0000,
        overflow: overflows(a, b, value),
    }
}

/// `a` less `b`; the carry is "no borrow".
pub fn difference(a: u32, b: u32) -> Computation
    ensures { computed_of result ≡ difference a b }
{
    sum_with(a, !b, true)
}

/// A value with the shifter's carry and the overflow of CPSR.
fn logical(value: u32, carry: bool, status: u32) -> Computation
    ensures { computed_of result ≡ record { value = value; carry = flag carry; overflow = overflow_in status } }
{
    Computation {
        value,
        carry,
        overflow: overflow_in(status),
    }
}

/// The operation on a register's value and the shifter's operand, with CPSR as it is before.
#[tactic(auto, unfolding(arm7_model::specs::Arithmetic::computed))]
pub fn computed(operation: Operation, a: u32, operand: Operand, status: u32) -> Computation
    ensures { computed_of result ≡ computed operation a operand.value (flag operand.carry) status }
{
    let Operand { value: b, carry } = operand;
    match operation {
        Operation::And | Operation::Tst => logical(a & b, carry, status),
        Operation::Eor | Operation::Teq => logical(a ^ b, carry, status),
        Operation::Sub | Operation::Cmp => difference(a, b),
        Operation::Rsb => difference(b, a),
        Operation::Add | Operation::Cmn => sum_with(a, b, false),
        Operation::Adc => sum_with(a, b, carry_in(status)),
        Operation::Sbc => sum_with(a, !b, carry_in(status)),
        Operation::Rsc => sum_with(b, !a, carry_in(status)),
        Operation::Orr => logical(a | b, carry, status),
        Operation::Mov => logical(b, carry, status),
        Operation::Bic => logical(a & !b, carry, status),
        Operation::Mvn => logical(!b, carry, status),
    }
}

/// The word that two words and a carry make.
#[tactic(auto, unfolding(arm7_model::specs::Arithmetic::sum_with))]
fn sum_of(a: u32, b: u32, carry: bool) -> u32
    ensures { result ≡ (sum_with a b (flag carry)).value }
{
    a.wrapping_add(b).wrapping_add(u32::from(carry))
}

/// What the operation writes; nothing, where it sets flags alone.
#[inline(always)]
#[tactic(auto, unfolding(arm7_model::specs::Arithmetic::computed))]
pub fn value_of(operation: Operation, a: u32, operand: Operand, status: u32) -> Option<u32>
    ensures { MatchOption result (is_comparison operation ≡ true) (λ v. (is_comparison operation ≡ false) × (v ≡ (computed operation a operand.value (flag operand.carry) status).value)) }
{
    let b = operand.value;
    let v = match operation {
        Operation::And => a & b,
        Operation::Eor => a ^ b,
        Operation::Sub => sum_of(a, !b, true),
        Operation::Rsb => sum_of(b, !a, true),
        Operation::Add => sum_of(a, b, false),
        Operation::Adc => sum_of(a, b, carry_in(status)),
        Operation::Sbc => sum_of(a, !b, carry_in(status)),
        Operation::Rsc => sum_of(b, !a, carry_in(status)),
        Operation::Orr => a | b,
        Operation::Mov => b,
        Operation::Bic => a & !b,
        Operation::Mvn => !b,
        Operation::Tst | Operation::Teq | Operation::Cmp | Operation::Cmn => return None,
    };
    Some(v)
}

/// Whether the operation sets flags alone.
pub fn is_comparison(operation: Operation) -> bool
    ensures { result ≡ is_comparison operation }
{
    matches!(
        operation,
        Operation::Tst | Operation::Teq | Operation::Cmp | Operation::Cmn
    )
}
