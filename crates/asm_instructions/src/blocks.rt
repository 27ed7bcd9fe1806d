//! Loads and stores of several registers.

ghost use Rattle.std.specs.Prelude.{◌≡◌, ◌<◌, ◌*◌, ◌^◌, Ok};
ghost use Rattle.std.specs.List.{list_any};
ghost use Rattle.sdt_word.specs.Numbers.{flag};
ghost use Rattle.asm_model.specs.declared.arm_lines.ArmLine.TheVariants as arm;
ghost use Rattle.source_model.specs.ArmForms as forms;
ghost use Rattle.asm_instructions.specs.Lookups.{context_of};

use crate::lookups::{Lookup, register};
use arm_isa::ArmInstr;
use asm_model::{BlockMode, ListItem, Register, RegisterList};
use sdt_word::Condition;

fn is_listed_by(lookup: &Lookup<'_>, number: u32, item: &ListItem) -> bool
    ensures { result ≡ forms.is_listed_by (context_of lookup.now) number item.now }
{
    match item {
        ListItem::One(one) => u32::from(register(lookup, one)) == number,
        ListItem::Range { first, last } => {
            u32::from(register(lookup, first)) <= number
                && number <= u32::from(register(lookup, last))
        }
    }
}

/// Whether a list has a register.
fn is_listed(lookup: &Lookup<'_>, number: u32, items: &[ListItem]) -> bool
    ensures { result ≡ list_any (forms.is_listed_by (context_of lookup.now) number) items.now }
{
    items.iter().any(|item| is_listed_by(lookup, number, item))
}

/// The bit of a register, where it is listed.
fn bit_of(number: u32, listed: bool) -> u32
    requires { number < 16 }
    ensures { result ≡ flag listed * 2 ^ number }
{
    if listed {
        return 1 << number;
    }
    0
}

/// A bit for each register of a list.
pub fn list_bits(lookup: &Lookup<'_>, items: &[ListItem]) -> u16
    ensures { result ≡ forms.list_bits (context_of lookup.now) items.now 0 16 }
{
    let mut bits = 0_u32;
    'registers: for number in 0..16_u32 {
        bits += bit_of(number, is_listed(lookup, number, items));
    }
    bits as u16
}

fn is_block_before(mode: BlockMode) -> bool
    ensures { result ≡ forms.is_block_before mode }
{
    match mode {
        BlockMode::IncrementAfter => false,
        BlockMode::IncrementBefore => true,
        BlockMode::DecrementAfter => false,
        BlockMode::DecrementBefore => true,
    }
}

fn is_block_up(mode: BlockMode) -> bool
    ensures { result ≡ forms.is_block_up mode }
{
    match mode {
        BlockMode::IncrementAfter => true,
        BlockMode::IncrementBefore => true,
        BlockMode::DecrementAfter => false,
        BlockMode::DecrementBefore => false,
    }
}

pub fn transfer_block(
    lookup: &Lookup<'_>,
    condition: Condition,
    load: bool,
    mode: BlockMode,
    rn: &Register,
    write_back: bool,
    list: &RegisterList,
    user: bool,
) -> ArmInstr
    ensures { Ok result ≡ forms.arm_instruction (context_of lookup.now)
        (arm.TransferBlock condition load mode rn.now write_back list.now user) }
{
    ArmInstr::TransferBlock {
        condition,
        pre: is_block_before(mode),
        up: is_block_up(mode),
        user,
        write_back,
        load,
        rn: register(lookup, rn),
        list: list_bits(lookup, list.items.as_slice()),
    }
}
