//! The registers of Thumb instructions.

ghost use Rattle.std.specs.Prelude.{◌≡◌, IfOk};
ghost use Rattle.asm_thumb.specs.Operands as operands;

use asm_arm::lists;
use asm_arm::operands::marked;
use asm_expr::or_kind;
use asm_model::{ListItem, Register, SharedText, Token};
use sdt_fault::kinds::LineKind;
use sdt_fault::{List, NoMemory};
use std::alloc::Global;

/// Whether a register is sp, by its own name.
pub fn is_sp(register: &Register) -> bool
    ensures { result ≡ operands.is_sp register.now }
{
    match register {
        Register::Number(number) => *number == 13,
        Register::Named(_) => false,
    }
}

/// Whether a register is pc, by its own name.
pub fn is_pc(register: &Register) -> bool
    ensures { result ≡ operands.is_pc register.now }
{
    match register {
        Register::Number(number) => *number == 15,
        Register::Named(_) => false,
    }
}

/// Whether a register is one from r8 to r15, or a name, which may stand for one.
pub fn may_be_high(register: &Register) -> bool
    ensures { result ≡ operands.may_be_high register.now }
{
    match register {
        Register::Number(number) => *number >= 8,
        Register::Named(_) => true,
    }
}

/// A register as it is, once more.
pub fn copy_of(alloc: Global, register: &Register) -> Result<Register, NoMemory>
    ensures { IfOk result (λ copy. copy ≡ register.now) }
{
    match register {
        Register::Number(number) => Ok(Register::Number(*number)),
        Register::Named(name) => Ok(Register::Named(name.share()?)),
    }
}

/// A register list, behind which no `^` stands.
pub fn register_list(
    alloc: Global,
    text: &SharedText,
    tokens: &[Token],
) -> Result<Result<List<ListItem>, LineKind>, NoMemory>
    ensures { IfOk result (λ list. list ≡ operands.register_list text.now tokens.now) }
{
    let (_, mark) = marked(text, b"^", tokens);
    if mark {
        return Ok(Err(LineKind::Syntax));
    }
    let (items, _) = or_kind!(lists::register_list(alloc, text, tokens)?);
    Ok(Ok(items))
}

/// A base that is written back.
pub fn written_base(
    alloc: Global,
    text: &SharedText,
    tokens: &[Token],
) -> Result<Result<Register, LineKind>, NoMemory>
    ensures { IfOk result (λ base. base ≡ operands.written_base text.now tokens.now) }
{
    let (register, mark) = or_kind!(lists::base(alloc, text, tokens)?);
    if mark {
        return Ok(Ok(register));
    }
    Ok(Err(LineKind::Syntax))
}
