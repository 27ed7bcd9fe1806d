//! What the tokens behind an operation word say, in each form of a line.

ghost use Rattle.std.specs.Prelude.{◌≡◌, IfOk, ◌&&◌, Some, None, true, false};
ghost use Rattle.std.specs.Option.{option_copied};
ghost use Rattle.asm_model.specs.Says as says;
ghost use Rattle.asm_model.specs.declared.arm_lines.ArmLine.TheVariants as line;
ghost use Rattle.asm_model.specs.declared.statements.What.TheVariants as what;
ghost use Rattle.asm_model.specs.declared.statements.PseudoLine.TheVariants as pseudo;
ghost use Rattle.asm_arm.specs.Addresses as addresses;
ghost use Rattle.asm_arm.specs.LineForms as lines;
ghost use Rattle.asm_arm.specs.Operands as operands;
ghost use Rattle.asm_arm.specs.Steps.{cut_of};
ghost use Rattle.asm_arm.specs.Mnemonics as words;
ghost use Rattle.asm_model.specs.Readings as readings;
ghost use Rattle.asm_model.specs.declared.operands.Address.TheVariants as address;

use crate::addresses::base;
use crate::lists;
use crate::mnemonics::{Mnemonic, Shape, shape_of};
use crate::operands::{
    Cut, Second, cut_operands, four_registers, register, second_operand, three_registers,
    two_registers, with_second, without_first,
};
use crate::transfers::{HalfTransfer, Transfer, block, transfer_half, word_transfer};
use arm_isa::{HalfKind, Operation};
use asm_expr::kinds::both;
use asm_expr::or_kind;
use asm_expr::read::shared_expression;
use asm_model::{
    ArmLine, Expr, PseudoLine, Register, SharedText, StatusFields, Token, TokenKind, What,
};
use sdt_fault::NoMemory;
use sdt_fault::kinds::LineKind;
use sdt_word::Condition;
use std::alloc::Global;

/// The outcome of a reading: what is said or the kind of its fault, or want of memory.
type ParsedOperation = Result<Result<What, LineKind>, NoMemory>;

/// Data processing as its word says it.
#[derive(Clone, Copy)]
pub struct Process {
    pub condition: Condition,
    pub operation: Operation,
    pub set_flags: bool,
}

/// Data processing, from its operands.
fn data_line(process: Process, rd: Register, rn: Register, second: Second) -> What
    ensures { result ≡ lines.data_line process.condition process.operation process.set_flags rd rn
        second }
{
    let Process {
        condition,
        operation,
        set_flags,
    } = process;
    What::Arm(match second {
        Second::Number(value) => ArmLine::DataImmediate {
            condition,
            operation,
            set_flags,
            rd,
            rn,
            value,
        },
        Second::Shifted { rm, shift } => ArmLine::DataShifted {
            condition,
            operation,
            set_flags,
            rd,
            rn,
            rm,
            shift,
        },
        Second::RegisterShifted { rm, kind, rs } => ArmLine::DataRegisterShifted {
            condition,
            operation,
            set_flags,
            rd,
            rn,
            rm,
            shift: kind,
            rs,
        },
    })
}

/// Data processing, where its registers and its second operand are read.
fn data_of(
    process: Process,
    registers: Result<(Register, Register), LineKind>,
    second: Result<Second, LineKind>,
) -> Result<What, LineKind>
    ensures { result ≡ readings.on_both
        (λ p z. lines.data_line process.condition process.operation process.set_flags p.0 p.1 z)
        registers second }
{
    let ((rd, rn), second) = both(registers, second)?;
    Ok(data_line(process, rd, rn, second))
}

/// Data processing, from its registers and the tokens of its second operand.
fn data(
    alloc: Global,
    text: &SharedText,
    process: Process,
    registers: Result<(Register, Register), LineKind>,
    second: (&[Token], Option<&[Token]>),
) -> ParsedOperation
    ensures { IfOk result
        (λ said. lines.ReadsData text.now process.condition process.operation process.set_flags
        registers second.entry.0.now (option_copied second.entry.1) said) }
{
    let second = second_operand(alloc, text, second.0, second.1)?;
    Ok(data_of(process, registers, second))
}

/// A register that the form leaves out.
fn no_register() -> Result<Register, LineKind>
    ensures { result ≡ lines.absent }
{
    Ok(Register::Number(0))
}

/// MOV and MVN.
fn move_line(
    alloc: Global,
    text: &SharedText,
    process: Process,
    rd: &[Token],
    second: (&[Token], Option<&[Token]>),
) -> ParsedOperation
    ensures { IfOk result
        (λ said. lines.ReadsData text.now process.condition process.operation process.set_flags
        (readings.both (operands.register text.now rd.now) lines.absent) second.entry.0.now
        (option_copied second.entry.1) said) }
{
    let rd = register(alloc, text, rd)?;
    data(alloc, text, process, both(rd, no_register()), second)
}

/// TST, TEQ, CMP and CMN.
fn comparison_line(
    alloc: Global,
    text: &SharedText,
    process: Process,
    rn: &[Token],
    second: (&[Token], Option<&[Token]>),
) -> ParsedOperation
    ensures { IfOk result
        (λ said. lines.ReadsData text.now process.condition process.operation process.set_flags
        (readings.both lines.absent (operands.register text.now rn.now)) second.entry.0.now
        (option_copied second.entry.1) said) }
{
    let rn = register(alloc, text, rn)?;
    data(alloc, text, process, both(no_register(), rn), second)
}

/// The other operations of data processing.
fn sum_line(
    alloc: Global,
    text: &SharedText,
    process: Process,
    registers: (&[Token], &[Token]),
    second: (&[Token], Option<&[Token]>),
) -> ParsedOperation
    ensures { IfOk result
        (λ said. lines.ReadsData text.now process.condition process.operation process.set_flags
        (operands.two_registers text.now registers.entry.0.now registers.entry.1.now)
        second.entry.0.now (option_copied second.entry.1) said) }
{
    let registers = two_registers(alloc, text, registers.0, registers.1)?;
    data(alloc, text, process, registers, second)
}

#[inline(never)]
fn moves(alloc: Global, text: &SharedText, process: Process, cut: Cut<'_>) -> ParsedOperation
    ensures { IfOk result
        (λ said. lines.ReadsMove text.now process.condition process.operation process.set_flags
        (cut_of cut.entry) said) }
{
    match cut {
        Cut::Two(rd, second) => move_line(alloc, text, process, rd, (second, None)),
        Cut::Three(rd, second, shift) => {
            move_line(alloc, text, process, rd, (second, Some(shift)))
        }
        _ => Ok(Err(LineKind::Syntax)),
    }
}

#[inline(never)]
fn comparisons(alloc: Global, text: &SharedText, process: Process, cut: Cut<'_>) -> ParsedOperation
    ensures { IfOk result
        (λ said. lines.ReadsComparison text.now process.condition process.operation
        process.set_flags (cut_of cut.entry) said) }
{
    match cut {
        Cut::Two(rn, second) => comparison_line(alloc, text, process, rn, (second, None)),
        Cut::Three(rn, second, shift) => {
            comparison_line(alloc, text, process, rn, (second, Some(shift)))
        }
        _ => Ok(Err(LineKind::Syntax)),
    }
}

fn sums(alloc: Global, text: &SharedText, process: Process, cut: Cut<'_>) -> ParsedOperation
    ensures { IfOk result
        (λ said. lines.ReadsSum text.now process.condition process.operation process.set_flags
        (cut_of cut.entry) said) }
{
    match cut {
        Cut::Three(rd, rn, second) => sum_line(alloc, text, process, (rd, rn), (second, None)),
        Cut::Four(rd, rn, second, shift) => {
            sum_line(alloc, text, process, (rd, rn), (second, Some(shift)))
        }
        _ => Ok(Err(LineKind::Syntax)),
    }
}

fn data_words(alloc: Global, text: &SharedText, process: Process, cut: Cut<'_>) -> ParsedOperation
    ensures { IfOk result
        (λ said. lines.ReadsShape text.now process.condition process.operation process.set_flags
        (words.shape_of process.operation) (cut_of cut.entry) said) }
{
    match shape_of(process.operation) {
        Shape::Move => moves(alloc, text, process, cut),
        Shape::Comparison => {
            let process = Process {
                set_flags: true,
                ..process
            };
            comparisons(alloc, text, process, cut)
        }
        Shape::Sum => sums(alloc, text, process, cut),
    }
}

fn multiply(
    alloc: Global,
    text: &SharedText,
    condition: Condition,
    set_flags: bool,
    cut: Cut<'_>,
) -> ParsedOperation
    ensures { IfOk result (λ said. said
        ≡ lines.multiply text.now condition false set_flags (cut_of cut.entry)) }
{
    match cut {
        Cut::Three(rd, rm, rs) => {
            let ((rd, rm), rs) = or_kind!(three_registers(alloc, text, rd, rm, rs)?);
            Ok(Ok(What::Arm(ArmLine::Multiply {
                condition,
                accumulate: false,
                set_flags,
                rd,
                rm,
                rs,
                rn: Register::Number(0),
            })))
        }
        _ => Ok(Err(LineKind::Syntax)),
    }
}

fn multiply_accumulate(
    alloc: Global,
    text: &SharedText,
    condition: Condition,
    set_flags: bool,
    cut: Cut<'_>,
) -> ParsedOperation
    ensures { IfOk result (λ said. said
        ≡ lines.multiply text.now condition true set_flags (cut_of cut.entry)) }
{
    match cut {
        Cut::Four(rd, rm, rs, rn) => {
            let ((rd, rm), (rs, rn)) = or_kind!(four_registers(alloc, text, rd, rm, rs, rn)?);
            Ok(Ok(What::Arm(ArmLine::Multiply {
                condition,
                accumulate: true,
                set_flags,
                rd,
                rm,
                rs,
                rn,
            })))
        }
        _ => Ok(Err(LineKind::Syntax)),
    }
}

#[inline(never)]
fn multiplication(
    alloc: Global,
    text: &SharedText,
    condition: Condition,
    accumulate: bool,
    set_flags: bool,
    cut: Cut<'_>,
) -> ParsedOperation
    ensures { IfOk result (λ said. said
        ≡ lines.multiply text.now condition accumulate set_flags (cut_of cut.entry)) }
{
    if accumulate {
        return multiply_accumulate(alloc, text, condition, set_flags, cut);
    }
    multiply(alloc, text, condition, set_flags, cut)
}

/// A long multiplication as its word says it.
#[derive(Clone, Copy)]
pub struct LongProduct {
    pub condition: Condition,
    pub signed: bool,
    pub accumulate: bool,
    pub set_flags: bool,
}

#[inline(never)]
fn multiply_long(
    alloc: Global,
    text: &SharedText,
    word: LongProduct,
    cut: Cut<'_>,
) -> ParsedOperation
    ensures { IfOk result (λ said. said
        ≡ lines.multiply_long text.now word.condition word.signed word.accumulate word.set_flags
        (cut_of cut.entry)) }
{
    match cut {
        Cut::Four(low, high, rm, rs) => {
            let ((low, high), (rm, rs)) = or_kind!(four_registers(alloc, text, low, high, rm, rs)?);
            Ok(Ok(What::Arm(ArmLine::MultiplyLong {
                condition: word.condition,
                signed: word.signed,
                accumulate: word.accumulate,
                set_flags: word.set_flags,
                low,
                high,
                rm,
                rs,
            })))
        }
        _ => Ok(Err(LineKind::Syntax)),
    }
}

/// A base alone in brackets.
fn based(
    alloc: Global,
    text: &SharedText,
    tokens: &[Token],
) -> Result<Result<Register, LineKind>, NoMemory>
    ensures { IfOk result (λ rn. rn ≡ lines.based text.now (addresses.base text.now tokens.now)) }
{
    match base(text, tokens) {
        None => Ok(Err(LineKind::Syntax)),
        Some(base) => register(alloc, text, base),
    }
}

/// Rd, Rm, and Rn in brackets.
fn swap_registers(
    alloc: Global,
    text: &SharedText,
    rd: &[Token],
    rm: &[Token],
    address: &[Token],
) -> Result<Result<((Register, Register), Register), LineKind>, NoMemory>
    ensures { IfOk result (λ three. three
        ≡ readings.both (operands.two_registers text.now rd.now rm.now)
        (lines.based text.now (addresses.base text.now address.now))) }
{
    let two = two_registers(alloc, text, rd, rm)?;
    with_second(two, based(alloc, text, address))
}

#[inline(never)]
fn swap(
    alloc: Global,
    text: &SharedText,
    condition: Condition,
    byte: bool,
    cut: Cut<'_>,
) -> ParsedOperation
    ensures { IfOk result (λ said. said ≡ lines.swap text.now condition byte (cut_of cut.entry)) }
{
    match cut {
        Cut::Three(rd, rm, address) => {
            let ((rd, rm), rn) = or_kind!(swap_registers(alloc, text, rd, rm, address)?);
            Ok(Ok(What::Arm(ArmLine::Swap {
                condition,
                byte,
                rd,
                rm,
                rn,
            })))
        }
        _ => Ok(Err(LineKind::Syntax)),
    }
}

#[inline(never)]
fn exchange(alloc: Global, text: &SharedText, condition: Condition, cut: Cut<'_>) -> ParsedOperation
    ensures { IfOk result (λ said. said ≡ lines.exchange text.now condition (cut_of cut.entry)) }
{
    match cut {
        Cut::One(rm) => {
            let rm = or_kind!(register(alloc, text, rm)?);
            Ok(Ok(What::Arm(ArmLine::BranchExchange { condition, rm })))
        }
        _ => Ok(Err(LineKind::Syntax)),
    }
}

#[inline(never)]
fn read_status(
    alloc: Global,
    text: &SharedText,
    condition: Condition,
    cut: Cut<'_>,
) -> ParsedOperation
    ensures { IfOk result (λ said. said ≡ lines.read_status text.now condition (cut_of cut.entry)) }
{
    match cut {
        Cut::Two(rd, status) => {
            let rd = register(alloc, text, rd)?;
            let (rd, status) = or_kind!(both(rd, lists::status(text, status)));
            Ok(Ok(What::Arm(ArmLine::ReadStatus {
                condition,
                status,
                rd,
            })))
        }
        _ => Ok(Err(LineKind::Syntax)),
    }
}

/// A number or a register, written to a status register.
fn status_value(
    alloc: Global,
    text: &SharedText,
    condition: Condition,
    fields: Result<Option<StatusFields>, LineKind>,
    tokens: &[Token],
) -> ParsedOperation
    ensures { IfOk result
        (λ said. lines.ReadsStatusValue text.now condition fields tokens.now
        (operands.without_first text.now lines.hash tokens.now) said) }
{
    match without_first(text, b"#", tokens) {
        Some(number) => {
            let value = shared_expression(alloc, text, number)?;
            let (fields, value) = or_kind!(both(fields, value));
            Ok(Ok(What::Arm(ArmLine::WriteStatusImmediate {
                condition,
                fields,
                value,
            })))
        }
        None => {
            let rm = register(alloc, text, tokens)?;
            let (fields, rm) = or_kind!(both(fields, rm));
            Ok(Ok(What::Arm(ArmLine::WriteStatus {
                condition,
                fields,
                rm,
            })))
        }
    }
}

#[inline(never)]
fn write_status(
    alloc: Global,
    text: &SharedText,
    condition: Condition,
    cut: Cut<'_>,
) -> ParsedOperation
    ensures { IfOk result
        (λ said. lines.ReadsWriteStatus text.now condition (cut_of cut.entry) said) }
{
    match cut {
        Cut::Two(fields, value) => {
            status_value(alloc, text, condition, lists::fields(text, fields), value)
        }
        _ => Ok(Err(LineKind::Syntax)),
    }
}

fn branch(
    alloc: Global,
    text: &SharedText,
    condition: Condition,
    link: bool,
    tokens: &[Token],
) -> ParsedOperation
    ensures { IfOk result
        (λ said. says.Expression text.now
        (λ e. what.Arm (line.Branch condition link e)) tokens.now said) }
{
    let target = or_kind!(shared_expression(alloc, text, tokens)?);
    Ok(Ok(What::Arm(ArmLine::Branch {
        condition,
        link,
        target,
    })))
}

/// A number, before which # may stand.
pub fn without_hash<'a>(text: &SharedText, tokens: &'a [Token]) -> &'a [Token]
    ensures { result.now
        ≡ lines.without_hash tokens.now (operands.without_first text.now lines.hash tokens.now) }
{
    match without_first(text, b"#", tokens) {
        Some(number) => number,
        None => tokens,
    }
}

#[inline(never)]
fn interrupt(
    alloc: Global,
    text: &SharedText,
    condition: Condition,
    tokens: &[Token],
) -> ParsedOperation
    ensures { IfOk result
        (λ said. says.Expression text.now
        (λ e. what.Arm (line.SoftwareInterrupt condition e)) tokens.now said) }
{
    let number = or_kind!(shared_expression(alloc, text, tokens)?);
    Ok(Ok(What::Arm(ArmLine::SoftwareInterrupt { condition, number })))
}

/// ADR, or ADRL for a long one.
fn address_line(condition: Condition, long: bool, rd: Register, target: Expr) -> What
    ensures { result ≡ lines.address_line condition long rd target }
{
    if long {
        return What::Pseudo(PseudoLine::LongAddress {
            condition,
            rd,
            target,
        });
    }
    What::Pseudo(PseudoLine::Address {
        condition,
        rd,
        target,
    })
}

#[inline(never)]
fn address(
    alloc: Global,
    text: &SharedText,
    condition: Condition,
    long: bool,
    cut: Cut<'_>,
) -> ParsedOperation
    ensures { IfOk result
        (λ said. lines.ReadsAddress text.now condition long (cut_of cut.entry) said) }
{
    match cut {
        Cut::Two(rd, target) => {
            let target = shared_expression(alloc, text, target)?;
            let rd = register(alloc, text, rd)?;
            let (rd, target) = or_kind!(both(rd, target));
            Ok(Ok(address_line(condition, long, rd, target)))
        }
        _ => Ok(Err(LineKind::Syntax)),
    }
}

/// No operands.
pub fn no_operation(tokens: &[Token]) -> Result<What, LineKind>
    ensures { result ≡ lines.no_operation tokens.now }
{
    if tokens.is_empty() {
        return Ok(What::Pseudo(PseudoLine::NoOperation));
    }
    Err(LineKind::Syntax)
}

/// What the tokens behind an operation word say.
fn of_word(
    alloc: Global,
    text: &SharedText,
    mnemonic: Mnemonic,
    condition: Condition,
    tokens: &[Token],
) -> ParsedOperation
    ensures { IfOk result (λ said. lines.ReadsWord text.now mnemonic condition tokens.now said) }
{
    let cut = cut_operands(text, tokens);
    match mnemonic {
        Mnemonic::Data {
            operation,
            set_flags,
        } => {
            let process = Process {
                condition,
                operation,
                set_flags,
            };
            data_words(alloc, text, process, cut)
        }
        Mnemonic::Multiply {
            accumulate,
            set_flags,
        } => multiplication(alloc, text, condition, accumulate, set_flags, cut),
        Mnemonic::MultiplyLong {
            signed,
            accumulate,
            set_flags,
        } => {
            let word = LongProduct {
                condition,
                signed,
                accumulate,
                set_flags,
            };
            multiply_long(alloc, text, word, cut)
        }
        Mnemonic::Swap { byte } => swap(alloc, text, condition, byte, cut),
        Mnemonic::BranchExchange => exchange(alloc, text, condition, cut),
        Mnemonic::ReadStatus => read_status(alloc, text, condition, cut),
        Mnemonic::WriteStatus => write_status(alloc, text, condition, cut),
        Mnemonic::Transfer {
            load,
            byte,
            translated,
        } => {
            let word = Transfer {
                condition,
                load,
                byte,
                translated,
            };
            word_transfer(alloc, text, word, cut)
        }
        Mnemonic::LoadHalf(kind) => {
            let word = HalfTransfer {
                condition,
                load: true,
                kind,
            };
            transfer_half(alloc, text, word, cut)
        }
        Mnemonic::StoreHalf => {
            let word = HalfTransfer {
                condition,
                load: false,
                kind: HalfKind::Half,
            };
            transfer_half(alloc, text, word, cut)
        }
        Mnemonic::TransferBlock { load, mode } => block(alloc, text, condition, load, mode, cut),
        Mnemonic::Branch { link } => branch(alloc, text, condition, link, tokens),
        Mnemonic::SoftwareInterrupt => interrupt(
            alloc,
            text,
            condition,
            without_hash(text, tokens),
        ),
        Mnemonic::Address => address(alloc, text, condition, false, cut),
        Mnemonic::LongAddress => address(alloc, text, condition, true, cut),
        Mnemonic::NoOperation => Ok(no_operation(tokens)),
        Mnemonic::FloatingPoint => Ok(Err(LineKind::FloatingPoint)),
    }
}

/// Why a token names no operation: only a word can be one.
pub fn unnamed(kind: TokenKind) -> LineKind
    ensures { result ≡ says.unnamed kind }
{
    match kind {
        TokenKind::Name | TokenKind::Barred => LineKind::UnknownWord,
        _ => LineKind::Syntax,
    }
}

/// What the tokens behind an operation say, or the fault where nothing names it.
pub fn instruction(
    alloc: Global,
    text: &SharedText,
    fault: LineKind,
    word: Option<(Mnemonic, Condition)>,
    tokens: &[Token],
) -> ParsedOperation
    ensures { IfOk result (λ said. lines.Reads text.now fault word tokens.now said) }
{
    match word {
        None => Ok(Err(fault)),
        Some((mnemonic, condition)) => of_word(alloc, text, mnemonic, condition, tokens),
    }
}
