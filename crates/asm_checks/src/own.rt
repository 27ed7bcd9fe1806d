//! Faults that a statement has by itself.

ghost use Rattle.std.specs.Prelude.{◌≡◌};
ghost use Rattle.asm_model.specs.Kinds.{told_kind};
ghost use Rattle.asm_model.specs.OwnKinds as own;

use crate::large::has_large;
use asm_expr::told::{first_told, kind_if};
use asm_model::{Address, ArmLine, DirectiveLine, ImportMark, Indexing, Statement, What};
use sdt_fault::kinds::LineKind;

fn is_bad_index(indexing: Indexing) -> bool
    ensures { result ≡ own.is_bad_index indexing }
{
    match indexing {
        Indexing::TranslatedBefore => true,
        _ => false,
    }
}

/// Whether an address is one that the suffix T doesn't have.
fn is_bad_address(address: &Address) -> bool
    ensures { result ≡ own.is_bad_address address.now }
{
    match address {
        Address::Based { indexing, .. } => is_bad_index(*indexing),
        Address::Label { .. } => false,
    }
}

fn is_bad_arm(line: &ArmLine) -> bool
    ensures { result ≡ own.is_bad_arm line.now }
{
    match line {
        ArmLine::ReadStatus { status, .. } => status.is_none(),
        ArmLine::WriteStatus { fields, .. } | ArmLine::WriteStatusImmediate { fields, .. } => {
            fields.is_none()
        }
        ArmLine::TransferImmediate { address, .. } => is_bad_address(address),
        ArmLine::TransferShifted { indexing, .. } => is_bad_index(*indexing),
        ArmLine::DataImmediate { .. }
        | ArmLine::DataShifted { .. }
        | ArmLine::DataRegisterShifted { .. }
        | ArmLine::Multiply { .. }
        | ArmLine::MultiplyLong { .. }
        | ArmLine::Swap { .. }
        | ArmLine::BranchExchange { .. }
        | ArmLine::TransferHalf { .. }
        | ArmLine::TransferBlock { .. }
        | ArmLine::Branch { .. }
        | ArmLine::SoftwareInterrupt { .. } => false,
    }
}

/// Whether a mark is another word than WEAK.
fn is_bad_mark(mark: ImportMark) -> bool
    ensures { result ≡ own.is_bad_mark mark }
{
    match mark {
        ImportMark::Other => true,
        _ => false,
    }
}

/// Whether the attributes of an area or the mark of an import are bad.
fn is_bad_directive(line: &DirectiveLine) -> bool
    ensures { result ≡ own.is_bad_directive line.now }
{
    match line {
        DirectiveLine::Area { attributes, .. } => attributes.has_bad_word,
        DirectiveLine::Import { mark, .. } | DirectiveLine::Extern { mark, .. } => {
            is_bad_mark(*mark)
        }
        DirectiveLine::Entry
        | DirectiveLine::End
        | DirectiveLine::Export { .. }
        | DirectiveLine::Keep { .. }
        | DirectiveLine::Equ { .. }
        | DirectiveLine::Rn { .. }
        | DirectiveLine::Rout
        | DirectiveLine::Assert { .. }
        | DirectiveLine::Nofp
        | DirectiveLine::Opt { .. }
        | DirectiveLine::Ttl
        | DirectiveLine::Subt
        | DirectiveLine::Constants { .. }
        | DirectiveLine::Space { .. }
        | DirectiveLine::Align { .. }
        | DirectiveLine::Ltorg
        | DirectiveLine::Data
        | DirectiveLine::Map { .. }
        | DirectiveLine::Field { .. }
        | DirectiveLine::Code16
        | DirectiveLine::Code32 => false,
    }
}

/// Whether a statement has a word that its form doesn't have there.
fn has_bad_word(what: &What) -> bool
    ensures { result ≡ own.has_bad_word what.now }
{
    match what {
        What::Arm(line) => is_bad_arm(line),
        What::Directive(line) => is_bad_directive(line),
        What::Nothing | What::Thumb(_) | What::Pseudo(_) => false,
    }
}

/// The fault of a statement by itself.
pub fn own_kind(statement: &Statement) -> Option<LineKind>
    ensures { result ≡ told_kind (own.own_kinds statement.now) }
{
    let word = kind_if(has_bad_word(&statement.what), LineKind::BadOperand);
    let large = kind_if(has_large(&statement.what), LineKind::Constant);
    let long = kind_if(statement.is_long, LineKind::TooMany);
    first_told(first_told(word, large), long)
}
