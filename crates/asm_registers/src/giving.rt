//! What RN gives.

ghost use Rattle.std.specs.Prelude.{◌≡◌, ◌++◌, [], ℕ, List, IfOk, OnOk};
ghost use Rattle.std.specs.Option.{option_copied};
ghost use Rattle.asm_model.specs.declared.names.Names.{Names};
ghost use Rattle.asm_model.specs.Kinds.{told_kind};
ghost use Rattle.asm_model.specs.Labels.{defined_by};
ghost use Rattle.asm_model.specs.LayoutKinds.{fault_kinds, listed};
ghost use Rattle.asm_model.specs.Laid.{reversed};
ghost use Rattle.source_model.specs.Registers as registers;
ghost use Rattle.asm_registers.specs.Giving.{given_by, IsGiven};
ghost use Rattle.asm_sets.specs.Sets.{HaveSame};

use crate::numbers::register_in;
use asm_model::{DirectiveLine, RnOperand, SharedText, Statement, What};
use asm_sets::{NameMap, NameSet};
use sdt_fault::NoMemory;
use sdt_fault::kinds::LineKind;
use std::alloc::Global;

/// A number as a register.
fn as_register(number: Result<u32, LineKind>) -> Result<u8, LineKind>
    ensures { result ≡ registers.as_register number }
{
    match number {
        Ok(number) => {
            if number < 16 {
                return Ok(number as u8);
            }
            Err(LineKind::OutOfRange)
        }
        Err(kind) => Err(kind),
    }
}

/// The register that RN gives, by the number that it is given.
pub fn given(operand: &RnOperand, number: Result<u32, LineKind>) -> Result<u8, LineKind>
    ensures { result ≡ given_by operand.now number }
{
    match operand {
        RnOperand::Register(register) => Ok(*register),
        RnOperand::Number(_) => as_register(number),
    }
}

fn fault_of(register: Result<u8, LineKind>) -> Option<LineKind>
    ensures { result ≡ told_kind (fault_kinds register) }
{
    match register {
        Ok(_) => None,
        Err(kind) => Some(kind),
    }
}

/// Notes the register of a name that stands for none yet.
pub fn note(
    alloc: Global,
    known: &mut NameMap<u8>,
    name: &SharedText,
    register: Result<u8, LineKind>,
) -> Result<(), NoMemory>
    ensures { OnOk result ((q : List ℕ) → registers.register_in q known.new
        ≡ registers.register_in q (known.old ++ registers.with_register name.now register)) }
{
    match (register, register_in(known, name)) {
        (Err(_), _) => Ok(()),
        (Ok(_), Some(_)) => Ok(()),
        (Ok(register), None) => {
            known.add(alloc, name, register)?;
            Ok(())
        }
    }
}

/// The fault of a register that RN gives a name. From now on the name stands for it.
fn name_register(
    alloc: Global,
    known: &mut NameMap<u8>,
    name: &SharedText,
    register: Result<u8, LineKind>,
) -> Result<Option<LineKind>, NoMemory>
    ensures told { IfOk result (λ told. told ≡ told_kind (fault_kinds register)) }
    ensures noted { OnOk result ((q : List ℕ) → registers.register_in q known.new
        ≡ registers.register_in q (known.old ++ registers.with_register name.now register)) }
{
    note(alloc, known, name, register)?;
    Ok(fault_of(register))
}

/// The fault of the register that a statement gives its name. From now on the name stands for it.
pub fn given_kind(
    alloc: Global,
    known: &mut NameMap<u8>,
    statement: &Statement,
    number: Result<u32, LineKind>,
) -> Result<Option<LineKind>, NoMemory>
    ensures told { IfOk result (λ told. (s : Names) → IsGiven s statement.now.what number → told
        ≡ told_kind (registers.given_kinds s (defined_by statement.now))) }
    ensures noted { OnOk result ((s : Names) → IsGiven s statement.now.what number → (q : List ℕ)
        → registers.register_in q known.new
        ≡ registers.register_in q (known.old ++ registers.named_by s (defined_by statement.now))) }
{
    match (&statement.label, &statement.what) {
        (Some(name), What::Directive(DirectiveLine::Rn { register })) => {
            let told = name_register(alloc, known, name, given(register, number))?;
            Ok(told)
        }
        (_, _) => Ok(None),
    }
}

/// The name that a statement gives a register.
fn register_name(statement: &Statement) -> Option<&SharedText>
    ensures { listed (option_copied result) ≡ registers.register_name (defined_by statement.now) }
{
    match (&statement.label, &statement.what) {
        (Some(name), What::Directive(DirectiveLine::Rn { .. })) => Some(name),
        (_, _) => None,
    }
}

/// Notes that the name which a statement gives a register is one.
fn note_name(alloc: Global, all: &mut NameSet, statement: &Statement) -> Result<(), NoMemory>
    ensures { OnOk result
        (HaveSame all.new (registers.register_name (defined_by statement.now) ++ all.old)) }
{
    match register_name(statement) {
        None => Ok(()),
        Some(name) => {
            all.add(alloc, name)?;
            Ok(())
        }
    }
}

/// All names for registers of a source.
pub fn register_names(alloc: Global, statements: &[Statement]) -> Result<NameSet, NoMemory>
    ensures { IfOk result
        (λ all. HaveSame all (registers.register_names (reversed statements.now []))) }
{
    let mut all = NameSet::new(alloc);
    let mut left = statements;
    'statements: loop {
        match left {
            [] => return Ok(all),
            [statement, rest @ ..] => {
                note_name(alloc, &mut all, statement)?;
                left = rest;
            }
        }
    }
}
