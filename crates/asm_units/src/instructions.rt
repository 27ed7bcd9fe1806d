//! Instructions.

ghost use Rattle.std.specs.Prelude.{◌≡◌, [], ◌∷◌, map, IfOk};
ghost use Rattle.asm_model.specs.Readings.{mapped};
ghost use Rattle.asm_model.specs.Said.{ArmSaid, PseudoSaid, ThumbSaid};
ghost use Rattle.source_model.specs.ArmForms as forms;
ghost use Rattle.source_model.specs.Contexts.{Context};
ghost use Rattle.source_model.specs.PseudoForms as pseudo;
ghost use Rattle.source_model.specs.ThumbForms as halves;
ghost use Rattle.source_model.specs.Units as units;
ghost use Rattle.asm_instructions.specs.Lookups.{Shows};
ghost use Rattle.asm_units.specs.Emitting.{all_emitted, emitted_of, units_in};

use crate::emitted::{Emission, Emitted};
use crate::tables::LineTables;
use arm_isa::ArmInstr;
use asm_instructions::{arm_unit, pseudo_instructions, thumb_pseudo_instruction, thumb_unit};
use asm_model::{ArmLine, PseudoLine, SharedText, ThumbLine};
use sdt_fault::kinds::LineKind;
use sdt_fault::{List, NoMemory};
use source_model::ThumbCode;
use std::alloc::Global;
use thumb_isa::ThumbInstr;

fn instruction_unit(
    instruction: Result<ArmInstr, LineKind>,
    symbol: Option<SharedText>,
) -> Result<Emission, LineKind>
    ensures { all_emitted result ≡ mapped (λ i. units.Instruction i symbol ∷ []) instruction }
{
    match instruction {
        Ok(instruction) => Ok(Emission::One(Emitted::Instruction {
            instruction,
            symbol,
        })),
        Err(kind) => Err(kind),
    }
}

/// The instruction of a line of ARM state.
pub fn arm(
    alloc: Global,
    tables: &LineTables<'_>,
    line: &ArmLine,
) -> Result<Result<Emission, LineKind>, NoMemory>
    requires { ArmSaid line.now }
    ensures { IfOk result (λ us. (c : Context) → Shows tables.now.lookup c → all_emitted us
        ≡ mapped (λ i. units.Instruction i (units.branch_symbol c line.now) ∷ [])
        (forms.arm_instruction c line.now)) }
{
    let (instruction, symbol) = arm_unit(alloc, &tables.lookup, line)?;
    Ok(instruction_unit(instruction, symbol))
}

fn instruction_units(alloc: Global, instructions: &[ArmInstr]) -> Result<Emission, NoMemory>
    ensures { IfOk result (λ us. map emitted_of (units_in us)
        ≡ units.instruction_units instructions.now) }
{
    let mut units = Emission::Nothing;
    let mut left = instructions;
    'instructions: loop {
        match left {
            [] => return Ok(units),
            [instruction, behind @ ..] => {
                let unit = Emitted::Instruction {
                    instruction: *instruction,
                    symbol: None,
                };
                units = units.with(alloc, unit)?;
                left = behind;
            }
        }
    }
}

fn all_units(
    alloc: Global,
    instructions: Result<List<ArmInstr>, LineKind>,
) -> Result<Result<Emission, LineKind>, NoMemory>
    ensures { IfOk result (λ us. all_emitted us ≡ mapped units.instruction_units instructions) }
{
    match instructions {
        Ok(list) => {
            let units = instruction_units(alloc, list.as_slice())?;
            Ok(Ok(units))
        }
        Err(kind) => Ok(Err(kind)),
    }
}

fn code_unit(symbol: Option<SharedText>, code: ThumbCode) -> Emitted
    ensures { emitted_of result ≡ units.code_unit symbol code }
{
    match code {
        ThumbCode::One(instruction) => Emitted::Half(instruction),
        ThumbCode::Pair(first, second) => Emitted::LinkPair {
            first,
            second,
            symbol,
        },
    }
}

fn code_units(
    symbol: Option<SharedText>,
    code: Result<ThumbCode, LineKind>,
) -> Result<Emission, LineKind>
    ensures { all_emitted result ≡ mapped (λ i. units.code_unit symbol i ∷ []) code }
{
    match code {
        Ok(code) => Ok(Emission::One(code_unit(symbol, code))),
        Err(kind) => Err(kind),
    }
}

/// What a line of Thumb state says.
pub fn thumb(
    alloc: Global,
    tables: &LineTables<'_>,
    line: &ThumbLine,
) -> Result<Result<Emission, LineKind>, NoMemory>
    requires { ThumbSaid line.now }
    ensures { IfOk result (λ us. (c : Context) → Shows tables.now.lookup c → all_emitted us
        ≡ mapped (λ i. units.code_unit (units.link_symbol c line.now) i ∷ [])
        (halves.thumb_instruction c line.now)) }
{
    let (code, symbol) = thumb_unit(alloc, &tables.lookup, line)?;
    Ok(code_units(symbol, code))
}

fn half_units(instruction: Result<ThumbInstr, LineKind>) -> Result<Emission, LineKind>
    ensures { all_emitted result ≡ mapped (λ i. units.Half i ∷ []) instruction }
{
    match instruction {
        Ok(instruction) => Ok(Emission::One(Emitted::Half(instruction))),
        Err(kind) => Err(kind),
    }
}

fn thumb_pseudo(
    alloc: Global,
    tables: &LineTables<'_>,
    line: &PseudoLine,
) -> Result<Result<Emission, LineKind>, NoMemory>
    requires { PseudoSaid line.now }
    ensures { IfOk result (λ us. (c : Context) → Shows tables.now.lookup c → all_emitted us
        ≡ mapped (λ i. units.Half i ∷ []) (halves.thumb_pseudo c tables.now.word line.now)) }
{
    let instruction = thumb_pseudo_instruction(alloc, &tables.lookup, tables.word, line)?;
    Ok(half_units(instruction))
}

fn arm_pseudo(
    alloc: Global,
    tables: &LineTables<'_>,
    line: &PseudoLine,
) -> Result<Result<Emission, LineKind>, NoMemory>
    requires { PseudoSaid line.now }
    ensures { IfOk result (λ us. (c : Context) → Shows tables.now.lookup c → all_emitted us
        ≡ mapped units.instruction_units (pseudo.pseudo_instructions c tables.now.word line.now)) }
{
    let instructions = pseudo_instructions(alloc, &tables.lookup, tables.word, line)?;
    all_units(alloc, instructions)
}

/// The instructions of a pseudo-instruction, in its line's state.
pub fn pseudo(
    alloc: Global,
    tables: &LineTables<'_>,
    line: &PseudoLine,
) -> Result<Result<Emission, LineKind>, NoMemory>
    requires { PseudoSaid line.now }
    ensures { IfOk result (λ us. (c : Context) → Shows tables.now.lookup c → all_emitted us
        ≡ units.pseudo_units c.line.thumb c tables.now.word line.now) }
{
    if tables.lookup.line.place.thumb {
        return thumb_pseudo(alloc, tables, line);
    }
    arm_pseudo(alloc, tables, line)
}
