//! What a line puts into its area.

ghost use Rattle.std.specs.Prelude.{◌≡◌, ◌++◌, ◌∷◌, [], IfOk};
ghost use Rattle.asm_units.specs.Emitting.{units_in};

use arm_isa::ArmInstr;
use asm_model::SharedText;
use sdt_fault::kinds::LineKind;
use sdt_fault::{Bytes, NoMemory};
use std::alloc::Global;
use std::slice;
use thumb_isa::ThumbInstr;

/// What a word is relocated by.
#[derive(Drop)]
pub enum RelocationTarget {
    Nothing,
    /// An area of the source, counted from 0.
    Area(u32),
    Symbol(SharedText),
}

/// What a word holds before it is relocated.
#[derive(Drop)]
pub struct Stored {
    pub number: u32,
    pub target: RelocationTarget,
}

/// One of the things that a statement puts into its area, where all else is zero.
#[derive(Drop)]
pub enum Emitted {
    Bytes(Bytes),
    Word {
        number: u32,
        target: RelocationTarget,
    },
    Instruction {
        instruction: ArmInstr,
        /// Of a branch that is left to the linker.
        symbol: Option<SharedText>,
    },
    /// An instruction of Thumb state.
    Half(ThumbInstr),
    /// Both halves of BL of Thumb state.
    LinkPair {
        first: u16,
        second: u16,
        /// Of one that is left to the linker.
        symbol: Option<SharedText>,
    },
}

/// What a statement puts into its area, one behind the other. Nearly each puts one thing or none, for which no list is kept.
#[derive(Drop)]
pub enum Emission {
    Nothing,
    One(Emitted),
    Several(Vec<Emitted>),
}

/// How many a list has room for when the second comes.
const SEVERAL_AT_FIRST: usize = 4;

impl Emission {
    /// These, in order.
    pub fn as_slice(&self) -> &[Emitted]
        ensures value { result.now ≡ units_in self.now }
    {
        match self {
            Emission::Nothing => &[],
            Emission::One(unit) => slice::from_ref(unit),
            Emission::Several(units) => units.as_slice(),
        }
    }

    /// These with one more behind them.
    pub fn with(self, alloc: Global, next: Emitted) -> Result<Emission, NoMemory>
        ensures { IfOk result (λ all. units_in all ≡ units_in self ++ next ∷ []) }
    {
        match self {
            Emission::Nothing => Ok(Emission::One(next)),
            Emission::One(first) => pair(alloc, first, next),
            Emission::Several(units) => {
                let mut units = units;
                units.push(next)?;
                Ok(Emission::Several(units))
            }
        }
    }
}

fn pair(alloc: Global, first: Emitted, second: Emitted) -> Result<Emission, NoMemory>
    ensures { IfOk result (λ both. units_in both ≡ first ∷ second ∷ []) }
{
    let mut units = Vec::with_capacity(alloc, SEVERAL_AT_FIRST)?;
    units.push(first)?;
    units.push(second)?;
    Ok(Emission::Several(units))
}

/// What a line puts into its area, and what its RN gives.
#[derive(Drop)]
pub struct LineUnits {
    /// From the line's offset on, one behind the other.
    pub units: Emission,
    /// The number that RN is given by an expression; of other statements it says nothing.
    pub number: Result<u32, LineKind>,
}
