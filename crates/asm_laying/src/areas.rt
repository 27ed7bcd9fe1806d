//! The areas of a source, by the lines so far.

ghost use Rattle.std.specs.Prelude.{◌≡◌, ◌<◌, [], List, Some, None, if◌then◌else◌, OnOk};
ghost use Rattle.std.specs.Option.{option_map};
ghost use Rattle.asm_model.specs.declared.values.Value.{Value};
ghost use Rattle.asm_expr.specs.Places.{number_in};
ghost use Rattle.asm_model.specs.Before as before;
ghost use Rattle.asm_model.specs.Extents as extents;
ghost use Rattle.asm_model.specs.Extents.{pool_alignment as aligned_for};
ghost use Rattle.asm_model.specs.Laid.{aligned_end};
ghost use Rattle.asm_model.specs.OccupiedCode.{occupied_of_code};
ghost use Rattle.asm_model.specs.Offsets.{Piece};
ghost use Rattle.asm_offsets.specs.Coded.{IsAlignment};
ghost use Rattle.asm_offsets.specs.Running.{IsBehind};
ghost use Rattle.asm_laying.specs.Carried.{most_statements};
ghost use Rattle.asm_laying.specs.Numbered.{AreNumbered, ArePlaceable, Enters};

use asm_model::{
    DirectiveLine, Occupied, PseudoLine, SharedText, What, item_alignment, occupied_by,
};
use asm_offsets::Ends;
use sdt_fault::NoMemory;
use std::alloc::Global;
use std::collections::BTreeMap;

/// The areas so far.
#[derive(Drop)]
pub struct Areas {
    /// The number of each area, by its name.
    pub numbers: BTreeMap<SharedText, u32>,
    pub count: u32,
    /// The number of the area of the last statement.
    pub current: Option<u32>,
    pub ends: Ends,
}

/// The name that an AREA gives.
fn area_named(what: &What) -> Option<&SharedText>
    ensures { option_map (λ name. name.now) result ≡ before.area_named what.now }
{
    match what {
        What::Directive(DirectiveLine::Area { name, .. }) => Some(name),
        _ => None,
    }
}

fn instruction_alignment(thumb: bool) -> u32
    ensures alignment { result ≡ (if thumb then 2 else 4) }
    ensures small { IsAlignment result }
{
    if thumb {
        return 2;
    }
    4
}

fn pseudo_alignment(line: &PseudoLine, thumb: bool) -> u32
    ensures alignment { result ≡ extents.pseudo_alignment thumb line.now }
    ensures small { IsAlignment result }
{
    match line {
        PseudoLine::LongAddress { .. } => 4,
        PseudoLine::LoadConstant { .. } | PseudoLine::Address { .. } | PseudoLine::NoOperation => {
            instruction_alignment(thumb)
        }
    }
}

fn occupied_alignment(occupied: Occupied<'_>, thumb: bool, pool: u32) -> u32
    requires { IsAlignment pool }
    ensures alignment { (literals : List Value) → pool ≡ aligned_for literals → result
        ≡ extents.occupied_alignment thumb literals (occupied_of_code occupied.entry) }
    ensures small { IsAlignment result }
{
    match occupied {
        Occupied::Entering => instruction_alignment(thumb),
        Occupied::Items(item, _) => item_alignment(item),
        Occupied::Literals => pool,
        Occupied::Unplaced
        | Occupied::Opening(_)
        | Occupied::Marking
        | Occupied::Zeroes(_)
        | Occupied::UpTo(_) => 1,
    }
}

fn directive_alignment(line: &DirectiveLine, thumb: bool, pool: u32) -> u32
    requires { IsAlignment pool }
    ensures alignment { (literals : List Value) → pool ≡ aligned_for literals → result
        ≡ extents.directive_alignment thumb literals line.now }
    ensures small { IsAlignment result }
{
    occupied_alignment(occupied_by(line), thumb, pool)
}

/// The alignment of a statement, by that of a pool that would stand there.
fn alignment(what: &What, thumb: bool, pool: u32) -> u32
    requires { IsAlignment pool }
    ensures alignment { (literals : List Value) → pool ≡ aligned_for literals → result
        ≡ extents.alignment thumb literals what.now }
    ensures small { IsAlignment result }
{
    match what {
        What::Nothing => 1,
        What::Arm(_) => 4,
        What::Thumb(_) => 2,
        What::Pseudo(line) => pseudo_alignment(line, thumb),
        What::Directive(line) => directive_alignment(line, thumb, pool),
    }
}

impl Areas {
    /// Before the first AREA.
    pub fn new(alloc: Global) -> Areas
        ensures { AreNumbered [] None [] result }
    {
        Areas {
            numbers: BTreeMap::new(alloc),
            count: 0,
            current: None,
            ends: Ends::new(alloc),
        }
    }

    /// An area with a new name.
    fn add(&mut self, alloc: Global, name: &SharedText) -> Result<(), NoMemory>
        requires new { number_in self.old.numbers name.now ≡ None }
        requires few { self.old.count < most_statements }
        ensures { OnOk result (Enters (Some name.now) self.old self.new) }
    {
        let name = name.share()?;
        self.numbers.insert(name, self.count)?;
        self.ends.add_area()?;
        self.current = Some(self.count);
        self.count += 1;
        Ok(())
    }

    /// The number of a name.
    fn number_of(&self, name: &SharedText) -> Option<u32>
        ensures { result ≡ number_in self.now.numbers name.now }
    {
        self.numbers.get(name).copied()
    }

    fn enter_named(&mut self, alloc: Global, name: &SharedText) -> Result<(), NoMemory>
        requires { self.old.count < most_statements }
        ensures { OnOk result (Enters (Some name.now) self.old self.new) }
    {
        match self.number_of(name) {
            Some(number) => {
                self.current = Some(number);
                Ok(())
            }
            None => self.add(alloc, name),
        }
    }

    /// Goes to the area that a statement names, where it is an AREA.
    pub fn enter(&mut self, alloc: Global, what: &What) -> Result<(), NoMemory>
        requires { self.old.count < most_statements }
        ensures { OnOk result (Enters (before.area_named what.now) self.old self.new) }
    {
        match area_named(what) {
            None => Ok(()),
            Some(name) => self.enter_named(alloc, name),
        }
    }

    /// The offset of a statement in its area.
    pub fn start(&self, what: &What, thumb: bool) -> u32
        requires { ArePlaceable self.now }
        ensures { (pieces : List Piece) → IsBehind pieces self.now.ends → result
            ≡ aligned_end self.now.current pieces thumb what.now }
    {
        let pool = self.ends.pool_alignment(self.current);
        self.ends.start(self.current, alignment(what, thumb, pool))
    }
}
