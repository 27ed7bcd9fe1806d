//! The areas of a source by its lines so far: their names and their attributes.

ghost use Rattle.std.specs.Prelude.{◌≡◌, ◌≤◌, ◌++◌, [], ◌∷◌, List, length, OnOk};
ghost use Rattle.aof_object.specs.Flags.{area_word};
ghost use Rattle.asm_model.specs.declared.statements.Statement.{Statement};
ghost use Rattle.asm_model.specs.Laid.{LaidLine};
ghost use Rattle.source_model.specs.Objects as objects;
ghost use Rattle.asm_checks.specs.Starts.{begun, is_next, with_area, AreStarts, IsLineOf, IsSmall};

use aof_object::AreaParts;
use asm_model::{AreaAttributes, Contents, DirectiveLine, SharedText, What};
use sdt_fault::NoMemory;
use sdt_fault::kinds::LineKind;
use std::alloc::Global;
use std::marker::Model;

/// An area by its lines so far.
#[derive(Drop)]
pub struct AreaStart {
    pub name: SharedText,
    /// The object format's attributes.
    pub attributes: u32,
}

/// The areas in order of their first lines.
#[derive(Drop)]
pub struct Starts {
    alloc: Global,
    areas: Vec<AreaStart>,
}

impl Model for Starts {
    ghost use Rattle.std.specs.Prelude.{List};
    ghost use Rattle.asm_checks.specs.declared.starts.AreaStart.{AreaStart};

    ghost Value = { List AreaStart };

    ghost view = { λ s. s.areas.items };
}

/// An exponent that isn't known, or above 16, is a fault of the line; it counts as 2.
fn or_two(exponent: Result<u32, LineKind>) -> u32
    ensures two { IsSmall exponent → result ≡ objects.or_two exponent }
    ensures small { result ≤ 16 }
{
    match exponent {
        Ok(exponent) => small_or_two(exponent),
        Err(_) => 2,
    }
}

fn small_or_two(exponent: u32) -> u32
    ensures same { exponent ≤ 16 → result ≡ exponent }
    ensures small { result ≤ 16 }
{
    if exponent > 16 { 2 } else { exponent }
}

/// The attributes of an area of code, of zeroes, or of neither.
fn word_of(
    attributes: &AreaAttributes,
    exponent: u32,
    thumb: bool,
    code: bool,
    zero_initialised: bool,
) -> u32
    requires { exponent ≤ 16 }
    ensures { result ≡ area_word (record {
      alignment = exponent;
      code = code;
      zero_initialised = zero_initialised;
      read_only = attributes.now.read_only;
      position_independent = attributes.now.pic;
      reentrant = attributes.now.reentrant;
      thumb = thumb;
      halfword = attributes.now.halfword;
      interworking = attributes.now.interwork;
    }) }
{
    AreaParts {
        alignment: exponent,
        code,
        zero_initialised,
        read_only: attributes.read_only,
        position_independent: attributes.pic,
        reentrant: attributes.reentrant,
        thumb,
        halfword: attributes.halfword,
        interworking: attributes.interwork,
    }
    .word()
}

fn attributes_word(attributes: &AreaAttributes, exponent: u32, thumb: bool) -> u32
    requires { exponent ≤ 16 }
    ensures { result ≡ objects.attributes_word attributes.now exponent thumb }
{
    match attributes.contents {
        Contents::Code => word_of(attributes, exponent, thumb, true, false),
        Contents::Data => word_of(attributes, exponent, thumb, false, false),
        Contents::Zeroes => word_of(attributes, exponent, thumb, false, true),
    }
}

impl Starts {
    /// Before the first line. The allocator is kept for `note`.
    pub fn new(alloc: Global) -> Starts
        ensures { (all : List Statement) → AreStarts all [] result }
    {
        Starts {
            alloc,
            areas: Vec::new(alloc),
        }
    }

    /// The areas alone, with no copy.
    pub fn into_vec(self) -> Vec<AreaStart>
        ensures { result.items ≡ self }
    {
        let Starts { areas, .. } = self;
        areas
    }

    /// Whether the area is the one with the next number.
    fn is_next(&self, area: Option<u32>) -> bool
        ensures { result ≡ is_next area (length self.now) }
    {
        match area {
            None => false,
            Some(area) => area as usize == self.areas.len(),
        }
    }

    fn begin(
        &mut self,
        name: &SharedText,
        attributes: &AreaAttributes,
        thumb: bool,
        exponent: Result<u32, LineKind>,
    ) -> Result<(), NoMemory>
        ensures { OnOk result (IsSmall exponent → self.new
            ≡ self.old ++ begun name.now attributes.now thumb exponent ∷ []) }
    {
        let name = name.share()?;
        let attributes = attributes_word(attributes, or_two(exponent), thumb);
        self.areas.push(AreaStart { name, attributes })?;
        Ok(())
    }

    /// Notes an AREA.
    fn note_area(
        &mut self,
        name: &SharedText,
        attributes: &AreaAttributes,
        area: Option<u32>,
        thumb: bool,
        exponent: Result<u32, LineKind>,
    ) -> Result<(), NoMemory>
        ensures { OnOk result (IsSmall exponent → self.new
            ≡ with_area name.now attributes.now area thumb exponent self.old) }
    {
        if self.is_next(area) {
            return self.begin(name, attributes, thumb, exponent);
        }
        Ok(())
    }

    /// Notes a line more, by its area and whether that is one of Thumb code; of an AREA by the exponent of its alignment
    /// too, which isn't looked at otherwise.
    pub fn note(
        &mut self,
        what: &What,
        area: Option<u32>,
        thumb_area: bool,
        exponent: Result<u32, LineKind>,
    ) -> Result<(), NoMemory>
        ensures { OnOk result ((all : List Statement) (l : LaidLine) (before : List LaidLine)
            → AreStarts all before self.old
            → IsLineOf all what.now area thumb_area exponent l before
            → AreStarts all (l ∷ before) self.new) }
    {
        match what {
            What::Directive(DirectiveLine::Area { name, attributes }) => {
                self.note_area(name, attributes, area, thumb_area, exponent)
            }
            _ => Ok(()),
        }
    }
}
