//! Sources without an AREA.

ghost use Rattle.std.specs.Prelude.{◌≡◌, ◌==◌, ◌&&◌, ℕ, List, Option, Some, None, if◌then◌else◌};
ghost use Rattle.std.specs.List.{list_any};
ghost use Rattle.sdt_fault.specs.declared.kinds.LineKind.TheVariants as kind_of;
ghost use Rattle.sdt_fault.specs.declared.refusal.Refusal.{Refusal as Told};
ghost use Rattle.asm_model.specs.Forms.{same};
ghost use Rattle.asm_model.specs.Kinds as kinds;
ghost use Rattle.armasm_core.specs.Assembling as assembling;
ghost use Rattle.armasm_core.specs.Passes.{IsToldAs};

use asm_expr::kinds::earlier;
use asm_model::{Flat, bad_line, is_called};
use asm_variables::line_fields::words_of;
use sdt_fault::Text;
use sdt_fault::answer::Fault;
use sdt_fault::kinds::LineKind;
use sdt_fault::refusal::Refusal;
use std::alloc::Global;

/// Whether a line's operation is AREA, also where the line can't be read.
fn says_area(flat: &Flat) -> bool
    ensures { result ≡ assembling.says_area flat.now }
{
    is_called(b"AREA", words_of(flat.text.as_slice()).operation)
}

/// Whether a line of these begins an area.
pub fn has_area(flats: &[Flat]) -> bool
    ensures { result ≡ list_any assembling.says_area flats.now }
{
    flats.iter().any(|flat| says_area(flat))
}

/// What is told of line 1 of a source, where this is told of the line of this number of a file.
fn kind_beside(source: &Text, file: &Text, number: u32, kind: LineKind) -> LineKind
    ensures { result ≡ (if same file.now source.now && number == 1
        then kinds.earlier kind_of.NoArea kind else kind_of.NoArea) }
{
    if file == source && number == 1 {
        return earlier(LineKind::NoArea, kind);
    }
    LineKind::NoArea
}

/// The refusal of a source without an AREA that has no other fault of reading and layout.
pub fn area_missing(alloc: Global, source: &Text) -> Fault
    ensures { IsToldAs (Some (assembling.without_area source.now None)) result }
{
    bad_line(alloc, source, 1, LineKind::NoArea)
}

/// The refusal of a source without an AREA that has this first fault of reading and layout, which is BadLine.
pub fn area_missing_beside(alloc: Global, source: &Text, fault: Fault) -> Fault
    ensures { (told : Option Told) → IsToldAs told fault
        → IsToldAs (Some (assembling.without_area source.now told)) result }
{
    match fault {
        Fault::Refused(
            Refusal::BadLine {
                source: file,
                line,
                kind,
            },
        ) => bad_line(alloc, source, 1, kind_beside(source, &file, line, kind)),
        _ => Fault::NoMemory,
    }
}
