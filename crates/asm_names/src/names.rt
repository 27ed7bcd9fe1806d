//! All names of a source.

ghost use Rattle.std.specs.Prelude.{◌≡◌, List, IfOk};
ghost use Rattle.asm_model.specs.declared.statements.Statement.{Statement};
ghost use Rattle.asm_model.specs.Laid as laying;
ghost use Rattle.asm_names.specs.Source.{IsSource};

use crate::KnownNames;
use crate::dues::{dues_of, places_of};
use crate::listing::entries_of;
use crate::placed_lines::PlacedLine;
use crate::settling::settled;
use sdt_fault::NoMemory;
use std::alloc::Global;

/// All names of a source whose lines these are, and which declares these names; of the entries of the last the mark for
/// Thumb code counts alone.
pub fn final_names(
    alloc: Global,
    lines: &[PlacedLine<'_>],
    declared: &KnownNames,
) -> Result<KnownNames, NoMemory>
    ensures { (statements : List Statement) → IsSource statements lines.now declared.now
        → IfOk result (λ names. names ≡ laying.final_names (laying.laid statements)) }
{
    let dues = dues_of(alloc, lines)?;
    let places = places_of(alloc, dues.as_slice())?;
    let first = entries_of(alloc, &KnownNames::new(alloc), lines)?;
    let known = settled(alloc, first, declared, dues.as_slice(), places.as_slice())?;
    entries_of(alloc, &known, lines)
}
