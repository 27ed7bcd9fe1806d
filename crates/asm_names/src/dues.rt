//! Names for expressions, and the order in which they are evaluated.

ghost use Rattle.std.specs.Prelude.{◌≡◌, ◌++◌, length, map, IfOk, OnOk};
ghost use Rattle.std.specs.List.{flat_map};
ghost use Rattle.asm_names.specs.Equals.{pairs_of};
ghost use Rattle.asm_names.specs.Order.{IsOrder};
ghost use Rattle.asm_names.specs.Owing.{owed_of};
ghost use Rattle.asm_names.specs.Source.{owed_in, equal_pair};

use crate::defining::{Defines, defined_by};
use crate::placed_lines::PlacedLine;
use crate::{Equal, order_of};
use asm_model::{Expr, SharedText};
use sdt_fault::NoMemory;
use std::alloc::Global;

/// A name for an expression that is due its value, by the line that defines it.
#[derive(Clone, Copy)]
pub struct Due<'a> {
    pub name: &'a SharedText,
    pub value: &'a Expr,
    pub line: PlacedLine<'a>,
}

fn push_due<'a>(dues: &mut Vec<Due<'a>>, line: &PlacedLine<'a>) -> Result<(), NoMemory>
    ensures { OnOk result (map owed_of dues.new.items
        ≡ map owed_of dues.old.items ++ owed_in line.now) }
{
    let line = *line;
    if let Defines::Equal(name, value) = defined_by(line.statement) {
        dues.push(Due { name, value, line })?;
    }
    Ok(())
}

/// The names for expressions, in the order of the source.
pub fn dues_of<'a>(alloc: Global, lines: &[PlacedLine<'a>]) -> Result<Vec<Due<'a>>, NoMemory>
    ensures { IfOk result (λ dues. map owed_of dues.items ≡ flat_map owed_in lines.now) }
{
    let mut dues = Vec::new(alloc);
    'lines: for line in lines {
        push_due(&mut dues, line)?;
    }
    Ok(dues)
}

fn equals_of<'a>(alloc: Global, dues: &[Due<'a>]) -> Result<Vec<Equal<'a>>, NoMemory>
    ensures pairs { IfOk result (λ equals. pairs_of equals.items
        ≡ map (λ d. equal_pair (owed_of d)) dues.now) }
    ensures count { IfOk result (λ equals. length equals.items ≡ length dues.now) }
{
    let mut equals = Vec::with_capacity(alloc, dues.len())?;
    'dues: for due in dues {
        equals.push(Equal {
            name: due.name,
            value: due.value,
        })?;
    }
    Ok(equals)
}

/// The places of names for expressions, each behind those that its expression mentions. More of them than numbers count
/// as want of memory.
pub fn places_of(alloc: Global, dues: &[Due<'_>]) -> Result<Vec<u32>, NoMemory>
    ensures { IfOk result
        (λ places. IsOrder (map (λ d. equal_pair (owed_of d)) dues.now) places.items) }
{
    if dues.len() > 0xFFFF_FFFF {
        return Err(NoMemory);
    }
    let equals = equals_of(alloc, dues)?;
    let order = order_of(alloc, equals.as_slice())?;
    Ok(order.places)
}
