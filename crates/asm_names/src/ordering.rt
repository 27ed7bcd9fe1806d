//! An order of names for expressions, and those that depend on themselves.

ghost use Rattle.std.specs.Prelude.{◌≡◌, ◌<◌, ◌≤◌, ◌^◌, [], length, map, IfOk};
ghost use Rattle.asm_names.specs.Equals.{pairs_of};
ghost use Rattle.asm_names.specs.Index.{IsWithin, IsIndexOf};
ghost use Rattle.asm_names.specs.Order.{is_settled, IsOrder};
ghost use Rattle.asm_names.specs.Search.{is_known as is_known_name, Kept};

use crate::equals::{Equal, Order};
use crate::index::{find, index_of};
use crate::search::{Progress, settle_next, start};
use asm_model::SharedText;
use indexmap::IndexMap;
use sdt_fault::NoMemory;
use std::alloc::Global;

fn is_known(index: &IndexMap<&[u8], u32>, known: &[bool], name: &SharedText) -> bool
    requires { IsWithin index.now (length known.now) }
    ensures { result ≡ is_known_name index.now known.now name.now }
{
    match find(index, name) {
        None => false,
        Some(number) => known[number as usize],
    }
}

/// For each name, whether it is known.
fn marks_of(
    alloc: Global,
    equals: &[Equal<'_>],
    index: &IndexMap<&[u8], u32>,
    known: &[bool],
) -> Result<Vec<bool>, NoMemory>
    requires { IsWithin index.now (length known.now) }
    ensures { IfOk result (λ marks. marks.items
        ≡ map (λ e. is_known_name index.now known.now e.name.now) equals.now) }
{
    let mut marks = Vec::with_capacity(alloc, equals.len())?;
    for equal in equals {
        marks.push(is_known(index, known, equal.name))?;
    }
    Ok(marks)
}

/// The search to its end.
fn searched(
    alloc: Global,
    equals: &[Equal<'_>],
    index: &IndexMap<&[u8], u32>,
) -> Result<Progress, NoMemory>
    requires few { length equals.now < 2 ^ 32 }
    requires index { IsIndexOf 0 (pairs_of equals.now) index.now }
    ensures kept { IfOk result (λ progress. Kept (pairs_of equals.now) index.now progress []) }
    ensures done { IfOk result (λ progress. length progress.places.items ≤ progress.done) }
{
    let mut progress = start(alloc, equals, index)?;
    'places: while progress.done < progress.places.len() {
        settle_next(alloc, equals, index, &mut progress)?;
    }
    Ok(progress)
}

/// The names that can be evaluated, in an order in which each stands behind those that its expression mentions; the
/// others depend on themselves, or on one that does. A name that is defined twice counts as known behind the first of
/// its definitions that can be evaluated.
pub fn order_of(alloc: Global, equals: &[Equal<'_>]) -> Result<Order, NoMemory>
    requires { length equals.now < 2 ^ 32 }
    ensures settled { IfOk result (λ order. order.settled.items
        ≡ map (λ e. is_settled (pairs_of equals.now) e.name.now) equals.now) }
    ensures places { IfOk result (λ order. IsOrder (pairs_of equals.now) order.places.items) }
{
    let index = index_of(alloc, equals)?;
    let progress = searched(alloc, equals, &index)?;
    let settled = marks_of(alloc, equals, &index, progress.known.as_slice())?;
    Ok(Order {
        places: progress.places,
        settled,
    })
}
