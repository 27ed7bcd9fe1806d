//! The bytes of all regions.

ghost use Rattle.std.specs.Prelude.{◌≡◌, true, IfOk};
ghost use Rattle.std.specs.List.{AllByRecursion};
ghost use Rattle.aof_object.specs.Validity.{IsValid};
ghost use Rattle.chunk_file.specs.Reading.{Gives};
ghost use Rattle.link_apply.specs.Applied.{applied, IsWithin};
ghost use Rattle.link_apply.specs.Sites.{AreAllBelow, Knows};
ghost use Rattle.link_apply.specs.Starts.{AreBelow};

use crate::detours::index_veneers;
use crate::laying::lay;
use crate::placing::pieces_of_areas;
use crate::sites::PlacedLink;
use crate::startup::add_startup;
use crate::veneers::add_veneers;
use link_model::{Linked, Placement};
use link_values::{SymbolValue, area_bases, symbol_values};
use sdt_fault::answer::Fault;
use sdt_fault::{Bytes, List, NoMemory};
use std::alloc::Global;

/// Whether the numbers of these values are below 2^34, as those of a placement in 32 bits are.
fn is_below(symbols: &[SymbolValue]) -> bool
    ensures { result ≡ true → AreBelow symbols.now }
{
    for symbol in symbols {
        if symbol.number >= 0x4_0000_0000 {
            return false;
        }
    }
    true
}

fn are_below(values: &[List<SymbolValue>]) -> bool
    ensures { result ≡ true → AreAllBelow values.now }
{
    'values: for symbols in values {
        if !is_below(symbols.as_slice()) {
            return false;
        }
    }
    true
}

/// What stands fast of a placed link.
fn known_of<'a>(
    alloc: Global,
    linked: &'a Linked,
    placement: &'a Placement,
) -> Result<PlacedLink<'a>, NoMemory>
    requires objects { AllByRecursion (λ o. IsValid o.value) linked.now.objects }
    requires within { IsWithin placement.now }
    ensures knows { IfOk result (λ known. Knows known) }
    ensures linked { IfOk result (λ known. known.linked.now ≡ linked.now) }
    ensures placement { IfOk result (λ known. known.placement.now ≡ placement.now) }
{
    let bases = area_bases(alloc, placement)?;
    let values = symbol_values(alloc, linked, placement, &bases)?;
    if !are_below(values.as_slice()) {
        return Err(NoMemory);
    }
    let veneers = index_veneers(alloc, placement.veneers.as_slice())?;
    Ok(PlacedLink {
        linked,
        placement,
        bases,
        values,
        veneers,
    })
}

fn applied_to(alloc: Global, known: &PlacedLink<'_>) -> Result<List<Bytes>, Fault>
    requires { Knows known.now }
    ensures { Gives result (applied known.now.linked.now known.now.placement.now) }
{
    let found = pieces_of_areas(alloc, known)?;
    let mut pieces = found.into_vec();
    add_veneers(alloc, known, &mut pieces)?;
    add_startup(alloc, known, &mut pieces)?;
    let all = lay(alloc, known.placement.regions.as_slice(), pieces.as_slice())?;
    Ok(all)
}

/// The bytes of each region before its zero part: areas with their fields patched, veneers, the startup code with its
/// table, and zeros between them and in the place of an ARM image file's header.
///
/// Relocations are judged in placed order, those of an area in the order of their list, and of the first with a flaw
/// its form before its value: `BadRelocation`, then `FieldOverflow` of a byte or a half-word and `Unreachable` of a
/// branch. An area of 2^28 relocations or more counts as want of memory, and so does a zero part of 2^32 bytes in an
/// image with startup code.
pub fn apply(alloc: Global, linked: &Linked, placement: &Placement) -> Result<List<Bytes>, Fault>
    requires objects { AllByRecursion (λ o. IsValid o.value) linked.now.objects }
    requires within { IsWithin placement.now }
    ensures exact { Gives result (applied linked.now placement.now) }
{
    let known = known_of(alloc, linked, placement)?;
    applied_to(alloc, &known)
}
