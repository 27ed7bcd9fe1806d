//! Where an image starts, where its program begins, and how many steps lie between.

ghost use Rattle.std.specs.Prelude.{◌≡◌, ◌+◌, ◌^◌, ◌≤◌, length, sum_by, true, unwrap_or};
ghost use Rattle.std.specs.List.{find, AllByRecursion};
ghost use Rattle.std.specs.Option.{option_map};
ghost use Rattle.boot_code.specs.Aif.{aif_bound};
ghost use Rattle.boot_code.specs.Laws.{bound_of};
ghost use Rattle.boot_code.specs.Startup.{copied_words, zeroed_words};
ghost use Rattle.link_apply.specs.Placed.{called, home_of, leads_to};
ghost use Rattle.link_apply.specs.RegionBytes.{is_copied};
ghost use Rattle.link_model.specs.RegionValues.{reduced_by};
ghost use Rattle.link_values.specs.Placed.{is_area};
ghost use Rattle.armlink_core.specs.Images.{bound_in, call_of, entry_of, start_of};
ghost use Rattle.armlink_core.specs.Sizes.{copies_in, region_size, size_at, zeros_in};

use boot_code::steps_bound;
use link_model::{Linked, LinkedEntry, PlacedArea, PlacedVeneer, Placement, Region};
use link_values::reduced;
use place_model::Kind;

/// Where the image of a form starts.
pub fn start_of(kind: &Kind, placement: &Placement) -> u32
    ensures { result ≡ start_of kind.now placement.now }
{
    match kind {
        Kind::Scatter(_) => placement.boot.unwrap_or(0),
        Kind::Plain { base } | Kind::Aif { base, .. } => *base,
    }
}

/// The address of the area of these numbers, in a scatter image modulo 2^32, or 0 where none has them.
fn base_of(boot: Option<u32>, areas: &[PlacedArea], object: u32, area: u32) -> u64
    ensures { result ≡ unwrap_or (option_map (λ a. reduced_by boot a.address) (find (is_area object area) areas.now)) 0 }
{
    for placed in areas {
        if placed.area.object == object && placed.area.area == area {
            return reduced(boot, placed.address);
        }
    }
    0
}

/// Where the program begins.
pub fn entry_of(linked: &Linked, placement: &Placement) -> u32
    ensures { result ≡ entry_of linked.now placement.now }
{
    let LinkedEntry {
        object,
        area,
        offset,
        ..
    } = linked.entry;
    let base = base_of(placement.boot, placement.areas.as_slice(), object, area);
    ((base % (1 << 32) + u64::from(offset)) % (1 << 32)) as u32
}

/// Whether a veneer of the first region leads to an entry in Thumb state.
fn leads_to(placed: &PlacedVeneer, entry: LinkedEntry) -> bool
    ensures { result ≡ leads_to 0 (home_of entry) true placed.now.veneer }
{
    let veneer = placed.veneer;
    if veneer.region != 0 || veneer.area.object != entry.object {
        return false;
    }
    if veneer.area.area != entry.area || veneer.offset != entry.offset {
        return false;
    }
    veneer.thumb
}

/// The address of the first region's veneer to an entry in Thumb state, or 0 where it has none.
fn veneer_to(veneers: &[PlacedVeneer], entry: LinkedEntry) -> u32
    ensures { result ≡ unwrap_or (option_map (λ v. v.address)
        (find (λ v. leads_to 0 (home_of entry) true v.veneer) veneers.now)) 0 }
{
    for placed in veneers {
        if leads_to(placed, entry) {
            return placed.address;
        }
    }
    0
}

fn called(linked: &Linked, placement: &Placement) -> u32
    ensures { result ≡ called linked.now.entry.thumb linked.now placement.now }
{
    if linked.entry.thumb {
        return veneer_to(placement.veneers.as_slice(), linked.entry);
    }
    entry_of(linked, placement)
}

/// What the header of an ARM image file calls, the entry or its veneer; in another form the entry.
pub fn call_of(kind: &Kind, linked: &Linked, placement: &Placement) -> u32
    ensures { result ≡ call_of kind.now linked.now placement.now }
{
    match kind {
        Kind::Aif { .. } => called(linked, placement),
        Kind::Scatter(_) | Kind::Plain { .. } => entry_of(linked, placement),
    }
}

/// So many rows of the startup code's table, for so many words in all.
#[derive(Clone, Copy)]
struct Rows {
    count: u64,
    words: u64,
}

fn is_copied(region: &Region) -> bool
    ensures { result ≡ is_copied region.now }
{
    region.load != region.base && region.length > 0
}

fn copies(regions: &[Region]) -> Rows
    requires few { length (copies_in regions.now) ≤ 2 ^ 32 }
    requires short { copied_words (copies_in regions.now) ≤ 2 ^ 32 }
    ensures count { result.count ≡ length (copies_in regions.now) }
    ensures words { result.words ≡ copied_words (copies_in regions.now) }
{
    let mut rows = Rows { count: 0, words: 0 };
    for region in regions {
        if is_copied(region) {
            rows.count += 1;
            rows.words += region.length / 4;
        }
    }
    rows
}

fn zero_parts(regions: &[Region]) -> Rows
    requires few { length (zeros_in regions.now) ≤ 2 ^ 32 }
    requires short { zeroed_words (zeros_in regions.now) ≤ 2 ^ 32 }
    ensures count { result.count ≡ length (zeros_in regions.now) }
    ensures words { result.words ≡ zeroed_words (zeros_in regions.now) }
{
    let mut rows = Rows { count: 0, words: 0 };
    for region in regions {
        if region.zero > 0 {
            rows.count += 1;
            rows.words += region.zero / 4;
        }
    }
    rows
}

fn startup_bound(regions: &[Region]) -> u64
    requires { sum_by region_size regions.now ≤ 2 ^ 26 }
    ensures { result ≡ bound_of (copies_in regions.now) (zeros_in regions.now) }
{
    let copies = copies(regions);
    let parts = zero_parts(regions);
    steps_bound(copies.count, copies.words, parts.count, parts.words)
}

/// Of the region of a number with its zero part; 0 where none has it.
fn size_at(regions: &[Region], number: usize) -> u32
    requires { AllByRecursion (λ r. r.length + r.zero ≤ 2 ^ 26) regions.now }
    ensures { result ≡ size_at regions.now number }
{
    match regions.get(number) {
        None => 0,
        Some(region) => (region.length + region.zero) as u32,
    }
}

/// For so many entries in an ARM image file's list, and so many bytes in its zero part.
fn aif_bound(moves: &[u32], zero: u32) -> u64
    ensures { result ≡ aif_bound (length moves.now) zero }
{
    32 + 7 * moves.len() as u64 + 4 * u64::from(zero / 4)
}

/// How many steps the startup code of an image of the form takes at most, or that of an ARM image file with such a
/// list; 0 where there is none.
pub fn bound_in(kind: &Kind, placement: &Placement, moves: &[u32]) -> u64
    requires whole { sum_by region_size placement.now.regions ≤ 2 ^ 26 }
    requires each { AllByRecursion (λ r. r.length + r.zero ≤ 2 ^ 26) placement.now.regions }
    ensures { result ≡ bound_in kind.now placement.now moves.now }
{
    let regions = placement.regions.as_slice();
    match kind {
        Kind::Scatter(_) => startup_bound(regions),
        Kind::Plain { .. } => 0,
        Kind::Aif { .. } => aif_bound(moves, size_at(regions, 2)),
    }
}
