//! Offsets and sizes behind an end.

ghost use Rattle.std.specs.Prelude.{◌≡◌, ◌≤◌, ◌+◌, ◌^◌, length};
ghost use Rattle.asm_model.specs.Extents.{pool_alignment as aligned_for};
ghost use Rattle.asm_model.specs.Offsets as offsets;
ghost use Rattle.asm_offsets.specs.Coded.{extent_of_code, IsExtent};

use crate::extents::Extent;
use asm_pool::Pools;

/// How many bytes there are up to the next offset that is the multiple plus the number.
fn lacking(at: u32, multiple: u32, number: u32) -> u32
    requires { 1 ≤ multiple }
    ensures { result ≡ offsets.lacking at multiple number }
{
    let multiple = multiple as u64;
    let wanted = multiple + number as u64 % multiple;
    ((wanted - at as u64 % multiple) % multiple) as u32
}

/// An offset raised to an alignment. All callers ask for 1, 2 or 4, of which a remainder takes no division.
pub fn raised(at: u32, alignment: u32) -> u32
    requires low { at ≤ 2 ^ 28 }
    requires some { 1 ≤ alignment }
    requires small { alignment ≤ 4 }
    ensures raised { result ≡ offsets.raised at alignment }
    ensures low { result ≤ at + 3 }
{
    match alignment {
        1 => at,
        2 => at + at % 2,
        4 => at + (4 - at % 4) % 4,
        _ => at + lacking(at, alignment, 0),
    }
}

/// The alignment of a pool.
pub fn pool_alignment(pools: &Pools) -> u32
    ensures { result ≡ aligned_for pools.now.waiting }
{
    if pools.waiting() == 0 { 1 } else { 4 }
}

fn alignment_of(extent: &Extent, pools: &Pools) -> u32
    requires { IsExtent (extent_of_code extent.now) }
    ensures alignment { result
        ≡ offsets.alignment_of pools.now.waiting (extent_of_code extent.now) }
    ensures some { 1 ≤ result }
    ensures small { result ≤ 4 }
{
    match extent {
        Extent::Block { alignment, .. } => *alignment,
        Extent::Padding { .. } => 1,
        Extent::Loading { bytes, .. } => *bytes,
        Extent::Pool => pool_alignment(pools),
    }
}

/// Where a statement starts.
pub fn start_of(end: u32, extent: &Extent, pools: &Pools) -> u32
    requires low { end ≤ 2 ^ 24 }
    requires extent { IsExtent (extent_of_code extent.now) }
    ensures { result ≡ offsets.start_from end pools.now.waiting (extent_of_code extent.now) }
{
    raised(end, alignment_of(extent, pools))
}

/// The size of a statement that starts there.
pub fn size_of(start: u32, extent: &Extent, pools: &Pools) -> u32
    requires extent { IsExtent (extent_of_code extent.now) }
    requires few { length pools.now.waiting ≤ 2 ^ 24 }
    ensures { result ≡ offsets.size_of pools.now.waiting start (extent_of_code extent.now) }
{
    match extent {
        Extent::Block { bytes, .. } => *bytes,
        Extent::Padding { multiple, offset } => lacking(start, *multiple, *offset),
        Extent::Loading { bytes, .. } => *bytes,
        Extent::Pool => 4 * pools.waiting(),
    }
}
