//! The load regions of an image.

ghost use Rattle.std.specs.Prelude.{◌≡◌, ◌∷◌, [], IfOk};
ghost use Rattle.place_model.specs.Assignment.{description, plain_load};
ghost use Rattle.armlink_core.specs.Images.{bytes_in, loads_from};

use link_model::{LoadRegion, Region, to_u32};
use place_model::{Kind, ScatterLoad};
use sdt_fault::{Bytes, List, NoMemory, Text};
use std::alloc::Global;

/// The bytes of the regions that the load region of a number has.
fn bytes_in(
    alloc: Global,
    number: u32,
    regions: &[Region],
    parts: &[Bytes],
) -> Result<Vec<u8>, NoMemory>
    ensures { IfOk result (λ bytes. bytes.items ≡ bytes_in number regions.now parts.now) }
{
    let mut out = Vec::new(alloc);
    for i in 0..regions.len().min(parts.len()) {
        if regions[i].load_region == number {
            out.extend_from_slice(parts[i].as_slice())?;
        }
    }
    Ok(out)
}

fn described_loads(
    alloc: Global,
    regions: &[Region],
    parts: &[Bytes],
    loads: &[ScatterLoad],
) -> Result<Vec<LoadRegion>, NoMemory>
    ensures { IfOk result (λ out. out.items ≡ loads_from 0 regions.now parts.now loads.now) }
{
    let mut out = Vec::new(alloc);
    for (k, load) in loads.iter().enumerate() {
        out.push(LoadRegion {
            name: load.name.try_clone(alloc)?,
            base: load.base,
            bytes: Bytes::from_vec(bytes_in(alloc, to_u32(k)?, regions, parts)?),
        })?;
    }
    Ok(out)
}

fn one_load(
    alloc: Global,
    regions: &[Region],
    parts: &[Bytes],
    base: u32,
) -> Result<Vec<LoadRegion>, NoMemory>
    ensures { IfOk result (λ out. out.items ≡ loads_from 0 regions.now parts.now (plain_load base ∷ [])) }
{
    let mut out = Vec::new(alloc);
    out.push(LoadRegion {
        name: Text::from_vec(Vec::new(alloc)),
        base,
        bytes: Bytes::from_vec(bytes_in(alloc, 0, regions, parts)?),
    })?;
    Ok(out)
}

fn loads_by(
    alloc: Global,
    regions: &[Region],
    parts: &[Bytes],
    kind: &Kind,
) -> Result<Vec<LoadRegion>, NoMemory>
    ensures { IfOk result (λ out. out.items ≡ loads_from 0 regions.now parts.now (description kind.now)) }
{
    match kind {
        Kind::Scatter(scatter) => {
            described_loads(alloc, regions, parts, scatter.loads.as_slice())
        }
        Kind::Plain { base } => one_load(alloc, regions, parts, *base),
        Kind::Aif { base, .. } => one_load(alloc, regions, parts, *base),
    }
}

/// The load regions of an image of a form, whose regions have these bytes before their zero parts. A load region's
/// number is compared with that of each region; there are at most 64 of both.
pub fn load_regions(
    alloc: Global,
    regions: &[Region],
    parts: &[Bytes],
    kind: &Kind,
) -> Result<List<LoadRegion>, NoMemory>
    ensures { IfOk result (λ out. out ≡ loads_from 0 regions.now parts.now (description kind.now)) }
{
    Ok(List::from_vec(loads_by(alloc, regions, parts, kind)?))
}
