//! The areas of a layout.

ghost use Rattle.std.specs.Prelude.{IfOk};
ghost use Rattle.asm_layout.specs.Areas.{AreAreasOf};

use crate::laid::LaidArea;
use asm_checks::AreaStart;
use asm_offsets::LaidPools;
use sdt_fault::NoMemory;
use std::alloc::Global;

/// The areas, by what begins and what ends each of them.
pub fn areas_of(
    alloc: Global,
    starts: Vec<AreaStart>,
    pools: Vec<LaidPools>,
) -> Result<Vec<LaidArea>, NoMemory>
    ensures { IfOk result (λ areas. AreAreasOf starts.items pools.items areas.items) }
{
    let mut areas = Vec::with_capacity(alloc, starts.len())?;
    'areas: for (start, laid) in starts.into_iter().zip(pools) {
        areas.push(LaidArea {
            name: start.name,
            attributes: start.attributes,
            size: laid.size,
            pools: laid.pools,
        })?;
    }
    Ok(areas)
}
