//! Images with the sections and symbols of their link.

ghost use Rattle.std.specs.Prelude.{◌≡◌, ◌<◌, IfOk, length};
ghost use Rattle.chunk_file.specs.Reading.{Gives};
ghost use Rattle.place_model.specs.Assignment.{description};
ghost use Rattle.armlink_core.specs.Placing.{IsRoomy};
ghost use Rattle.armlink_core.specs.Sizes.{IsSmall};
ghost use Rattle.armlink_core.specs.Tables.{named_of};

use crate::imaging::image_by;
use crate::placing::PlacedLink;
use elf_image::Tables;
use link_model::Image;
use link_symbols::tables_of;
use place_model::Kind;
use sdt_fault::answer::Fault;
use std::alloc::Global;

/// An image, with the sections and the symbols of what was linked.
#[derive(Drop)]
pub struct NamedImage {
    pub image: Image,
    pub tables: Tables,
}

fn loads_in(kind: &Kind) -> u32
    requires { IsSmall kind.now }
    ensures { result ≡ length (description kind.now) }
{
    match kind {
        Kind::Scatter(scatter) => scatter.loads.as_slice().len() as u32,
        Kind::Plain { .. } | Kind::Aif { .. } => 1,
    }
}

/// The image and the tables of what is placed.
pub fn named_by(alloc: Global, placed: PlacedLink) -> Result<NamedImage, Fault>
    requires small { IsSmall placed.kind }
    requires roomy { IsRoomy placed.parts }
    ensures exact { Gives result (named_of placed) }
    ensures few { IfOk result (λ n. length n.tables.sections < 0xFEFC) }
{
    let PlacedLink { kind, parts } = placed;
    let tables = tables_of(alloc, &parts.linked, &parts.placement, loads_in(&kind))?;
    let image = image_by(alloc, parts, &kind)?;
    Ok(NamedImage { image, tables })
}
