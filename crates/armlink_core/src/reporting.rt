//! Reports of links that are placed.

ghost use Rattle.chunk_file.specs.Reading.{Gives};
ghost use Rattle.armlink_core.specs.Reports.{report_made};

use crate::imaging::moves_in;
use crate::placing::PlacedLink;
use link_report::report_text;
use sdt_fault::Text;
use sdt_fault::answer::Fault;
use std::alloc::Global;

/// Where everything of a link that is placed went, as a text (`link_report::report_text`). So many of its objects as are
/// given stand on the command line; the others are members.
///
/// It is refused where the image of the link is: by that of `link_shifts::movements`, of a relocatable ARM image file.
pub fn report(alloc: Global, placed: &PlacedLink, given: usize) -> Result<Text, Fault>
    ensures { Gives result (report_made given placed.now) }
{
    let parts = &placed.parts;
    let _ = moves_in(alloc, &placed.kind, parts)?;
    let text = report_text(alloc, &placed.kind, given, &parts.linked, &parts.placement)?;
    Ok(text)
}
