//! Assignment.

ghost use Rattle.std.specs.Prelude.{[], map, IfOk};
ghost use Rattle.chunk_file.specs.Reading.{Gives};
ghost use Rattle.place_model.specs.Assignment.{AreAssigned};
ghost use Rattle.place_model.specs.declared.scatter.Kind.TheVariants as image;
ghost use Rattle.link_items.specs.LinkedItems.{contents_of, items_in};
ghost use Rattle.link_assign.specs.Assigning.{assigned_by, assignment_of};
ghost use Rattle.link_assign.specs.Shown.{shown_offer};

use crate::items::items_of_objects;
use crate::keeping::keep_all;
use crate::listing::lists_of_regions;
use crate::offers::{Offers, class_selection, described, plain};
use aof_object::Object;
use link_model::{Assigned, Linked, Named};
use place_model::{Choice, Kind, Scatter};
use sdt_fault::answer::Fault;
use std::alloc::Global;

fn assign_by(alloc: Global, objects: &[Named<Object>], offers: &Offers) -> Result<Assigned, Fault>
    ensures { Gives result (assigned_by
        (map shown_offer offers.now.offers.items) offers.now.regions objects.now) }
{
    let items = items_of_objects(alloc, objects)?;
    let kept = keep_all(alloc, objects, offers.offers.as_slice(), items.as_slice())?;
    Ok(Assigned {
        regions: lists_of_regions(alloc, kept.as_slice(), offers.regions)?,
    })
}

fn assign_plain(alloc: Global, objects: &[Named<Object>]) -> Result<Assigned, Fault>
    ensures { Gives result (assignment_of (image.Plain 0) objects.now) }
{
    let ro = class_selection(Choice::Ro);
    let rw = class_selection(Choice::Rw);
    let zi = class_selection(Choice::Zi);
    let offers = plain(alloc, &ro, &rw, &zi)?;
    assign_by(alloc, objects, &offers)
}

fn assign_described(
    alloc: Global,
    objects: &[Named<Object>],
    scatter: &Scatter,
) -> Result<Assigned, Fault>
    ensures { Gives result (assignment_of (image.Scatter scatter.now) objects.now) }
{
    let offers = described(alloc, scatter.loads.as_slice())?;
    assign_by(alloc, objects, &offers)
}

fn assign_objects(alloc: Global, linked: &Linked, kind: &Kind) -> Result<Assigned, Fault>
    ensures { Gives result (assignment_of kind.now linked.now.objects) }
{
    let objects = linked.objects.as_slice();
    match kind {
        Kind::Scatter(scatter) => assign_described(alloc, objects, scatter),
        Kind::Plain { .. } | Kind::Aif { .. } => assign_plain(alloc, objects),
    }
}

/// The areas of each region in the order in which they stand there.
///
/// Refusals, for the first area in input order that has one: `Unassigned` where no selection matches it,
/// `Ambiguous` where two do and none is better, with their lines.
pub fn assign(alloc: Global, linked: &Linked, kind: &Kind) -> Result<Assigned, Fault>
    // The answer is that of the definition, unless memory was refused.
    ensures exact { Gives result (assignment_of kind.now linked.now.objects) }
    // Each area is in the region of its one best selection.
    ensures assigned { IfOk result (λ a. AreAssigned kind.now (items_in linked.now.objects)
        (contents_of linked.now.objects a.regions []).areas) }
{
    assign_objects(alloc, linked, kind)
}
