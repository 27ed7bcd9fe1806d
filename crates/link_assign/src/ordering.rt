//! The order in which areas stand in a region.

ghost use Rattle.std.specs.Prelude.{◌≡◌, map, OnOk};
ghost use Rattle.place_model.specs.Assignment.{class_number, edge_number, in_order, order_number};
ghost use Rattle.link_assign.specs.Ordering.{compared};
ghost use Rattle.link_assign.specs.Shown.{shown_item, shown_kept};

use crate::items::{Item, is_code, is_read_only, is_zero_initialised};
use crate::keeping::Kept;
use place_model::Edge;
use sdt_fault::NoMemory;
use std::cmp::Ordering;

fn number_of_edge(edge: Edge) -> u32
    ensures { result ≡ edge_number edge }
{
    match edge {
        Edge::First => 0,
        Edge::Plain => 1,
        Edge::Last => 2,
    }
}

fn number_of_class(item: &Item) -> u32
    ensures { result ≡ class_number (shown_item item.now) }
{
    let writable = if is_read_only(item) { 0 } else { 2 };
    let datum = if is_code(item) { 0 } else { 1 };
    writable + datum
}

fn number_of(kept: &Kept) -> u32
    ensures { result ≡ order_number (shown_kept kept.now) }
{
    let zero = if is_zero_initialised(&kept.item) {
        12
    } else {
        0
    };
    zero + 4 * number_of_edge(kept.edge) + number_of_class(&kept.item)
}

fn compare(one: &Kept, other: &Kept) -> Ordering
    ensures { result ≡ compared (shown_kept one.now) (shown_kept other.now) }
{
    number_of(one)
        .cmp(&number_of(other))
        .then(one.item.area.name.cmp(&other.item.area.name))
}

/// Puts the areas of a region in order.
pub fn put_in_order(kept: &mut Vec<Kept>) -> Result<(), NoMemory>
    ensures { OnOk result (map shown_kept kept.new.items
        ≡ in_order (map shown_kept kept.old.items)) }
{
    kept.sort_by(|one, other| compare(one, other))?;
    Ok(())
}
