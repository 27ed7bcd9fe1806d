//! The areas of linked objects, in input order.

ghost use Rattle.std.specs.Prelude.{◌≡◌, [], ◌∷◌, ◌++◌, map, OnOk, IfOk};
ghost use Rattle.place_model.specs.Items as placing;
ghost use Rattle.link_items.specs.LinkedItems.{items_in, items_of};
ghost use Rattle.link_assign.specs.Shown.{shown_item};

use aof_object::{Area, Object};
use link_model::{AreaName, Named, to_u32};
use sdt_fault::NoMemory;
use std::alloc::Global;

/// An area by its name, with the module that it belongs to.
#[derive(Clone, Copy)]
pub struct Item<'a> {
    pub name: AreaName,
    pub home: &'a [u8],
    pub area: &'a Area,
}

fn push_item<'a>(
    items: &mut Vec<Item<'a>>,
    object: u32,
    home: &'a [u8],
    area: u32,
    entry: &'a Area,
) -> Result<(), NoMemory>
    ensures { OnOk result (map shown_item items.new.items ≡ map shown_item items.old.items
        ++ items_of object home.now area (entry.now ∷ [])) }
{
    items.push(Item {
        name: AreaName { object, area },
        home,
        area: entry,
    })?;
    Ok(())
}

fn push_items<'a>(
    items: &mut Vec<Item<'a>>,
    object: u32,
    home: &'a [u8],
    areas: &'a [Area],
) -> Result<(), NoMemory>
    ensures { OnOk result (map shown_item items.new.items ≡ map shown_item items.old.items
        ++ items_of object home.now 0 areas.now) }
{
    for (k, area) in areas.iter().enumerate() {
        push_item(items, object, home, to_u32(k)?, area)?;
    }
    Ok(())
}

/// The areas of objects.
pub fn items_of_objects<'a>(
    alloc: Global,
    objects: &'a [Named<Object>],
) -> Result<Vec<Item<'a>>, NoMemory>
    ensures { IfOk result (λ items. map shown_item items.items ≡ items_in objects.now) }
{
    let mut items = Vec::new(alloc);
    for (i, object) in objects.iter().enumerate() {
        let areas = object.value.areas.as_slice();
        push_items(&mut items, to_u32(i)?, object.module.as_slice(), areas)?;
    }
    Ok(items)
}

pub fn is_code(item: &Item) -> bool
    ensures { result ≡ placing.is_code (shown_item item.now) }
{
    item.area.flags().is_code()
}

pub fn is_zero_initialised(item: &Item) -> bool
    ensures { result ≡ placing.is_zero_initialised (shown_item item.now) }
{
    item.area.flags().is_zero_initialised()
}

pub fn is_read_only(item: &Item) -> bool
    ensures { result ≡ placing.is_read_only (shown_item item.now) }
{
    item.area.flags().is_read_only()
}
