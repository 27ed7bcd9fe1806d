//! The places in areas that symbols of linked objects name.

ghost use Rattle.std.specs.Prelude.{◌≡◌};
ghost use Rattle.std.specs.Option.{option_and_then};
ghost use Rattle.link_model.specs.Meaning.{symbol_of};
ghost use Rattle.link_model.specs.Members.{link_of, objects_in};
ghost use Rattle.link_model.specs.Veneers.{values_apart};
ghost use Rattle.link_values.specs.Index.{IsIndexOf};
ghost use Rattle.link_veneer.specs.Targets.{target_of, target_of_symbol};

use aof_object::{Object, Symbol};
use indexmap::IndexMap;
use link_model::{Linked, Named};
use link_values::{AreaOffset, BranchTarget, Defined, find, symbol_at};

/// Where a definition stands, if it stands in an area.
fn place_of_symbol(object: u32, symbol: &Symbol) -> Option<BranchTarget>
    ensures { result ≡ target_of_symbol object symbol.now }
{
    if !symbol.flags().is_placed() {
        return None;
    }
    match symbol.area {
        None => None,
        Some(area) => Some(BranchTarget {
            place: AreaOffset {
                object,
                area,
                offset: symbol.value,
            },
            thumb: symbol.flags().is_thumb(),
        }),
    }
}

fn place_at(objects: &[Named<Object>], object: u32, number: u32) -> Option<BranchTarget>
    ensures { result ≡ option_and_then (target_of_symbol object) (symbol_of
        (objects_in objects.now) object number) }
{
    match symbol_at(objects, object, number) {
        None => None,
        Some(symbol) => place_of_symbol(object, symbol),
    }
}

/// The place that a symbol of an object names: its own, or that of the definition of its name.
pub fn named_target(
    linked: &Linked,
    index: &IndexMap<&[u8], Defined>,
    object: u32,
    number: u32,
) -> Option<BranchTarget>
    requires { IsIndexOf linked.now.definitions index.now }
    ensures { result ≡ target_of ((values_apart (link_of linked.now) object).symbol number) }
{
    let objects = linked.objects.as_slice();
    let symbol = symbol_at(objects, object, number)?;
    if symbol.flags().is_definition() {
        return place_at(objects, object, number);
    }
    let defined = find(index, symbol.name.as_slice())?;
    place_at(objects, defined.object, defined.symbol)
}
