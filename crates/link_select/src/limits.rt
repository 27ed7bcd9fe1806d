//! How much is linked at most.

ghost use Rattle.std.specs.Prelude.{◌≡◌, nat_lt};
ghost use Rattle.link_select.specs.Selection.{count_areas, count_symbols};

use aof_object::Object;
use link_model::Named;

/// Whether the objects have more areas than these.
pub fn more_areas_than(limit: usize, objects: &[Named<Object>]) -> bool
    ensures { result ≡ nat_lt limit (count_areas objects.now) }
{
    let mut room = limit;
    for object in objects {
        let count = object.value.areas.as_slice().len();
        if count > room {
            return true;
        }
        room -= count;
    }
    false
}

/// Whether the objects have more symbols than these, locals and references too.
pub fn more_symbols_than(limit: usize, objects: &[Named<Object>]) -> bool
    ensures { result ≡ nat_lt limit (count_symbols objects.now) }
{
    let mut room = limit;
    for object in objects {
        let count = object.value.symbols.as_slice().len();
        if count > room {
            return true;
        }
        room -= count;
    }
    false
}
