//! Which symbols move where an image is moved.

ghost use Rattle.std.specs.Prelude.{◌≡◌};
ghost use Rattle.std.specs.Option.{option_copied};
ghost use Rattle.link_model.specs.Members.{Link, objects_in};
ghost use Rattle.link_model.specs.RegionValues.{region_number as number_of};
ghost use Rattle.link_model.specs.Values.{meaning_at};
ghost use Rattle.link_model.specs.declared.placing.Placement.{Placement};
ghost use Rattle.link_values.specs.Moving.{is_moving as moves, is_moving_symbol as moves_itself, known_moving, named_moving};
ghost use Rattle.link_values.specs.Index.{found_in};
ghost use Rattle.link_values.specs.Regions.{number_by};
ghost use Rattle.link_values.specs.Values.{Knows};

use crate::names::find;
use crate::objects::symbol_at;
use crate::regions::region_number;
use crate::values::{SymbolContext, home_area};
use aof_object::Symbol;

/// Whether a definition stands in an area.
fn is_in_area(symbol: Option<&Symbol>) -> bool
    ensures { result ≡ moves_itself (option_copied symbol.entry) }
{
    match symbol {
        None => false,
        Some(symbol) => home_area(symbol).is_some(),
    }
}

/// Whether what a name means moves: a definition in an area, or a region symbol.
fn is_name_moving(known: &SymbolContext, name: &[u8]) -> bool
    ensures { result ≡ named_moving (objects_in known.now.objects.now)
        (found_in known.now.definitions name.now) (number_by known.now.symbols name.now) }
{
    match find(&known.definitions, name) {
        Some(defined) => is_in_area(symbol_at(known.objects, defined.object, defined.symbol)),
        None => region_number(&known.symbols, name).is_some(),
    }
}

/// Whether a symbol of an object moves.
fn is_symbol_moving(known: &SymbolContext, symbol: Option<&Symbol>) -> bool
    ensures { result ≡ known_moving known.now (option_copied symbol.entry) }
{
    let Some(symbol) = symbol else {
        return false;
    };
    if symbol.flags().is_definition() {
        return is_in_area(Some(symbol));
    }
    is_name_moving(known, symbol.name.as_slice())
}

/// Whether the symbol of a number of an object moves with its image: one in an area, or a region symbol. Absolute
/// ones and undefined weak references stay.
#[tactic(auto, using(crate::proofs::MovingLemmas::known_moves))]
pub fn is_moving(known: &SymbolContext, object: u32, number: u32) -> bool
    ensures { (l : Link) (p : Placement) → Knows l p known.now
        → result ≡ moves l.objects (meaning_at l (number_of l.objects p) object number) }
{
    is_symbol_moving(known, symbol_at(known.objects, object, number))
}
