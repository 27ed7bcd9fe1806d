//! What relocations name, as numbers, and where branches by them lead.

ghost use Rattle.std.specs.Prelude.{◌≡◌, ◌+◌, ◌<◌, ◌^◌};
ghost use Rattle.link_apply.specs.Targets.{way_by};
ghost use Rattle.link_values.specs.Values.{home, meant};
ghost use Rattle.patch_model.specs.Patched.{way_home};
ghost use Rattle.std.specs.Option.{option_map};

use crate::numbers::total;
use link_values::{AreaOffset, BranchTarget, SymbolValue};

/// The target of a branch by a symbol, where it goes by a veneer. Without its directives the branch leads
/// to a place `reach` behind it.
pub fn target_of(
    thumb: bool,
    reach: u64,
    added: u64,
    subtracted: u64,
    symbol: SymbolValue,
) -> Option<BranchTarget>
    requires reach { reach < 2 ^ 32 }
    requires sums { subtracted + symbol.number < 2 ^ 64 }
    ensures { way_by result ≡ way_home thumb reach added subtracted (meant symbol)
        (option_map home symbol.home) }
{
    let Some(home) = symbol.home else {
        return None;
    };
    if symbol.thumb == thumb {
        return None;
    }
    let offset = total(
        home.offset as u64 + reach,
        added,
        subtracted + symbol.number,
    ) as u32;
    let place = AreaOffset {
        object: home.object,
        area: home.area,
        offset,
    };
    Some(BranchTarget {
        place,
        thumb: symbol.thumb,
    })
}
