//! What the refusals of a link say of the linked objects and of their plan. There is no engine.
#![tactic(auto)]

ghost use Rattle.link_refusals.specs.Refusals.{RefusalsLaw};

use link_select::{duplicate_law, undefined_law};
use place_model::placing_law;

/// A link that is refused for a name, an area or its plan has what the refusal tells, as the first in the order in which refusals
/// are told.
pub fn refusals_law()
    ensures { RefusalsLaw }
{
    duplicate_law();
    undefined_law();
    placing_law();
}
