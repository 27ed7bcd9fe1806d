//! Laws: the scatter description of the source that `make-big` makes reads as two regions, each of its areas has its
//! region, and nothing of the plan is refused. This project's; there is no engine. `sdt_toolkit` calls them so that
//! `make-big` is done for each count.
#![tactic(auto)]

ghost use Rattle.big_place.specs.Big.{AreasAreAssigned, PlanHasNoFault, TextIsRead};

/// The description reads as two regions.
pub fn text_is_read()
    ensures { TextIsRead }
{}

/// Each area has its region.
pub fn areas_are_assigned()
    ensures { AreasAreAssigned }
{}

/// Nothing of the plan is refused.
pub fn plan_has_no_fault()
    ensures { PlanHasNoFault }
{}
