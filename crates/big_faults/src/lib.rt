//! Laws: the statements of the source that `make-big` makes have no fault of layout and none of values, and their
//! object is that of the program's words. This project's; there is no engine. `sdt_toolkit` calls them so that
//! `make-big` is done for each count.
#![tactic(auto)]

ghost use Rattle.big_faults.specs.Big.{BigHasNoFault, BigHasObject};

/// The statements have no fault of layout and none of values.
pub fn big_has_no_fault()
    ensures { BigHasNoFault }
{}

/// Their object is the one of the program's words.
pub fn big_has_object()
    ensures { BigHasObject }
{}
