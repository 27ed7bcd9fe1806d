//! Laws of sessions. Their calls do nothing; their contracts are the laws.

ghost use Rattle.armsd_core.specs.SessionLaws.{CutOffIsABeginning, DetachEndsARun, OthersLeaveTheMachine, SessionIsOneRun};

/// The steps of a session without `detach` are one run of the machine over its bus.
#[tactic(auto, using(crate::proofs::LawLemmas::session_is_one_run))]
pub fn session_is_one_run()
    ensures { SessionIsOneRun }
{}

/// A `detach` ends such a run, and the next begins on the bus without the device.
#[tactic(auto, using(crate::proofs::LawLemmas::detach_ends_a_run))]
pub fn detach_ends_a_run()
    ensures { DetachEndsARun }
{}

/// But for `step`, `go` and `detach` commands leave registers, memory, and devices with their counts of accesses.
#[tactic(auto, using(crate::proofs::LawLemmas::others_leave))]
pub fn others_leave_the_machine()
    ensures { OthersLeaveTheMachine }
{}

/// A session that the sink cut off leaves the machine where a beginning of its commands leads, the last perhaps with a smaller
/// number, and the sink has a beginning of that one's text.
#[tactic(auto, using(crate::proofs::CutLemmas::cut_off_is_a_beginning))]
pub fn cut_off_is_a_beginning()
    ensures { CutOffIsABeginning }
{}
