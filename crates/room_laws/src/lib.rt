//! A law of a run's default bank. There is no engine.
#![tactic(auto)]

ghost use Rattle.room_laws.specs.Rooms.{DefaultBankHasRoom};

/// It has room for each image that ends at its end or below.
pub fn default_bank_has_room()
    ensures { DefaultBankHasRoom }
{}
