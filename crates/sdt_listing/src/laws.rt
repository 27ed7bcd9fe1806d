//! The laws of the functions that the definitions read words by. Its call does nothing; its contract is the law.

ghost use Rattle.std.specs.Prelude.{◌<◌, ◌^◌, ℕ};
ghost use Rattle.sdt_listing.specs.Readings.{ArmIs, ThumbIs, arm_of, thumb_of};

/// Each number reads as the instruction that these functions give, and as none where they give none.
pub fn readings_law()
    ensures arm { (w : ℕ) → ArmIs w (arm_of w) }
    ensures thumb { (h : ℕ) → ThumbIs h (thumb_of h) }
{}
