//! Ranges of addresses.

ghost use Rattle.std.specs.Prelude.{◌≤◌, ◌+◌, ◌^◌};

/// The `size` addresses from `base` on; it ends at 2^32 or below, and is empty at size 0.
#[derive(Clone, Copy, PartialEq, Eq)]
pub struct Range32 {
    pub base: u32,
    pub size: u64,
    pub ghost in_space: { base + size ≤ 2 ^ 32 },
}

impl Range32 {
    ghost use Rattle.std.specs.Prelude.{◌≡◌, ◌↔◌, IsTrue, MatchOption};
    ghost use Rattle.sdt_word.specs.Ranges.{AreApart, Covers, IsLeastShared};

    /// Whether `a` is one of the addresses.
    pub fn holds(&self, a: u32) -> bool
        ensures { IsTrue result ↔ Covers self.now a }
    {
        a >= self.base && u64::from(a - self.base) < self.size
    }

    /// The least address that both have.
    pub fn meets(&self, other: &Range32) -> Option<u32>
        ensures { MatchOption result (AreApart self.now other.now) (IsLeastShared self.now other.now) }
    {
        let first = self.base.max(other.base);
        if u64::from(first - self.base) < self.size && u64::from(first - other.base) < other.size {
            Some(first)
        } else {
            None
        }
    }
}
