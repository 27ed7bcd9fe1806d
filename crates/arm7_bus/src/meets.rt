//! The least address that ranges share.

ghost use Rattle.std.specs.Prelude.{◌≡◌, ◌&&◌, ℕ};
ghost use Rattle.arm7_bus.specs.Meets.{IsFound, lesser_of};
ghost use Rattle.arm7_bus.specs.Seats.{has_access};

use sdt_word::Range32;

/// The lesser of two addresses, where there are two.
pub fn lesser(a: Option<u32>, b: Option<u32>) -> Option<u32>
    ensures { result ≡ lesser_of a b }
{
    let Some(x) = a else {
        return b;
    };
    let Some(y) = b else {
        return a;
    };
    Some(x.min(y))
}

/// The least address that both ranges have.
#[tactic(auto, using(crate::proofs::MeetLemmas::meets_found))]
pub fn first_shared(r: Range32, s: Range32) -> Option<u32>
    ensures { IsFound (λ a. has_access r.base r.size a 1 && has_access s.base s.size a 1) result }
{
    r.meets(&s)
}
