//! Numbers put side by side in a word, as an encoding puts its fields.

ghost use Rattle.std.specs.Prelude.{◌≡◌, ◌<◌, ◌≤◌, ◌^◌, IfSome, MatchOption};
ghost use Rattle.sdt_word.specs.Parts.{PartsFit, joined, total_width};

/// The number whose bits are those of some values, each with how many bits it has, the first one's
/// highest; None where a value has more.
pub fn join_parts(parts: &[(u32, u32)]) -> Option<u32>
    requires { total_width parts.now ≤ 32 }
    ensures cases { MatchOption result (PartsFit parts.now → ⊥) (λ w. PartsFit parts.now × (w ≡ joined parts.now)) }
    ensures below { IfSome result (λ w. w < 2 ^ total_width parts.now) }
{
    let mut word: u64 = 0;
    for part in parts {
        let (value, width) = *part;
        if u64::from(value) >> width != 0 {
            return None;
        }
        word = (word << width) + u64::from(value);
    }
    Some(word as u32)
}
