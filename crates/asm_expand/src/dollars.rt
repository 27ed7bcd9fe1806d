//! Lines without dollars.

ghost use Rattle.std.specs.Prelude.{◌≡◌, ◌==◌, false};
ghost use Rattle.std.specs.List.{list_any};
ghost use Rattle.asm_expand.specs.FirstLines.{Stays};

/// Whether a dollar stands in a text; substitution leaves a text without one as it is.
pub fn has_dollar(text: &[u8]) -> bool
    ensures value { result ≡ list_any (λ c. c == 36) text.now }
    ensures stays { result ≡ false → Stays text.now }
{
    text.contains(&b'$')
}
