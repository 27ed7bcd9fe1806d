//! Words of a line.

ghost use Rattle.std.specs.Prelude.{◌≡◌};
ghost use Rattle.asm_model.specs.Tokens as tokens;

/// Whether a word is a name, in any case.
pub fn is_called(name: &[u8], word: &[u8]) -> bool
    ensures { result ≡ tokens.is_called name.now word.now }
{
    word.eq_ignore_ascii_case(name)
}
