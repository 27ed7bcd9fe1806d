//! Tables of words.

ghost use Rattle.std.specs.Prelude.{◌≡◌, map};
ghost use Rattle.asm_model.specs.Directives as tables;
ghost use Rattle.asm_model.specs.Tokens as tokens;
ghost use Rattle.asm_expr.specs.Beginnings as beginnings;

use asm_model::is_called;

/// Whether a word and a name have the same first letter, in any case.
fn begins_alike(word: &[u8], name: &[u8]) -> bool
    ensures { result ≡ beginnings.begins_alike word.now name.now }
{
    let Some((letter, _)) = word.split_first() else {
        return true;
    };
    let Some((first, _)) = name.split_first() else {
        return true;
    };
    letter.to_ascii_lowercase() == first.to_ascii_lowercase()
}

/// Whether a word is a name, in any case; the lengths and the first letters tell most words and names apart.
fn is_name(name: &[u8], word: &[u8]) -> bool
    ensures { result ≡ tokens.is_called name.now word.now }
{
    if name.len() != word.len() {
        return false;
    }
    if !begins_alike(word, name) {
        return false;
    }
    is_called(name, word)
}

/// What the first row with a word names.
pub fn row_of<T: Copy>(word: &[u8], rows: &[(&[u8], T)]) -> Option<T>
    ensures { result ≡ tables.row_of word.now (map (λ row. (row.0.now, row.1)) rows.now) }
{
    for row in rows {
        if is_name(row.0, word) {
            return Some(row.1);
        }
    }
    None
}
