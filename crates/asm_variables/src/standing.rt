//! Where a byte of a line stands.

ghost use Rattle.std.specs.Prelude.{◌≡◌, ◌≤◌, ◌<◌, ◌+◌, ◌==◌, not, length};
ghost use Rattle.std.specs.List.{prefix_len};
ghost use Rattle.asm_model.specs.Forms.{is_between_bars};
ghost use Rattle.expand_model.specs.Standing as model;

use asm_lines::bytes;
use expand_model::Standing;

/// How many bytes stand before the next quote.
fn unquoted_len(rest: &[u8]) -> usize
    ensures run { result ≡ prefix_len (λ d. not (d == 34)) rest.now }
    ensures within { result ≤ length rest.now }
{
    rest.iter().take_while(|c| **c != b'"').count()
}

/// How many bytes of a name between bars stand at the front.
fn name_len(rest: &[u8]) -> usize
    ensures run { result ≡ prefix_len is_between_bars rest.now }
    ensures within { result ≤ length rest.now }
{
    rest.iter()
        .take_while(|c| bytes::is_between_bars(**c))
        .count()
}

/// How many bytes a name of so many bytes between bars has, behind its first bar; 0 where none closes it.
fn closed_width(name: usize, behind: &[u8]) -> usize
    requires { name ≤ length behind.now }
    ensures width { result ≡ model.closed_width name behind.now }
    ensures within { result ≤ length behind.now + 1 }
{
    if name == 0 {
        return 0;
    }
    let Some((first, _)) = behind[name..].split_first() else {
        return 0;
    };
    if *first == b'|' {
        return name + 2;
    }
    0
}

/// How many bytes a name between bars has that begins there; 0 where none does.
fn bars_width(first: u8, behind: &[u8]) -> usize
    ensures width { result ≡ model.bars_width first behind.now }
    ensures within { result ≤ length behind.now + 1 }
{
    if first == b'|' {
        return closed_width(name_len(behind), behind);
    }
    0
}

/// Whether a character and its closing quote stand there.
fn ends_character(behind: &[u8]) -> bool
    ensures { result ≡ model.ends_character behind.now }
{
    behind.len() > 1 && behind[0] < 128 && behind[1] == b'\''
}

/// Whether a character between single quotes begins at a byte before these.
fn begins_character(first: u8, behind: &[u8]) -> bool
    ensures { result ≡ model.begins_character first behind.now }
{
    first == b'\'' && ends_character(behind)
}

/// What begins at a byte before these, and how many bytes it has; the quote that ends a string may be missing.
pub fn begun_at(first: u8, behind: &[u8]) -> (Standing, usize)
    ensures begun { result ≡ model.begun_at first behind.now }
    ensures within { result.1 ≤ length behind.now + 3 }
    ensures some { 0 < result.1 }
{
    if first == b'"' {
        return (Standing::Quoted, unquoted_len(behind) + 2);
    }
    if begins_character(first, behind) {
        return (Standing::Quoted, 3);
    }
    let bars = bars_width(first, behind);
    if bars > 0 {
        return (Standing::Barred, bars);
    }
    if first == b';' {
        return (Standing::Comment, behind.len() + 1);
    }
    (Standing::Open, 1)
}
