//! The parts of a text.

ghost use Rattle.std.specs.Prelude.{if◌then◌else◌, ◌≡◌, ◌+◌, ◌<◌, ◌≤◌, ◌^◌, ℕ, false, not, ◌==◌, length, drop};
ghost use Rattle.std.specs.List.{prefix_len};
ghost use Rattle.scatter_text.specs.Parts as cuts;
ghost use Rattle.scatter_text.specs.Steps.{IsBegun, SameParts, behind_sign};

fn is_sign(byte: u8) -> bool
    ensures { result ≡ cuts.is_sign byte }
{
    byte == b'(' || byte == b')' || byte == b',' || byte == b';' || byte == b'{' || byte == b'}'
}

/// Whether the byte is one of names of modules and areas.
pub fn is_name_byte(byte: u8) -> bool
    ensures { result ≡ cuts.is_name_byte byte }
{
    byte.is_ascii_graphic() && !is_sign(byte)
}

/// How many braces are open behind the byte.
pub fn opened(depth: u8, byte: u8) -> u8
    ensures { result ≡ cuts.opened depth byte }
{
    match byte {
        b'{' if depth == 0 => 1,
        b'{' => 2,
        b'}' => depth.saturating_sub(1),
        _ => depth,
    }
}

fn begins(depth: u8, byte: u8, next: u8) -> bool
    ensures { result ≡ cuts.begins depth byte next }
{
    depth != 2 && (next == b'+' || (next == b'&' && byte != b'+'))
}

/// Whether the text begins with the byte.
pub fn first_is(byte: u8, text: &[u8]) -> bool
    ensures { result ≡ cuts.first_is byte text.now }
{
    let Some((first, _)) = text.split_first() else {
        return false;
    };
    *first == byte
}

fn joins(depth: u8, byte: u8, behind: &[u8]) -> bool
    ensures { result ≡ cuts.joins depth byte behind.now }
{
    let Some((next, _)) = behind.split_first() else {
        return false;
    };
    is_name_byte(byte) && is_name_byte(*next) && !begins(depth, byte, *next)
}

// Whether the byte stands between parts.
fn is_gap(byte: u8, behind: &[u8]) -> bool
    ensures { result ≡ cuts.is_gap false byte behind.now }
{
    byte == b'\n'
        || byte == b';'
        || (byte == b' ' || byte == b'\t')
        || (byte == b'\r' && first_is(b'\n', behind))
}

fn line_behind(line: usize, byte: u8) -> usize
    requires { line + 1 < 2 ^ 64 }
    ensures { result ≡ cuts.line_behind line byte }
{
    if byte == b'\n' { line + 1 } else { line }
}

// How many bytes of a comment are left.
fn comment_len(text: &[u8]) -> usize
    ensures value { result ≡ prefix_len (λ b. not (b == 10)) text.now }
    ensures within { result ≤ length text.now }
{
    text.iter().take_while(|byte| **byte != b'\n').count()
}

// What follows the comment that such a byte begins.
fn behind_comment(byte: u8, behind: &[u8]) -> &[u8]
    ensures value { result.now ≡ behind_sign byte behind.now }
    ensures shorter { length result.now ≤ length behind.now }
{
    if byte == b';' {
        return &behind[comment_len(behind)..];
    }
    behind
}

/// The rest of a text from its next part on, and that part's line.
pub fn behind_gap(text: &[u8], from: usize) -> (usize, &[u8])
    requires { from + length text.now < 2 ^ 64 }
    ensures parts { SameParts result.0 result.1.now from text.now }
    ensures begun { IsBegun result.1.now }
    ensures lines { result.0 + length result.1.now ≤ from + length text.now }
    ensures shorter { length result.1.now ≤ length text.now }
{
    let mut rest = text;
    let mut line = from;
    'bytes: loop {
        let Some((first, behind)) = rest.split_first() else {
            return (line, rest);
        };
        if !is_gap(*first, behind) {
            return (line, rest);
        }
        line = line_behind(line, *first);
        rest = behind_comment(*first, behind);
    }
}

/// How many bytes the part at the front has.
pub fn part_len(depth: u8, text: &[u8]) -> usize
    ensures value { result ≡ cuts.part_len depth text.now }
    ensures within { result ≤ length text.now }
    ensures some { 0 < length text.now → 0 < result }
{
    let mut at = 0;
    'bytes: while at < text.len() {
        if !joins(depth, text[at], &text[at + 1..]) {
            return at + 1;
        }
        at += 1;
    }
    at
}

/// How many lines the text has; a last one needs no line feed.
pub fn line_count(text: &[u8]) -> usize
    ensures value { result ≡ cuts.line_count text.now }
    ensures within { result ≤ length text.now }
{
    if text.is_empty() {
        return 0;
    }
    1 + text[..text.len() - 1]
        .iter()
        .filter(|byte| **byte == b'\n')
        .count()
}
