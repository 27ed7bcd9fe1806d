//! Operands of a line: its tokens, cut at the commas that stand outside brackets.

ghost use Rattle.std.specs.Prelude.{◌≡◌, ◌<◌, ◌^◌, ◌==◌, ◌&&◌, codes, length};
ghost use Rattle.std.specs.Option.{option_copied};
ghost use Rattle.asm_model.specs.Forms.{same};
ghost use Rattle.asm_model.specs.Operands as operands;
ghost use Rattle.asm_expr.specs.Steps.{IsComma, CutsOperands};

use crate::parts::{is_sign, piece_of};
use asm_model::{SharedText, Token};

/// Whether a slice is a word.
pub fn is(piece: &[u8], word: &[u8]) -> bool
    ensures { result ≡ same piece.now word.now }
{
    piece == word
}

fn opens(word: &[u8]) -> bool
    ensures { result ≡ operands.opens word.now }
{
    if is_sign(word, b'(') {
        return true;
    }
    if is_sign(word, b'[') {
        return true;
    }
    is_sign(word, b'{')
}

fn closes(word: &[u8]) -> bool
    ensures { result ≡ operands.closes word.now }
{
    if is_sign(word, b')') {
        return true;
    }
    if is_sign(word, b']') {
        return true;
    }
    is_sign(word, b'}')
}

/// How many brackets are open behind a token.
#[tactic(auto, unfolding(asm_model::specs::Operands::depth_behind))]
fn depth_behind(depth: usize, word: &[u8]) -> usize
    requires { depth < 2 ^ 63 }
    ensures { result ≡ operands.depth_behind depth word.now }
{
    if opens(word) {
        return depth + 1;
    }
    if closes(word) {
        return depth.saturating_sub(1);
    }
    depth
}

/// Whether a token ends an operand.
fn cuts(depth: usize, word: &[u8]) -> bool
    ensures { result ≡ (depth == 0 && same word.now (codes ",")) }
{
    if depth == 0 {
        return is_sign(word, b',');
    }
    false
}

/// Where the first comma outside brackets stands.
fn comma(text: &SharedText, tokens: &[Token]) -> Option<usize>
    ensures { IsComma text.now tokens.now result }
{
    let mut depth = 0;
    let mut place = 0;
    'tokens: while place < tokens.len() {
        let word = piece_of(text, tokens[place]);
        if cuts(depth, word) {
            return Some(place);
        }
        depth = depth_behind(depth, word);
        place += 1;
    }
    None
}

/// The first operand, and the tokens behind the comma after it.
pub fn first_operand<'a>(
    text: &SharedText,
    tokens: &'a [Token],
) -> (&'a [Token], Option<&'a [Token]>)
    ensures { CutsOperands text.now tokens.now (result.0.now) (option_copied result.1) }
{
    match comma(text, tokens) {
        None => (tokens, None),
        Some(place) => (&tokens[..place], Some(&tokens[place + 1..])),
    }
}
