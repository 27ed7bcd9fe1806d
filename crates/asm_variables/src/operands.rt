//! What stands behind an operation, and the arguments there.

ghost use Rattle.std.specs.Prelude.{◌≡◌, ◌≤◌, [], ◌∷◌, ◌++◌, length, take, reverse, map, IfOk, OnOk};
ghost use Rattle.std.specs.List.{prefix_len};
ghost use Rattle.asm_model.specs.Forms.{is_blank};
ghost use Rattle.expand_model.specs.Standing as place;
ghost use Rattle.expand_model.specs.Substitution.{plain};
ghost use Rattle.expand_model.specs.Words as model;
ghost use Rattle.asm_variables.specs.Operands.{Takes, trimmed_pieces};

use crate::line_fields::without_blanks;
use crate::substitution::{first_of, standing_at};
use asm_lines::bytes::{Class, is_of};
use asm_model::SharedText;
use expand_model::Standing;
use sdt_fault::NoMemory;
use std::alloc::Global;

/// How many blanks stand at the end.
fn blanks_behind(text: &[u8]) -> usize
    ensures run { result ≡ prefix_len is_blank (reverse text.now) }
    ensures within { result ≤ length text.now }
{
    text.iter()
        .rev()
        .take_while(|c| is_of(Class::Blank, **c))
        .count()
}

fn without_blanks_behind(text: &[u8]) -> &[u8]
    ensures { result.now ≡ reverse (model.without_blanks (reverse text.now)) }
{
    &text[..text.len() - blanks_behind(text)]
}

/// The text without the blanks around it.
pub fn trimmed(text: &[u8]) -> &[u8]
    ensures { result.now ≡ model.trimmed text.now }
{
    without_blanks_behind(without_blanks(text))
}

fn is_comment(standing: Standing) -> bool
    ensures { result ≡ place.is_in_comment standing }
{
    match standing {
        Standing::Comment => true,
        _ => false,
    }
}

/// How many bytes stand before the comment.
fn width_before_comment(text: &[u8]) -> usize
    ensures bytes { take result text.now ≡ plain (place.before_comment text.now) }
    ensures within { result ≤ length text.now }
{
    let mut standing = Standing::Open;
    let mut left = 0;
    let mut at = 0;
    'bytes: loop {
        let Some((first, rest)) = first_of(text, at) else {
            return at;
        };
        let (begun, width) = standing_at(standing, left, first, rest);
        if is_comment(begun) {
            return at;
        }
        standing = begun;
        left = width;
        at += 1;
    }
}

/// The text behind a line's operation, without the comment and the blanks around it.
pub fn operand_text(behind: &[u8]) -> &[u8]
    ensures { result.now ≡ model.operand_text behind.now }
{
    trimmed(&behind[..width_before_comment(behind)])
}

fn is_quoted(standing: Standing) -> bool
    ensures { result ≡ model.is_quoted standing }
{
    match standing {
        Standing::Quoted => true,
        _ => false,
    }
}

/// Ends the piece so far.
fn end_piece(
    alloc: Global,
    piece: &mut Vec<u8>,
    pieces: &mut Vec<SharedText>,
) -> Result<(), NoMemory>
    ensures empty { OnOk result (piece.new.items ≡ []) }
    ensures more { OnOk result (pieces.new.items
        ≡ pieces.old.items ++ model.trimmed piece.old.items ∷ []) }
{
    let text = SharedText::from_slice(alloc, trimmed(piece.as_slice()))?;
    pieces.push(text)?;
    piece.clear();
    Ok(())
}

/// Takes a byte that stands there.
fn take_byte(
    alloc: Global,
    first: u8,
    standing: Standing,
    piece: &mut Vec<u8>,
    pieces: &mut Vec<SharedText>,
) -> Result<(), NoMemory>
    ensures { OnOk result
        (Takes (first, standing) pieces.old.items piece.old.items pieces.new.items
        piece.new.items) }
{
    if first == b',' && !is_quoted(standing) {
        end_piece(alloc, piece, pieces)?;
        return Ok(());
    }
    piece.push(first)?;
    Ok(())
}

/// The pieces between the commas outside quotes, without the blanks around each.
fn pieces_of(alloc: Global, text: &[u8]) -> Result<Vec<SharedText>, NoMemory>
    ensures { IfOk result (λ texts. texts.items ≡ trimmed_pieces text.now) }
{
    let mut pieces = Vec::new(alloc);
    let mut piece = Vec::new(alloc);
    let mut standing = Standing::Open;
    let mut left = 0;
    let mut at = 0;
    'bytes: loop {
        let Some((first, rest)) = first_of(text, at) else {
            end_piece(alloc, &mut piece, &mut pieces)?;
            return Ok(pieces);
        };
        let (begun, width) = standing_at(standing, left, first, rest);
        if is_comment(begun) {
            end_piece(alloc, &mut piece, &mut pieces)?;
            return Ok(pieces);
        }
        take_byte(alloc, first, begun, &mut piece, &mut pieces)?;
        standing = begun;
        left = width;
        at += 1;
    }
}

/// The arguments behind an operation; none where nothing stands there.
#[tactic(auto, unfolding(expand_model::specs::Words::arguments))]
pub fn arguments(alloc: Global, behind: &[u8]) -> Result<Vec<SharedText>, NoMemory>
    ensures { IfOk result (λ texts. texts.items ≡ model.arguments behind.now) }
{
    if operand_text(behind).is_empty() {
        return Ok(Vec::new(alloc));
    }
    pieces_of(alloc, behind)
}
