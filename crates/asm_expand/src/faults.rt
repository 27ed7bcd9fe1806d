//! Faults of a line's words.

ghost use Rattle.std.specs.Prelude.{◌≡◌, ◌++◌, not};
ghost use Rattle.std.specs.List.{list_any};
ghost use Rattle.asm_model.specs.Kinds.{told_kind};
ghost use Rattle.expand_model.specs.Known.{is_long_item, long_kinds};
ghost use Rattle.expand_model.specs.Prototypes.{is_long};
ghost use Rattle.expand_model.specs.Steps as model;
ghost use Rattle.expand_model.specs.Words.{is_empty};
ghost use Rattle.asm_expand.specs.Saying.{depth_of, settled};
ghost use Rattle.asm_variables.specs.Steps.{words_shown};

use crate::steps::Depth;
use asm_expr::kinds::earlier;
use asm_expr::told::{first_told, kind_if};
use asm_lines::scan::NAME_BYTES;
use asm_model::{Expr, ExprItem};
use asm_variables::line_fields::Words;
use asm_variables::operands::operand_text;
use sdt_fault::kinds::LineKind;

/// How many constructs may be open: IF, WHILE and calls together.
const CONSTRUCT_DEPTH: usize = 64;

/// Whether bytes stand there.
pub fn is_some_text(text: &[u8]) -> bool
    ensures { result ≡ not (is_empty text.now) }
{
    match text {
        [] => false,
        _ => true,
    }
}

/// The fault of a label, which a word of expansion doesn't take.
pub fn label_fault(words: Words<'_>) -> Option<LineKind>
    ensures { result ≡ told_kind (model.label_kinds (words_shown words.entry)) }
{
    kind_if(is_some_text(words.label), LineKind::Syntax)
}

/// The same, of a word that takes no operand either.
pub fn alone_fault(words: Words<'_>) -> Option<LineKind>
    ensures { result ≡ told_kind (model.alone_kinds (words_shown words.entry)) }
{
    let holds = is_some_text(words.label) || is_some_text(operand_text(words.behind));
    kind_if(holds, LineKind::Syntax)
}

/// The fault of a construct more.
pub fn depth_fault(depth: Depth) -> Option<LineKind>
    ensures { result ≡ told_kind (model.depth_kinds (depth_of depth)) }
{
    kind_if(depth.constructs >= CONSTRUCT_DEPTH, LineKind::TooDeep)
}

/// Whether a name is beyond the limit.
pub fn is_long(name: &[u8]) -> bool
    ensures { result ≡ is_long name.now }
{
    name.len() > NAME_BYTES
}

/// Whether an item is a name beyond the limit.
fn is_long_item(item: &ExprItem) -> bool
    ensures { result ≡ is_long_item item.now }
{
    match item {
        ExprItem::Name(name) => is_long(name.as_slice()),
        _ => false,
    }
}

/// Whether one of the items is a name beyond the limit.
fn has_long(items: &[ExprItem]) -> bool
    ensures { result ≡ list_any is_long_item items.now }
{
    items.iter().any(|item| is_long_item(item))
}

/// The fault of a name beyond the limit in what stands behind an operation.
pub fn long_fault(operand: &Result<Expr, LineKind>) -> Option<LineKind>
    ensures { result ≡ told_kind (long_kinds operand.now) }
{
    match operand {
        Ok(e) => kind_if(has_long(e.items.as_slice()), LineKind::TooMany),
        Err(_) => None,
    }
}

/// The faults of an IF or a WHILE but for its value's.
pub fn opening_fault(
    words: Words<'_>,
    depth: Depth,
    operand: &Result<Expr, LineKind>,
) -> Option<LineKind>
    ensures { result ≡ told_kind (model.label_kinds (words_shown words.entry)
        ++ model.depth_kinds (depth_of depth) ++ long_kinds operand.now) }
{
    first_told(
        first_told(label_fault(words), depth_fault(depth)),
        long_fault(operand),
    )
}

/// A value, unless a fault is told of its line.
pub fn settle<T: Drop>(told: Option<LineKind>, value: Result<T, LineKind>) -> Result<T, LineKind>
    ensures { result ≡ settled told value }
{
    match (told, value) {
        (None, value) => value,
        (Some(kind), Ok(_)) => Err(kind),
        (Some(kind), Err(other)) => Err(earlier(other, kind)),
    }
}
