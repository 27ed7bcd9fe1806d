//! The directive of a line and its operands, as they read.

ghost use Rattle.std.specs.Prelude.{◌≡◌, ◌∷◌, IfOk, if◌then◌else◌};
ghost use Rattle.asm_model.specs.declared.tokens.TokenKind.TheVariants as kind;
ghost use Rattle.asm_model.specs.declared.directives.Directive.TheVariants as directive_is;
ghost use Rattle.asm_model.specs.Directives as directives;
ghost use Rattle.asm_model.specs.Forms as forms;
ghost use Rattle.asm_model.specs.Parts as parts;
ghost use Rattle.asm_model.specs.Says as says;
ghost use Rattle.asm_model.specs.declared.directives.DirectiveLine.TheVariants as line_is;
ghost use Rattle.asm_model.specs.Readings.{mapped};
ghost use Rattle.asm_expr.specs.FormSteps.{expression_in, ReadsExpression};
ghost use Rattle.asm_expr.specs.SentenceSteps.{sentence_of};

use crate::directive_names::directive_named;
use crate::or_kind;
use crate::parts::{piece_of, shared_inside, shared_piece};
use crate::read::shared_expression;
use crate::readings::{area, bare, boundary, expressions, import, name_alone, register};
use asm_model::{
    DataItem, Directive, DirectiveLine, Expr, LabelNeed, SharedText, Token, TokenKind,
};
use sdt_fault::NoMemory;
use sdt_fault::kinds::LineKind;
use std::alloc::Global;

/// What a directive asks of the label field.
fn label_need(directive: Directive) -> LabelNeed
    ensures { result ≡ directives.label_need directive }
{
    match directive {
        Directive::Equ => LabelNeed::Name,
        Directive::Rn => LabelNeed::Name,
        Directive::Field => LabelNeed::Name,
        Directive::Data => LabelNeed::Label,
        Directive::Area
        | Directive::Entry
        | Directive::End
        | Directive::Export
        | Directive::Import
        | Directive::Extern
        | Directive::Keep
        | Directive::Rout
        | Directive::Assert
        | Directive::Nofp
        | Directive::Opt
        | Directive::Ttl
        | Directive::Subt
        | Directive::Constants(_)
        | Directive::Space
        | Directive::Align
        | Directive::Ltorg
        | Directive::Map
        | Directive::Code16
        | Directive::Code32
        | Directive::FloatingPoint
        | Directive::Expansion => LabelNeed::Optional,
    }
}

/// Whether a number is one digit or two.
fn is_short(piece: &[u8]) -> bool
    ensures { result ≡ forms.is_short piece.now }
{
    match piece {
        [first] => first.is_ascii_digit(),
        [first, second] => first.is_ascii_digit() && second.is_ascii_digit(),
        _ => false,
    }
}

/// A local label, which is kept behind a bar.
fn local(alloc: Global, digits: &[u8]) -> Result<SharedText, NoMemory>
    ensures { IfOk result (λ name. name ≡ 124 ∷ digits.now) }
{
    let mut name = Vec::from_slice(alloc, b"|")?;
    name.extend_from_slice(digits)?;
    SharedText::from_vec(alloc, name)
}

/// A number as a label.
fn numeric_label(
    alloc: Global,
    need: LabelNeed,
    piece: &[u8],
) -> Result<Result<Option<SharedText>, LineKind>, NoMemory>
    ensures { IfOk result (λ label. label ≡ says.label_of need kind.Number piece.now) }
{
    match need {
        LabelNeed::Name => Ok(Err(LineKind::Syntax)),
        _ => {
            if is_short(piece) {
                return Ok(Ok(Some(local(alloc, piece)?)));
            }
            Ok(Err(LineKind::Syntax))
        }
    }
}

/// A token as a label.
fn label_of(
    alloc: Global,
    need: LabelNeed,
    text: &SharedText,
    token: Token,
) -> Result<Result<Option<SharedText>, LineKind>, NoMemory>
    ensures { IfOk result (λ label. label
        ≡ says.label_of need token.kind (parts.piece text.now token)) }
{
    match token.kind {
        TokenKind::Name => Ok(Ok(Some(shared_piece(text, token)?))),
        TokenKind::Barred => Ok(Ok(Some(shared_inside(text, token)?))),
        TokenKind::Number => numeric_label(alloc, need, piece_of(text, token)),
        _ => Ok(Err(LineKind::Syntax)),
    }
}

/// What the label field reads as.
pub fn label_field(
    alloc: Global,
    need: LabelNeed,
    text: &SharedText,
    token: Option<Token>,
) -> Result<Result<Option<SharedText>, LineKind>, NoMemory>
    ensures { IfOk result (λ label. label ≡ says.label_field need text.now token) }
{
    match token {
        Some(token) => label_of(alloc, need, text, token),
        None => match need {
            LabelNeed::Optional => Ok(Ok(None)),
            _ => Ok(Err(LineKind::Syntax)),
        },
    }
}

/// The tokens of a line.
#[derive(Clone, Copy)]
pub struct Sentence<'a> {
    pub label: Option<Token>,
    pub operation: Option<Token>,
    pub behind: &'a [Token],
}

/// The operation, and what stands behind it.
fn operated(label: Option<Token>, tokens: &[Token]) -> Sentence<'_>
    ensures { sentence_of result ≡ says.operated label tokens.now }
{
    match tokens {
        [] => Sentence {
            label,
            operation: None,
            behind: tokens,
        },
        [operation, behind @ ..] => Sentence {
            label,
            operation: Some(*operation),
            behind,
        },
    }
}

/// The tokens of a line by what they are: a token in column 1 is the label.
pub fn parts_of(tokens: &[Token]) -> Sentence<'_>
    ensures { sentence_of result ≡ says.sentence tokens.now }
{
    match tokens {
        [] => operated(None, tokens),
        [label, behind @ ..] => {
            if label.start == 0 {
                return operated(Some(*label), behind);
            }
            operated(None, tokens)
        }
    }
}

/// The operands of a directive that says data.
fn constants(
    alloc: Global,
    text: &SharedText,
    item: DataItem,
    tokens: &[Token],
) -> Result<Result<DirectiveLine, LineKind>, NoMemory>
    ensures { IfOk result
        (λ line. says.Reads text.now (says.form_of_directive (directive_is.Constants item)) tokens.now
        line) }
{
    let values = or_kind!(expressions(alloc, text, tokens)?);
    Ok(Ok(DirectiveLine::Constants { item, values }))
}

/// A name as the operand of EXPORT or of KEEP.
fn named(
    text: &SharedText,
    keeps: bool,
    tokens: &[Token],
) -> Result<Result<DirectiveLine, LineKind>, NoMemory>
    ensures { IfOk result
        (λ line. line ≡ mapped (λ n. if keeps then line_is.Keep n else line_is.Export n)
        (says.name_alone text.now tokens.now)) }
{
    let name = or_kind!(name_alone(text, tokens)?);
    if keeps {
        return Ok(Ok(DirectiveLine::Keep { name }));
    }
    Ok(Ok(DirectiveLine::Export { name }))
}

/// A name and its mark as the operands of IMPORT or of EXTERN.
fn imported(
    text: &SharedText,
    is_extern: bool,
    tokens: &[Token],
) -> Result<Result<DirectiveLine, LineKind>, NoMemory>
    ensures { IfOk result
        (λ line. line
        ≡ mapped (λ i. if is_extern then line_is.Extern i.0 i.1 else line_is.Import i.0 i.1)
        (says.import_of text.now tokens.now)) }
{
    let (name, mark) = or_kind!(import(text, tokens)?);
    if is_extern {
        return Ok(Ok(DirectiveLine::Extern { name, mark }));
    }
    Ok(Ok(DirectiveLine::Import { name, mark }))
}

/// The line of a directive whose operand is an expression; Syntax of another directive.
fn of_expression(directive: Directive, expression: Expr) -> Result<DirectiveLine, LineKind>
    ensures { result ≡ expression_in (says.form_of_directive directive) expression }
{
    match directive {
        Directive::Equ => Ok(DirectiveLine::Equ { value: expression }),
        Directive::Assert => Ok(DirectiveLine::Assert {
            condition: expression,
        }),
        Directive::Opt => Ok(DirectiveLine::Opt {
            options: expression,
        }),
        Directive::Space => Ok(DirectiveLine::Space { size: expression }),
        Directive::Map => Ok(DirectiveLine::Map { value: expression }),
        Directive::Field => Ok(DirectiveLine::Field { size: expression }),
        Directive::Area
        | Directive::Entry
        | Directive::End
        | Directive::Export
        | Directive::Import
        | Directive::Extern
        | Directive::Keep
        | Directive::Rn
        | Directive::Rout
        | Directive::Nofp
        | Directive::Ttl
        | Directive::Subt
        | Directive::Constants(_)
        | Directive::Align
        | Directive::Ltorg
        | Directive::Data
        | Directive::Code16
        | Directive::Code32
        | Directive::FloatingPoint
        | Directive::Expansion => Err(LineKind::Syntax),
    }
}

/// An expression as the operand of a directive.
fn with_expression(
    alloc: Global,
    text: &SharedText,
    directive: Directive,
    tokens: &[Token],
) -> Result<Result<DirectiveLine, LineKind>, NoMemory>
    ensures { IfOk result
        (λ line. ReadsExpression text.now (says.form_of_directive directive) tokens.now line) }
{
    let expression = or_kind!(shared_expression(alloc, text, tokens)?);
    Ok(of_expression(directive, expression))
}

/// What the operands of a directive read as.
#[inline(never)]
fn reading(
    alloc: Global,
    text: &SharedText,
    directive: Directive,
    tokens: &[Token],
) -> Result<Result<DirectiveLine, LineKind>, NoMemory>
    ensures { IfOk result
        (λ line. says.Reads text.now (says.form_of_directive directive) tokens.now line) }
{
    match directive {
        Directive::Area => area(alloc, text, tokens),
        Directive::Entry => Ok(bare(DirectiveLine::Entry, tokens)),
        Directive::End => Ok(bare(DirectiveLine::End, tokens)),
        Directive::Export => named(text, false, tokens),
        Directive::Import => imported(text, false, tokens),
        Directive::Extern => imported(text, true, tokens),
        Directive::Keep => named(text, true, tokens),
        Directive::Equ => with_expression(alloc, text, directive, tokens),
        Directive::Rn => register(alloc, text, tokens),
        Directive::Rout => Ok(bare(DirectiveLine::Rout, tokens)),
        Directive::Assert => with_expression(alloc, text, directive, tokens),
        Directive::Nofp => Ok(bare(DirectiveLine::Nofp, tokens)),
        Directive::Opt => with_expression(alloc, text, directive, tokens),
        Directive::Ttl => Ok(bare(DirectiveLine::Ttl, tokens)),
        Directive::Subt => Ok(bare(DirectiveLine::Subt, tokens)),
        Directive::Constants(item) => constants(alloc, text, item, tokens),
        Directive::Space => with_expression(alloc, text, directive, tokens),
        Directive::Align => boundary(alloc, text, tokens),
        Directive::Ltorg => Ok(bare(DirectiveLine::Ltorg, tokens)),
        Directive::Data => Ok(bare(DirectiveLine::Data, tokens)),
        Directive::Map => with_expression(alloc, text, directive, tokens),
        Directive::Field => with_expression(alloc, text, directive, tokens),
        Directive::Code16 => Ok(bare(DirectiveLine::Code16, tokens)),
        Directive::Code32 => Ok(bare(DirectiveLine::Code32, tokens)),
        Directive::FloatingPoint => Ok(Err(LineKind::FloatingPoint)),
        Directive::Expansion => Ok(Err(LineKind::UnknownWord)),
    }
}

/// What the operands of a directive read as. Most directives of a source say data.
pub fn operands_said(
    alloc: Global,
    text: &SharedText,
    directive: Directive,
    tokens: &[Token],
) -> Result<Result<DirectiveLine, LineKind>, NoMemory>
    ensures { IfOk result
        (λ line. says.Reads text.now (says.form_of_directive directive) tokens.now line) }
{
    match directive {
        Directive::Constants(item) => constants(alloc, text, item, tokens),
        _ => reading(alloc, text, directive, tokens),
    }
}

/// What the label field of a directive's line reads as.
pub fn directive_label(
    alloc: Global,
    text: &SharedText,
    directive: Directive,
    token: Option<Token>,
) -> Result<Result<Option<SharedText>, LineKind>, NoMemory>
    ensures { IfOk result
        (λ label. label ≡ says.label_field (directives.label_need directive) text.now token) }
{
    label_field(alloc, label_need(directive), text, token)
}

/// The directive that an operation names.
pub fn directive_of(text: &SharedText, operation: Option<Token>) -> Option<Directive>
    ensures { result ≡ says.directive_of text.now operation }
{
    match operation {
        None => None,
        Some(token) => directive_named(piece_of(text, token)),
    }
}

/// Tokens say one statement, or have one fault.
pub fn one_directive()
    ensures { says.OneDirective }
{}
