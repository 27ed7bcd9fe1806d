//! What a line says in its state: nothing, a label alone, a directive, or an instruction or a pseudo-instruction.

ghost use Rattle.std.specs.Prelude.{◌≡◌, IfOk};
ghost use Rattle.std.specs.List.{list_any};
ghost use Rattle.asm_expr.specs.SentenceSteps.{sentence_of};
ghost use Rattle.asm_model.specs.Told.{Told};
ghost use Rattle.asm_model.specs.Tokens.{is_long};
ghost use Rattle.asm_reading.specs.Says as says;

use asm_arm::{line_forms as arm_forms, mnemonics as arm_mnemonics};
use asm_expr::directives::{Sentence, directive_of, label_field, parts_of};
use asm_expr::parts::piece_of;
use asm_expr::says::{ParsedStatement, of_directive, statement, statement_or_refusal};
use asm_lines::scan::{has_long, scan_into};
use asm_model::{Flat, LabelNeed, SharedText, Statement, Token, What};
use asm_thumb::{line_forms as thumb_forms, mnemonics as thumb_mnemonics};
use sdt_fault::NoMemory;
use sdt_fault::answer::Fault;
use sdt_fault::kinds::LineKind;
use std::alloc::Global;

/// A line without an operation.
fn alone(alloc: Global, line: &Flat, label: Option<Token>) -> Result<ParsedStatement, NoMemory>
    ensures { IfOk result (λ said. said ≡ says.alone line.now label) }
{
    let Some(label) = label else {
        return Ok(Ok(None));
    };
    let source = line.source.share()?;
    let text = &line.text;
    match label_field(alloc, LabelNeed::Optional, text, Some(label))? {
        Ok(label) => Ok(statement(source, line, Ok(label), Ok(What::Nothing))),
        Err(kind) => Ok(Err(kind)),
    }
}

/// What an operation and the tokens behind it say in a state.
fn read_operation(
    alloc: Global,
    thumb: bool,
    text: &SharedText,
    operation: Token,
    tokens: &[Token],
) -> Result<Result<What, LineKind>, NoMemory>
    ensures { IfOk result (λ said. says.ReadsBy thumb text.now operation tokens.now said) }
{
    let fault = arm_forms::unnamed(operation.kind);
    let piece = piece_of(text, operation);
    if thumb {
        let word = thumb_mnemonics::operation_named(piece);
        return thumb_forms::instruction(alloc, text, fault, word, tokens);
    }
    let word = arm_mnemonics::operation_named(piece);
    arm_forms::instruction(alloc, text, fault, word, tokens)
}

/// A line with an operation.
fn with_operation(
    alloc: Global,
    thumb: bool,
    line: &Flat,
    label: Option<Token>,
    operation: Token,
    tokens: &[Token],
) -> Result<ParsedStatement, NoMemory>
    ensures { IfOk result (λ said.
        says.SaysOperation (says.ReadsBy thumb) line.now label operation tokens.now said) }
{
    let source = line.source.share()?;
    let text = &line.text;
    let label = label_field(alloc, LabelNeed::Optional, text, label)?;
    let what = read_operation(alloc, thumb, text, operation, tokens)?;
    Ok(statement(source, line, label, what))
}

/// What a line without a directive says.
fn words(
    alloc: Global,
    thumb: bool,
    line: &Flat,
    sentence: Sentence<'_>,
) -> Result<ParsedStatement, NoMemory>
    ensures { IfOk result (λ said.
        says.SaysInstruction (says.ReadsBy thumb) line.now (sentence_of sentence.entry) said) }
{
    match sentence.operation {
        Some(operation) => {
            let behind = sentence.behind;
            with_operation(alloc, thumb, line, sentence.label, operation, behind)
        }
        None => alone(alloc, line, sentence.label),
    }
}

/// What the tokens of a line say.
fn said_by(
    alloc: Global,
    thumb: bool,
    line: &Flat,
    tokens: &[Token],
) -> Result<ParsedStatement, NoMemory>
    ensures { IfOk result
        (λ said. says.SaysTokens (says.ReadsBy thumb) line.now tokens.now said) }
{
    let sentence = parts_of(tokens);
    match directive_of(&line.text, sentence.operation) {
        Some(directive) => of_directive(alloc, line, sentence, directive),
        None => words(alloc, thumb, line, sentence),
    }
}

/// Marks what a line says, where a name among its tokens is beyond the limit.
fn mark_long(said: &mut Result<ParsedStatement, NoMemory>, tokens: &[Token])
    ensures { said.new ≡ says.marked (list_any is_long tokens.now) said.old }
{
    if let Ok(Ok(Some(statement))) = said {
        statement.is_long = has_long(tokens);
    }
}

/// What a line of Thumb state says, or one of ARM state; its tokens are put in place of those that are there. A line of 2^32
/// bytes counts as want of memory.
pub fn said_in(
    alloc: Global,
    tokens: &mut Vec<Token>,
    thumb: bool,
    line: &Flat,
) -> Result<ParsedStatement, NoMemory>
    ensures { IfOk result (λ said. says.SaysBy thumb line.now said) }
{
    let text = line.text.as_slice();
    if text.len() > 0xFFFF_FFFF {
        return Err(NoMemory);
    }
    let found = scan_into(tokens, text)?;
    if !found {
        return Ok(Err(LineKind::Syntax));
    }
    let mut said = said_by(alloc, thumb, line, tokens.as_slice());
    mark_long(&mut said, tokens.as_slice());
    said
}

/// What a line that is read alone says.
fn said_alone(alloc: Global, thumb: bool, line: &Flat) -> Result<ParsedStatement, NoMemory>
    ensures { IfOk result (λ said. says.SaysBy thumb line.now said) }
{
    said_in(alloc, &mut Vec::new(alloc), thumb, line)
}

/// What a line of ARM state says; None exactly for a blank line. A line with faults is refused, and of several kinds
/// the first in the order of the kinds is told: Syntax where the line has no tokens, its tokens have no form or its
/// operation is no word, UnknownWord for an operation word that nothing names, FloatingPoint for a word of the FPA; and
/// the faults of directives. Registers, the values of expressions, words that a form doesn't have and names beyond the
/// limit are judged elsewhere. A line of 2^32 bytes counts as want of memory.
pub fn parse_arm(alloc: Global, line: &Flat) -> Result<Option<Statement>, Fault>
    ensures { Told line.now.source line.now.number (says.SaysArm line.now) result }
{
    let said = said_alone(alloc, false, line);
    statement_or_refusal(alloc, line, said)
}

/// What a line of Thumb state says; None exactly for a blank line. A line with faults is refused, and of several kinds
/// the first in the order of the kinds is told: Syntax where the line has no tokens, its tokens have no form or its
/// operation is no word, UnknownWord for an operation word that nothing names in this state, FloatingPoint for a word
/// of the FPA; and the faults of directives. Registers, the values of expressions, words that a form doesn't have and names
/// beyond the limit are judged elsewhere. A line of 2^32 bytes counts as want of memory.
pub fn parse_thumb(alloc: Global, line: &Flat) -> Result<Option<Statement>, Fault>
    ensures { Told line.now.source line.now.number (says.SaysThumb line.now) result }
{
    let said = said_alone(alloc, true, line);
    statement_or_refusal(alloc, line, said)
}
