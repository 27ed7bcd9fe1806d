//! What follows lines that ended, by what they stand in.

ghost use Rattle.std.specs.Prelude.{◌≡◌, ◌≤◌, IfOk};
ghost use Rattle.expand_model.specs.Steps as model;
ghost use Rattle.asm_expand.specs.Saying.{Shortens};
ghost use Rattle.asm_expand.specs.declared.steps.Next.TheVariants as steps;
ghost use Rattle.sdt_fault.specs.declared.kinds.LineKind.TheVariants.{Nesting};
ghost use Rattle.asm_expand.specs.Turning.{Answers, Closes, ClosesLoop, IsWhile, Leaves, Repeats, Resumes, Returns, Turns, TurnsLoop, names_while};

use crate::conditions::skip_from;
use crate::line_cursors::LineCursor;
use crate::steps::{End, Frame, Next};
use asm_model::Line;
use asm_variables::expansion::{Expansion, Scope};
use asm_variables::line_fields::words_of;
use asm_variables::operations::operation_of;
use asm_variables::substitution::substitute;
use expand_model::{Opening, Operation};
use sdt_fault::NoMemory;
use sdt_fault::kinds::LineKind;
use std::alloc::Global;

/// Behind the lines of an IF that a word closes.
fn close_condition(
    alloc: Global,
    state: &mut Expansion,
    at: LineCursor,
    operation: Operation,
    word: LineCursor,
) -> Result<Next, NoMemory>
    ensures says { IfOk result
        (λ next. Closes at operation word state.old state.new next
        (λ l e. model.behind_condition l e)) }
    ensures visits { IfOk result (λ next. Shortens next state.old.visits state.new.visits) }
    ensures flats { state.new.flats.items ≡ state.old.flats.items }
{
    match operation {
        Operation::Else => skip_from(alloc, state, Opening::Alternative, at, word.past(1)),
        Operation::EndIf => {
            drop(at);
            Ok(Next::Go(word.past(1)))
        }
        _ => {
            drop(at);
            Ok(Next::Bad(word, LineKind::Nesting))
        }
    }
}

/// Behind the lines of an IF.
fn turn_condition(
    alloc: Global,
    state: &mut Expansion,
    at: LineCursor,
    end: End,
) -> Result<Next, NoMemory>
    ensures says { IfOk result
        (λ next. Answers at end state.old state.new next (λ l e. model.behind_condition l e)) }
    ensures visits { IfOk result (λ next. Shortens next state.old.visits state.new.visits) }
    ensures flats { state.new.flats.items ≡ state.old.flats.items }
{
    match end {
        End::Closed(operation, word) => close_condition(alloc, state, at, operation, word),
        End::Over => Ok(Next::Stop(End::Unclosed(at))),
        End::Unclosed(inner) => {
            drop(inner);
            Ok(Next::Stop(End::Unclosed(at)))
        }
        End::Left(place) => {
            drop(at);
            Ok(Next::Stop(End::Left(place)))
        }
        End::Ended => Ok(Next::Stop(End::Cut(at))),
        End::Cut(inner) => {
            drop(inner);
            Ok(Next::Stop(End::Cut(at)))
        }
    }
}

/// Behind the lines of an ELSE.
fn turn_alternative(state: &Expansion, at: LineCursor, end: End) -> Next
    ensures says { Answers at end state.now state.now result (λ l e. model.behind_alternative l e) }
    ensures visits { Shortens result state.now.visits state.now.visits }
{
    match end {
        End::Closed(Operation::EndIf, word) => {
            drop(at);
            Next::Go(word.past(1))
        }
        End::Closed(_, word) => {
            drop(at);
            Next::Bad(word, LineKind::Nesting)
        }
        End::Over => Next::Stop(End::Unclosed(at)),
        End::Unclosed(inner) => {
            drop(inner);
            Next::Stop(End::Unclosed(at))
        }
        End::Left(place) => {
            drop(at);
            Next::Stop(End::Left(place))
        }
        End::Ended => Next::Stop(End::Cut(at)),
        End::Cut(inner) => {
            drop(inner);
            Next::Stop(End::Cut(at))
        }
    }
}

/// Whether a word is WHILE.
fn names_while(operation: Option<Operation>) -> bool
    ensures { result ≡ names_while operation }
{
    match operation {
        Some(Operation::While) => true,
        _ => false,
    }
}

/// Whether a line is a WHILE; where it has no text, reading it tells why.
fn is_while(alloc: Global, state: &Expansion, line: &Line) -> Result<bool, NoMemory>
    ensures { IfOk result (λ holds. IsWhile state.now line.now holds) }
{
    match substitute(alloc, &state.tables, line.text.as_slice())? {
        None => Ok(true),
        Some(text) => {
            let holds = names_while(operation_of(words_of(text.as_slice()).operation));
            drop(text);
            Ok(holds)
        }
    }
}

/// A WHILE and the lines behind it once more, from the WEND there.
fn again(
    alloc: Global,
    state: &Expansion,
    at: LineCursor,
    word: LineCursor,
) -> Result<Next, NoMemory>
    ensures says { IfOk result (λ next. Repeats at word state.now next) }
    ensures visits { IfOk result (λ next. Shortens next state.now.visits state.now.visits) }
{
    let Some(line) = at.first() else {
        drop(word);
        return Ok(Next::Go(at));
    };
    let Ok(holds) = is_while(alloc, state, line) else {
        drop(at);
        drop(word);
        return Err(NoMemory);
    };
    if holds {
        drop(word);
        return Ok(Next::Go(at));
    }
    drop(at);
    Ok(Next::Bad(word, LineKind::Nesting))
}

/// Behind the lines of a WHILE that a word closes.
fn close_loop(
    alloc: Global,
    state: &Expansion,
    at: LineCursor,
    operation: Operation,
    word: LineCursor,
) -> Result<Next, NoMemory>
    ensures says { IfOk result (λ next. ClosesLoop at operation word state.now next) }
    ensures visits { IfOk result (λ next. Shortens next state.now.visits state.now.visits) }
{
    match operation {
        Operation::WEnd => again(alloc, state, at, word),
        _ => {
            drop(at);
            Ok(Next::Bad(word, LineKind::Nesting))
        }
    }
}

/// Behind the lines of a WHILE.
fn turn_loop(alloc: Global, state: &Expansion, at: LineCursor, end: End) -> Result<Next, NoMemory>
    ensures says { IfOk result (λ next. TurnsLoop at end state.now next) }
    ensures visits { IfOk result (λ next. Shortens next state.now.visits state.now.visits) }
{
    match end {
        End::Closed(operation, word) => close_loop(alloc, state, at, operation, word),
        End::Over => Ok(Next::Stop(End::Unclosed(at))),
        End::Unclosed(inner) => {
            drop(inner);
            Ok(Next::Stop(End::Unclosed(at)))
        }
        End::Left(place) => {
            drop(at);
            Ok(Next::Stop(End::Left(place)))
        }
        End::Ended => Ok(Next::Stop(End::Cut(at))),
        End::Cut(inner) => {
            drop(inner);
            Ok(Next::Stop(End::Cut(at)))
        }
    }
}

/// The call around is open again, or none; what the call had is given up.
fn leave(state: &mut Expansion, around: Scope)
    ensures state { Leaves around state.old state.new }
    ensures visits { state.new.visits ≡ state.old.visits }
    ensures flats { state.new.flats.items ≡ state.old.flats.items }
{
    let left = state.enter(around);
    drop(left);
}

/// Behind the body of a macro.
fn turn_call(state: &mut Expansion, scope: Scope, behind: LineCursor, end: End) -> Next
    ensures says { Returns scope behind end state.old state.new result }
    ensures visits { Shortens result state.old.visits state.new.visits }
    ensures flats { state.new.flats.items ≡ state.old.flats.items }
{
    match end {
        End::Over => {
            leave(state, scope);
            Next::Go(behind)
        }
        End::Left(place) => {
            drop(place);
            leave(state, scope);
            Next::Go(behind)
        }
        End::Ended => {
            drop(behind);
            leave(state, scope);
            Next::Stop(End::Ended)
        }
        End::Cut(place) => {
            drop(scope);
            drop(behind);
            Next::Stop(End::Cut(place))
        }
        End::Closed(_, word) => {
            drop(scope);
            drop(behind);
            Next::Bad(word, LineKind::Nesting)
        }
        End::Unclosed(place) => {
            drop(scope);
            drop(behind);
            Next::Bad(place, LineKind::Nesting)
        }
    }
}

/// The fault of a word in a file that nothing there pairs with; the lines behind the file are given up.
fn bad_in_file(behind: LineCursor, place: LineCursor) -> Next
    ensures { result ≡ steps.Bad place Nesting }
{
    drop(behind);
    Next::Bad(place, LineKind::Nesting)
}

/// Behind a file.
fn turn_file(state: &Expansion, behind: LineCursor, end: End) -> Next
    ensures says { Resumes behind end state.now result }
    ensures visits { Shortens result state.now.visits state.now.visits }
{
    match end {
        End::Over => Next::Go(behind),
        End::Ended => Next::Go(behind),
        End::Cut(place) => bad_in_file(behind, place),
        End::Left(place) => bad_in_file(behind, place),
        End::Closed(_, word) => bad_in_file(behind, word),
        End::Unclosed(place) => bad_in_file(behind, place),
    }
}

/// What follows lines that ended, by what they stand in.
#[tactic(auto, unfolding(expand_model::specs::Steps::turn))]
pub fn turn(alloc: Global, state: &mut Expansion, frame: Frame, end: End) -> Result<Next, NoMemory>
    ensures says { IfOk result (λ next. Turns frame end state.old state.new next) }
    ensures visits { IfOk result (λ next. Shortens next state.old.visits state.new.visits) }
    ensures flats { state.new.flats.items ≡ state.old.flats.items }
{
    match frame {
        Frame::Condition(at) => turn_condition(alloc, state, at, end),
        Frame::Alternative(at) => Ok(turn_alternative(state, at, end)),
        Frame::Loop(at) => turn_loop(alloc, state, at, end),
        Frame::Call(scope, behind) => {
            let scope = Box::into_inner(scope);
            Ok(turn_call(state, scope, behind, end))
        }
        Frame::File(behind) => Ok(turn_file(state, behind, end)),
    }
}
