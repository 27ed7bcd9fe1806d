//! IF and WHILE: the lines that they let read, and those that they skip.

ghost use Rattle.std.specs.Prelude.{◌≡◌, ◌≤◌, ◌++◌, IfOk};
ghost use Rattle.expand_model.specs.Known.{long_kinds, value_of};
ghost use Rattle.expand_model.specs.Steps as model;
ghost use Rattle.asm_variables.specs.Known.{WasRead};
ghost use Rattle.asm_expand.specs.Saying.{Says, SkipsFrom, Shortens, depth_of};
ghost use Rattle.asm_variables.specs.Steps.{words_shown};

use crate::faults::{opening_fault, settle};
use crate::line_cursors::LineCursor;
use crate::steps::{Depth, End, Frame, Next};
use asm_model::{Expr, Value};
use asm_variables::expansion::Expansion;
use asm_variables::line_fields::Words;
use asm_variables::pairing::{Skipping, skip};
use asm_variables::values::value_of;
use expand_model::Opening;
use sdt_fault::NoMemory;
use sdt_fault::kinds::LineKind;
use std::alloc::Global;

/// What follows the lines behind a word that skips them, of which the first stands at a place.
pub fn skip_from(
    alloc: Global,
    state: &mut Expansion,
    opening: Opening,
    at: LineCursor,
    from: LineCursor,
) -> Result<Next, NoMemory>
    ensures says { IfOk result (λ next. SkipsFrom at from opening state.old state.new next) }
    ensures visits { IfOk result (λ next. Shortens next state.old.visits state.new.visits) }
    ensures flats { state.new.flats.items ≡ state.old.flats.items }
    ensures fewer { state.new.visits ≤ state.old.visits }
{
    let Ok(skipping) = skip(alloc, opening, state.visits, from.rest()) else {
        drop(at);
        drop(from);
        return Err(NoMemory);
    };
    match skipping {
        Skipping::Closed(passed) => {
            drop(at);
            state.pass(passed);
            Ok(Next::Go(from.past(passed)))
        }
        Skipping::Turned(passed) => {
            state.pass(passed);
            Ok(Next::Under(Frame::Alternative(at), from.past(passed)))
        }
        Skipping::Faulty(passed, kind) => {
            drop(at);
            Ok(Next::Bad(from.past(passed), kind))
        }
        Skipping::Endless => {
            drop(from);
            Ok(Next::Stop(End::Unclosed(at)))
        }
    }
}

/// What follows an IF.
fn branch(
    alloc: Global,
    state: &mut Expansion,
    at: LineCursor,
    truth: bool,
) -> Result<Next, NoMemory>
    ensures says { IfOk result
        (λ next. Says at state.old state.new next (λ s l ls. model.branch l s ls truth)) }
    ensures visits { state.new.visits ≤ state.old.visits }
    ensures flats { state.new.flats.items ≡ state.old.flats.items }
{
    let Ok(behind) = at.behind() else {
        drop(at);
        return Err(NoMemory);
    };
    if truth {
        return Ok(Next::Under(Frame::Condition(at), behind));
    }
    skip_from(alloc, state, Opening::Condition, at, behind)
}

/// What follows a WHILE.
fn turn_around(
    alloc: Global,
    state: &mut Expansion,
    at: LineCursor,
    truth: bool,
) -> Result<Next, NoMemory>
    ensures says { IfOk result
        (λ next. Says at state.old state.new next (λ s l ls. model.loop l s ls truth)) }
    ensures visits { state.new.visits ≤ state.old.visits }
    ensures flats { state.new.flats.items ≡ state.old.flats.items }
{
    let Ok(behind) = at.behind() else {
        drop(at);
        return Err(NoMemory);
    };
    if truth {
        return Ok(Next::Under(Frame::Loop(at), behind));
    }
    skip_from(alloc, state, Opening::Loop, at, behind)
}

/// A value as a truth value.
fn truth_of(value: Result<Value, LineKind>) -> Result<bool, LineKind>
    ensures { result ≡ model.truth value }
{
    match value {
        Ok(Value::Truth(truth)) => Ok(truth),
        Ok(value) => {
            drop(value);
            Err(LineKind::WrongType)
        }
        Err(kind) => Err(kind),
    }
}

/// What an IF says.
pub fn say_if(
    alloc: Global,
    depth: Depth,
    state: &mut Expansion,
    at: LineCursor,
    words: Words<'_>,
    operand: &Result<Expr, LineKind>,
) -> Result<Next, NoMemory>
    requires { WasRead operand.now }
    ensures says { IfOk result (λ next. Says at state.old state.new next (λ s l ls.
        model.valued l (model.label_kinds (words_shown words.entry)
        ++ model.depth_kinds (depth_of depth) ++ long_kinds operand.now)
        (model.truth (value_of s operand.now)) (model.branch l s ls))) }
    ensures visits { state.new.visits ≤ state.old.visits }
    ensures flats { state.new.flats.items ≡ state.old.flats.items }
{
    let Ok(value) = value_of(alloc, state, operand) else {
        drop(at);
        return Err(NoMemory);
    };
    let truth = truth_of(value);
    let told = opening_fault(words, depth, operand);
    match settle(told, truth) {
        Err(kind) => Ok(Next::Bad(at, kind)),
        Ok(truth) => branch(alloc, state, at, truth),
    }
}

/// What a WHILE says.
pub fn say_while(
    alloc: Global,
    depth: Depth,
    state: &mut Expansion,
    at: LineCursor,
    words: Words<'_>,
    operand: &Result<Expr, LineKind>,
) -> Result<Next, NoMemory>
    requires { WasRead operand.now }
    ensures says { IfOk result (λ next. Says at state.old state.new next (λ s l ls.
        model.valued l (model.label_kinds (words_shown words.entry)
        ++ model.depth_kinds (depth_of depth) ++ long_kinds operand.now)
        (model.truth (value_of s operand.now)) (model.loop l s ls))) }
    ensures visits { state.new.visits ≤ state.old.visits }
    ensures flats { state.new.flats.items ≡ state.old.flats.items }
{
    let Ok(value) = value_of(alloc, state, operand) else {
        drop(at);
        return Err(NoMemory);
    };
    let truth = truth_of(value);
    let told = opening_fault(words, depth, operand);
    match settle(told, truth) {
        Err(kind) => Ok(Next::Bad(at, kind)),
        Ok(truth) => turn_around(alloc, state, at, truth),
    }
}
