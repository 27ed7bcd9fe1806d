//! Variables: GBLx, LCLx and SETx.

ghost use Rattle.std.specs.Prelude.{◌≡◌, ◌≤◌, ◌++◌, not, IfOk};
ghost use Rattle.asm_model.specs.Kinds.{told_kind};
ghost use Rattle.expand_model.specs.Known.{long_kinds, value_of};
ghost use Rattle.expand_model.specs.Steps as model;
ghost use Rattle.expand_model.specs.Words.{as_name, operand_text};
ghost use Rattle.asm_expand.specs.Declaring.{GlobalFault, LocalFault, SetFault, TargetFault};
ghost use Rattle.asm_variables.specs.Known.{WasRead};
ghost use Rattle.asm_expand.specs.Saying.{Says};
ghost use Rattle.asm_variables.specs.Steps.{words_shown};

use crate::faults::{is_long, label_fault, long_fault, settle};
use crate::line_cursors::LineCursor;
use crate::steps::Next;
use asm_expr::told::{first_told, kind_if};
use asm_model::{Expr, SharedText, Value};
use asm_variables::expansion::Expansion;
use asm_variables::line_fields::Words;
use asm_variables::operands::operand_text;
use asm_variables::prototypes::name_of;
use asm_variables::values::value_of;
use expand_model::Sort;
use sdt_fault::kinds::LineKind;
use sdt_fault::{Bytes, NoMemory};
use std::alloc::Global;

/// What a variable has before it is set.
fn first_value(alloc: Global, sort: Sort) -> Value
    ensures { result ≡ model.first_value sort }
{
    match sort {
        Sort::Arithmetic => Value::Number(0),
        Sort::Logical => Value::Truth(false),
        Sort::Textual => Value::Words(Bytes::from_vec(Vec::new(alloc))),
    }
}

/// Whether a value is of the type.
fn is_of(sort: Sort, value: &Value) -> bool
    ensures { result ≡ model.is_of sort value.now }
{
    match (sort, value) {
        (Sort::Arithmetic, Value::Number(_)) => true,
        (Sort::Logical, Value::Truth(_)) => true,
        (Sort::Textual, Value::Words(_)) => true,
        _ => false,
    }
}

/// The fault of a global variable more.
#[tactic(auto, using(asm_model::proofs::FaultLemmas::told_by_parts))]
fn global_fault(state: &Expansion, words: Words<'_>, name: &SharedText) -> Option<LineKind>
    ensures { GlobalFault state.now (words_shown words.entry) name.now result }
{
    let known = state.tables.globals.contains_key(name);
    first_told(
        first_told(label_fault(words), kind_if(known, LineKind::DuplicateName)),
        kind_if(is_long(name.as_slice()), LineKind::TooMany),
    )
}

/// What GBLA, GBLL or GBLS says.
pub fn say_global(
    alloc: Global,
    state: &mut Expansion,
    at: LineCursor,
    words: Words<'_>,
    sort: Sort,
) -> Result<Next, NoMemory>
    ensures says { IfOk result (λ next. Says at state.old state.new next (λ s l ls.
        model.declares_global l (words_shown words.entry) sort s ls
        (as_name (operand_text words.entry.behind.now)))) }
    ensures visits { state.new.visits ≤ state.old.visits }
    ensures flats { state.new.flats.items ≡ state.old.flats.items }
{
    let Some(name) = name_of(operand_text(words.behind)) else {
        return Ok(Next::Bad(at, LineKind::Syntax));
    };
    let Ok(name) = SharedText::from_slice(alloc, name) else {
        drop(at);
        return Err(NoMemory);
    };
    if let Some(kind) = global_fault(state, words, &name) {
        drop(name);
        return Ok(Next::Bad(at, kind));
    }
    let Ok(()) = state.declare_global(name, first_value(alloc, sort)) else {
        drop(at);
        return Err(NoMemory);
    };
    Ok(Next::Go(at.past(1)))
}

/// The fault of a local variable more.
#[tactic(auto, using(asm_model::proofs::FaultLemmas::told_by_parts))]
fn local_fault(state: &Expansion, words: Words<'_>, name: &SharedText) -> Option<LineKind>
    ensures { LocalFault state.now (words_shown words.entry) name.now result }
{
    let known = state.tables.locals.contains_key(name);
    first_told(
        first_told(
            first_told(label_fault(words), kind_if(known, LineKind::DuplicateName)),
            kind_if(!state.in_call, LineKind::Nesting),
        ),
        kind_if(is_long(name.as_slice()), LineKind::TooMany),
    )
}

/// What LCLA, LCLL or LCLS says in a call.
pub fn say_local(
    alloc: Global,
    state: &mut Expansion,
    at: LineCursor,
    words: Words<'_>,
    sort: Sort,
) -> Result<Next, NoMemory>
    ensures says { IfOk result (λ next. Says at state.old state.new next (λ s l ls.
        model.declares_local l (words_shown words.entry) sort s ls
        (as_name (operand_text words.entry.behind.now)))) }
    ensures visits { state.new.visits ≤ state.old.visits }
    ensures flats { state.new.flats.items ≡ state.old.flats.items }
{
    let Some(name) = name_of(operand_text(words.behind)) else {
        return Ok(Next::Bad(at, LineKind::Syntax));
    };
    let Ok(name) = SharedText::from_slice(alloc, name) else {
        drop(at);
        return Err(NoMemory);
    };
    if let Some(kind) = local_fault(state, words, &name) {
        drop(name);
        return Ok(Next::Bad(at, kind));
    }
    if !state.in_call {
        drop(name);
        return Ok(Next::Bad(at, LineKind::Nesting));
    }
    let Ok(()) = state.declare_local(name, first_value(alloc, sort)) else {
        drop(at);
        return Err(NoMemory);
    };
    Ok(Next::Go(at.past(1)))
}

/// The fault of a variable that is to have a value of the type.
fn target_fault(state: &Expansion, sort: Sort, name: &SharedText) -> Option<LineKind>
    ensures { TargetFault state.now sort name.now result }
{
    match state.tables.variable(name) {
        None => Some(LineKind::UnknownWord),
        Some(value) => kind_if(!is_of(sort, value), LineKind::WrongType),
    }
}

/// The faults of a SETA, SETL or SETS but for its value's.
#[tactic(auto, using(asm_model::proofs::FaultLemmas::told_by_parts))]
fn set_fault(
    state: &Expansion,
    sort: Sort,
    name: &SharedText,
    operand: &Result<Expr, LineKind>,
) -> Option<LineKind>
    ensures { SetFault state.now sort name.now operand.now result }
{
    first_told(target_fault(state, sort, name), long_fault(operand))
}

/// A value of the type.
fn of_type(sort: Sort, value: Result<Value, LineKind>) -> Result<Value, LineKind>
    ensures { result ≡ model.of_type sort value }
{
    match value {
        Err(kind) => Err(kind),
        Ok(value) => {
            if is_of(sort, &value) {
                return Ok(value);
            }
            drop(value);
            Err(LineKind::WrongType)
        }
    }
}

/// What SETA, SETL or SETS says.
pub fn say_set(
    alloc: Global,
    state: &mut Expansion,
    at: LineCursor,
    words: Words<'_>,
    sort: Sort,
    operand: &Result<Expr, LineKind>,
) -> Result<Next, NoMemory>
    requires { WasRead operand.now }
    ensures says { IfOk result (λ next. Says at state.old state.new next (λ s l ls.
        model.sets l sort s ls (as_name words.entry.label.now) (long_kinds operand.now)
        (value_of s operand.now))) }
    ensures visits { state.new.visits ≤ state.old.visits }
    ensures flats { state.new.flats.items ≡ state.old.flats.items }
{
    let Some(name) = name_of(words.label) else {
        return Ok(Next::Bad(at, LineKind::Syntax));
    };
    let Ok(name) = SharedText::from_slice(alloc, name) else {
        drop(at);
        return Err(NoMemory);
    };
    let Ok(value) = value_of(alloc, state, operand) else {
        drop(name);
        drop(at);
        return Err(NoMemory);
    };
    let typed = of_type(sort, value);
    let told = set_fault(state, sort, &name, operand);
    match settle(told, typed) {
        Err(kind) => {
            drop(name);
            Ok(Next::Bad(at, kind))
        }
        Ok(value) => {
            let Ok(()) = state.set(name, value) else {
                drop(at);
                return Err(NoMemory);
            };
            Ok(Next::Go(at.past(1)))
        }
    }
}
