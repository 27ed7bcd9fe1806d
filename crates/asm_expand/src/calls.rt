//! Calls of macros.

ghost use Rattle.std.specs.Prelude.{◌≡◌, ◌≤◌, ◌++◌, length, IfOk, OnOk};
ghost use Rattle.std.specs.Option.{option_copied};
ghost use Rattle.asm_model.specs.Forms as forms;
ghost use Rattle.asm_model.specs.Kinds.{told_kind};
ghost use Rattle.expand_model.specs.Prototypes as prototypes;
ghost use Rattle.expand_model.specs.Steps as model;
ghost use Rattle.expand_model.specs.Words.{arguments};
ghost use Rattle.asm_expand.specs.Calling.{HasRows, IsScopeOf, PutsLabel, PutsRow, argument_text};
ghost use Rattle.asm_variables.specs.Expanding.{macro_of};
ghost use Rattle.asm_expand.specs.Saying.{Says, depth_of};
ghost use Rattle.asm_variables.specs.Steps.{words_shown};

use crate::faults::{depth_fault, is_some_text};
use crate::line_cursors::LineCursor;
use crate::steps::{Depth, Frame, Next};
use asm_expr::operands::is;
use asm_expr::told::{first_told, kind_if};
use asm_lines::bytes::is_digit;
use asm_model::SharedText;
use asm_variables::expansion::{Definition, Expansion, Scope};
use asm_variables::line_fields::Words;
use asm_variables::maps::put;
use asm_variables::operands::arguments;
use asm_variables::prototypes::{is_barred, is_name};
use expand_model::{Parameter, Prototype};
use indexmap::IndexMap;
use sdt_fault::NoMemory;
use sdt_fault::kinds::LineKind;
use std::alloc::Global;

/// Whether there is a parameter for a label.
fn takes_label(label: &Option<SharedText>) -> bool
    ensures { result ≡ prototypes.takes_label label.now }
{
    match label {
        None => false,
        Some(_) => true,
    }
}

/// Whether a text is one digit or two.
fn is_short(text: &[u8]) -> bool
    ensures { result ≡ forms.is_short text.now }
{
    match text {
        [first] => is_digit(*first),
        [first, second] => is_digit(*first) && is_digit(*second),
        _ => false,
    }
}

/// Whether a label field may be a line's label.
fn is_label(text: &[u8]) -> bool
    ensures { result ≡ prototypes.is_label text.now }
{
    is_name(text) || is_barred(text) || is_short(text)
}

/// The fault of a call's label field and arguments, of which there are so many.
#[tactic(auto, using(asm_model::proofs::FaultLemmas::told_by_parts))]
fn arguments_fault(prototype: &Prototype, words: Words<'_>, count: usize) -> Option<LineKind>
    requires { count ≡ length (arguments words.behind.now) }
    ensures { result ≡ told_kind (prototypes.call_kinds prototype.now (words_shown words.entry)) }
{
    let other = is_some_text(words.label) && !is_label(words.label);
    let many = prototype.parameters.as_slice().len() < count;
    let label = is_some_text(words.label) && !takes_label(&prototype.label);
    first_told(
        kind_if(other, LineKind::Syntax),
        first_told(
            kind_if(many, LineKind::BadOperand),
            kind_if(label, LineKind::BadOperand),
        ),
    )
}

/// The same, with the fault of a construct more.
#[tactic(auto, using(asm_model::proofs::FaultLemmas::told_by_parts))]
fn call_fault(
    prototype: &Prototype,
    words: Words<'_>,
    count: usize,
    depth: Depth,
) -> Option<LineKind>
    requires { count ≡ length (arguments words.behind.now) }
    ensures { result ≡ told_kind
        (prototypes.call_kinds prototype.now (words_shown words.entry) ++ model.depth_kinds
        (depth_of depth)) }
{
    first_told(arguments_fault(prototype, words, count), depth_fault(depth))
}

/// The text for which a parameter stands.
fn argument_for(
    alloc: Global,
    parameter: &Parameter,
    text: Option<&SharedText>,
) -> Result<SharedText, NoMemory>
    ensures { IfOk result (λ t. t ≡ argument_text parameter.now (option_copied text.entry)) }
{
    let Some(text) = text else {
        return SharedText::from_slice(alloc, b"");
    };
    if is(text.as_slice(), b"|") {
        return parameter.otherwise.share();
    }
    text.share()
}

/// Notes the text for which a parameter stands.
fn put_argument(
    alloc: Global,
    map: &mut IndexMap<SharedText, SharedText>,
    parameter: &Parameter,
    text: Option<&SharedText>,
) -> Result<(), NoMemory>
    ensures { OnOk result
        (PutsRow parameter.now.name
        (argument_text parameter.now (option_copied text.entry)) map.old map.new) }
{
    let value = argument_for(alloc, parameter, text)?;
    let Ok(name) = parameter.name.share() else {
        drop(value);
        return Err(NoMemory);
    };
    put(map, name, value)
}

/// The texts for which parameters stand. The first is noted last, so that it is found.
fn rows_of(
    alloc: Global,
    parameters: &[Parameter],
    texts: &[SharedText],
) -> Result<IndexMap<SharedText, SharedText>, NoMemory>
    ensures { IfOk result (λ map. HasRows map (prototypes.argument_rows parameters.now texts.now)) }
{
    let mut map = IndexMap::new(alloc);
    for i in (0..parameters.len()).rev() {
        let Ok(()) = put_argument(alloc, &mut map, &parameters[i], texts.get(i)) else {
            drop(map);
            return Err(NoMemory);
        };
    }
    Ok(map)
}

/// Notes the label, where a parameter takes it.
fn put_label(
    alloc: Global,
    map: &mut IndexMap<SharedText, SharedText>,
    parameter: &Option<SharedText>,
    label: &[u8],
) -> Result<(), NoMemory>
    ensures { OnOk result (PutsLabel parameter.now label.now map.old map.new) }
{
    match parameter {
        None => Ok(()),
        Some(name) => {
            let name = name.share()?;
            let Ok(value) = SharedText::from_slice(alloc, label) else {
                drop(name);
                return Err(NoMemory);
            };
            put(map, name, value)
        }
    }
}

/// What a call begins with.
fn scope_of(
    alloc: Global,
    prototype: &Prototype,
    label: &[u8],
    texts: &[SharedText],
) -> Result<Scope, NoMemory>
    ensures { IfOk result (λ scope. IsScopeOf prototype.now label.now texts.now scope) }
{
    let mut rows = rows_of(alloc, prototype.parameters.as_slice(), texts)?;
    let Ok(()) = put_label(alloc, &mut rows, &prototype.label, label) else {
        drop(rows);
        return Err(NoMemory);
    };
    Ok(Scope {
        in_call: true,
        locals: IndexMap::new(alloc),
        arguments: rows,
    })
}

/// What a call of a macro says that has these arguments.
fn call_with(
    alloc: Global,
    depth: Depth,
    state: &mut Expansion,
    at: LineCursor,
    words: Words<'_>,
    called: &Definition,
    texts: &[SharedText],
) -> Result<Next, NoMemory>
    requires { texts.now ≡ arguments words.behind.now }
    ensures says { IfOk result (λ next. Says at state.old state.new next (λ s l ls.
        model.call (depth_of depth) l (words_shown words.entry) s ls (macro_of called.now))) }
    ensures visits { state.new.visits ≤ state.old.visits }
    ensures flats { state.new.flats.items ≡ state.old.flats.items }
{
    let prototype = called.prototype.as_ref();
    if let Some(kind) = call_fault(prototype, words, texts.len(), depth) {
        return Ok(Next::Bad(at, kind));
    }
    let Ok(scope) = scope_of(alloc, prototype, words.label, texts) else {
        drop(at);
        return Err(NoMemory);
    };
    let Ok(body) = LineCursor::of_body(&called.body) else {
        drop(scope);
        drop(at);
        return Err(NoMemory);
    };
    let outer = state.enter(scope);
    let Ok(outer) = Box::new(alloc, outer) else {
        drop(body);
        drop(at);
        return Err(NoMemory);
    };
    Ok(Next::Under(Frame::Call(outer, at.past(1)), body))
}

/// What a call of a macro says.
pub fn call(
    alloc: Global,
    depth: Depth,
    state: &mut Expansion,
    at: LineCursor,
    words: Words<'_>,
    called: Definition,
) -> Result<Next, NoMemory>
    ensures says { IfOk result (λ next. Says at state.old state.new next (λ s l ls.
        model.call (depth_of depth) l (words_shown words.entry) s ls (macro_of called))) }
    ensures visits { state.new.visits ≤ state.old.visits }
    ensures flats { state.new.flats.items ≡ state.old.flats.items }
{
    let Ok(texts) = arguments(alloc, words.behind) else {
        drop(called);
        drop(at);
        return Err(NoMemory);
    };
    let said = call_with(alloc, depth, state, at, words, &called, texts.as_slice());
    drop(texts);
    drop(called);
    said
}
