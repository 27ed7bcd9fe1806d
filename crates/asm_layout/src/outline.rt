//! What laying a line needs to know of the whole source.

ghost use Rattle.std.specs.Prelude.{◌≡◌, ◌+◌, ◌++◌, ◌<◌, [], length, IfOk, OnOk};
ghost use Rattle.asm_model.specs.Laid.{reversed};
ghost use Rattle.asm_names.specs.Equals.{pairs_of};
ghost use Rattle.asm_laying.specs.Carried.{most_statements};
ghost use Rattle.asm_layout.specs.Outline.{marks_of, settled_marks, pair_if, IsOutline, IsListed, IsMarked, Lists};

use crate::states::states_of;
use asm_checks::States;
use asm_laying::carried::START;
use asm_laying::declarations::{Declared, declare_one};
use asm_model::{Expr, SharedText, Statement};
use asm_names::defining::{Defines, defined_by};
use asm_names::{Equal, KnownNames, order_of};
use sdt_fault::NoMemory;
use std::alloc::Global;

/// What laying a line needs to know of the whole source.
#[derive(Drop)]
pub struct Outline {
    /// All names, which mean something later.
    pub names: KnownNames,
    /// For each statement with a name for an expression, in the order of the source, whether it is the first that defines
    /// the name, and the name depends on itself or on one that does.
    pub circular: Vec<bool>,
    /// For each statement, in the order of the source, whether it defines a name that is defined before it, or one name twice.
    pub repeated: Vec<bool>,
    /// The states of the areas.
    pub states: States,
}

/// The names of a source, and those that are for expressions.
#[derive(Drop)]
struct Listed<'a> {
    names: KnownNames,
    /// The first definitions of names for expressions.
    equals: Vec<Equal<'a>>,
    /// For each statement with a name for an expression whether it is the first that defines the name.
    firsts: Vec<bool>,
    /// For each statement whether it defines a name that is defined before it, or one name twice.
    repeated: Vec<bool>,
}

/// Notes a name with its expression, where this is the first that defines the name.
fn push_first<'a>(
    equals: &mut Vec<Equal<'a>>,
    first: bool,
    name: &'a SharedText,
    value: &'a Expr,
) -> Result<(), NoMemory>
    ensures { OnOk result (pairs_of equals.new.items
        ≡ pairs_of equals.old.items ++ pair_if first name.now value.now) }
{
    if first {
        equals.push(Equal { name, value })?;
    }
    Ok(())
}

/// Notes a name for an expression, where these names are defined before.
fn list_equal<'a>(listed: &mut Listed<'a>, statement: &'a Statement) -> Result<(), NoMemory>
    ensures { OnOk result (Lists statement.now listed.old listed.new) }
{
    if let Defines::Equal(name, value) = defined_by(statement) {
        let first = listed.names.find(name).is_none();
        push_first(&mut listed.equals, first, name, value)?;
        listed.firsts.push(first)?;
    }
    Ok(())
}

/// Lists the names of a source, in its order, where none are listed yet.
fn list_each<'a>(
    alloc: Global,
    listed: &mut Listed<'a>,
    statements: &'a [Statement],
) -> Result<(), NoMemory>
    requires { IsListed [] listed.old }
    ensures { OnOk result (IsListed (reversed statements.now []) listed.new) }
{
    let mut behind = START;
    let mut left = statements;
    'statements: loop {
        match left {
            [] => return Ok(()),
            [statement, rest @ ..] => {
                list_equal(listed, statement)?;
                let Declared {
                    behind: next,
                    repeated,
                } = declare_one(alloc, &mut listed.names, behind, statement)?;
                listed.repeated.push(repeated)?;
                behind = next;
                left = rest;
            }
        }
    }
}

/// The names of a source, in its order.
fn list_all<'a>(alloc: Global, statements: &'a [Statement]) -> Result<Listed<'a>, NoMemory>
    ensures { IfOk result (λ l. IsListed (reversed statements.now []) l) }
{
    let mut listed = Listed {
        names: KnownNames::with_capacity(alloc, statements.len())?,
        equals: Vec::new(alloc),
        firsts: Vec::new(alloc),
        repeated: Vec::new(alloc),
    };
    match list_each(alloc, &mut listed, statements) {
        Ok(()) => Ok(listed),
        Err(e) => {
            drop(listed);
            Err(e)
        }
    }
}

/// The mark of a definition, and how many of the first definitions are taken behind it.
fn marked(first: bool, settled: &[bool], taken: usize) -> (bool, usize)
    ensures { IsMarked first settled.now taken result.0 result.1 }
{
    if !first {
        return (false, taken);
    }
    match settled.get(taken) {
        None => (false, taken),
        Some(is_settled) => (!*is_settled, taken + 1),
    }
}

/// The marks of all definitions, where those of the first ones tell whether they are settled.
fn circular_of(alloc: Global, firsts: &[bool], settled: &[bool]) -> Result<Vec<bool>, NoMemory>
    ensures { IfOk result (λ marks. marks.items ≡ marks_of firsts.now settled.now) }
{
    let mut marks = Vec::with_capacity(alloc, firsts.len())?;
    let mut taken = 0;
    let mut left = firsts;
    'firsts: loop {
        match left {
            [] => return Ok(marks),
            [first, rest @ ..] => {
                let (mark, next) = marked(*first, settled, taken);
                marks.push(mark)?;
                taken = next;
                left = rest;
            }
        }
    }
}

/// The names for expressions that depend on themselves.
fn circular_in(alloc: Global, equals: &[Equal<'_>], firsts: &[bool]) -> Result<Vec<bool>, NoMemory>
    ensures { IfOk result (λ marks. marks.items ≡ marks_of firsts.now (settled_marks equals.now)) }
{
    if equals.len() > 0xFFFF_FFFF {
        return Err(NoMemory);
    }
    let order = order_of(alloc, equals)?;
    let marks = circular_of(alloc, firsts, order.settled.as_slice());
    drop(order);
    marks
}

/// What the lines of a source need to know of it.
pub fn outline_of(alloc: Global, statements: &[Statement]) -> Result<Outline, NoMemory>
    requires few { length statements.now < most_statements + 1 }
    ensures { IfOk result (λ o. IsOutline (reversed statements.now []) o) }
{
    let Listed {
        names,
        equals,
        firsts,
        repeated,
    } = list_all(alloc, statements)?;
    let marks = circular_in(alloc, equals.as_slice(), firsts.as_slice());
    drop(equals);
    drop(firsts);
    let circular = match marks {
        Ok(circular) => circular,
        Err(e) => {
            drop((names, repeated));
            return Err(e);
        }
    };
    match states_of(alloc, statements) {
        Ok(states) => Ok(Outline {
            names,
            circular,
            repeated,
            states,
        }),
        Err(e) => {
            drop((names, circular, repeated));
            Err(e)
        }
    }
}
