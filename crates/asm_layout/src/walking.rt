//! The lines of a source, laid and checked one behind the other.

ghost use Rattle.std.specs.Prelude.{◌≡◌, ◌+◌, ◌<◌, [], length, slice_get, take, IfOk, OnOk};
ghost use Rattle.asm_model.specs.Labels as labels;
ghost use Rattle.asm_model.specs.Laid.{reversed};
ghost use Rattle.asm_model.specs.Said.{AllSaid, IsSaid};
ghost use Rattle.asm_laying.specs.Carried.{most_statements};
ghost use Rattle.asm_laying.specs.Laying as laying;
ghost use Rattle.asm_model.specs.FaultSets as sets;
ghost use Rattle.asm_layout.specs.Layout.{IsTold};
ghost use Rattle.asm_layout.specs.Outline.{IsOutline};
ghost use Rattle.asm_layout.specs.Walking as walking;

use crate::outline::Outline;
use crate::telling::told_of;
use asm_checks::{Checks, Starts};
use asm_expr::kinds::earlier;
use asm_expr::told::first_told;
use asm_laying::laying::{LaidOutcome, LaidStatement, Laying};
use asm_model::Statement;
use asm_names::defining::{Defines, defined_by};
use asm_registers::Registers;
use sdt_fault::NoMemory;
use sdt_fault::answer::Fault;
use sdt_fault::kinds::LineKind;
use std::alloc::Global;

/// What lines leave for those behind them.
#[derive(Drop)]
pub struct Walk<'a> {
    alloc: Global,
    pub laying: Laying,
    pub checks: Checks,
    pub registers: Registers,
    pub starts: Starts,
    /// The lines, in the order of the source.
    pub lines: Vec<LaidStatement<'a>>,
    /// How many statements with names for expressions there are so far.
    equals: usize,
}

/// What is known of a line before it is kept.
#[derive(Drop)]
struct CheckedLine<'a> {
    laid: LaidOutcome<'a>,
    /// Whether its area is one of Thumb code.
    thumb_area: bool,
    /// The fault that is told, of those that need no values.
    found: Option<LineKind>,
}

/// Whether a statement is the first that defines a name for an expression which depends on itself.
fn take_mark(equals: &mut usize, circular: &[bool], statement: &Statement) -> bool
    ensures mark { walking.IsMark circular.now equals.old (labels.defined_by statement.now) result }
    ensures count { walking.IsCounted circular.now equals.old
        (labels.defined_by statement.now) equals.new }
{
    match defined_by(statement) {
        Defines::Equal(_, _) => next_mark(equals, circular),
        _ => false,
    }
}

fn next_mark(equals: &mut usize, circular: &[bool]) -> bool
    ensures { walking.IsNext circular.now equals.old equals.new result }
{
    match circular.get(*equals) {
        None => false,
        Some(mark) => {
            *equals += 1;
            *mark
        }
    }
}

/// The mark of a statement, counted from 0.
fn mark_of(marks: &[bool], number: usize) -> bool
    ensures { result ≡ walking.or_false (slice_get marks.now number) }
{
    match marks.get(number) {
        None => false,
        Some(mark) => *mark,
    }
}

/// The first statements, `count` of them or all.
fn front_of(statements: &[Statement], count: usize) -> &[Statement]
    ensures { result.now ≡ take count statements.now }
{
    if count < statements.len() {
        return &statements[..count];
    }
    statements
}

impl<'a> Walk<'a> {
    /// Before the first line, with room for so many names and lines.
    fn new(
        alloc: Global,
        statements: &[Statement],
        names: usize,
        lines: usize,
    ) -> Result<Walk<'a>, NoMemory>
        ensures { IfOk result (λ w. walking.Begins (reversed statements.now []) w) }
    {
        let laying = Laying::with_room(alloc, names)?;
        let registers = match Registers::new(alloc, statements) {
            Ok(registers) => registers,
            Err(e) => {
                drop(laying);
                return Err(e);
            }
        };
        let lines = match Vec::with_capacity(alloc, lines) {
            Ok(lines) => lines,
            Err(e) => {
                drop((laying, registers));
                return Err(NoMemory::from(e));
            }
        };
        Ok(Walk {
            alloc,
            laying,
            checks: Checks::new(alloc),
            registers,
            starts: Starts::new(alloc),
            lines,
            equals: 0,
        })
    }

    /// What is told of a line more.
    fn check_line(
        &mut self,
        outline: &Outline,
        statement: &'a Statement,
    ) -> Result<CheckedLine<'a>, NoMemory>
        requires may { laying.MayLay outline.now.names self.old.laying }
        requires said { IsSaid statement.now }
        ensures { IfOk result
            (λ j. walking.ChecksLine outline.now statement.now self.old self.new j) }
    {
        let laid = self.laying.lay(self.alloc, &outline.names, statement)?;
        let circular = take_mark(&mut self.equals, outline.circular.as_slice(), statement);
        let repeated = mark_of(outline.repeated.as_slice(), self.lines.len());
        let thumb_area = outline.states.is_thumb(laid.area);
        let checked = self.checks.check(
            statement,
            laid.area,
            laid.thumb,
            thumb_area,
            laid.number,
            circular,
            repeated,
        )?;
        let named = self
            .registers
            .check(statement, laid.thumb, laid.number, &outline.names)?;
        Ok(CheckedLine {
            laid,
            thumb_area,
            found: first_told(checked, named),
        })
    }

    /// Keeps a line without a fault.
    fn keep(
        &mut self,
        laid: LaidStatement<'a>,
        number: Result<u32, LineKind>,
        thumb_area: bool,
    ) -> Result<(), NoMemory>
        ensures { OnOk result (walking.Keeps laid.entry number thumb_area self.old self.new) }
    {
        let line = laid.line;
        self.lines.push(laid)?;
        self.starts
            .note(&line.statement.what, line.place.area, thumb_area, number)?;
        Ok(())
    }

    /// Keeps a line, or tells its fault.
    fn keep_or_tell(
        &mut self,
        alloc: Global,
        statement: &'a Statement,
        checked: CheckedLine<'a>,
    ) -> Result<(), Fault>
        ensures { walking.KeepsOrTells statement.now checked.entry self.old self.new result }
    {
        let CheckedLine {
            laid,
            thumb_area,
            found,
        } = checked;
        let LaidOutcome { number, placed, .. } = laid;
        match (placed, found) {
            (Err(kind), None) => Err(told_of(alloc, statement, kind)),
            (Err(kind), Some(other)) => Err(told_of(alloc, statement, earlier(kind, other))),
            (Ok(laid), Some(kind)) => {
                drop(laid);
                Err(told_of(alloc, statement, kind))
            }
            (Ok(laid), None) => {
                self.keep(laid, number, thumb_area)?;
                Ok(())
            }
        }
    }

    /// Lays a line more; or tells its fault, behind which nothing more can be laid.
    fn step(
        &mut self,
        alloc: Global,
        outline: &Outline,
        statement: &'a Statement,
    ) -> Result<(), Fault>
        requires may { laying.MayLay outline.now.names self.old.laying }
        requires said { IsSaid statement.now }
        ensures { walking.StepsOn outline.now statement.now self.old self.new result }
    {
        let checked = self.check_line(outline, statement)?;
        self.keep_or_tell(alloc, statement, checked)
    }
}

/// Lays the first lines of a source, `count` of them or all, up to the first with a fault that is told at it.
pub fn walked_front<'a>(
    alloc: Global,
    outline: &Outline,
    statements: &'a [Statement],
    count: usize,
) -> Result<Walk<'a>, Fault>
    requires outline { IsOutline (reversed statements.now []) outline.now }
    requires few { length statements.now < most_statements + 1 }
    requires said { AllSaid statements.now }
    ensures { walking.IsFrontWalked (reversed statements.now []) count result }
{
    let front = front_of(statements, count);
    let mut walk = Walk::new(alloc, statements, outline.names.len(), front.len())?;
    let mut left = front;
    'statements: loop {
        match left {
            [] => return Ok(walk),
            [statement, rest @ ..] => {
                match walk.step(alloc, outline, statement) {
                    Ok(()) => left = rest,
                    Err(fault) => {
                        drop(walk);
                        return Err(fault);
                    }
                }
            }
        }
    }
}

/// Lays the lines of a source, up to the first with a fault that is told at it.
pub fn walked<'a>(
    alloc: Global,
    outline: &Outline,
    statements: &'a [Statement],
) -> Result<Walk<'a>, Fault>
    requires outline { IsOutline (reversed statements.now []) outline.now }
    requires few { length statements.now < most_statements + 1 }
    requires said { AllSaid statements.now }
    ensures { walking.IsWalked (reversed statements.now []) result }
{
    let count = statements.len();
    walked_front(alloc, outline, statements, count)
}
