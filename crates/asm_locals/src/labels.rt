//! Local labels by their numbers, and what references name.

ghost use Rattle.std.specs.Prelude.{◌≡◌, ◌-◌, ℕ, Option, None, Some, length, IfOk};
ghost use Rattle.asm_locals.specs.Labels as labels_of;
ghost use Rattle.asm_locals.specs.Passes.{begun, entry, found, noted, number_at, IsTable};

use asm_model::{DirectiveLine, Statement, What};
use sdt_fault::NoMemory;
use std::alloc::Global;

const NUMBERS: usize = 100;

/// A number below 100.
fn if_short(number: usize) -> Option<usize>
    ensures { result ≡ labels_of.if_short number }
{
    if number < NUMBERS {
        return Some(number);
    }
    None
}

fn digit(byte: u8) -> usize
    ensures { result ≡ byte - 48 }
{
    byte.saturating_sub(b'0') as usize
}

/// The number that one digit or two write.
fn number_in(digits: &[u8]) -> Option<usize>
    ensures { result ≡ labels_of.number_in digits.now }
{
    match digits {
        [low] => if_short(digit(*low)),
        [high, low] => if_short(digit(*high) * 10 + digit(*low)),
        _ => None,
    }
}

/// The number of a label that is kept as digits behind a bar.
fn label_number(label: &[u8]) -> Option<usize>
    ensures { result ≡ labels_of.label_number (Some label.now) }
{
    match label {
        [] => None,
        [first, digits @ ..] => {
            if *first == b'|' {
                return number_in(digits);
            }
            None
        }
    }
}

/// The number of a statement's local label.
pub fn local_number(statement: &Statement) -> Option<usize>
    ensures { result ≡ labels_of.local_number statement.now }
{
    if let What::Directive(DirectiveLine::Rout) = &statement.what {
        return None;
    }
    match &statement.label {
        None => None,
        Some(label) => label_number(label.as_slice()),
    }
}

/// Whether a line begins a stretch of lines in which local labels count.
pub fn begins_stretch(what: &What) -> bool
    ensures { result ≡ labels_of.begins_stretch what.now }
{
    match what {
        What::Directive(DirectiveLine::Area { .. }) => true,
        What::Directive(DirectiveLine::Rout) => true,
        _ => false,
    }
}

/// The number in what stands behind a reference's percent sign: with this letter or with none, and not with the other.
fn number_with(letter: u8, other: u8, text: &[u8]) -> Option<usize>
    ensures { result ≡ labels_of.number_with letter other text.now }
{
    match text {
        [] => None,
        [first, rest @ ..] => {
            if *first == letter {
                return number_in(rest);
            }
            if *first == other {
                return None;
            }
            number_in(text)
        }
    }
}

fn number_behind(letter: u8, other: u8, text: &[u8]) -> Option<usize>
    ensures { result ≡ labels_of.number_behind letter other text.now }
{
    match text {
        [] => None,
        [_, rest @ ..] => number_with(letter, other, rest),
    }
}

/// On which side of a line labels are looked for.
#[derive(Clone, Copy)]
pub enum Way {
    Back,
    Forth,
}

/// The number of the label that a reference names on this side.
fn number_on(way: Way, text: &[u8]) -> Option<usize>
    ensures { result ≡ number_at way text.now }
{
    match way {
        Way::Back => number_behind(b'B', b'F', text),
        Way::Forth => number_behind(b'F', b'B', text),
    }
}

/// The nearest label of each number, on one side of a line.
#[derive(Drop)]
pub struct Nearest {
    pub way: Way,
    /// By number, the label's statement, counted from 0.
    pub table: Vec<Option<u64>>,
}

impl Nearest {
    /// No labels yet.
    pub fn new(alloc: Global, way: Way) -> Result<Nearest, NoMemory>
        ensures way { IfOk result (λ nearest. nearest.way ≡ way) }
        ensures none { IfOk result (λ nearest. IsTable nearest.table.items (λ n. None)) }
    {
        Ok(Nearest {
            way,
            table: vec![in alloc; None; NUMBERS]?,
        })
    }

    fn clear(&mut self)
        ensures way { self.new.way ≡ self.old.way }
        ensures none { length self.old.table.items ≡ 100
            → IsTable self.new.table.items (λ n. None) }
    {
        self.table.fill(None);
    }

    /// Forgets the labels of a stretch, where a line begins one.
    pub fn begin(&mut self, begins: bool)
        ensures way { self.new.way ≡ self.old.way }
        ensures begun { (labels : ℕ → Option ℕ) → IsTable self.old.table.items labels
            → IsTable self.new.table.items (begun begins labels) }
    {
        if begins {
            self.clear();
        }
    }

    /// A statement's label, where it has one.
    pub fn add(&mut self, number: Option<usize>, statement: u64)
        ensures way { self.new.way ≡ self.old.way }
        ensures noted { (labels : ℕ → Option ℕ) → IsTable self.old.table.items labels
            → IsTable self.new.table.items (noted number statement labels) }
    {
        if let Some(number) = number
            && number < self.table.len()
        {
            self.table[number] = Some(statement);
        }
    }

    fn at(&self, number: usize) -> Option<u64>
        ensures { result ≡ entry self.now.table.items number }
    {
        if number < self.table.len() {
            return self.table[number];
        }
        None
    }

    /// The statement that a reference names on this side.
    pub fn find(&self, text: &[u8]) -> Option<u64>
        ensures { result ≡ found self.now text.now }
    {
        match number_on(self.way, text) {
            None => None,
            Some(number) => self.at(number),
        }
    }
}
