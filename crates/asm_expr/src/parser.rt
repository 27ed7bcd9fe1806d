//! The items of an expression from its parts, with the operators that wait for an operand or for looser ones.

ghost use Rattle.std.specs.Prelude.{◌≡◌, OnOk, IfOk, MatchOption, Some, None, if◌then◌else◌, reverse};
ghost use Rattle.asm_model.specs.Grammar as grammar;
ghost use Rattle.asm_expr.specs.Parsing as parsing;
ghost use Rattle.asm_expr.specs.Steps.{Pops, Takes, state_of};

use asm_model::{BinaryOp, ExprItem, Part, UnaryOp};
use sdt_fault::NoMemory;
use std::alloc::Global;

/// What is due.
#[derive(Clone, Copy)]
pub enum Stage {
    Operand,
    /// The name behind `?` or `:DEF:`.
    Name(UnaryOp),
    Operator,
}

/// What waits on the stack.
#[derive(Clone, Copy)]
pub enum Held {
    Open,
    Before(UnaryOp),
    Between(BinaryOp),
}

/// What was read of an expression.
#[derive(Drop)]
pub struct Parser {
    due: Stage,
    items: Vec<ExprItem>,
    stack: Vec<Held>,
}

/// The level of an operator between operands, the tightest first.
fn level(op: BinaryOp) -> u8
    ensures { result ≡ grammar.level op }
{
    match op {
        BinaryOp::Multiply | BinaryOp::Divide | BinaryOp::Modulo => 1,
        BinaryOp::Left | BinaryOp::Right | BinaryOp::Concatenate => 2,
        BinaryOp::RotateLeft | BinaryOp::RotateRight => 3,
        BinaryOp::ShiftLeft | BinaryOp::ShiftRight => 3,
        BinaryOp::Add | BinaryOp::Subtract => 4,
        BinaryOp::And | BinaryOp::Or | BinaryOp::ExclusiveOr => 4,
        BinaryOp::Equal | BinaryOp::NotEqual => 5,
        BinaryOp::Less | BinaryOp::LessEqual => 5,
        BinaryOp::Greater | BinaryOp::GreaterEqual => 5,
        BinaryOp::LogicalAnd | BinaryOp::LogicalOr | BinaryOp::LogicalExclusiveOr => 6,
    }
}

/// Whether what waits goes out before an operator of a level.
fn is_tight(limit: u8, held: Held) -> bool
    ensures { result ≡ parsing.is_tight limit held }
{
    match held {
        Held::Open => false,
        Held::Before(_) => true,
        Held::Between(op) => level(op) <= limit,
    }
}

/// Whether an item is an operand.
pub fn is_operand(item: &ExprItem) -> bool
    ensures { grammar.plain item.now ≡ (if result then Some item.now else None) }
{
    match item {
        ExprItem::Unary(_) => false,
        ExprItem::Binary(_) => false,
        _ => true,
    }
}

/// Whether an item is a name.
fn is_name(item: &ExprItem) -> bool
    ensures { result ≡ parsing.is_name item.now }
{
    match item {
        ExprItem::Name(_) => true,
        ExprItem::Local(_)
        | ExprItem::Constant(_)
        | ExprItem::TooLarge
        | ExprItem::Here
        | ExprItem::Map
        | ExprItem::CodeSize
        | ExprItem::Unary(_)
        | ExprItem::Binary(_) => false,
    }
}

/// The item of an operator that waits.
fn item_of(held: Held) -> ExprItem
    ensures { result ≡ parsing.item_of held }
{
    match held {
        Held::Open => ExprItem::Here,
        Held::Before(op) => ExprItem::Unary(op),
        Held::Between(op) => ExprItem::Binary(op),
    }
}

/// Takes the top off the stack where it goes out before an operator of a level.
fn pop_tight(limit: u8, stack: &mut Vec<Held>) -> Option<Held>
    ensures { Pops limit stack.old.items result stack.new.items }
{
    match stack.last() {
        None => return None,
        Some(top) => {
            if !is_tight(limit, *top) {
                return None;
            }
        }
    }
    stack.pop()
}

/// The operators of a level or tighter go out.
fn settle(limit: u8, items: &mut Vec<ExprItem>, stack: &mut Vec<Held>) -> Result<(), NoMemory>
    ensures { OnOk result ((items.new.items, reverse stack.new.items)
        ≡ parsing.settled limit items.old.items (reverse stack.old.items)) }
{
    'tops: loop {
        match pop_tight(limit, stack) {
            None => return Ok(()),
            Some(top) => items.push(item_of(top))?,
        }
    }
}

impl Parser {
    /// Nothing was read; there is room for so many items.
    pub fn with_room(alloc: Global, items: usize) -> Result<Parser, NoMemory>
        ensures { IfOk result (λ parser. state_of parser ≡ parsing.started) }
    {
        Ok(Parser {
            due: Stage::Operand,
            items: Vec::with_capacity(alloc, items)?,
            stack: Vec::new(alloc),
        })
    }

    /// Reads a part; false where it can't stand there.
    #[tactic(auto, unfolding(crate::specs::Parsing::step))]
    pub fn take(&mut self, part: Part) -> Result<bool, NoMemory>
        ensures { Takes (parsing.step (state_of self.old) part) result (state_of self.new) }
    {
        match self.due {
            Stage::Operand => self.take_operand(part),
            Stage::Name(op) => self.take_name(op, part),
            Stage::Operator => self.take_operator(&part),
        }
    }

    /// What waits for an operand.
    fn hold(&mut self, held: Held) -> Result<bool, NoMemory>
        ensures { Takes (Some
            (parsing.held_back self.old.items.items held (reverse self.old.stack.items))) result
            (state_of self.new) }
    {
        self.stack.push(held)?;
        self.due = Stage::Operand;
        Ok(true)
    }

    fn put(&mut self, item: ExprItem) -> Result<bool, NoMemory>
        ensures { Takes (parsing.put self.old.items.items (reverse self.old.stack.items)
            (grammar.plain item)) result (state_of self.new) }
    {
        if !is_operand(&item) {
            drop(item);
            return Ok(false);
        }
        self.items.push(item)?;
        self.due = Stage::Operator;
        Ok(true)
    }

    fn take_operand(&mut self, part: Part) -> Result<bool, NoMemory>
        ensures { Takes (parsing.on_operand self.old.items.items
            (reverse self.old.stack.items) part) result (state_of self.new) }
    {
        match part {
            Part::Operand(item) => self.put(item),
            Part::Open => self.hold(Held::Open),
            Part::Prefix(op) => self.hold(Held::Before(op)),
            Part::Sum(op, _) => self.hold(Held::Before(op)),
            Part::OfName(op) => {
                self.due = Stage::Name(op);
                Ok(true)
            }
            Part::Close | Part::Infix(_) | Part::Other => Ok(false),
        }
    }

    fn put_name(&mut self, op: UnaryOp, item: ExprItem) -> Result<bool, NoMemory>
        ensures { Takes (parsing.on_named op self.old.items.items
            (reverse self.old.stack.items) item) result (state_of self.new) }
    {
        if !is_name(&item) {
            drop(item);
            return Ok(false);
        }
        self.items.push(item)?;
        self.items.push(ExprItem::Unary(op))?;
        self.due = Stage::Operator;
        Ok(true)
    }

    fn take_name(&mut self, op: UnaryOp, part: Part) -> Result<bool, NoMemory>
        ensures { Takes (parsing.on_name op self.old.items.items
            (reverse self.old.stack.items) part) result (state_of self.new) }
    {
        match part {
            Part::Operand(item) => self.put_name(op, item),
            Part::Open
            | Part::Close
            | Part::Prefix(_)
            | Part::OfName(_)
            | Part::Infix(_)
            | Part::Sum(_, _)
            | Part::Other => Ok(false),
        }
    }

    fn take_operator(&mut self, part: &Part) -> Result<bool, NoMemory>
        ensures { Takes (parsing.on_operator self.old.items.items
            (reverse self.old.stack.items) part.now) result (state_of self.new) }
    {
        match part {
            Part::Infix(op) => self.join(*op),
            Part::Sum(_, op) => self.join(*op),
            Part::Close => self.close(),
            Part::Operand(_) | Part::Open | Part::Prefix(_) | Part::OfName(_) | Part::Other => {
                Ok(false)
            }
        }
    }

    fn join(&mut self, op: BinaryOp) -> Result<bool, NoMemory>
        ensures { Takes (Some
            (parsing.joined op (parsing.settled (grammar.level op) self.old.items.items
            (reverse self.old.stack.items)))) result (state_of self.new) }
    {
        settle(level(op), &mut self.items, &mut self.stack)?;
        self.stack.push(Held::Between(op))?;
        self.due = Stage::Operand;
        Ok(true)
    }

    fn close(&mut self) -> Result<bool, NoMemory>
        ensures { Takes (parsing.closed
            (parsing.settled 6 self.old.items.items (reverse self.old.stack.items)).0
            (parsing.settled 6 self.old.items.items (reverse self.old.stack.items)).1) result
            (state_of self.new) }
    {
        settle(6, &mut self.items, &mut self.stack)?;
        let Some(Held::Open) = self.stack.pop() else {
            return Ok(false);
        };
        self.due = Stage::Operator;
        Ok(true)
    }

    /// The items of what was read; None where it is no whole expression.
    #[tactic(auto, unfolding(crate::specs::Parsing::finished))]
    pub fn finish(self) -> Result<Option<Vec<ExprItem>>, NoMemory>
        ensures { IfOk result
            (λ o. MatchOption o (parsing.finished (state_of self)
            ≡ None) (λ v. parsing.finished (state_of self) ≡ Some v.items)) }
    {
        let Parser {
            due,
            mut items,
            mut stack,
        } = self;
        match due {
            Stage::Operand => return Ok(None),
            Stage::Name(_) => return Ok(None),
            Stage::Operator => {}
        }
        settle(6, &mut items, &mut stack)?;
        if stack.is_empty() {
            return Ok(Some(items));
        }
        Ok(None)
    }
}
