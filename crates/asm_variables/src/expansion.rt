//! What expansion has at a line.

ghost use Rattle.std.specs.Prelude.{◌≡◌, ◌+◌, ◌-◌, ◌<◌, ◌≤◌, true, IfOk, OnOk};
ghost use Rattle.expand_model.specs.States as model;
ghost use Rattle.expand_model.specs.Steps.{with_visits};
ghost use Rattle.asm_variables.specs.Expanding.{Becomes, Enters, Replaces, macro_of, with_macro};

use crate::line_names::LineNames;
use crate::maps::put;
use crate::variables::Tables;
use asm_model::{Flat, Line, SharedText, Value};
use expand_model::Prototype;
use indexmap::IndexMap;
use sdt_fault::{List, NoMemory};
use std::alloc::Global;
use std::mem;
use std::rc::Rc;

/// What a call of a macro has of its own; nothing where no call is open.
#[derive(Drop)]
pub struct Scope {
    pub in_call: bool,
    pub locals: IndexMap<SharedText, Value>,
    pub arguments: IndexMap<SharedText, SharedText>,
}

/// A macro. Copies share it.
#[derive(Drop)]
pub struct Definition {
    pub prototype: Rc<Prototype>,
    pub body: Rc<List<Line>>,
}

/// Variables, macros and the flat lines so far, with what these say to conditions.
#[derive(Drop)]
pub struct Expansion {
    /// How many lines may still be visited.
    pub visits: usize,
    pub tables: Tables,
    /// Whether a call of a macro is open.
    pub in_call: bool,
    pub macros: IndexMap<SharedText, Definition>,
    pub flats: Vec<Flat>,
    /// The names that an EQU made a number.
    pub numbers: IndexMap<SharedText, u32>,
    /// The names in label fields of flat lines.
    pub labels: LineNames,
    pub thumb: bool,
}

impl Definition {
    /// The same macro.
    pub fn copy(&self) -> Result<Definition, NoMemory>
        ensures { IfOk result (λ d. macro_of d ≡ macro_of self.now) }
    {
        let prototype = self.prototype.clone()?;
        let body = self.body.clone()?;
        Ok(Definition { prototype, body })
    }
}

/// Sets the value of a name that has one.
fn replace(
    map: &mut IndexMap<SharedText, Value>,
    name: SharedText,
    value: Value,
) -> Result<(), NoMemory>
    ensures { OnOk result (Replaces name value map.old map.new) }
{
    if !map.contains_key(&name) {
        return Ok(());
    }
    put(map, name, value)
}

impl Scope {
    /// That of no call.
    pub fn none(alloc: Global) -> Scope {
        Scope {
            in_call: false,
            locals: IndexMap::new(alloc),
            arguments: IndexMap::new(alloc),
        }
    }
}

impl Expansion {
    /// A line is visited.
    pub fn visit(&mut self)
        requires { 0 < self.old.visits }
        ensures state { Becomes self.old self.new model.visited }
        ensures visits { self.new.visits + 1 ≡ self.old.visits }
        ensures flats { self.new.flats.items ≡ self.old.flats.items }
    {
        self.visits -= 1;
    }

    /// So many lines are visited, or all that may be.
    pub fn pass(&mut self, count: usize)
        ensures state { Becomes self.old self.new (λ s. with_visits (s.visits - count) s) }
        ensures visits { self.new.visits ≡ self.old.visits - count }
        ensures flats { self.new.flats.items ≡ self.old.flats.items }
    {
        self.visits = self.visits.saturating_sub(count);
    }

    /// The names in label fields are made ready for an expression to ask for them.
    pub fn settle_labels(&mut self) -> Result<(), NoMemory>
        ensures state { OnOk result (Becomes self.old self.new (λ s. s)) }
        ensures visits { self.new.visits ≡ self.old.visits }
        ensures flats { self.new.flats.items ≡ self.old.flats.items }
    {
        self.labels.settle()
    }

    /// A global variable more.
    pub fn declare_global(&mut self, name: SharedText, value: Value) -> Result<(), NoMemory>
        ensures state { OnOk result (Becomes self.old self.new (model.declared_global name value)) }
        ensures visits { self.new.visits ≡ self.old.visits }
        ensures flats { self.new.flats.items ≡ self.old.flats.items }
    {
        put(&mut self.tables.globals, name, value)
    }

    /// A local variable more of the call that is open.
    pub fn declare_local(&mut self, name: SharedText, value: Value) -> Result<(), NoMemory>
        requires { self.old.in_call ≡ true }
        ensures state { OnOk result (Becomes self.old self.new (model.declared_local name value)) }
        ensures visits { self.new.visits ≡ self.old.visits }
        ensures flats { self.new.flats.items ≡ self.old.flats.items }
    {
        put(&mut self.tables.locals, name, value)
    }

    /// Another value of a variable.
    pub fn set(&mut self, name: SharedText, value: Value) -> Result<(), NoMemory>
        ensures state { OnOk result (Becomes self.old self.new (model.with_variable name value)) }
        ensures visits { self.new.visits ≡ self.old.visits }
        ensures flats { self.new.flats.items ≡ self.old.flats.items }
    {
        if self.tables.has_local(&name) {
            return replace(&mut self.tables.locals, name, value);
        }
        replace(&mut self.tables.globals, name, value)
    }

    /// Another call is open, or none; what the one before has is given back.
    pub fn enter(&mut self, scope: Scope) -> Scope
        ensures state { Enters self.old self.new scope result }
        ensures visits { self.new.visits ≡ self.old.visits }
        ensures flats { self.new.flats.items ≡ self.old.flats.items }
    {
        let Scope {
            in_call,
            locals,
            arguments,
        } = scope;
        let was_in_call = self.in_call;
        self.in_call = in_call;
        Scope {
            in_call: was_in_call,
            locals: mem::replace(&mut self.tables.locals, locals),
            arguments: mem::replace(&mut self.tables.arguments, arguments),
        }
    }

    /// A macro more.
    pub fn define(&mut self, alloc: Global, definition: Definition) -> Result<(), NoMemory>
        ensures state { OnOk result (Becomes self.old self.new (with_macro (macro_of definition))) }
        ensures visits { self.new.visits ≡ self.old.visits }
        ensures flats { self.new.flats.items ≡ self.old.flats.items }
    {
        let name = definition.prototype.as_ref().name.share()?;
        put(&mut self.macros, name, definition)
    }
}
