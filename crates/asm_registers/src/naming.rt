//! The faults of registers.

ghost use Rattle.std.specs.Prelude.{◌≡◌, ◌∷◌, [], List};
ghost use Rattle.std.specs.List.{list_any};
ghost use Rattle.asm_model.specs.declared.operands.Register.{Register};
ghost use Rattle.asm_model.specs.Forms.{same};
ghost use Rattle.asm_model.specs.Kinds.{told_kind};
ghost use Rattle.asm_model.specs.Meaning.{named_in};
ghost use Rattle.source_model.specs.Registers as registers;
ghost use Rattle.asm_registers.specs.Scoped.{told_of};

use crate::numbers::register_in;
use asm_expr::told::first_told;
use asm_model::{Register, SharedText};
use asm_names::KnownNames;
use asm_sets::{NameMap, NameSet};
use sdt_fault::kinds::LineKind;

/// What the names of a line's registers are judged by.
#[derive(Clone, Copy)]
pub struct Scope<'a> {
    /// All names for registers of the source.
    pub all: &'a NameSet,
    /// All names of the source; that they are there is what counts.
    pub declared: &'a KnownNames,
    /// The registers that names stand for at the line.
    pub known: &'a NameMap<u8>,
}

/// Why a name stands for no register.
fn no_register(scope: &Scope<'_>, name: &SharedText) -> LineKind
    ensures { result ≡ registers.no_register scope.now.all.now name.now
        (named_in name.now scope.now.declared.now) }
{
    if scope.declared.find(name).is_none() {
        return LineKind::UnknownWord;
    }
    if scope.all.has(name) {
        return LineKind::Forward;
    }
    LineKind::WrongType
}

/// The fault of a name.
fn name_kind(scope: &Scope<'_>, name: &SharedText) -> Option<LineKind>
    ensures { result ≡ told_kind
        (registers.kinds_unless (registers.register_in name.now scope.now.known.now)
        (registers.no_register scope.now.all.now name.now
        (named_in name.now scope.now.declared.now))) }
{
    if register_in(scope.known, name).is_some() {
        return None;
    }
    Some(no_register(scope, name))
}

/// The fault of a register before others, of which this is told.
pub fn with_rest(scope: &Scope<'_>, register: &Register, rest: Option<LineKind>) -> Option<LineKind>
    ensures { (rs : List Register) → rest ≡ told_of scope.now rs → result
        ≡ told_of scope.now (register.now ∷ rs) }
{
    match register {
        Register::Number(_) => rest,
        Register::Named(name) => first_told(name_kind(scope, name.as_text()), rest),
    }
}

/// The fault of one register.
pub fn one(scope: &Scope<'_>, a: &Register) -> Option<LineKind>
    ensures { result ≡ told_of scope.now (a.now ∷ []) }
{
    with_rest(scope, a, None)
}

pub fn two(scope: &Scope<'_>, a: &Register, b: &Register) -> Option<LineKind>
    ensures { result ≡ told_of scope.now (a.now ∷ b.now ∷ []) }
{
    with_rest(scope, a, one(scope, b))
}

pub fn three(scope: &Scope<'_>, a: &Register, b: &Register, c: &Register) -> Option<LineKind>
    ensures { result ≡ told_of scope.now (a.now ∷ b.now ∷ c.now ∷ []) }
{
    with_rest(scope, a, two(scope, b, c))
}

pub fn four(
    scope: &Scope<'_>,
    a: &Register,
    b: &Register,
    c: &Register,
    d: &Register,
) -> Option<LineKind>
    ensures { result ≡ told_of scope.now (a.now ∷ b.now ∷ c.now ∷ d.now ∷ []) }
{
    with_rest(scope, a, three(scope, b, c, d))
}
