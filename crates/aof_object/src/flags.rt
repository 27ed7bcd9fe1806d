//! The attributes of areas and of symbols: what their bits mark, and the words of what is marked.

ghost use Rattle.std.specs.Prelude.{◌≡◌, ◌<◌, ◌≤◌, ◌*◌, ◌^◌};
ghost use Rattle.sdt_word.specs.Numbers.{flag};
ghost use Rattle.aof_object.specs.Flags as flags;

use crate::records::{Area, Symbol};
use sdt_word::field;

/// The attributes word of an area.
#[derive(Clone, Copy)]
pub struct AreaFlags(pub u32);

/// The attributes word of a symbol.
#[derive(Clone, Copy)]
pub struct SymbolFlags(pub u32);

/// What the attributes of an area say.
#[derive(Clone, Copy)]
pub struct AreaParts {
    /// The exponent of 2.
    pub alignment: u32,
    pub code: bool,
    pub zero_initialised: bool,
    pub read_only: bool,
    pub position_independent: bool,
    pub reentrant: bool,
    /// Of Thumb code.
    pub thumb: bool,
    /// With half-word instructions.
    pub halfword: bool,
    pub interworking: bool,
}

/// Where a symbol is known.
#[derive(Clone, Copy)]
pub enum Scope {
    /// Defined, for its object alone.
    Local,
    /// Defined, for all objects.
    Exported,
    /// Defined elsewhere.
    Reference,
}

/// What the attributes of a symbol say.
#[derive(Clone, Copy)]
pub struct SymbolParts {
    pub scope: Scope,
    pub absolute: bool,
    pub weak: bool,
    /// A datum in a code area.
    pub datum: bool,
    pub thumb: bool,
}

fn bit(holds: bool, value: u32) -> u32
    ensures is { result ≡ flag holds * value }
    ensures below { result ≤ value }
{
    if holds { value } else { 0 }
}

impl Area {
    pub fn flags(&self) -> AreaFlags
        ensures { result.0 ≡ self.now.attributes }
    {
        AreaFlags(self.attributes)
    }
}

impl Symbol {
    pub fn flags(&self) -> SymbolFlags
        ensures { result.0 ≡ self.now.attributes }
    {
        SymbolFlags(self.attributes)
    }
}

impl AreaFlags {
    /// The exponent of 2.
    pub fn alignment(self) -> u32
        ensures { result ≡ flags.alignment self.0 }
    {
        self.0 % 256
    }

    pub fn is_code(self) -> bool
        ensures { result ≡ flags.is_code self.0 }
    {
        field(self.0, 9, 1) == 1
    }

    pub fn is_zero_initialised(self) -> bool
        ensures { result ≡ flags.is_zero_initialised self.0 }
    {
        field(self.0, 12, 1) == 1
    }

    pub fn is_read_only(self) -> bool
        ensures { result ≡ flags.is_read_only self.0 }
    {
        field(self.0, 13, 1) == 1
    }

    /// Whether it is of Thumb code.
    pub fn is_thumb(self) -> bool
        ensures { result ≡ flags.is_thumb_area self.0 }
    {
        field(self.0, 20, 1) == 1
    }

    pub fn interworks(self) -> bool
        ensures { result ≡ flags.interworks self.0 }
    {
        field(self.0, 22, 1) == 1
    }
}

impl AreaParts {
    /// The attributes word.
    pub fn word(self) -> u32
        requires { self.alignment < 2 ^ 8 }
        ensures { result ≡ flags.area_word self }
    {
        self.alignment
            + bit(self.code, 0x200)
            + bit(self.zero_initialised, 0x1000)
            + bit(self.read_only, 0x2000)
            + bit(self.position_independent, 0x4000)
            + bit(self.reentrant, 0x2_0000)
            + bit(self.thumb, 0x10_0000)
            + bit(self.halfword, 0x20_0000)
            + bit(self.interworking, 0x40_0000)
    }
}

impl SymbolFlags {
    pub fn is_exported(self) -> bool
        ensures { result ≡ flags.is_exported self.0 }
    {
        self.0 % 4 == 3
    }

    pub fn is_reference(self) -> bool
        ensures { result ≡ flags.is_reference self.0 }
    {
        self.0 % 4 == 2
    }

    pub fn is_definition(self) -> bool
        ensures { result ≡ flags.is_definition self.0 }
    {
        self.0 % 2 == 1
    }

    pub fn is_absolute(self) -> bool
        ensures { result ≡ flags.is_absolute self.0 }
    {
        field(self.0, 2, 1) == 1
    }

    /// Whether it is a definition that isn't absolute.
    pub fn is_placed(self) -> bool
        ensures { result ≡ flags.is_placed self.0 }
    {
        self.is_definition() && !self.is_absolute()
    }

    pub fn is_weak(self) -> bool
        ensures { result ≡ flags.is_weak self.0 }
    {
        field(self.0, 4, 1) == 1
    }

    /// Whether it is a datum in a code area.
    pub fn is_datum(self) -> bool
        ensures { result ≡ flags.is_datum self.0 }
    {
        field(self.0, 8, 1) == 1
    }

    pub fn is_thumb(self) -> bool
        ensures { result ≡ flags.is_thumb_symbol self.0 }
    {
        field(self.0, 12, 1) == 1
    }
}

impl Scope {
    fn bits(self) -> u32
        ensures is { result ≡ flags.scope_bits self }
        ensures below { result ≤ 3 }
    {
        match self {
            Scope::Local => 1,
            Scope::Exported => 3,
            Scope::Reference => 2,
        }
    }
}

impl SymbolParts {
    /// The attributes word.
    pub fn word(self) -> u32
        ensures { result ≡ flags.symbol_word self }
    {
        self.scope.bits()
            + bit(self.absolute, 4)
            + bit(self.weak, 0x10)
            + bit(self.datum, 0x100)
            + bit(self.thumb, 0x1000)
    }
}
