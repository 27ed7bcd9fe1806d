//! Relocations: which field each changes, and what it names.

ghost use Rattle.std.specs.Prelude.{◌≡◌, ◌<◌, ◌^◌};
ghost use Rattle.aof_object.specs.Relocations as relocations;

use crate::records::Reloc;
use sdt_word::field as bits;

/// What a field is: a byte, a half-word, a word, or a branch of ARM code or, where true, of Thumb code.
#[derive(Clone, Copy, PartialEq, Eq)]
pub enum FieldKind {
    Byte,
    Half,
    Word,
    Branch(bool),
}

/// A field of an area.
#[derive(Clone, Copy)]
pub struct Field {
    /// The offset where it begins, without the mark of Thumb code.
    pub place: u32,
    pub kind: FieldKind,
}

/// What a relocation names, by its number in the object.
#[derive(Clone, Copy)]
pub enum RelocationTarget {
    Symbol(u32),
    Area(u32),
}

impl FieldKind {
    /// In bytes.
    pub fn size(self) -> u32
        ensures { result ≡ relocations.size_of self }
    {
        match self {
            FieldKind::Byte => 1,
            FieldKind::Half => 2,
            _ => 4,
        }
    }
}

impl Reloc {
    /// A word by the area of this number.
    pub fn word_by_area(offset: u32, number: u32) -> Reloc
        requires { number < 2 ^ 24 }
        ensures { result ≡ relocations.word_by_area offset number }
    {
        Reloc {
            offset,
            word: 0x8200_0000 + number,
        }
    }

    /// A word by the symbol of this number.
    pub fn word_by_symbol(offset: u32, number: u32) -> Reloc
        requires { number < 2 ^ 24 }
        ensures { result ≡ relocations.word_by_symbol offset number }
    {
        Reloc {
            offset,
            word: 0x8A00_0000 + number,
        }
    }

    /// A relative branch by the symbol of this number. That of Thumb code has an odd offset.
    pub fn branch_by_symbol(offset: u32, number: u32) -> Reloc
        requires { number < 2 ^ 24 }
        ensures { result ≡ relocations.branch_by_symbol offset number }
    {
        Reloc {
            offset,
            word: 0x8F00_0000 + number,
        }
    }

    pub fn kind(self) -> FieldKind
        ensures { result ≡ relocations.kind_of self }
    {
        let kind = bits(self.word, 24, 2);
        if kind == 0 {
            return FieldKind::Byte;
        }
        if kind == 1 {
            return FieldKind::Half;
        }
        if kind == 2 {
            return FieldKind::Word;
        }
        FieldKind::Branch(self.offset % 2 == 1)
    }

    fn place(self) -> u32
        ensures { result ≡ (relocations.field_of self).place }
    {
        if bits(self.word, 24, 2) == 3 {
            return self.offset - self.offset % 2;
        }
        self.offset
    }

    /// The field that it changes.
    pub fn field(self) -> Field
        ensures { result ≡ relocations.field_of self }
    {
        Field {
            place: self.place(),
            kind: self.kind(),
        }
    }

    /// Whether the base of the field's area is taken away.
    pub fn is_relative(self) -> bool
        ensures { result ≡ relocations.is_relative self }
    {
        bits(self.word, 26, 1) == 1
    }

    pub fn is_based(self) -> bool
        ensures { result ≡ relocations.is_based self }
    {
        bits(self.word, 28, 1) == 1
    }

    /// Whether it names a symbol, and no area.
    pub fn is_by_symbol(self) -> bool
        ensures { result ≡ relocations.is_by_symbol self }
    {
        bits(self.word, 27, 1) == 1
    }

    /// The number of the symbol or area that it names.
    pub fn number(self) -> u32
        ensures { result ≡ relocations.number_named self }
    {
        bits(self.word, 0, 24)
    }

    pub fn target(self) -> RelocationTarget
        ensures { result ≡ relocations.target_named self }
    {
        if self.is_by_symbol() {
            return RelocationTarget::Symbol(self.number());
        }
        RelocationTarget::Area(self.number())
    }

    /// The number of the symbol, where it names one.
    pub fn symbol(self) -> Option<u32>
        ensures { result ≡ relocations.symbol_named self }
    {
        if self.is_by_symbol() {
            return Some(self.number());
        }
        None
    }
}
