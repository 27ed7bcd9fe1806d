//! What an ELF executable says of itself to a debugger: its sections and its symbols.

use sdt_fault::{List, Text};

/// What a section holds: bytes of the file, or zeros that stand in memory alone.
#[derive(Clone, Copy)]
pub enum SectionKind {
    Bytes,
    Zeros,
}

/// A section: its name, its address, where its bytes stand in the file (or would stand, for zeros), and how many it has.
#[derive(Drop)]
pub struct Section {
    pub name: Text,
    pub kind: SectionKind,
    pub address: u32,
    pub offset: u32,
    pub size: u32,
}

/// Whether other objects see a symbol, and whether it may be defined again.
#[derive(Clone, Copy)]
pub enum Binding {
    Local,
    Global,
    Weak,
}

/// What a symbol names: nothing that is told, data, or code.
#[derive(Clone, Copy)]
pub enum SymbolKind {
    Untyped,
    Object,
    Function,
}

/// Where a symbol stands: at an address that nothing moves, or in a section by its number, counted from 1.
#[derive(Clone, Copy)]
pub enum SymbolPlace {
    Absolute,
    Section(u16),
}

/// A symbol. Its value is an address, with bit 0 set for code of Thumb state, or a number.
#[derive(Drop)]
pub struct ElfSymbol {
    pub name: Text,
    pub value: u32,
    pub binding: Binding,
    pub kind: SymbolKind,
    pub place: SymbolPlace,
}

/// The sections of an executable in order, without those of the tables themselves, and its symbols, those first that
/// are local.
#[derive(Drop)]
pub struct Tables {
    pub sections: List<Section>,
    pub symbols: List<ElfSymbol>,
}
