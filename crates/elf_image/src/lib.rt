//! ELF executables: the record of what a file loads, and the file of a linked image.
#![tactic(auto)]

mod laws;
mod naming;
mod reading;
mod records;
mod tables;
mod writing;

pub use crate::laws::{
    elf_law, first_failed_law, load_law, named_example, named_law, named_load_law, one_record,
    sections_law, symbols_law, worked_example, written_law,
};
pub use crate::naming::write_named_elf;
pub use crate::reading::read_elf;
pub use crate::records::{Elf, Segment};
pub use crate::tables::{
    Binding, ElfSymbol, Section, SectionKind, SymbolKind, SymbolPlace, Tables,
};
pub use crate::writing::write_elf;
