//! Writing with names: the file of a linked image with sections and symbols.

ghost use Rattle.std.specs.Prelude.{◌≡◌, ◌<◌, ◌≤◌, ◌+◌, ◌-◌, ◌*◌, ◌^◌, ◌++◌, ◌∷◌, [], IfOk, OnOk, length, replicate};
ghost use Rattle.boot_code.specs.Maps.{bytes_of_words};
ghost use Rattle.elf_image.specs.Files as files;
ghost use Rattle.elf_image.specs.Tables as tables;

use crate::tables::{Binding, ElfSymbol, Section, SectionKind, SymbolKind, SymbolPlace, Tables};
use crate::writing::{push_bytes, push_headers, push_words};
use byte_tools::push_zeros;
use link_model::{Image, LoadRegion};
use sdt_fault::{Bytes, NoMemory};
use std::alloc::Global;

// ---- strings

fn push_string(out: &mut Vec<u8>, name: &[u8]) -> Result<(), NoMemory>
    ensures { OnOk result (out.new.items ≡ out.old.items ++ tables.string_of name.now) }
{
    out.extend_from_slice(name)?;
    out.push(0)?;
    Ok(())
}

fn strings_of(alloc: Global, symbols: &[ElfSymbol]) -> Result<Vec<u8>, NoMemory>
    ensures { IfOk result (λ strings. strings.items ≡ tables.strings_of symbols.now) }
{
    let mut out = Vec::new(alloc);
    out.push(0)?;
    for symbol in symbols {
        push_string(&mut out, symbol.name.as_slice())?;
    }
    Ok(out)
}

fn names_of(alloc: Global, sections: &[Section]) -> Result<Vec<u8>, NoMemory>
    ensures { IfOk result (λ names. names.items ≡ tables.names_of sections.now) }
{
    let mut out = Vec::new(alloc);
    out.extend_from_slice(b"\0.symtab\0.strtab\0.shstrtab\0")?;
    for section in sections {
        push_string(&mut out, section.name.as_slice())?;
    }
    Ok(out)
}

// ---- symbols

fn binding_number(binding: Binding) -> u32
    ensures { result ≡ tables.binding_number binding }
{
    match binding {
        Binding::Local => 0,
        Binding::Global => 1,
        Binding::Weak => 2,
    }
}

fn kind_number(kind: SymbolKind) -> u32
    ensures { result ≡ tables.kind_number kind }
{
    match kind {
        SymbolKind::Untyped => 0,
        SymbolKind::Object => 1,
        SymbolKind::Function => 2,
    }
}

fn place_number(place: SymbolPlace) -> u32
    ensures exact { result ≡ tables.place_number place }
    ensures small { result < 2 ^ 16 }
{
    match place {
        SymbolPlace::Absolute => 0xFFF1,
        SymbolPlace::Section(number) => u32::from(number),
    }
}

fn symbol_words(name: u32, symbol: &ElfSymbol) -> [u32; 4]
    ensures { result ≡ tables.symbol_words name symbol.now }
{
    let info = 16 * binding_number(symbol.binding) + kind_number(symbol.kind);
    [
        name,
        symbol.value,
        0,
        info + 0x1_0000 * place_number(symbol.place),
    ]
}

fn push_symbols(out: &mut Vec<u8>, symbols: &[ElfSymbol]) -> Result<(), NoMemory>
    requires { length (tables.strings_of symbols.now) < 2 ^ 32 }
    ensures { OnOk result (out.new.items ≡ out.old.items ++ bytes_of_words (tables.symbols_words 1 symbols.now)) }
{
    let mut name: u64 = 1;
    for symbol in symbols {
        push_words(out, &symbol_words(name as u32, symbol))?;
        name += symbol.name.as_slice().len() as u64 + 1;
    }
    Ok(())
}

fn locals_in(symbols: &[ElfSymbol]) -> usize
    ensures exact { result ≡ tables.locals_in symbols.now }
    ensures few { result ≤ length symbols.now }
{
    let mut locals = 0;
    for symbol in symbols {
        if symbol.binding == Binding::Local {
            locals += 1;
        }
    }
    locals
}

// ---- section headers

fn type_number(kind: SectionKind) -> u32
    ensures { result ≡ tables.type_number kind }
{
    match kind {
        SectionKind::Bytes => 1,
        SectionKind::Zeros => 8,
    }
}

fn section_words(name: u32, section: &Section) -> [u32; 10]
    ensures { result ≡ tables.section_words name section.now }
{
    [
        name,
        type_number(section.kind),
        7,
        section.address,
        section.offset,
        section.size,
        0,
        0,
        4,
        0,
    ]
}

fn push_sections(out: &mut Vec<u8>, sections: &[Section]) -> Result<(), NoMemory>
    requires { length (tables.names_of sections.now) < 2 ^ 32 }
    ensures { OnOk result (out.new.items ≡ out.old.items ++ bytes_of_words (tables.sections_words 27 sections.now)) }
{
    let mut name: u64 = 27;
    for section in sections {
        push_words(out, &section_words(name as u32, section))?;
        name += section.name.as_slice().len() as u64 + 1;
    }
    Ok(())
}

// ---- the file

#[tactic(auto, unfolding(crate::specs::Tables::named_header))]
fn named_header(entry: u32, count: u16, offset: u32, sections: u16) -> [u32; 13]
    requires { sections + 4 < 2 ^ 16 }
    ensures { result ≡ tables.named_header entry count offset sections }
{
    let numbers = u32::from(sections);
    [
        0x464C_457F,
        0x0001_0101,
        0,
        0,
        0x0028_0002,
        1,
        entry,
        52,
        offset,
        0,
        0x0020_0034,
        u32::from(count) + 0x28_0000,
        numbers + 4 + 0x1_0000 * (numbers + 3),
    ]
}

fn loads_len(loads: &[LoadRegion]) -> usize
    requires { length (files.loads_bytes loads.now) < 2 ^ 32 }
    ensures { result ≡ length (files.loads_bytes loads.now) }
{
    let mut len = 0;
    for load in loads {
        len += load.bytes.as_slice().len();
    }
    len
}

fn symtab_words(offset: u32, size: u32, strings: u32, locals: u32) -> [u32; 10]
    ensures { result ≡ tables.symtab_words offset size strings locals }
{
    [1, 2, 0, 0, offset, size, strings, locals, 4, 16]
}

fn strtab_words(name: u32, offset: u32, size: u32) -> [u32; 10]
    ensures { result ≡ tables.strtab_words name offset size }
{
    [name, 3, 0, 0, offset, size, 0, 0, 1, 0]
}

fn symbols_from(at: u32, t: &Tables) -> u32
    requires { tables.end_from at t.now < 2 ^ 32 }
    ensures { result ≡ tables.symbols_from at t.now }
{
    at + 40 * (t.sections.as_slice().len() as u32 + 4)
}

fn symbols_size(at: u32, t: &Tables) -> u32
    requires { tables.end_from at t.now < 2 ^ 32 }
    ensures { result ≡ 16 * (length t.now.symbols + 1) }
{
    16 * (t.symbols.as_slice().len() as u32 + 1)
}

fn strings_from(at: u32, t: &Tables) -> u32
    requires { tables.end_from at t.now < 2 ^ 32 }
    ensures { result ≡ tables.strings_from at t.now }
{
    symbols_from(at, t) + symbols_size(at, t)
}

#[tactic(auto, unfolding(crate::specs::Tables::symtab_header))]
fn symtab_header(at: u32, t: &Tables) -> [u32; 10]
    requires { tables.end_from at t.now < 2 ^ 32 }
    ensures { result ≡ tables.symtab_header at t.now }
{
    let strings = t.sections.as_slice().len() as u32 + 2;
    let locals = locals_in(t.symbols.as_slice()) as u32 + 1;
    symtab_words(symbols_from(at, t), symbols_size(at, t), strings, locals)
}

#[tactic(auto, unfolding(crate::specs::Tables::symbol_strings_header))]
fn symbol_strings_header(at: u32, t: &Tables, strings: u32) -> [u32; 10]
    requires strings { strings ≡ length (tables.strings_of t.now.symbols) }
    requires sized { tables.end_from at t.now < 2 ^ 32 }
    ensures { result ≡ tables.symbol_strings_header at t.now }
{
    strtab_words(9, strings_from(at, t), strings)
}

#[tactic(auto, unfolding(crate::specs::Tables::section_strings_header))]
fn section_strings_header(at: u32, t: &Tables, strings: u32, names: u32) -> [u32; 10]
    requires strings { strings ≡ length (tables.strings_of t.now.symbols) }
    requires names { names ≡ length (tables.names_of t.now.sections) }
    requires sized { tables.end_from at t.now < 2 ^ 32 }
    ensures { result ≡ tables.section_strings_header at t.now }
{
    strtab_words(17, strings_from(at, t) + strings, names)
}

/// Writes the headers of the three tables.
#[tactic(auto, unfolding(crate::specs::Tables::table_headers))]
fn push_table_headers(
    out: &mut Vec<u8>,
    at: u32,
    t: &Tables,
    strings: u32,
    names: u32,
) -> Result<(), NoMemory>
    requires strings { strings ≡ length (tables.strings_of t.now.symbols) }
    requires names { names ≡ length (tables.names_of t.now.sections) }
    requires sized { tables.end_from at t.now < 2 ^ 32 }
    ensures { OnOk result (out.new.items ≡ out.old.items ++ tables.table_headers at t.now) }
{
    push_words(out, &symtab_header(at, t))?;
    push_words(out, &symbol_strings_header(at, t, strings))?;
    push_words(out, &section_strings_header(at, t, strings, names))
}

#[tactic(auto, unfolding(crate::specs::Tables::section_headers))]
fn push_section_headers(out: &mut Vec<u8>, sections: &[Section]) -> Result<(), NoMemory>
    requires { length (tables.names_of sections.now) < 2 ^ 32 }
    ensures { OnOk result (out.new.items ≡ out.old.items ++ bytes_of_words (tables.section_headers sections.now)) }
{
    push_words(out, &[0, 0, 0, 0, 0, 0, 0, 0, 0, 0])?;
    push_sections(out, sections)
}

#[tactic(auto, unfolding(crate::specs::Tables::section_table))]
fn push_section_table(
    out: &mut Vec<u8>,
    at: u32,
    t: &Tables,
    strings: u32,
    names: u32,
) -> Result<(), NoMemory>
    requires strings { strings ≡ length (tables.strings_of t.now.symbols) }
    requires names { names ≡ length (tables.names_of t.now.sections) }
    requires sized { tables.end_from at t.now < 2 ^ 32 }
    ensures { OnOk result (out.new.items ≡ out.old.items ++ tables.section_table at t.now) }
{
    push_section_headers(out, t.sections.as_slice())?;
    push_table_headers(out, at, t, strings, names)
}

#[tactic(auto, unfolding(crate::specs::Tables::symbol_table))]
fn push_symbol_table(out: &mut Vec<u8>, symbols: &[ElfSymbol]) -> Result<(), NoMemory>
    requires { length (tables.strings_of symbols.now) < 2 ^ 32 }
    ensures { OnOk result (out.new.items ≡ out.old.items ++ bytes_of_words (tables.symbol_table symbols.now)) }
{
    push_words(out, &[0, 0, 0, 0])?;
    push_symbols(out, symbols)
}

fn push_both(out: &mut Vec<u8>, first: &[u8], second: &[u8]) -> Result<(), NoMemory>
    ensures { OnOk result (out.new.items ≡ out.old.items ++ (first.now ++ second.now)) }
{
    out.extend_from_slice(first)?;
    out.extend_from_slice(second)?;
    Ok(())
}

/// Writes the tables whose strings these are.
#[tactic(auto, unfolding(crate::specs::Tables::tables_bytes))]
fn push_tables_with(
    out: &mut Vec<u8>,
    at: u32,
    t: &Tables,
    strings: &[u8],
    names: &[u8],
) -> Result<(), NoMemory>
    requires strings { strings.now ≡ tables.strings_of t.now.symbols }
    requires names { names.now ≡ tables.names_of t.now.sections }
    requires sized { tables.end_from at t.now < 2 ^ 32 }
    ensures { OnOk result (out.new.items ≡ out.old.items ++ tables.tables_bytes at t.now) }
{
    push_section_table(out, at, t, strings.len() as u32, names.len() as u32)?;
    push_symbol_table(out, t.symbols.as_slice())?;
    push_both(out, strings, names)
}

fn push_tables(alloc: Global, out: &mut Vec<u8>, at: u32, t: &Tables) -> Result<(), NoMemory>
    requires { tables.end_from at t.now < 2 ^ 32 }
    ensures { OnOk result (out.new.items ≡ out.old.items ++ tables.tables_bytes at t.now) }
{
    let strings = strings_of(alloc, t.symbols.as_slice())?;
    let names = names_of(alloc, t.sections.as_slice())?;
    push_tables_with(out, at, t, strings.as_slice(), names.as_slice())
}

#[tactic(auto, unfolding(crate::specs::Tables::named_of))]
fn push_named(
    alloc: Global,
    out: &mut Vec<u8>,
    start: u32,
    loads: &[LoadRegion],
    t: &Tables,
) -> Result<(), NoMemory>
    requires counted { length loads.now < 2 ^ 16 }
    requires few { length t.now.sections < 0xFEFC }
    requires sized { tables.named_size loads.now t.now < 2 ^ 32 }
    ensures { OnOk result (out.new.items ≡ out.old.items ++ tables.named_of start loads.now t.now) }
{
    let size = 52 + 32 * loads.len() + loads_len(loads);
    let at = (size + 3) / 4 * 4;
    let sections = t.sections.as_slice().len() as u16;
    push_words(
        out,
        &named_header(start, loads.len() as u16, at as u32, sections),
    )?;
    push_headers(out, 52 + 32 * loads.len() as u64, loads)?;
    push_bytes(out, loads)?;
    push_zeros(out, at - size)?;
    push_tables(alloc, out, at as u32, t)
}

/// The ELF executable of a linked image, as `write_elf` makes it, with sections and symbols for a debugger behind: a
/// section header for each section, and those of the tables `.symtab`, `.strtab` and `.shstrtab`. What is read, loaded
/// and entered is as without them. Names end at their first zero byte. Takes time that is linear in the file.
pub fn write_named_elf(alloc: Global, image: &Image, t: &Tables) -> Result<Bytes, NoMemory>
    requires counted { length image.now.loads < 2 ^ 16 }
    requires few { length t.now.sections < 0xFEFC }
    requires sized { tables.named_size image.now.loads t.now < 2 ^ 32 }
    ensures exact { IfOk result (λ bytes. bytes ≡ tables.named_file image.now t.now) }
{
    let mut out = Vec::new(alloc);
    push_named(alloc, &mut out, image.start, image.loads.as_slice(), t)?;
    Ok(Bytes::from_vec(out))
}
