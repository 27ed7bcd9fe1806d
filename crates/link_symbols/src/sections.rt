//! The sections of execution regions, and in which of them an address is.

ghost use Rattle.std.specs.Prelude.{◌≡◌, ◌%◌, ◌^◌, ◌<◌, ◌++◌, IfOk, OnOk, length};
ghost use Rattle.link_symbols.specs.Sections as tables;

use elf_image::{Section, SectionKind, SymbolPlace};
use link_model::Region;
use link_values::sum;
use sdt_fault::{NoMemory, Text};
use std::alloc::Global;

/// The low word of a number.
pub fn low_word(number: u64) -> u32
    ensures { result ≡ number % 2 ^ 32 }
{
    (number % 0x1_0000_0000) as u32
}

// ---- the sections

fn bytes_section(alloc: Global, offset: u64, region: &Region) -> Result<Section, NoMemory>
    ensures { IfOk result (λ s. s ≡ tables.bytes_section offset region.now) }
{
    Ok(Section {
        name: region.name.try_clone(alloc)?,
        kind: SectionKind::Bytes,
        address: low_word(region.base),
        offset: low_word(offset),
        size: low_word(region.length),
    })
}

/// The name of the section of a region's zero part.
fn zeros_name(alloc: Global, region: &[u8]) -> Result<Text, NoMemory>
    ensures { IfOk result (λ name. name ≡ tables.zeros_name region.now) }
{
    let mut name = Vec::new(alloc);
    name.extend_from_slice(region)?;
    name.extend_from_slice(b"$$ZI")?;
    Ok(Text::from_vec(name))
}

fn zeros_section(alloc: Global, offset: u64, region: &Region) -> Result<Section, NoMemory>
    ensures { IfOk result (λ s. s ≡ tables.zeros_section offset region.now) }
{
    Ok(Section {
        name: zeros_name(alloc, region.name.as_slice())?,
        kind: SectionKind::Zeros,
        address: low_word(sum(region.base, region.length)?),
        offset: low_word(sum(offset, region.length)?),
        size: low_word(region.zero),
    })
}

fn push_bytes(
    alloc: Global,
    out: &mut Vec<Section>,
    offset: u64,
    region: &Region,
) -> Result<(), NoMemory>
    ensures { OnOk result (out.new.items ≡ out.old.items ++ tables.bytes_sections offset region.now) }
{
    if region.length == 0 {
        return Ok(());
    }
    out.push(bytes_section(alloc, offset, region)?)?;
    Ok(())
}

fn push_zeros(
    alloc: Global,
    out: &mut Vec<Section>,
    offset: u64,
    region: &Region,
) -> Result<(), NoMemory>
    ensures { OnOk result (out.new.items ≡ out.old.items ++ tables.zeros_sections offset region.now) }
{
    if region.zero == 0 {
        return Ok(());
    }
    out.push(zeros_section(alloc, offset, region)?)?;
    Ok(())
}

/// Writes the sections of a region whose bytes stand at an offset in the file.
fn push_region(
    alloc: Global,
    out: &mut Vec<Section>,
    offset: u64,
    region: &Region,
) -> Result<(), NoMemory>
    ensures { OnOk result (out.new.items ≡ out.old.items ++ tables.region_sections offset region.now) }
{
    push_bytes(alloc, out, offset, region)?;
    push_zeros(alloc, out, offset, region)
}

/// The sections of regions whose load regions are so many.
pub fn sections_of(alloc: Global, loads: u32, regions: &[Region]) -> Result<Vec<Section>, NoMemory>
    ensures { IfOk result (λ out. out.items ≡ tables.sections_in loads regions.now) }
{
    let mut out = Vec::new(alloc);
    let mut offset = 52 + 32 * u64::from(loads);
    for region in regions {
        push_region(alloc, &mut out, offset, region)?;
        offset = sum(offset, region.length)?;
    }
    Ok(out)
}

// ---- the section of an address

fn end_of(section: &Section) -> u64
    ensures { result ≡ tables.end_of section.now }
{
    u64::from(section.address) + u64::from(section.size)
}

fn holds(address: u32, section: &Section) -> bool
    ensures { result ≡ tables.holds address section.now }
{
    section.address <= address && u64::from(address) < end_of(section)
}

fn ends_at(address: u32, section: &Section) -> bool
    ensures { result ≡ tables.ends_at address section.now }
{
    end_of(section) == u64::from(address)
}

/// The number of the first section that holds the address.
fn holder(address: u32, sections: &[Section]) -> Option<u16>
    requires { length sections.now < 0xFEFC }
    ensures { result ≡ tables.number_where (tables.holds address) 1 sections.now }
{
    for i in 0..sections.len() {
        if holds(address, &sections[i]) {
            return Some(i as u16 + 1);
        }
    }
    None
}

/// The number of the first section that ends at the address.
fn ender(address: u32, sections: &[Section]) -> Option<u16>
    requires { length sections.now < 0xFEFC }
    ensures { result ≡ tables.number_where (tables.ends_at address) 1 sections.now }
{
    for i in 0..sections.len() {
        if ends_at(address, &sections[i]) {
            return Some(i as u16 + 1);
        }
    }
    None
}

/// Where an address is.
pub fn place_of(address: u32, sections: &[Section]) -> SymbolPlace
    requires { length sections.now < 0xFEFC }
    ensures { result ≡ tables.place_of address sections.now }
{
    if let Some(number) = holder(address, sections) {
        return SymbolPlace::Section(number);
    }
    match ender(address, sections) {
        None => SymbolPlace::Absolute,
        Some(number) => SymbolPlace::Section(number),
    }
}
