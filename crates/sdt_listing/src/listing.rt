//! The listing of an object and of a library.

ghost use Rattle.std.specs.Prelude.{◌≡◌, ◌<◌, ◌≤◌, ◌+◌, ◌-◌, ◌*◌, ◌/◌, ◌^◌, ◌++◌, [], All, length, take, drop, OnOk, IfOk};
ghost use Rattle.std.specs.List.{flat_map};
ghost use Rattle.sdt_word.specs.Bytes.{half_in, word_in};
ghost use Rattle.aof_object.specs.Validity.{IsValid};
ghost use Rattle.sdt_listing.specs.Listings as listings;

use crate::arm::push_word;
use crate::parts::push;
use crate::pieces::{Piece, push_pieces};
use crate::thumb::push_half;
use alf_archive::{Archive, Member};
use aof_object::{Area, AreaFlags, Entry, Object, Reloc, Symbol};
use sdt_fault::{NoMemory, Text};
use sdt_word::{half_at, word_at};
use std::alloc::Global;

#[tactic(auto, unfolding(crate::specs::Listings::word_line))]
fn push_word_line(alloc: Global, out: &mut Vec<u8>, at: u32, w: u32) -> Result<(), NoMemory>
    ensures { OnOk result (out.new.items ≡ out.old.items ++ listings.word_line at w) }
{
    let head = [Piece::Eight(at), Piece::Field(w), Piece::Letter(b' ')];
    push_pieces(alloc, out, &head)?;
    push_word(alloc, out, at, w)?;
    push(out, b"\n")
}

#[tactic(auto, unfolding(crate::specs::Listings::half_line))]
fn push_half_line(alloc: Global, out: &mut Vec<u8>, at: u32, h: u16) -> Result<(), NoMemory>
    ensures { OnOk result (out.new.items ≡ out.old.items ++ listings.half_line at h) }
{
    let space = Piece::Letter(b' ');
    let head = [Piece::Eight(at), space, Piece::Four(h), space];
    push_pieces(alloc, out, &head)?;
    push_half(alloc, out, at, h)?;
    push(out, b"\n")
}

#[tactic(auto, unfolding(crate::specs::Listings::data_line))]
fn push_data_line(alloc: Global, out: &mut Vec<u8>, at: u32, bytes: &[u8]) -> Result<(), NoMemory>
    ensures { OnOk result (out.new.items ≡ out.old.items ++ listings.data_line at bytes.now) }
{
    push_pieces(alloc, out, &[Piece::Eight(at), Piece::Letter(b' ')])?;
    push(out, hex::encode(alloc, bytes)?.as_bytes())?;
    push(out, b"\n")
}

fn push_word_of(alloc: Global, out: &mut Vec<u8>, bytes: &[u8], k: usize) -> Result<(), NoMemory>
    requires bounded { length bytes.now < 2 ^ 32 }
    requires within { k < length bytes.now / 4 }
    ensures { OnOk result (out.new.items ≡ out.old.items ++ listings.word_line (4 * k) (word_in bytes.now (4 * k))) }
{
    push_word_line(alloc, out, (4 * k) as u32, word_at(bytes, 4 * k))
}

/// Appends the lines of the words from number `first` to before number `end`.
pub fn push_word_lines(
    alloc: Global,
    out: &mut Vec<u8>,
    bytes: &[u8],
    first: usize,
    end: usize,
) -> Result<(), NoMemory>
    requires bounded { length bytes.now < 2 ^ 32 }
    requires order { first ≤ end }
    requires within { end ≤ length bytes.now / 4 }
    ensures { OnOk result (out.new.items ≡ out.old.items ++ listings.word_lines bytes.now (listings.from first (end - first))) }
{
    for k in first..end {
        push_word_of(alloc, out, bytes, k)?;
    }
    Ok(())
}

fn push_half_of(alloc: Global, out: &mut Vec<u8>, bytes: &[u8], k: usize) -> Result<(), NoMemory>
    requires bounded { length bytes.now < 2 ^ 32 }
    requires within { k < length bytes.now / 2 }
    ensures { OnOk result (out.new.items ≡ out.old.items ++ listings.half_line (2 * k) (half_in bytes.now (2 * k))) }
{
    push_half_line(alloc, out, (2 * k) as u32, half_at(bytes, 2 * k))
}

fn push_half_lines(alloc: Global, out: &mut Vec<u8>, bytes: &[u8]) -> Result<(), NoMemory>
    requires { length bytes.now < 2 ^ 32 }
    ensures { OnOk result (out.new.items ≡ out.old.items ++ listings.half_lines bytes.now (listings.from 0 (length bytes.now / 2))) }
{
    for k in 0..bytes.len() / 2 {
        push_half_of(alloc, out, bytes, k)?;
    }
    Ok(())
}

// At most sixteen bytes from a place on.
fn piece(bytes: &[u8], at: usize) -> &[u8]
    requires { at < length bytes.now }
    ensures { result.now ≡ take 16 (drop at bytes.now) }
{
    let rest = &bytes[at..];
    let size = rest.len().min(16);
    &rest[..size]
}

fn push_data_of(
    alloc: Global,
    out: &mut Vec<u8>,
    place: u32,
    bytes: &[u8],
    k: usize,
) -> Result<(), NoMemory>
    requires bounded { place + length bytes.now < 2 ^ 32 }
    requires within { k < (length bytes.now + 15) / 16 }
    ensures { OnOk result (out.new.items ≡ out.old.items ++ listings.data_line (place + 16 * k) (take 16 (drop (16 * k) bytes.now))) }
{
    push_data_line(alloc, out, place + (16 * k) as u32, piece(bytes, 16 * k))
}

/// Appends the lines of bytes whose first has the offset `place`.
pub fn push_data_lines(
    alloc: Global,
    out: &mut Vec<u8>,
    place: u32,
    bytes: &[u8],
) -> Result<(), NoMemory>
    requires { place + length bytes.now < 2 ^ 32 }
    ensures { OnOk result (out.new.items ≡ out.old.items ++ listings.data_lines place bytes.now (listings.from 0 ((length bytes.now + 15) / 16))) }
{
    for k in 0..bytes.len().div_ceil(16) {
        push_data_of(alloc, out, place, bytes, k)?;
    }
    Ok(())
}

#[tactic(auto, unfolding(crate::specs::Listings::contents))]
fn push_contents(
    alloc: Global,
    out: &mut Vec<u8>,
    attributes: u32,
    bytes: &[u8],
) -> Result<(), NoMemory>
    requires { length bytes.now < 2 ^ 32 }
    ensures { OnOk result (out.new.items ≡ out.old.items ++ listings.contents attributes bytes.now) }
{
    let flags = AreaFlags(attributes);
    if flags.is_zero_initialised() {
        return Ok(());
    }
    if !flags.is_code() {
        return push_data_lines(alloc, out, 0, bytes);
    }
    if flags.is_thumb() {
        return push_half_lines(alloc, out, bytes);
    }
    push_word_lines(alloc, out, bytes, 0, bytes.len() / 4)
}

fn push_reloc(alloc: Global, out: &mut Vec<u8>, reloc: Reloc) -> Result<(), NoMemory>
    ensures { OnOk result (out.new.items ≡ out.old.items ++ listings.reloc_line reloc) }
{
    push(out, b"reloc")?;
    let fields = [
        Piece::Field(reloc.offset),
        Piece::Field(reloc.word),
        Piece::Letter(b'\n'),
    ];
    push_pieces(alloc, out, &fields)
}

fn push_relocs(alloc: Global, out: &mut Vec<u8>, relocs: &[Reloc]) -> Result<(), NoMemory>
    ensures { OnOk result (out.new.items ≡ out.old.items ++ flat_map listings.reloc_line relocs.now) }
{
    for reloc in relocs {
        push_reloc(alloc, out, *reloc)?;
    }
    Ok(())
}

fn push_area_line(alloc: Global, out: &mut Vec<u8>, area: &Area) -> Result<(), NoMemory>
    ensures { OnOk result (out.new.items ≡ out.old.items ++ listings.area_line area.now) }
{
    push(out, b"area ")?;
    push(out, area.name.as_slice())?;
    let fields = [
        Piece::Field(area.attributes),
        Piece::Field(area.size),
        Piece::Letter(b' '),
        Piece::Decimal(area.relocs.as_slice().len() as u64),
        Piece::Letter(b'\n'),
    ];
    push_pieces(alloc, out, &fields)
}

fn push_area(alloc: Global, out: &mut Vec<u8>, area: &Area) -> Result<(), NoMemory>
    requires { length area.now.bytes < 2 ^ 32 }
    ensures { OnOk result (out.new.items ≡ out.old.items ++ listings.area_text area.now) }
{
    push_area_line(alloc, out, area)?;
    push_contents(alloc, out, area.attributes, area.bytes.as_slice())?;
    push_relocs(alloc, out, area.relocs.as_slice())
}

fn push_areas(alloc: Global, out: &mut Vec<u8>, areas: &[Area]) -> Result<(), NoMemory>
    requires { All (λ area. length area.bytes < 2 ^ 32) areas.now }
    ensures { OnOk result (out.new.items ≡ out.old.items ++ flat_map listings.area_text areas.now) }
{
    for area in areas {
        push_area(alloc, out, area)?;
    }
    Ok(())
}

fn area_name(areas: &[Area], area: Option<u32>) -> &[u8]
    ensures { result.now ≡ listings.area_name areas.now area }
{
    let Some(number) = area else {
        return b"-";
    };
    match areas.get(number as usize) {
        None => b"-",
        Some(area) => area.name.as_slice(),
    }
}

fn push_symbol(
    alloc: Global,
    out: &mut Vec<u8>,
    areas: &[Area],
    symbol: &Symbol,
) -> Result<(), NoMemory>
    ensures { OnOk result (out.new.items ≡ out.old.items ++ listings.symbol_line areas.now symbol.now) }
{
    push(out, b"symbol ")?;
    push(out, symbol.name.as_slice())?;
    let fields = [
        Piece::Field(symbol.attributes),
        Piece::Field(symbol.value),
        Piece::Letter(b' '),
    ];
    push_pieces(alloc, out, &fields)?;
    push(out, area_name(areas, symbol.area))?;
    push(out, b"\n")
}

fn push_symbols(
    alloc: Global,
    out: &mut Vec<u8>,
    areas: &[Area],
    symbols: &[Symbol],
) -> Result<(), NoMemory>
    ensures { OnOk result (out.new.items ≡ out.old.items ++ flat_map (listings.symbol_line areas.now) symbols.now) }
{
    for symbol in symbols {
        push_symbol(alloc, out, areas, symbol)?;
    }
    Ok(())
}

fn push_entry(
    alloc: Global,
    out: &mut Vec<u8>,
    areas: &[Area],
    entry: Option<Entry>,
) -> Result<(), NoMemory>
    ensures { OnOk result (out.new.items ≡ out.old.items ++ listings.entry_text areas.now entry) }
{
    let Some(entry) = entry else {
        return Ok(());
    };
    push(out, b"entry ")?;
    push(out, area_name(areas, Some(entry.area)))?;
    push_pieces(
        alloc,
        out,
        &[Piece::Field(entry.offset), Piece::Letter(b'\n')],
    )
}

fn push_object(alloc: Global, out: &mut Vec<u8>, o: &Object) -> Result<(), NoMemory>
    requires { IsValid o.now }
    ensures { OnOk result (out.new.items ≡ out.old.items ++ listings.object_lines o.now) }
{
    let areas = o.areas.as_slice();
    push_areas(alloc, out, areas)?;
    push_symbols(alloc, out, areas, o.symbols.as_slice())?;
    push_entry(alloc, out, areas, o.entry)
}

fn push_member(alloc: Global, out: &mut Vec<u8>, member: &Member) -> Result<(), NoMemory>
    requires { IsValid member.now.object }
    ensures { OnOk result (out.new.items ≡ out.old.items ++ listings.member_text member.now) }
{
    push(out, b"member ")?;
    push(out, member.name.as_slice())?;
    push(out, b"\n")?;
    push_object(alloc, out, &member.object)
}

fn push_members(alloc: Global, out: &mut Vec<u8>, members: &[Member]) -> Result<(), NoMemory>
    requires { All (λ member. IsValid member.object) members.now }
    ensures { OnOk result (out.new.items ≡ out.old.items ++ flat_map listings.member_text members.now) }
{
    for member in members {
        push_member(alloc, out, member)?;
    }
    Ok(())
}

/// The listing of an object: its areas with what they hold and their relocations, its symbols, and its entry.
pub fn list_object(alloc: Global, o: &Object) -> Result<Text, NoMemory>
    requires { IsValid o.now }
    ensures { IfOk result (λ text. text ≡ listings.object_text o.now) }
{
    let mut out = Vec::new(alloc);
    push(&mut out, b"object\n")?;
    push_object(alloc, &mut out, o)?;
    push(&mut out, b"end\n")?;
    Ok(Text::from_vec(out))
}

/// The listing of a library: the listings of its members' objects, each behind the member's name.
pub fn list_archive(alloc: Global, a: &Archive) -> Result<Text, NoMemory>
    requires { All (λ member. IsValid member.object) a.now.members }
    ensures { IfOk result (λ text. text ≡ listings.archive_text a.now) }
{
    let mut out = Vec::new(alloc);
    push(&mut out, b"library\n")?;
    push_members(alloc, &mut out, a.members.as_slice())?;
    push(&mut out, b"end\n")?;
    Ok(Text::from_vec(out))
}
