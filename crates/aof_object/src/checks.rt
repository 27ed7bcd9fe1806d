//! The checks on one row of each table, in their order.

ghost use Rattle.std.specs.Prelude.{◌≡◌, ◌≤◌, IfSome};
ghost use Rattle.aof_object.specs.Checks.{flaw, refused_area_bits, misplaced, area_flaw, named_by, reloc_flaw, refused_symbol_bits, home_flaw, symbol_flaw, left_over, entry_flaw};

use crate::flags::{AreaFlags, SymbolFlags};
use crate::records::Reloc;
use sdt_fault::kinds::FileKind;
use sdt_word::field;

/// The first check that fails on a row, with its word's place in the row.
#[derive(Clone, Copy)]
pub struct Flaw {
    pub place: u32,
    pub kind: FileKind,
}

/// The area that a symbol tells.
#[derive(Clone, Copy)]
pub enum Home {
    /// None of the object's.
    Unknown,
    /// None at all.
    Nowhere,
    /// One of this size in bytes.
    Within(u32),
}

fn refused_bits_of_area(a: u32) -> u32
    ensures { result ≡ refused_area_bits a }
{
    let always = field(a, 8, 1) + field(a, 10, 1) + field(a, 11, 1) + field(a, 15, 1);
    if AreaFlags(a).is_code() {
        always
    } else {
        always + field(a, 20, 8)
    }
}

fn misplaced_relocs(attributes: u32, count: u32) -> u32
    ensures { result ≡ misplaced attributes count }
{
    if AreaFlags(attributes).is_zero_initialised() {
        count
    } else {
        0
    }
}

fn flaw_at(place: u32, kind: FileKind) -> Option<Flaw>
    ensures { result ≡ flaw place kind }
{
    Some(Flaw { place, kind })
}

/// The row of an area: name, attributes, size, number of relocations, base.
#[tactic(auto, unfolding(crate::specs::Checks::area_flaw))]
pub fn judge_area(repeated: bool, attributes: u32, size: u32, count: u32, base: u32) -> Option<Flaw>
    ensures exact { result ≡ area_flaw repeated attributes size count base }
    ensures place { IfSome result (λ f. f.place ≤ 16) }
{
    if repeated {
        return flaw_at(0, FileKind::Repeated);
    }
    if refused_bits_of_area(attributes) != 0 {
        return flaw_at(4, FileKind::Attribute);
    }
    let alignment = AreaFlags(attributes).alignment();
    if alignment < 2 {
        return flaw_at(4, FileKind::Alignment);
    }
    if alignment > 16 {
        return flaw_at(4, FileKind::Alignment);
    }
    if size % 4 != 0 {
        return flaw_at(8, FileKind::Size);
    }
    if size > 1 << 24 {
        return flaw_at(8, FileKind::Size);
    }
    if misplaced_relocs(attributes, count) != 0 {
        return flaw_at(12, FileKind::Count);
    }
    if base != 0 {
        return flaw_at(16, FileKind::Attribute);
    }
    None
}

fn count_named(areas: usize, symbols: usize, reloc: Reloc) -> usize
    ensures { result ≡ named_by areas symbols reloc.word }
{
    if reloc.is_by_symbol() { symbols } else { areas }
}

/// The row of a relocation: offset, word.
#[tactic(auto, unfolding(crate::specs::Checks::reloc_flaw))]
pub fn judge_reloc(areas: usize, symbols: usize, reloc: Reloc) -> Option<Flaw>
    ensures exact { result ≡ reloc_flaw areas symbols reloc.word }
    ensures place { IfSome result (λ f. f.place ≤ 4) }
{
    if field(reloc.word, 31, 1) != 1 {
        return flaw_at(4, FileKind::Type1);
    }
    if (reloc.number() as usize) < count_named(areas, symbols, reloc) {
        return None;
    }
    flaw_at(4, FileKind::Index)
}

#[tactic(auto, unfolding(crate::specs::Checks::home_flaw))]
fn judge_home(placed: bool, value: u32, home: Home) -> Option<Flaw>
    ensures exact { result ≡ home_flaw placed value home }
    ensures place { IfSome result (λ f. f.place ≤ 12) }
{
    match home {
        Home::Unknown => flaw_at(12, FileKind::Area),
        Home::Nowhere => {
            if placed {
                return flaw_at(12, FileKind::Area);
            }
            None
        }
        Home::Within(size) => {
            if !placed {
                return None;
            }
            if size < value {
                return flaw_at(8, FileKind::Value);
            }
            None
        }
    }
}

/// The row of a symbol: name, attributes, value, name of the area.
#[tactic(auto, unfolding(crate::specs::Checks::symbol_flaw))]
pub fn judge_symbol(repeated: bool, attributes: u32, value: u32, home: Home) -> Option<Flaw>
    ensures exact { result ≡ symbol_flaw repeated attributes value home }
    ensures place { IfSome result (λ f. f.place ≤ 12) }
{
    if repeated {
        return flaw_at(0, FileKind::Repeated);
    }
    let refused = field(attributes, 3, 1) + field(attributes, 5, 1) + field(attributes, 6, 1);
    if refused != 0 {
        return flaw_at(4, FileKind::Attribute);
    }
    if attributes % 4 == 0 {
        return flaw_at(4, FileKind::Attribute);
    }
    judge_home(SymbolFlags(attributes).is_placed(), value, home)
}

fn left_over_at(attributes: u32, offset: u32) -> u32
    ensures { result ≡ left_over attributes offset }
{
    if AreaFlags(attributes).is_thumb() {
        offset % 2
    } else {
        offset % 4
    }
}

/// The entry's offset, of which OBJ_HEAD tells at 20, in the area.
#[tactic(auto, unfolding(crate::specs::Checks::entry_flaw))]
pub fn judge_entry(attributes: u32, size: u32, offset: u32) -> Option<Flaw>
    ensures exact { result ≡ entry_flaw attributes size offset }
    ensures place { IfSome result (λ f. f.place ≤ 20) }
{
    if offset >= size {
        return flaw_at(20, FileKind::Entry);
    }
    if left_over_at(attributes, offset) != 0 {
        return flaw_at(20, FileKind::Entry);
    }
    None
}
