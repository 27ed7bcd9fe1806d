//! The chunks of an object file by their names.

ghost use Rattle.std.specs.Prelude.{◌≡◌, [], ◌∷◌};
ghost use Rattle.sdt_fault.specs.declared.answer.Fault.TheVariants.{Refused};
ghost use Rattle.sdt_fault.specs.declared.kinds.FileKind.TheVariants.{Chunks};
ghost use Rattle.sdt_fault.specs.declared.refusal.Refusal.TheVariants.{BadObject};
ghost use Rattle.chunk_file.specs.Reading.{Gives};
ghost use Rattle.aof_object.specs.Parts.{named, found_of, found_after, found_with, needed, optional, told_symbols, parts_of};

use crate::faults::bad_object;
use chunk_file::{Span, bytes_of_span};
use sdt_fault::answer::Fault;
use sdt_fault::kinds::FileKind;
use sdt_word::word_at;
use std::alloc::Global;

/// How often a chunk's name stands in a table.
#[derive(Clone, Copy)]
pub enum Found {
    Absent,
    One(Span),
    Many,
}

/// Where the chunks of an object stand in its file.
#[derive(Clone, Copy)]
pub struct Parts {
    pub head: Span,
    pub areas: Span,
    pub strings: Span,
    pub symbols: Span,
}

fn more(found: Found, span: Span) -> Found
    ensures { result ≡ found_after found span }
{
    match found {
        Found::Absent => Found::One(span),
        Found::One(_) => Found::Many,
        Found::Many => Found::Many,
    }
}

fn with_entry(found: Found, span: &Option<Span>, name: [u8; 8]) -> Found
    ensures { result ≡ found_with found (named name (span.now ∷ [])) }
{
    if let Some(span) = span {
        if span.name == name {
            return more(found, *span);
        }
    }
    found
}

/// The chunk of a name in a table.
pub fn find(spans: &[Option<Span>], name: [u8; 8]) -> Found
    ensures { result ≡ found_of (named name spans.now) }
{
    let mut found = Found::Absent;
    for span in spans {
        found = with_entry(found, span, name);
    }
    found
}

fn wrong_chunks(alloc: Global) -> Fault
    ensures { result ≡ Refused (BadObject [] 0 Chunks) }
{
    bad_object(alloc, 0, FileKind::Chunks)
}

fn needed_chunk(alloc: Global, found: Found) -> Result<Span, Fault>
    ensures { Gives result (needed found) }
{
    match found {
        Found::Absent => Err(wrong_chunks(alloc)),
        Found::One(span) => Ok(span),
        Found::Many => Err(wrong_chunks(alloc)),
    }
}

fn symbol_table(alloc: Global, count: u32, found: Found) -> Result<Span, Fault>
    ensures { Gives result (optional count found) }
{
    match found {
        Found::Absent => {
            if count == 0 {
                return Ok(Span {
                    name: *b"OBJ_SYMT",
                    offset: 0,
                    size: 0,
                });
            }
            Err(wrong_chunks(alloc))
        }
        Found::One(span) => Ok(span),
        Found::Many => Err(wrong_chunks(alloc)),
    }
}

fn symbol_count(head: &[u8]) -> u32
    ensures { result ≡ told_symbols head.now }
{
    if head.len() < 16 {
        return 0;
    }
    word_at(head, 12)
}

/// The chunks of an object: OBJ_HEAD, OBJ_AREA and OBJ_STRT must stand once, OBJ_SYMT at most once, and
/// once where OBJ_HEAD tells a symbol.
#[tactic(auto, unfolding(crate::specs::Parts::parts_of))]
pub fn find_parts(alloc: Global, b: &[u8], spans: &[Option<Span>]) -> Result<Parts, Fault>
    ensures { Gives result (parts_of b.now spans.now) }
{
    let head = needed_chunk(alloc, find(spans, *b"OBJ_HEAD"))?;
    let areas = needed_chunk(alloc, find(spans, *b"OBJ_AREA"))?;
    let strings = needed_chunk(alloc, find(spans, *b"OBJ_STRT"))?;
    let count = symbol_count(bytes_of_span(b, &head));
    let symbols = symbol_table(alloc, count, find(spans, *b"OBJ_SYMT"))?;
    Ok(Parts {
        head,
        areas,
        strings,
        symbols,
    })
}
