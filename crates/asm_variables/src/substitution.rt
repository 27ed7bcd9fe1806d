//! Substitution.

ghost use Rattle.std.specs.Prelude.{◌≡◌, ◌==◌, ◌≤◌, ◌∷◌, [], false, length, drop, IfOk, MatchOption};
ghost use Rattle.std.specs.List.{list_any};
ghost use Rattle.expand_model.specs.Standing as place;
ghost use Rattle.expand_model.specs.Substitution as model;
ghost use Rattle.asm_variables.specs.Substitution.{Fails, Gives, PutsByte, PutsDollar, PutsName, Stays};

use crate::standing::begun_at;
use crate::variables::Tables;
use asm_lines::bytes::{Class, is_letter, run_len};
use asm_model::SharedText;
use expand_model::Standing;
use sdt_fault::NoMemory;
use std::alloc::Global;

fn begins_with(byte: u8, rest: &[u8]) -> bool
    ensures { result ≡ model.begins_with byte rest.now }
{
    let Some((first, _)) = rest.split_first() else {
        return false;
    };
    *first == byte
}

/// How many bytes a name at the front has.
fn name_width(rest: &[u8]) -> usize
    ensures width { result ≡ model.name_width rest.now }
    ensures within { result ≤ length rest.now }
{
    let Some((first, _)) = rest.split_first() else {
        return 0;
    };
    if is_letter(*first) {
        return run_len(rest, Class::Word);
    }
    0
}

/// A name of so many bytes, and the dot behind it.
fn taken_width(name: usize, rest: &[u8]) -> usize
    requires { name ≤ length rest.now }
    ensures { result ≡ model.taken_width name rest.now }
{
    if begins_with(b'.', &rest[name..]) {
        return name + 1;
    }
    name
}

/// Appends the text for which a name of so many bytes stands, and tells how many bytes are taken.
fn named(
    alloc: Global,
    tables: &Tables,
    width: usize,
    rest: &[u8],
    out: &mut Vec<u8>,
) -> Result<Option<usize>, NoMemory>
    requires { width ≤ length rest.now }
    ensures { IfOk result (PutsName tables.now width rest.now out.old.items out.new.items) }
{
    let name = SharedText::from_slice(alloc, &rest[..width])?;
    if tables.append_text(&name, out)? {
        return Ok(Some(taken_width(width, rest)));
    }
    Ok(None)
}

/// Appends what a dollar before these bytes becomes, and tells how many of them it takes; None where nothing has its name.
fn dollar(
    alloc: Global,
    tables: &Tables,
    rest: &[u8],
    out: &mut Vec<u8>,
) -> Result<Option<usize>, NoMemory>
    ensures { IfOk result (PutsDollar tables.now rest.now out.old.items out.new.items) }
{
    if begins_with(b'$', rest) {
        out.push(b'$')?;
        return Ok(Some(1));
    }
    let width = name_width(rest);
    if width == 0 {
        out.push(b'$')?;
        return Ok(Some(0));
    }
    named(alloc, tables, width, rest, out)
}

/// Whether dollars have their meaning there.
fn takes_dollar(standing: Standing) -> bool
    ensures { result ≡ model.takes_dollar standing }
{
    match standing {
        Standing::Open => true,
        Standing::Quoted => true,
        Standing::Barred => false,
        Standing::Comment => false,
    }
}

/// Where a byte before these stands, of which so many stand as they did; and how many do so behind it.
pub fn standing_at(standing: Standing, left: usize, first: u8, rest: &[u8]) -> (Standing, usize)
    ensures { place.standing_from standing left (first ∷ rest.now)
        ≡ (first, result.0) ∷ place.standing_from result.0 result.1 rest.now }
{
    if left == 0 {
        let (begun, width) = begun_at(first, rest);
        return (begun, width - 1);
    }
    (standing, left - 1)
}

/// Appends what a byte that stands there becomes, and tells how many of the bytes behind it are taken away.
fn put(
    alloc: Global,
    tables: &Tables,
    first: u8,
    standing: Standing,
    rest: &[u8],
    out: &mut Vec<u8>,
) -> Result<Option<usize>, NoMemory>
    ensures { IfOk result
        (PutsByte tables.now 0 (first, standing) rest.now out.old.items out.new.items) }
{
    if first == b'$' && takes_dollar(standing) {
        return dollar(alloc, tables, rest, out);
    }
    out.push(first)?;
    Ok(Some(0))
}

/// The same, where so many bytes are taken away.
fn pass(
    alloc: Global,
    tables: &Tables,
    first: u8,
    standing: Standing,
    dropped: usize,
    rest: &[u8],
    out: &mut Vec<u8>,
) -> Result<Option<usize>, NoMemory>
    ensures { IfOk result
        (PutsByte tables.now dropped (first, standing) rest.now out.old.items out.new.items) }
{
    if dropped == 0 {
        return put(alloc, tables, first, standing, rest, out);
    }
    Ok(Some(dropped - 1))
}

/// The byte at a place and the bytes behind it; None at the end.
pub fn first_of(text: &[u8], at: usize) -> Option<(u8, &[u8])>
    requires { at ≤ length text.now }
    ensures { MatchOption result (drop at text.now ≡ []) (λ r. drop at text.now ≡ r.0 ∷ r.1.now) }
{
    let behind = &text[at..];
    match behind.split_first() {
        None => None,
        Some((first, rest)) => Some((*first, rest)),
    }
}

/// The text of a line with dollars after substitution; None where nothing has one of its names.
fn substitute_dollars(
    alloc: Global,
    tables: &Tables,
    text: &[u8],
) -> Result<Option<Vec<u8>>, NoMemory>
    ensures { IfOk result
        (λ found. MatchOption found (Fails tables.now text.now)
        (λ v. Gives tables.now text.now v.items)) }
{
    let mut out = Vec::new(alloc);
    let mut standing = Standing::Open;
    let mut left = 0;
    let mut dropped = 0;
    let mut at = 0;
    'bytes: loop {
        let Some((first, rest)) = first_of(text, at) else {
            return Ok(Some(out));
        };
        let (begun, width) = standing_at(standing, left, first, rest);
        let Some(taken) = pass(alloc, tables, first, begun, dropped, rest, &mut out)? else {
            return Ok(None);
        };
        standing = begun;
        left = width;
        dropped = taken;
        at += 1;
    }
}

/// Whether a dollar stands in a text; a text without one stays as it is.
pub fn has_dollar(text: &[u8]) -> bool
    ensures value { result ≡ list_any (λ c. c == 36) text.now }
    ensures stays { result ≡ false → Stays text.now }
{
    text.contains(&b'$')
}

/// A line's text after substitution; None where nothing has one of its names.
pub fn substitute(alloc: Global, tables: &Tables, text: &[u8]) -> Result<Option<Vec<u8>>, NoMemory>
    ensures { IfOk result
        (λ found. MatchOption found (Fails tables.now text.now)
        (λ v. Gives tables.now text.now v.items)) }
{
    if has_dollar(text) {
        return substitute_dollars(alloc, tables, text);
    }
    Ok(Some(Vec::from_slice(alloc, text)?))
}
