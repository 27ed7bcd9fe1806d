//! The lines of a map, each as the record that it spells.

ghost use Rattle.std.specs.Prelude.{◌≡◌, IfOk};
ghost use Rattle.bin_image.specs.Reading as lines;

use crate::fields::{address_of, cut, decimal_of, is, is_name};
use crate::records::{MapLoad, MapRegion};
use sdt_fault::{NoMemory, Text};
use std::alloc::Global;

fn load_of(
    alloc: Global,
    name: &[u8],
    base: &[u8],
    size: &[u8],
    file: &[u8],
) -> Result<Option<MapLoad>, NoMemory>
    ensures { IfOk result (λ load. load ≡ lines.load_of name.now base.now size.now file.now) }
{
    if !is_name(name) {
        return Ok(None);
    }
    let Some(base) = address_of(base) else {
        return Ok(None);
    };
    let Some(size) = address_of(size) else {
        return Ok(None);
    };
    if u64::from(base) + u64::from(size) > 1 << 32 {
        return Ok(None);
    }
    Ok(Some(MapLoad {
        name: Text::from_slice(alloc, name)?,
        base,
        size,
        file: Text::from_slice(alloc, file)?,
    }))
}

/// `load NAME BASE SIZE FILE`, where the file's name reaches to the end of the line.
pub fn load_in(alloc: Global, line: &[u8]) -> Result<Option<MapLoad>, NoMemory>
    ensures { IfOk result (λ load. load ≡ lines.load_in line.now) }
{
    let Some((word, rest)) = cut(line, b' ') else {
        return Ok(None);
    };
    if !is(word, b"load") {
        return Ok(None);
    }
    let Some((name, rest)) = cut(rest, b' ') else {
        return Ok(None);
    };
    let Some((base, rest)) = cut(rest, b' ') else {
        return Ok(None);
    };
    let Some((size, file)) = cut(rest, b' ') else {
        return Ok(None);
    };
    load_of(alloc, name, base, size, file)
}

fn region_of(
    alloc: Global,
    name: &[u8],
    load: &[u8],
    base: &[u8],
    size: &[u8],
    zeros: &[u8],
) -> Result<Option<MapRegion>, NoMemory>
    ensures { IfOk result (λ region. region ≡ lines.region_of name.now load.now base.now size.now zeros.now) }
{
    if !is_name(name) {
        return Ok(None);
    }
    let Some(load) = address_of(load) else {
        return Ok(None);
    };
    let Some(base) = address_of(base) else {
        return Ok(None);
    };
    let Some(length) = address_of(size) else {
        return Ok(None);
    };
    let Some(zero) = address_of(zeros) else {
        return Ok(None);
    };
    if u64::from(base) + u64::from(length) + u64::from(zero) > 1 << 32 {
        return Ok(None);
    }
    Ok(Some(MapRegion {
        name: Text::from_slice(alloc, name)?,
        load,
        base,
        length,
        zero,
    }))
}

/// `exec NAME LOAD BASE LENGTH ZERO`.
pub fn region_in(alloc: Global, line: &[u8]) -> Result<Option<MapRegion>, NoMemory>
    ensures { IfOk result (λ region. region ≡ lines.region_in line.now) }
{
    let Some((word, rest)) = cut(line, b' ') else {
        return Ok(None);
    };
    if !is(word, b"exec") {
        return Ok(None);
    }
    let Some((name, rest)) = cut(rest, b' ') else {
        return Ok(None);
    };
    let Some((load, rest)) = cut(rest, b' ') else {
        return Ok(None);
    };
    let Some((base, rest)) = cut(rest, b' ') else {
        return Ok(None);
    };
    let Some((size, zeros)) = cut(rest, b' ') else {
        return Ok(None);
    };
    region_of(alloc, name, load, base, size, zeros)
}

/// `start ADDR`, a multiple of 4.
pub fn start_in(line: &[u8]) -> Option<u32>
    ensures { result ≡ lines.start_in line.now }
{
    let (word, rest) = cut(line, b' ')?;
    if !is(word, b"start") {
        return None;
    }
    let start = address_of(rest)?;
    if start % 4 != 0 {
        return None;
    }
    Some(start)
}

// Whether the state is Thumb.
fn state_of(word: &[u8]) -> Option<bool>
    ensures { result ≡ lines.state_of word.now }
{
    if is(word, b"ARM") {
        return Some(false);
    }
    if is(word, b"THUMB") {
        return Some(true);
    }
    None
}

/// `entry ADDR ARM` or `entry ADDR THUMB`: the address, and whether it is in Thumb state.
pub fn entry_in(line: &[u8]) -> Option<(u32, bool)>
    ensures { result ≡ lines.entry_in line.now }
{
    let (word, rest) = cut(line, b' ')?;
    if !is(word, b"entry") {
        return None;
    }
    let (entry, state) = cut(rest, b' ')?;
    let entry = address_of(entry)?;
    let thumb = state_of(state)?;
    Some((entry, thumb))
}

/// `bound N`, in decimal.
pub fn bound_in(alloc: Global, line: &[u8]) -> Result<Option<u64>, NoMemory>
    ensures { IfOk result (λ bound. bound ≡ lines.bound_in line.now) }
{
    let Some((word, rest)) = cut(line, b' ') else {
        return Ok(None);
    };
    if !is(word, b"bound") {
        return Ok(None);
    }
    decimal_of(alloc, rest)
}
