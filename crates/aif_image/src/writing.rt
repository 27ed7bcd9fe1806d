//! Writing: the file of a linked image.

ghost use Rattle.std.specs.Prelude.{◌≡◌, ◌<◌, ◌+◌, ◌^◌, ◌++◌, IfOk, OnOk, drop};
ghost use Rattle.std.specs.List.{AllByRecursion};
ghost use Rattle.sdt_word.specs.Bytes.{bytes_of};
ghost use Rattle.boot_code.specs.Maps.{bytes_of_words};
ghost use Rattle.aif_image.specs.Files as files;

use boot_code::{relocator_words, zero_words};
use link_model::{Image, ImageKind, LoadRegion, Region};
use sdt_fault::{Bytes, NoMemory};
use sdt_word::push_word;
use std::alloc::Global;

// ---- the parts

fn length_in(regions: &[Region], number: usize) -> u32
    requires { AllByRecursion (λ r. r.length + r.zero < 2 ^ 32) regions.now }
    ensures { result ≡ files.size_in (λ r. r.length) regions.now number }
{
    match regions.get(number) {
        None => 0,
        Some(region) => region.length as u32,
    }
}

fn zero_size(regions: &[Region]) -> u32
    requires { AllByRecursion (λ r. r.length + r.zero < 2 ^ 32) regions.now }
    ensures { result ≡ files.zero_size regions.now }
{
    match regions.get(2) {
        None => 0,
        Some(region) => (region.length + region.zero) as u32,
    }
}

fn loaded(loads: &[LoadRegion]) -> &[u8]
    ensures { result.now ≡ files.loaded loads.now }
{
    match loads.first() {
        None => b"",
        Some(load) => load.bytes.as_slice(),
    }
}

/// What is loaded behind the header.
fn behind_header(bytes: &[u8]) -> &[u8]
    ensures { result.now ≡ drop 0x80 bytes.now }
{
    if bytes.len() < 0x80 {
        return b"";
    }
    &bytes[0x80..]
}

fn can_move(kind: ImageKind) -> bool
    ensures { result ≡ files.can_move kind }
{
    match kind {
        ImageKind::Aif { relocatable } => relocatable,
        ImageKind::Scatter => false,
        ImageKind::Plain => false,
    }
}

// ---- words

fn push_words(out: &mut Vec<u8>, words: &[u32]) -> Result<(), NoMemory>
    ensures { OnOk result (out.new.items ≡ out.old.items ++ bytes_of_words words.now) }
{
    for word in words {
        push_word(out, *word)?;
    }
    Ok(())
}

/// BL from an offset to another behind it.
fn call_from(at: u32, target: u64) -> u32
    requires { target < 2 ^ 34 }
    ensures { bytes_of result 4 ≡ bytes_of (files.call_from at target) 4 }
{
    let words = target.saturating_sub(u64::from(at) + 8) / 4;
    ((0xEB00_0000 + words) % (1 << 32)) as u32
}

fn mover_call(moves: bool, regions: &[Region]) -> u32
    requires { AllByRecursion (λ r. r.length + r.zero < 2 ^ 32) regions.now }
    ensures { bytes_of result 4 ≡ bytes_of (if moves then files.call_from 4 (files.parts_size regions.now) else 0xE1A00000) 4 }
{
    if !moves {
        return 0xE1A0_0000;
    }
    let parts = u64::from(length_in(regions, 0)) + u64::from(length_in(regions, 1));
    call_from(4, parts)
}

ghost use Rattle.std.specs.Prelude.{if◌then◌else◌, ◌==◌};

fn zero_call(regions: &[Region]) -> u32
    requires { AllByRecursion (λ r. r.length + r.zero < 2 ^ 32) regions.now }
    ensures { result ≡ (if files.zero_size regions.now == 0 then 0xE1A00000 else files.call_from 8 0x40) }
{
    if zero_size(regions) == 0 {
        return 0xE1A0_0000;
    }
    0xEB00_000C
}

fn entry_call(base: u32, call: u32) -> u32
    ensures { bytes_of result 4 ≡ bytes_of (files.call_from 0xC (call - base)) 4 }
{
    call_from(0xC, u64::from(call.saturating_sub(base)))
}

ghost use Rattle.std.specs.Prelude.{◌-◌};

// ---- the file

fn first_words(moves: bool, regions: &[Region], base: u32, call: u32) -> [u32; 16]
    requires { AllByRecursion (λ r. r.length + r.zero < 2 ^ 32) regions.now }
    ensures { bytes_of_words result ≡ bytes_of_words (files.first_words moves regions.now base call) }
{
    [
        0xE1A0_0000,
        mover_call(moves, regions),
        zero_call(regions),
        entry_call(base, call),
        0xEF00_0011,
        length_in(regions, 0),
        length_in(regions, 1),
        0,
        zero_size(regions),
        0,
        base,
        0,
        32,
        0,
        0,
        0,
    ]
}

fn push_parts(out: &mut Vec<u8>, image: &Image) -> Result<(), NoMemory>
    requires { AllByRecursion (λ r. r.length + r.zero < 2 ^ 32) image.now.regions }
    ensures { OnOk result (out.new.items ≡ out.old.items ++ files.parts_bytes image.now) }
{
    let regions = image.regions.as_slice();
    let words = first_words(can_move(image.kind), regions, image.start, image.call);
    push_words(out, &words)?;
    push_words(out, &zero_words())?;
    out.extend_from_slice(behind_header(loaded(image.loads.as_slice())))?;
    Ok(())
}

fn push_mover(out: &mut Vec<u8>, moves: &[u32]) -> Result<(), NoMemory>
    ensures { OnOk result (out.new.items ≡ out.old.items ++ files.mover_bytes moves.now) }
{
    push_words(out, &relocator_words())?;
    push_words(out, moves)?;
    push_words(out, &[0xFFFF_FFFF])?;
    Ok(())
}

/// The file of an ARM image file: the header, the read-only part behind it, the read-write part and, where the image can
/// be moved, the relocator with the list of its moves. Its load region is what stands in the file, and the regions are
/// the read-only, the read-write and the zero-initialised one. An image of another kind has the file of one that can't be
/// moved.
pub fn make_aif(alloc: Global, image: &Image) -> Result<Bytes, NoMemory>
    requires { AllByRecursion (λ r. r.length + r.zero < 2 ^ 32) image.now.regions }
    ensures exact { IfOk result (λ bytes. bytes ≡ files.aif_file image.now) }
{
    let mut out = Vec::new(alloc);
    push_parts(&mut out, image)?;
    if can_move(image.kind) {
        push_mover(&mut out, image.moves.as_slice())?;
    }
    Ok(Bytes::from_vec(out))
}
