//! The list of the words of an image that are shifted where it is moved.

ghost use Rattle.std.specs.Prelude.{◌≡◌, ◌+◌, ◌*◌, ◌++◌, replicate, None, IfOk, OnOk};
ghost use Rattle.chunk_file.specs.Reading.{Gives};
ghost use Rattle.image_model.specs.AifFiles.{shifted_offsets};
ghost use Rattle.link_model.specs.Members.{link_of};
ghost use Rattle.link_shifts.specs.Changes.{times_in};
ghost use Rattle.link_shifts.specs.Moves.{length_at, moved, moves_of, parts_words};
ghost use Rattle.link_shifts.specs.Tells.{Tells};
ghost use Rattle.link_values.specs.Shifts.{not_relocatable};

use crate::balances::Balance;
use crate::changes::{changes_of, shifts_at};
use crate::judging::{image_base, refusal_of};
use crate::moving::Image;
use indexmap::IndexMap;
use link_model::{Linked, Placement, Region};
use link_values::{area_bases, gathered, region_numbers, sum};
use sdt_fault::answer::Fault;
use sdt_fault::{List, NoMemory};
use std::alloc::Global;

fn length_at(regions: &[Region], number: usize) -> u64
    ensures { result ≡ length_at regions.now number }
{
    match regions.get(number) {
        None => 0,
        Some(region) => region.length,
    }
}

/// The words of the read-only and read-write parts.
fn parts_words(placement: &Placement) -> Result<u64, NoMemory>
    ensures { IfOk result (λ words. words ≡ parts_words placement.now) }
{
    let regions = placement.regions.as_slice();
    Ok(sum(length_at(regions, 0), length_at(regions, 1))? / 4)
}

/// Pushes an offset so often.
fn push_offset(offsets: &mut Vec<u32>, offset: u32, times: u64) -> Result<(), NoMemory>
    ensures { OnOk result (offsets.new.items ≡ offsets.old.items ++ replicate times offset) }
{
    for i in 0..times {
        offsets.push(offset)?;
    }
    Ok(())
}

/// Pushes the offset of the word of a number as often as the word is shifted. No image has an offset of more than
/// 32 bits.
fn push_word(
    offsets: &mut Vec<u32>,
    changes: &IndexMap<u64, Balance>,
    base: u64,
    word: u64,
) -> Result<(), NoMemory>
    ensures { OnOk result (offsets.new.items
        ≡ offsets.old.items ++ replicate (times_in changes.now (base + 4 * word)) (4 * word)) }
{
    if word >= 0x4000_0000 {
        return Err(NoMemory);
    }
    let offset = 4 * word;
    let times = shifts_at(changes, sum(base, offset)?);
    push_offset(offsets, offset as u32, times)
}

/// The offsets of so many words from a base on.
fn offsets_of(
    alloc: Global,
    changes: &IndexMap<u64, Balance>,
    base: u64,
    words: u64,
) -> Result<Vec<u32>, NoMemory>
    ensures { IfOk result (λ offsets. offsets.items ≡ shifted_offsets (λ at. times_in changes.now (base + at)) 0 words) }
{
    let mut offsets = Vec::new(alloc);
    for word in 0..words {
        push_word(&mut offsets, changes, base, word)?;
    }
    Ok(offsets)
}

fn list_of(alloc: Global, image: &Image<'_>) -> Result<List<u32>, NoMemory>
    requires image { Tells image.now }
    requires movable { not_relocatable image.now.linked.now image.now.placement.now ≡ None }
    ensures { IfOk result (λ moves. moves ≡ moves_of image.now.linked.now image.now.placement.now) }
{
    let changes = changes_of(alloc, image)?;
    let words = parts_words(image.placement)?;
    let offsets = offsets_of(alloc, &changes, image_base(image.placement), words)?;
    Ok(List::from_vec(offsets))
}

fn moved(alloc: Global, image: &Image<'_>) -> Result<List<u32>, Fault>
    requires { Tells image.now }
    ensures { Gives result (moved image.now.linked.now image.now.placement.now) }
{
    if let Some(refusal) = refusal_of(alloc, image)? {
        return Err(Fault::Refused(refusal));
    }
    Ok(list_of(alloc, image)?)
}

/// The offsets in bytes, ascending, of the words of a placed link that are shifted where its image is moved, each as
/// often as it is; or the refusal of the first relocation that can't be moved, `NotRelocatable`, in input order.
pub fn movements(alloc: Global, linked: &Linked, placement: &Placement) -> Result<List<u32>, Fault>
    ensures exact { Gives result (moved linked.now placement.now) }
{
    let bases = area_bases(alloc, placement)?;
    let numbers = region_numbers(alloc, placement.boot, placement.regions.as_slice())?;
    let image = Image {
        linked,
        placement,
        names: gathered(alloc, linked, placement, &bases, numbers.as_slice())?,
    };
    moved(alloc, &image)
}
