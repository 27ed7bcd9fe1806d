//! ELF executables, and the images that they are.

ghost use Rattle.std.specs.Prelude.{◌≡◌, ◌<◌, ◌^◌, IfOk, length, map};
ghost use Rattle.std.specs.List.{AllByRecursion};
ghost use Rattle.chunk_file.specs.Reading.{Gives};
ghost use Rattle.elf_image.specs.Checks.{IsSegment, ReadsElf};
ghost use Rattle.elf_image.specs.Reading.{elf_of};
ghost use Rattle.run_opening.specs.Openings.{AreNeeded};
ghost use Rattle.tool_run.specs.Elfs as elfs;
ghost use Rattle.tool_run.specs.Elfs.{ElfLoadLaw};
ghost use Rattle.tool_run.specs.Ends.{named_by};

use crate::ends::named_fault;
use elf_image::{Elf, Segment, read_elf};
use run_opening::{Image, Load, Need};
use sdt_fault::answer::Fault;
use sdt_fault::{Bytes, List, NoMemory, Text};
use std::alloc::Global;

/// What the file says of how it is loaded, or the refusal with the file's name.
fn elf_named(alloc: Global, name: &Text, bytes: &[u8]) -> Result<Elf, Fault>
    requires { length bytes.now < 2 ^ 32 }
    ensures exact { Gives result (named_by name.now (elf_of bytes.now)) }
    ensures found { IfOk result (λ elf. ReadsElf bytes.now elf) }
{
    match read_elf(alloc, bytes) {
        Ok(elf) => Ok(elf),
        Err(fault) => Err(named_fault(alloc, name, fault)),
    }
}

fn file_bytes(bytes: &[u8], segment: Segment) -> &[u8]
    requires { IsSegment (length bytes.now) segment }
    ensures { result.now ≡ elfs.file_bytes bytes.now segment }
{
    if segment.file_size == 0 {
        return &bytes[..0];
    }
    let rest = &bytes[segment.offset as usize..];
    &rest[..segment.file_size as usize]
}

fn load_of(alloc: Global, bytes: &[u8], segment: Segment) -> Result<Load, NoMemory>
    requires { IsSegment (length bytes.now) segment }
    ensures { IfOk result (λ load. load ≡ elfs.load_of bytes.now segment) }
{
    Ok(Load {
        base: segment.address,
        bytes: Bytes::from_slice(alloc, file_bytes(bytes, segment))?,
    })
}

/// The most bytes that segments take from their file, which may all have the same ones.
const MOST_BYTES: usize = 1 << 30;

/// Judges that there is room for copies of the segments' bytes.
fn judge_bytes(segments: &[Segment]) -> Result<(), NoMemory> {
    let mut left = MOST_BYTES;
    for segment in segments {
        left = left
            .checked_sub(segment.file_size as usize)
            .ok_or(NoMemory)?;
    }
    Ok(())
}

fn loads_of(alloc: Global, bytes: &[u8], segments: &[Segment]) -> Result<Vec<Load>, NoMemory>
    requires { AllByRecursion (IsSegment (length bytes.now)) segments.now }
    ensures { IfOk result (λ loads. loads.items ≡ map (elfs.load_of bytes.now) segments.now) }
{
    let mut loads = Vec::new(alloc);
    for segment in segments {
        loads.push(load_of(alloc, bytes, *segment)?)?;
    }
    Ok(loads)
}

fn needs_of(alloc: Global, segments: &[Segment]) -> Result<Vec<Need>, NoMemory>
    ensures { IfOk result (λ needs. needs.items ≡ map elfs.need_of segments.now) }
{
    let mut needs = Vec::new(alloc);
    for segment in segments {
        needs.push(Need {
            base: segment.address,
            size: u64::from(segment.memory_size),
        })?;
    }
    Ok(needs)
}

fn loaded_elf(alloc: Global, bytes: &[u8], elf: &Elf) -> Result<Image, NoMemory>
    requires { ReadsElf bytes.now elf.now }
    ensures exact { IfOk result (λ image. image ≡ elfs.loaded_elf bytes.now elf.now) }
    ensures needed { IfOk result (λ image. AreNeeded image) }
{
    let segments = elf.segments.as_slice();
    judge_bytes(segments)?;
    let loads = loads_of(alloc, bytes, segments)?;
    let needs = needs_of(alloc, segments)?;
    Ok(Image {
        loads: List::from_vec(loads),
        needs: List::from_vec(needs),
        start: elf.entry - elf.entry % 2,
        thumb: elf.entry % 2 == 1,
    })
}

/// The image that a file's bytes are. The bytes of each segment are copied, and no zeros behind them; more than 2^30 bytes in all
/// count as want of memory, before the first is copied.
pub fn elf_image(alloc: Global, file: &Text, bytes: &[u8]) -> Result<Image, Fault>
    requires { length bytes.now < 2 ^ 32 }
    ensures exact { Gives result (elfs.elf_image file.now bytes.now) }
    ensures needed { IfOk result (λ image. AreNeeded image) }
{
    match elf_named(alloc, file, bytes) {
        Ok(elf) => Ok(loaded_elf(alloc, bytes, &elf)?),
        Err(fault) => Err(fault),
    }
}

/// What memory holds where the image is loaded is what its file loads.
pub fn elf_load_law()
    ensures { ElfLoadLaw }
{}
