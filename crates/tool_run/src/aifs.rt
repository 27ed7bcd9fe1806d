//! ARM image files, and the images that they are.

ghost use Rattle.std.specs.Prelude.{◌≡◌, ◌<◌, ◌^◌, IfOk, length};
ghost use Rattle.chunk_file.specs.Reading.{Gives};
ghost use Rattle.aif_image.specs.Reading.{aif_of};
ghost use Rattle.run_opening.specs.Openings.{AreNeeded};
ghost use Rattle.tool_run.specs.Aifs as aifs;
ghost use Rattle.tool_run.specs.Ends.{named_by};

use crate::ends::named_fault;
use aif_image::read_aif;
use link_model::Aif;
use run_opening::{Image, Load, Need};
use sdt_fault::answer::Fault;
use sdt_fault::kinds::FileKind;
use sdt_fault::refusal::Refusal;
use sdt_fault::{Bytes, List, NoMemory, Text};
use std::alloc::Global;

/// What the file's header says, or the refusal with the file's name.
fn aif_named(alloc: Global, name: &Text, bytes: &[u8]) -> Result<Aif, Fault>
    requires { length bytes.now < 2 ^ 32 }
    ensures { Gives result (named_by name.now (aif_of bytes.now)) }
{
    match read_aif(alloc, bytes) {
        Ok(aif) => Ok(aif),
        Err(fault) => Err(named_fault(alloc, name, fault)),
    }
}

/// Where the image is loaded: at an address that is told, if it may stand there, or else at its own.
fn base_for(alloc: Global, file: &Text, at: Option<u32>, aif: &Aif) -> Result<u32, Fault>
    ensures { Gives result (aifs.base_for file.now at aif.now) }
{
    let Some(at) = at else {
        return Ok(aif.base);
    };
    if aif.relocatable {
        return Ok(at);
    }
    if at == aif.base {
        return Ok(at);
    }
    let file = file.try_clone(alloc)?;
    Err(Fault::Refused(Refusal::BadImage {
        file,
        offset: 4,
        kind: FileKind::FixedBase,
    }))
}

/// The zero-initialised part of an image at an address. Where that part would begin at 2^32 or above, all from the
/// image's base on is needed, which no bank has.
fn zero_need(at: u32, aif: &Aif) -> Need
    ensures { result ≡ aifs.zero_need at aif.now }
{
    let parts = u64::from(aif.ro) + u64::from(aif.rw);
    let base = u64::from(at) + parts;
    if base < 1 << 32 {
        return Need {
            base: base as u32,
            size: u64::from(aif.zero),
        };
    }
    Need {
        base: at,
        size: parts + u64::from(aif.zero),
    }
}

fn loaded_aif(alloc: Global, at: u32, aif: &Aif, bytes: Bytes) -> Result<Image, NoMemory>
    ensures exact { IfOk result (λ image. image ≡ aifs.loaded_aif at aif.now bytes) }
    ensures needed { IfOk result (λ image. AreNeeded image) }
{
    let mut needs = Vec::new(alloc);
    needs.push(Need {
        base: at,
        size: bytes.as_slice().len() as u64,
    })?;
    needs.push(zero_need(at, aif))?;
    let mut loads = Vec::new(alloc);
    loads.push(Load { base: at, bytes })?;
    Ok(Image {
        loads: List::from_vec(loads),
        needs: List::from_vec(needs),
        start: at,
        thumb: false,
    })
}

fn placed_aif(
    alloc: Global,
    file: &Text,
    at: Option<u32>,
    aif: &Aif,
    bytes: Bytes,
) -> Result<Image, Fault>
    ensures exact { Gives result (aifs.placed_aif file.now at bytes aif.now) }
    ensures needed { IfOk result (λ image. AreNeeded image) }
{
    match base_for(alloc, file, at, aif) {
        Ok(base) => Ok(loaded_aif(alloc, base, aif, bytes)?),
        Err(fault) => Err(fault),
    }
}

/// The image that a file's bytes are, at an address or, with none, at its own.
pub fn aif_at(alloc: Global, file: &Text, at: Option<u32>, bytes: Bytes) -> Result<Image, Fault>
    requires { length bytes < 2 ^ 32 }
    ensures exact { Gives result (aifs.aif_at file.now at bytes) }
    ensures needed { IfOk result (λ image. AreNeeded image) }
{
    match aif_named(alloc, file, bytes.as_slice()) {
        Ok(aif) => placed_aif(alloc, file, at, &aif, bytes),
        Err(fault) => Err(fault),
    }
}
