//! Texts of records, and the images that they are.

ghost use Rattle.std.specs.Prelude.{◌≡◌, IfOk, map};
ghost use Rattle.chunk_file.specs.Reading.{Gives};
ghost use Rattle.hex_image.specs.Reading.{burn_of};
ghost use Rattle.run_opening.specs.Openings.{AreNeeded};
ghost use Rattle.tool_run.specs.Burned as burned;
ghost use Rattle.tool_run.specs.Burned.{BurnLoadLaw, form_in};
ghost use Rattle.tool_run.specs.Ends.{named_by};

use crate::ends::named_fault;
use hex_image::{Burn, Piece, read_ihex, read_srec};
use run_opening::{Image, Load, Need};
use sdt_fault::answer::Fault;
use sdt_fault::{List, NoMemory, Text};
use std::alloc::Global;

/// What a text tells, read as S-records where it begins with `S`, and else as Intel HEX.
fn read_burn(alloc: Global, text: &[u8]) -> Result<Burn, Fault>
    ensures { Gives result (burn_of (form_in text.now) text.now) }
{
    if text.starts_with(b"S") {
        return read_srec(alloc, text);
    }
    read_ihex(alloc, text)
}

/// What a text tells, or the refusal with the file's name.
fn burn_named(alloc: Global, name: &Text, text: &[u8]) -> Result<Burn, Fault>
    ensures { Gives result (named_by name.now (burn_of (form_in text.now) text.now)) }
{
    match read_burn(alloc, text) {
        Ok(burn) => Ok(burn),
        Err(fault) => Err(named_fault(alloc, name, fault)),
    }
}

fn needs_of(alloc: Global, pieces: &[Piece]) -> Result<Vec<Need>, NoMemory>
    ensures { IfOk result (λ needs. needs.items ≡ map burned.need_of pieces.now) }
{
    let mut needs = Vec::new(alloc);
    for piece in pieces {
        needs.push(Need {
            base: piece.base,
            size: piece.bytes.as_slice().len() as u64,
        })?;
    }
    Ok(needs)
}

fn loads_of(alloc: Global, pieces: Vec<Piece>) -> Result<Vec<Load>, NoMemory>
    ensures { IfOk result (λ loads. loads.items ≡ map burned.load_of pieces.items) }
{
    let mut loads = Vec::new(alloc);
    for piece in pieces {
        loads.push(Load {
            base: piece.base,
            bytes: piece.bytes,
        })?;
    }
    Ok(loads)
}

fn loaded_burn(alloc: Global, burn: Burn) -> Result<Image, NoMemory>
    ensures exact { IfOk result (λ image. image ≡ burned.loaded_burn burn) }
    ensures needed { IfOk result (λ image. AreNeeded image) }
{
    let Burn { pieces, start } = burn;
    let needs = needs_of(alloc, pieces.as_slice())?;
    let loads = loads_of(alloc, pieces.into_vec())?;
    Ok(Image {
        loads: List::from_vec(loads),
        needs: List::from_vec(needs),
        start: start - start % 2,
        thumb: start % 2 == 1,
    })
}

/// The image that a text of records is, with a load for each record that has bytes.
pub fn burned_image(alloc: Global, file: &Text, text: &[u8]) -> Result<Image, Fault>
    ensures exact { Gives result (burned.burned_image file.now text.now) }
    ensures needed { IfOk result (λ image. AreNeeded image) }
{
    match burn_named(alloc, file, text) {
        Ok(burn) => Ok(loaded_burn(alloc, burn)?),
        Err(fault) => Err(fault),
    }
}

/// What memory holds where the image is loaded is what its text tells.
pub fn burn_load_law()
    ensures { BurnLoadLaw }
{}
