//! The command `burn`.

ghost use Rattle.std.specs.Prelude.{◌≡◌, ◌+◌, ◌<◌, ◌≤◌, ◌^◌, IfOk, length, map, nat_le};
ghost use Rattle.std.specs.List.{AllByRecursion};
ghost use Rattle.sdt_fault.specs.declared.answer.Fault.TheVariants as fault;
ghost use Rattle.chunk_file.specs.Reading.{Gives};
ghost use Rattle.hex_image.specs.Images.{end_of};
ghost use Rattle.tool_run.specs.Burns as burns;
ghost use Rattle.tool_run.specs.Burns.{AreInSpace, BurnAnswersOver};

use crate::ends::{fault_end, image_answer};
use crate::image::read_image;
use bin_image::map_law;
use hex_image::{Burn, Piece, write_ihex, write_srec};
use run_opening::{Image, Load};
use sdt_fault::answer::{Answer, Fault};
use sdt_fault::kinds::Quantity;
use sdt_fault::{List, NoMemory, Text};
use sdt_outside::Store;
use std::alloc::Global;
use tool_answers::write;
use tool_words::{BurnForm, RunImage};

fn pieces_of(alloc: Global, loads: Vec<Load>) -> Result<Vec<Piece>, NoMemory>
    ensures { IfOk result (λ pieces. pieces.items ≡ map burns.piece_of loads.items) }
{
    let mut pieces = Vec::new(alloc);
    for load in loads {
        pieces.push(Piece {
            base: load.base,
            bytes: load.bytes,
        })?;
    }
    Ok(pieces)
}

fn burn_in(alloc: Global, image: Image) -> Result<Burn, NoMemory>
    ensures { IfOk result (λ burn. burn ≡ burns.burn_in image) }
{
    let start = image.start;
    let pieces = pieces_of(alloc, image.loads.into_vec())?;
    Ok(Burn {
        pieces: List::from_vec(pieces),
        start,
    })
}

fn text_of(alloc: Global, form: BurnForm, burn: &Burn) -> Result<Text, NoMemory>
    requires { AllByRecursion (λ p. end_of p ≤ 2 ^ 32) burn.now.pieces }
    ensures { IfOk result (λ text. text ≡ burns.text_of form burn.now) }
{
    match form {
        BurnForm::IntelHex => write_ihex(alloc, burn),
        BurnForm::SRecords => write_srec(alloc, burn),
    }
}

fn is_long(text: &Text) -> bool
    ensures { result ≡ nat_le (2 ^ 32) (length text.now) }
{
    text.as_slice().len() >= 0x1_0000_0000
}

/// The text of an image, or TooLarge where it would have 2^32 bytes or more.
fn burnt(alloc: Global, form: BurnForm, image: Image) -> Result<Text, Fault>
    requires { AreInSpace image.loads }
    ensures exact { Gives result (burns.burnt form image) }
    ensures short { IfOk result (λ text. length text < 2 ^ 32) }
{
    let burn = burn_in(alloc, image)?;
    let text = text_of(alloc, form, &burn)?;
    if is_long(&text) {
        return Err(Fault::too_large(Quantity::FileBytes, 0xFFFF_FFFF));
    }
    Ok(text)
}

/// Writes what the load files of a map load, and where it is started, as a text of records. The map is read first, then its load
/// files in their order, and then their lengths are judged, as `read_image` has it; TooLarge tells of a text that would have
/// 2^32 bytes or more.
pub fn burn<S: Store>(
    alloc: Global,
    store: &mut S,
    form: BurnForm,
    map: Text,
    output: Text,
) -> Answer
    ensures { BurnAnswersOver form map output (S.files store.old) (S.files store.new) (S.read_faults store.old) (S.read_faults store.new)
        (S.write_faults store.old) (S.write_faults store.new) result }
{
    map_law();
    let image = match read_image(alloc, store, &RunImage::Map { file: map }) {
        Ok(image) => image,
        Err(end) => return image_answer(end),
    };
    match burnt(alloc, form, image) {
        Ok(text) => write(alloc, store, output, text.as_slice()),
        Err(fault) => image_answer(fault_end(fault)),
    }
}
