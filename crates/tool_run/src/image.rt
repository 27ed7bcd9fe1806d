//! The image that the words of a run name, from files.

ghost use Rattle.std.specs.Prelude.{◌≡◌, ◌≤◌, ◌<◌, ◌^◌, IfOk, length};
ghost use Rattle.sdt_outside.specs.Counts.{Rose};
ghost use Rattle.bin_image.specs.Maps.{ReadsMap};
ghost use Rattle.run_opening.specs.Openings.{AreNeeded};
ghost use Rattle.tool_answers.specs.Inputs.{IsReached};
ghost use Rattle.tool_words.specs.declared.command.RunImage.TheVariants as image;
ghost use Rattle.tool_run.specs.Images as images;
ghost use Rattle.tool_run.specs.Images.{IsGiven, IsInput, IsRead};
ghost use Rattle.tool_run.specs.Ends.{Reads};

use crate::aifs::aif_at;
use crate::burned::burned_image;
use crate::elfs::elf_image;
use crate::ends::{ImageEnd, fault_end, input_end, missing};
use crate::maps::{files_in, front_of, loaded_image, map_named, unnamed};
use bin_image::MapFile;
use run_opening::{Image, Load, Need};
use sdt_fault::{Bytes, List, NoMemory, Text};
use sdt_outside::Store;
use std::alloc::Global;
use tool_answers::{read_input, read_inputs};
use tool_words::RunImage;

fn binary_image(alloc: Global, at: u32, bytes: Bytes) -> Result<Image, NoMemory>
    ensures exact { IfOk result (λ image. image ≡ images.binary_image at bytes) }
    ensures needed { IfOk result (λ image. AreNeeded image) }
{
    let mut needs = Vec::new(alloc);
    needs.push(Need {
        base: at,
        size: bytes.as_slice().len() as u64,
    })?;
    let mut loads = Vec::new(alloc);
    loads.push(Load { base: at, bytes })?;
    Ok(Image {
        loads: List::from_vec(loads),
        needs: List::from_vec(needs),
        start: at,
        thumb: false,
    })
}

fn read_binary<S: Store>(
    alloc: Global,
    store: &mut S,
    file: &Text,
    at: u32,
) -> Result<Image, ImageEnd>
    ensures read { let told = S.files store.old in let rose = Rose (S.read_faults store.old) (S.read_faults store.new) in
        Reads (IsRead told rose (image.Binary file.now at)) rose (IsInput told (image.Binary file.now at)) result }
    ensures needed { IfOk result (λ image. AreNeeded image) }
    ensures files { S.files store.new ≡ S.files store.old }
    ensures read_faults { S.read_faults store.old ≤ S.read_faults store.new }
    ensures write_faults { S.write_faults store.new ≡ S.write_faults store.old }
{
    let bytes = match read_input(alloc, store, file) {
        Ok(bytes) => bytes,
        Err(end) => return Err(input_end(end)),
    };
    match binary_image(alloc, at, bytes) {
        Ok(image) => Ok(image),
        Err(NoMemory) => Err(ImageEnd::NoMemory),
    }
}

fn read_aif_file<S: Store>(
    alloc: Global,
    store: &mut S,
    file: &Text,
    at: Option<u32>,
) -> Result<Image, ImageEnd>
    ensures read { let told = S.files store.old in let rose = Rose (S.read_faults store.old) (S.read_faults store.new) in
        Reads (IsRead told rose (image.Aif file.now at)) rose (IsInput told (image.Aif file.now at)) result }
    ensures needed { IfOk result (λ image. AreNeeded image) }
    ensures files { S.files store.new ≡ S.files store.old }
    ensures read_faults { S.read_faults store.old ≤ S.read_faults store.new }
    ensures write_faults { S.write_faults store.new ≡ S.write_faults store.old }
{
    let bytes = match read_input(alloc, store, file) {
        Ok(bytes) => bytes,
        Err(end) => return Err(input_end(end)),
    };
    match aif_at(alloc, file, at, bytes) {
        Ok(image) => Ok(image),
        Err(fault) => Err(fault_end(fault)),
    }
}

fn read_elf_file<S: Store>(alloc: Global, store: &mut S, file: &Text) -> Result<Image, ImageEnd>
    ensures read { let told = S.files store.old in let rose = Rose (S.read_faults store.old) (S.read_faults store.new) in
        Reads (IsRead told rose (image.Elf file.now)) rose (IsInput told (image.Elf file.now)) result }
    ensures needed { IfOk result (λ image. AreNeeded image) }
    ensures files { S.files store.new ≡ S.files store.old }
    ensures read_faults { S.read_faults store.old ≤ S.read_faults store.new }
    ensures write_faults { S.write_faults store.new ≡ S.write_faults store.old }
{
    let bytes = match read_input(alloc, store, file) {
        Ok(bytes) => bytes,
        Err(end) => return Err(input_end(end)),
    };
    match elf_image(alloc, file, bytes.as_slice()) {
        Ok(image) => Ok(image),
        Err(fault) => Err(fault_end(fault)),
    }
}

fn read_burned_file<S: Store>(alloc: Global, store: &mut S, file: &Text) -> Result<Image, ImageEnd>
    ensures read { let told = S.files store.old in let rose = Rose (S.read_faults store.old) (S.read_faults store.new) in
        Reads (IsRead told rose (image.Burned file.now)) rose (IsInput told (image.Burned file.now)) result }
    ensures needed { IfOk result (λ image. AreNeeded image) }
    ensures files { S.files store.new ≡ S.files store.old }
    ensures read_faults { S.read_faults store.old ≤ S.read_faults store.new }
    ensures write_faults { S.write_faults store.new ≡ S.write_faults store.old }
{
    let text = match read_input(alloc, store, file) {
        Ok(text) => text,
        Err(end) => return Err(input_end(end)),
    };
    match burned_image(alloc, file, text.as_slice()) {
        Ok(image) => Ok(image),
        Err(fault) => Err(fault_end(fault)),
    }
}

fn read_loads<S: Store>(alloc: Global, store: &mut S, m: &MapFile) -> Result<Image, ImageEnd>
    ensures read { let told = S.files store.old in let rose = Rose (S.read_faults store.old) (S.read_faults store.new) in
        Reads (IsGiven (images.mapped_image m.now) (images.SomeLoads m.now) told rose (IsReached told (images.files_in m.now)))
        rose (IsReached told (images.files_in m.now)) result }
    ensures needed { IfOk result (λ image. AreNeeded image) }
    ensures files { S.files store.new ≡ S.files store.old }
    ensures read_faults { S.read_faults store.old ≤ S.read_faults store.new }
    ensures write_faults { S.write_faults store.new ≡ S.write_faults store.old }
{
    let Ok(names) = files_in(alloc, m.loads.as_slice()) else {
        return Err(ImageEnd::NoMemory);
    };
    let place = unnamed(names.as_slice());
    let contents = match read_inputs(alloc, store, front_of(names.as_slice(), place)) {
        Ok(contents) => contents,
        Err(end) => return Err(input_end(end)),
    };
    if let Some(k) = place {
        return Err(missing(alloc, &names[k]));
    }
    match loaded_image(alloc, m, contents) {
        Ok(image) => Ok(image),
        Err(fault) => Err(fault_end(fault)),
    }
}

fn read_mapped<S: Store>(alloc: Global, store: &mut S, file: &Text) -> Result<Image, ImageEnd>
    ensures read { let told = S.files store.old in let rose = Rose (S.read_faults store.old) (S.read_faults store.new) in
        Reads (IsRead told rose (image.Map file.now)) rose (IsInput told (image.Map file.now)) result }
    ensures needed { IfOk result (λ image. AreNeeded image) }
    ensures files { S.files store.new ≡ S.files store.old }
    ensures read_faults { S.read_faults store.old ≤ S.read_faults store.new }
    ensures write_faults { S.write_faults store.new ≡ S.write_faults store.old }
{
    let text = match read_input(alloc, store, file) {
        Ok(text) => text,
        Err(end) => return Err(input_end(end)),
    };
    match map_named(alloc, file, text.as_slice()) {
        Ok(m) => read_loads(alloc, store, &m),
        Err(fault) => Err(fault_end(fault)),
    }
}

/// The image that the words of a run name. Of an ARM image file the header is judged, and then where it may stand; an
/// ELF executable is judged whole, and a text of records line by line. A map is read first, then its load files in their
/// order, and then their lengths are judged. A load file whose name has a zero byte is missing.
pub fn read_image<S: Store>(
    alloc: Global,
    store: &mut S,
    words: &RunImage,
) -> Result<Image, ImageEnd>
    ensures read { let told = S.files store.old in let rose = Rose (S.read_faults store.old) (S.read_faults store.new) in
        Reads (IsRead told rose words.now) rose (IsInput told words.now) result }
    ensures needed { IfOk result (λ image. AreNeeded image) }
    ensures files { S.files store.new ≡ S.files store.old }
    ensures read_faults { S.read_faults store.old ≤ S.read_faults store.new }
    ensures write_faults { S.write_faults store.new ≡ S.write_faults store.old }
{
    match words {
        RunImage::Aif { file, at } => read_aif_file(alloc, store, file, *at),
        RunImage::Binary { file, at } => read_binary(alloc, store, file, *at),
        RunImage::Elf { file } => read_elf_file(alloc, store, file),
        RunImage::Burned { file } => read_burned_file(alloc, store, file),
        RunImage::Map { file } => read_mapped(alloc, store, file),
    }
}
