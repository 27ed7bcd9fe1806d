//! The image of inputs, and its files.

ghost use Rattle.std.specs.Prelude.{◌≡◌, ◌%◌, ◌+◌, ◌-◌, ◌<◌, ◌≤◌, ◌^◌, All, IfOk, false, length, min, nat_le};
ghost use Rattle.std.specs.List.{AllByRecursion, list_any};
ghost use Rattle.alf_archive.specs.Grammar.{IsValid as IsValidArchive};
ghost use Rattle.aof_object.specs.Validity.{IsValid};
ghost use Rattle.elf_image.specs.Files.{file_size};
ghost use Rattle.armlink_core.specs.Tables.{no_tables};
ghost use Rattle.sdt_fault.specs.declared.answer.Fault.TheVariants as fault;
ghost use Rattle.tool_words.specs.declared.command.Container.TheVariants as written;
ghost use Rattle.tool_words.specs.Commands.{IsBased, AreBanks};
ghost use Rattle.sdt_toolkit.specs.Inputs.{AreValid, Tells, archives_among, objects_among};
ghost use Rattle.sdt_toolkit.specs.Links as links;
ghost use Rattle.sdt_toolkit.specs.Links.{HasImage, filed, is_long, unless_long};

use crate::gathering::list_of_one;
use crate::laws::images_start;
use crate::sound::{archives_fit, objects_fit};
use aif_image::make_aif;
use alf_archive::Archive;
use aof_object::Object;
use armlink_core::{link_aif, link_plain, link_scatter};
use bin_image::{OutFile, load_files, make_binary};
use elf_image::write_elf;
use link_model::{Image, LoadRegion, Named};
use sdt_fault::answer::Fault;
use sdt_fault::kinds::Quantity;
use sdt_fault::{Bytes, List, NoMemory, Text};
use std::alloc::Global;
use tool_library::Linkable;
use tool_run::ranges;
use tool_words::{Bank, Container, LinkPlacement};

// ---- the image

/// The objects and the libraries among inputs, in their order.
#[derive(Drop)]
pub struct Parts {
    pub objects: Vec<Named<Object>>,
    pub archives: Vec<Named<Archive>>,
}

pub fn parts_of(alloc: Global, inputs: Vec<Named<Linkable>>) -> Result<Parts, NoMemory>
    ensures objects { IfOk result (λ parts. parts.objects.items ≡ objects_among inputs.items) }
    ensures archives { IfOk result (λ parts. parts.archives.items ≡ archives_among inputs.items) }
{
    let mut objects = Vec::new(alloc);
    let mut archives = Vec::new(alloc);
    for input in inputs {
        let Named {
            name,
            module,
            value,
        } = input;
        match value {
            Linkable::Object(value) => objects.push(Named {
                name,
                module,
                value,
            })?,
            Linkable::Library(value) => archives.push(Named {
                name,
                module,
                value,
            })?,
        }
    }
    Ok(Parts { objects, archives })
}

fn scatter_image(
    alloc: Global,
    parts: Parts,
    text: &[u8],
    ram: &Option<List<Bank>>,
) -> Result<Image, Fault>
    requires objects { AllByRecursion (λ o. IsValid o.value) parts.objects.items }
    requires archives { AllByRecursion (λ a. IsValidArchive a.value) parts.archives.items }
    requires banks { AreBanks ram.now }
    ensures { Tells result (links.IsScatterImage parts.objects.items parts.archives.items text.now ram.now) }
{
    match ram {
        None => link_scatter(alloc, parts.objects, parts.archives, text, None),
        Some(banks) => {
            let Ok(ranges) = ranges(alloc, banks.as_slice()) else {
                drop(parts);
                return Err(Fault::NoMemory);
            };
            let ram = Some(ranges.as_slice());
            let image = link_scatter(alloc, parts.objects, parts.archives, text, ram);
            drop(ranges);
            image
        }
    }
}

fn aif_image(
    alloc: Global,
    parts: Parts,
    base: u32,
    relocatable: bool,
    ram: &Option<List<Bank>>,
) -> Result<Image, Fault>
    requires objects { AllByRecursion (λ o. IsValid o.value) parts.objects.items }
    requires archives { AllByRecursion (λ a. IsValidArchive a.value) parts.archives.items }
    requires base { base % 4 ≡ 0 }
    requires banks { AreBanks ram.now }
    ensures { Tells result (links.IsAifImage parts.objects.items parts.archives.items base relocatable ram.now) }
{
    match ram {
        None => link_aif(
            alloc,
            parts.objects,
            parts.archives,
            base,
            relocatable,
            None,
        ),
        Some(banks) => {
            let Ok(ranges) = ranges(alloc, banks.as_slice()) else {
                drop(parts);
                return Err(Fault::NoMemory);
            };
            let ram = Some(ranges.as_slice());
            let image = link_aif(alloc, parts.objects, parts.archives, base, relocatable, ram);
            drop(ranges);
            image
        }
    }
}

/// The image of inputs by a placement. `text` is the scatter file's.
pub fn image_of(
    alloc: Global,
    placement: &LinkPlacement,
    text: &[u8],
    ram: &Option<List<Bank>>,
    inputs: Vec<Named<Linkable>>,
) -> Result<Image, Fault>
    requires based { IsBased placement.now }
    requires banks { AreBanks ram.now }
    requires inputs { AreValid inputs.items }
    ensures { Tells result (HasImage placement.now text.now ram.now inputs.items) }
{
    let parts = parts_of(alloc, inputs)?;
    images_start();
    objects_fit(parts.objects.as_slice());
    archives_fit(parts.archives.as_slice());
    match placement {
        LinkPlacement::Aif { base, relocatable } => {
            aif_image(alloc, parts, *base, *relocatable, ram)
        }
        LinkPlacement::Plain { base } => link_plain(alloc, parts.objects, parts.archives, *base),
        LinkPlacement::Scatter { .. } => scatter_image(alloc, parts, text, ram),
    }
}

// ---- its files

fn has_long_load(loads: &[LoadRegion]) -> bool
    ensures { result ≡ list_any (λ l. links.is_long_load l) loads.now }
{
    loads
        .iter()
        .any(|load| load.bytes.as_slice().len() >= 0x1_0000_0000)
}

fn has_long_file(files: &[OutFile]) -> bool
    ensures { result ≡ list_any is_long files.now }
{
    files
        .iter()
        .any(|file| file.bytes.as_slice().len() >= 0x1_0000_0000)
}

/// A file for each load region, and the map.
fn region_files(alloc: Global, image: &Image, out: &Text) -> Result<List<OutFile>, Fault>
    requires { AllByRecursion (λ r. r.length + r.zero ≤ 2 ^ 26) image.now.regions }
    ensures value { Gives result (filed written.LoadFiles out.now no_tables image.now) }
    ensures short { IfOk result (λ files. All (λ f. length f.bytes < 2 ^ 32) files) }
{
    if has_long_load(image.loads.as_slice()) {
        return Err(Fault::too_large(Quantity::FileBytes, 0xFFFF_FFFF));
    }
    let files = load_files(alloc, image, out)?;
    if has_long_file(files.as_slice()) {
        drop(files);
        return Err(Fault::too_large(Quantity::FileBytes, 0xFFFF_FFFF));
    }
    Ok(files)
}

pub fn one_file(alloc: Global, out: &Text, bytes: Bytes) -> Result<List<OutFile>, Fault>
    ensures value { Gives result (unless_long (links.one_file out.now bytes)) }
    ensures short { IfOk result (λ files. All (λ f. length f.bytes < 2 ^ 32) files) }
{
    let Ok(name) = out.try_clone(alloc) else {
        drop(bytes);
        return Err(Fault::NoMemory);
    };
    let files = list_of_one(alloc, OutFile { name, bytes })?;
    if has_long_file(files.as_slice()) {
        drop(files);
        return Err(Fault::too_large(Quantity::FileBytes, 0xFFFF_FFFF));
    }
    Ok(List::from_vec(files))
}

/// The size in bytes of the ELF file of load regions; 2^64 - 1, where it would have more.
pub fn elf_size(loads: &[LoadRegion]) -> u64
    requires { length loads.now < 2 ^ 16 }
    ensures { result ≡ min (file_size loads.now) (2 ^ 64 - 1) }
{
    let mut size = 52 + 32 * loads.len() as u64;
    for load in loads {
        size = size.saturating_add(load.bytes.as_slice().len() as u64);
    }
    size
}

fn is_long_elf(loads: &[LoadRegion]) -> bool
    requires { length loads.now < 2 ^ 16 }
    ensures { result ≡ nat_le (2 ^ 32) (file_size loads.now) }
{
    elf_size(loads) >= 0x1_0000_0000
}

/// The ELF file, which is made only where it is short enough.
fn elf_file(alloc: Global, image: &Image, out: &Text) -> Result<List<OutFile>, Fault>
    requires { length image.now.loads < 2 ^ 16 }
    ensures value { Gives result (filed (written.Elf false) out.now no_tables image.now) }
    ensures short { IfOk result (λ files. All (λ f. length f.bytes < 2 ^ 32) files) }
{
    if is_long_elf(image.loads.as_slice()) {
        return Err(Fault::too_large(Quantity::FileBytes, 0xFFFF_FFFF));
    }
    let bytes = write_elf(alloc, image)?;
    one_file(alloc, out, bytes)
}

fn binary_file(alloc: Global, image: &Image, out: &Text) -> Result<List<OutFile>, Fault>
    ensures value { Gives result (filed written.Binary out.now no_tables image.now) }
    ensures short { IfOk result (λ files. All (λ f. length f.bytes < 2 ^ 32) files) }
{
    let bytes = make_binary(alloc, image)?;
    one_file(alloc, out, bytes)
}

fn image_file(alloc: Global, image: &Image, out: &Text) -> Result<List<OutFile>, Fault>
    requires { AllByRecursion (λ r. r.length + r.zero ≤ 2 ^ 26) image.now.regions }
    ensures value { Gives result (filed written.ImageFile out.now no_tables image.now) }
    ensures short { IfOk result (λ files. All (λ f. length f.bytes < 2 ^ 32) files) }
{
    let bytes = make_aif(alloc, image)?;
    one_file(alloc, out, bytes)
}

/// The files that a container has of an image without its tables, in the order in which they are written, or TooLarge, if
/// one would have 2^32 bytes or more.
pub fn files_of(
    alloc: Global,
    container: Container,
    image: &Image,
    out: &Text,
) -> Result<List<OutFile>, Fault>
    requires writable { links.IsWritable container image.now }
    requires plain { links.has_tables container ≡ false }
    ensures value { Gives result (filed container out.now no_tables image.now) }
    ensures short { IfOk result (λ files. All (λ f. length f.bytes < 2 ^ 32) files) }
{
    match container {
        Container::LoadFiles => region_files(alloc, image, out),
        Container::Elf { .. } => elf_file(alloc, image, out),
        Container::Binary => binary_file(alloc, image, out),
        Container::ImageFile => image_file(alloc, image, out),
    }
}

ghost use Rattle.chunk_file.specs.Reading.{Gives};
