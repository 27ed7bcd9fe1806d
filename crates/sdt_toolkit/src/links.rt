//! The commands `link` and `build`.

ghost use Rattle.std.specs.Prelude.{◌≡◌, ◌<◌, ◌≤◌, ◌^◌, ◌++◌, ℕ, All, IfOk, List as Items, Ok, false, length, true};
ghost use Rattle.sdt_toolkit.specs.Contents.{AllAgree, AreCounted};
ghost use Rattle.sdt_toolkit.specs.Inputs.{AreValid, IsGot, Tells};
ghost use Rattle.sdt_toolkit.specs.Reads.{Told};
ghost use Rattle.sdt_toolkit.specs.Links.{InputsMake, LinkAnswersOver, LinkMakes, has_tables, inputs_in};
ghost use Rattle.tool_words.specs.Commands.{IsLinked};

use crate::contents::{LinkFiles, read_files, text_in};
use crate::images::{files_of, image_of};
use crate::inputs::inputs_of;
use crate::named::{named_file, named_image_of};
use crate::writing::write_files;
use armlink_core::laws::image_sizes;
use bin_image::OutFile;
use link_model::Named;
use scatter_text::reading_law;
use sdt_fault::List;
use sdt_fault::answer::{Answer, Fault};
use sdt_outside::Store;
use std::alloc::Global;
use tool_library::Linkable;
use tool_library::ends::{end_answer, fault_answer};
use tool_words::{Container, LinkWords};

/// The files with sections and symbols that inputs make.
fn named_files(
    alloc: Global,
    words: &LinkWords,
    text: &[u8],
    inputs: List<Named<Linkable>>,
) -> Result<List<OutFile>, Fault>
    requires good { IsLinked words.now }
    requires named { has_tables words.now.container ≡ true }
    requires inputs { AreValid inputs }
    ensures makes { Tells result (InputsMake words.now text.now (Ok inputs)) }
    ensures short { IfOk result (λ files. All (λ f. length f.bytes < 2 ^ 32) files) }
{
    image_sizes();
    reading_law();
    match named_image_of(alloc, text, &words.ram, inputs.into_vec()) {
        Ok(named) => named_file(alloc, &named, &words.output),
        Err(fault) => Err(fault),
    }
}

/// The files without these that inputs make.
fn plain_files(
    alloc: Global,
    words: &LinkWords,
    text: &[u8],
    inputs: List<Named<Linkable>>,
) -> Result<List<OutFile>, Fault>
    requires good { IsLinked words.now }
    requires plain { has_tables words.now.container ≡ false }
    requires inputs { AreValid inputs }
    ensures makes { Tells result (InputsMake words.now text.now (Ok inputs)) }
    ensures short { IfOk result (λ files. All (λ f. length f.bytes < 2 ^ 32) files) }
{
    image_sizes();
    reading_law();
    match image_of(alloc, &words.placement, text, &words.ram, inputs.into_vec()) {
        Ok(image) => files_of(alloc, words.container, &image, &words.output),
        Err(fault) => Err(fault),
    }
}

fn has_tables(container: Container) -> bool
    ensures { result ≡ has_tables container }
{
    match container {
        Container::Elf { symbols } => symbols,
        Container::LoadFiles | Container::Binary | Container::ImageFile => false,
    }
}

/// The files that inputs make.
fn files_by(
    alloc: Global,
    words: &LinkWords,
    text: &[u8],
    inputs: List<Named<Linkable>>,
) -> Result<List<OutFile>, Fault>
    requires good { IsLinked words.now }
    requires inputs { AreValid inputs }
    ensures makes { Tells result (InputsMake words.now text.now (Ok inputs)) }
    ensures short { IfOk result (λ files. All (λ f. length f.bytes < 2 ^ 32) files) }
{
    if has_tables(words.container) {
        return named_files(alloc, words, text, inputs);
    }
    plain_files(alloc, words, text, inputs)
}

/// The files that these make of which this was read, whatever contents they have that agree with that.
fn made<S: Store>(
    alloc: Global,
    store: &mut S,
    sources: bool,
    words: &LinkWords,
    read: &LinkFiles,
) -> Result<List<OutFile>, Fault>
    requires good { IsLinked words.now }
    requires counted { AreCounted words.now.placement words.now.names read.now }
    ensures makes { (inputs : Items (Items ℕ)) → AllAgree sources words.now.names read.now.contents inputs
        → Told (S.files store.old) (S.read_faults store.old) (S.read_faults store.new)
        result (λ s. LinkMakes s sources words.now (read.now.texts ++ inputs))
        (λ s. IsGot s.told sources words.now.names (inputs_in words.now.placement (read.now.texts ++ inputs))) }
    ensures short { IfOk result (λ files. All (λ f. length f.bytes < 2 ^ 32) files) }
    ensures files { S.files store.new ≡ S.files store.old }
    ensures read_faults { S.read_faults store.old ≤ S.read_faults store.new }
    ensures write_faults { S.write_faults store.new ≡ S.write_faults store.old }
{
    let text = text_in(&words.placement, read.texts.as_slice());
    match inputs_of(
        alloc,
        store,
        sources,
        words.names.as_slice(),
        read.contents.as_slice(),
    ) {
        Ok(inputs) => files_by(alloc, words, text, inputs),
        Err(fault) => Err(fault),
    }
}

/// Links objects and libraries, and sources too where these are taken, and writes the files of the image.
pub fn link_files<S: Store>(
    alloc: Global,
    store: &mut S,
    sources: bool,
    words: &LinkWords,
) -> Answer
    requires { IsLinked words.now }
    ensures { LinkAnswersOver sources words.now (S.files store.old) (S.files store.new) (S.read_faults store.old) (S.read_faults store.new)
        (S.write_faults store.old) (S.write_faults store.new) result }
{
    let read = match read_files(
        alloc,
        store,
        sources,
        &words.placement,
        words.names.as_slice(),
    ) {
        Ok(read) => read,
        Err(end) => return end_answer(end),
    };
    match made(alloc, store, sources, words, &read) {
        Ok(files) => write_files(alloc, store, files.as_slice()),
        Err(fault) => fault_answer(fault),
    }
}
