//! The image of inputs with the sections and symbols of its link, and the ELF file with them.

ghost use Rattle.std.specs.Prelude.{◌≡◌, ◌+◌, ◌-◌, ◌<◌, ◌^◌, All, IfOk, List as Items, ℕ, length, min, nat_le, true};
ghost use Rattle.std.specs.List.{AllByRecursion};
ghost use Rattle.alf_archive.specs.Grammar.{IsValid as IsValidArchive};
ghost use Rattle.aof_object.specs.Validity.{IsValid};
ghost use Rattle.chunk_file.specs.Reading.{Gives};
ghost use Rattle.elf_image.specs.Tables as tables;
ghost use Rattle.tool_words.specs.declared.command.Container.TheVariants as written;
ghost use Rattle.tool_words.specs.declared.command.LinkPlacement.TheVariants as placement;
ghost use Rattle.tool_words.specs.Commands.{AreBanks};
ghost use Rattle.sdt_toolkit.specs.Inputs.{AreValid, Tells, archives_among, objects_among};
ghost use Rattle.sdt_toolkit.specs.Links as links;
ghost use Rattle.sdt_toolkit.specs.Links.{HasNamedImage, filed};

use crate::images::{Parts, elf_size, one_file, parts_of};
use crate::laws::images_start;
use crate::sound::{archives_fit, objects_fit};
use armlink_core::{NamedImage, link_named_scatter};
use bin_image::OutFile;
use elf_image::{ElfSymbol, Section, Tables, write_named_elf};
use link_model::{LoadRegion, Named};
use sdt_fault::answer::Fault;
use sdt_fault::kinds::Quantity;
use sdt_fault::{List, Text};
use std::alloc::Global;
use tool_library::Linkable;
use tool_run::ranges;
use tool_words::Bank;

// ---- the image

fn scatter_image(
    alloc: Global,
    parts: Parts,
    text: &[u8],
    ram: &Option<List<Bank>>,
) -> Result<NamedImage, Fault>
    requires objects { AllByRecursion (λ o. IsValid o.value) parts.objects.items }
    requires archives { AllByRecursion (λ a. IsValidArchive a.value) parts.archives.items }
    requires banks { AreBanks ram.now }
    ensures value { Tells result (links.IsNamedScatter parts.objects.items parts.archives.items text.now ram.now) }
    ensures few { IfOk result (λ n. length n.tables.sections < 0xFEFC) }
{
    match ram {
        None => link_named_scatter(alloc, parts.objects, parts.archives, text, None),
        Some(banks) => {
            let Ok(ranges) = ranges(alloc, banks.as_slice()) else {
                drop(parts);
                return Err(Fault::NoMemory);
            };
            let ram = Some(ranges.as_slice());
            let image = link_named_scatter(alloc, parts.objects, parts.archives, text, ram);
            drop(ranges);
            image
        }
    }
}

/// The image of inputs by a scatter file's text, and the tables of its link.
pub fn named_image_of(
    alloc: Global,
    text: &[u8],
    ram: &Option<List<Bank>>,
    inputs: Vec<Named<Linkable>>,
) -> Result<NamedImage, Fault>
    requires banks { AreBanks ram.now }
    requires inputs { AreValid inputs.items }
    ensures value { (file : Items ℕ) → Tells result (HasNamedImage (placement.Scatter file) text.now ram.now inputs.items) }
    ensures few { IfOk result (λ n. length n.tables.sections < 0xFEFC) }
{
    let parts = parts_of(alloc, inputs)?;
    images_start();
    objects_fit(parts.objects.as_slice());
    archives_fit(parts.archives.as_slice());
    scatter_image(alloc, parts, text, ram)
}

// ---- its file

/// The size in bytes of the symbols' strings; 2^64 - 1, where they would have more.
fn strings_size(symbols: &[ElfSymbol]) -> u64
    ensures { result ≡ min (length (tables.strings_of symbols.now)) (2 ^ 64 - 1) }
{
    let mut size: u64 = 1;
    for symbol in symbols {
        size = size.saturating_add(symbol.name.as_slice().len() as u64 + 1);
    }
    size
}

/// The size in bytes of the sections' strings; 2^64 - 1, where they would have more.
fn names_size(sections: &[Section]) -> u64
    ensures { result ≡ min (length (tables.names_of sections.now)) (2 ^ 64 - 1) }
{
    let mut size: u64 = 27;
    for section in sections {
        size = size.saturating_add(section.name.as_slice().len() as u64 + 1);
    }
    size
}

/// Whether the ELF file of load regions and tables would have 2^32 bytes or more.
fn is_long_named(loads: &[LoadRegion], names: &Tables) -> bool
    requires { length loads.now < 2 ^ 16 }
    ensures { result ≡ nat_le (2 ^ 32) (tables.named_size loads.now names.now) }
{
    let loaded = u128::from(elf_size(loads));
    let sections = names.sections.as_slice().len() as u128;
    let symbols = names.symbols.as_slice().len() as u128;
    let strings = u128::from(strings_size(names.symbols.as_slice()));
    let section_names = u128::from(names_size(names.sections.as_slice()));
    let headers = 40 * (sections + 4) + 16 * (symbols + 1);
    (loaded + 3) / 4 * 4 + headers + strings + section_names >= 0x1_0000_0000
}

/// The ELF file with sections and symbols, which is made only where it is short enough.
pub fn named_file(alloc: Global, named: &NamedImage, out: &Text) -> Result<List<OutFile>, Fault>
    requires counted { length named.now.image.loads < 2 ^ 16 }
    requires few { length named.now.tables.sections < 0xFEFC }
    ensures value { Gives result (filed (written.Elf true) out.now named.now.tables named.now.image) }
    ensures short { IfOk result (λ files. All (λ f. length f.bytes < 2 ^ 32) files) }
{
    if is_long_named(named.image.loads.as_slice(), &named.tables) {
        return Err(Fault::too_large(Quantity::FileBytes, 0xFFFF_FFFF));
    }
    let bytes = write_named_elf(alloc, &named.image, &named.tables)?;
    one_file(alloc, out, bytes)
}
