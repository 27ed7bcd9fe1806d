//! The listing of a file.

ghost use Rattle.std.specs.Prelude.{◌≡◌, ◌<◌, ◌^◌, length};
ghost use Rattle.chunk_file.specs.Reading.{Gives};
ghost use Rattle.tool_library.specs.Lists as lists;

use crate::members::named_fault;
use aif_image::read_aif;
use alf_archive::{is_library, read_archive};
use aof_object::read_object;
use elf_image::read_elf;
use sdt_fault::Text;
use sdt_fault::answer::Fault;
use sdt_listing::{list_aif, list_archive, list_elf, list_object};
use sdt_word::word_at;
use std::alloc::Global;

fn object_listing(alloc: Global, name: &Text, bytes: &[u8]) -> Result<Text, Fault>
    requires { length bytes.now < 2 ^ 32 }
    ensures { Gives result (lists.object_listing name.now bytes.now) }
{
    match read_object(alloc, bytes) {
        Ok(object) => Ok(list_object(alloc, &object)?),
        Err(fault) => Err(named_fault(alloc, name, fault)),
    }
}

fn archive_listing(alloc: Global, name: &Text, bytes: &[u8]) -> Result<Text, Fault>
    requires { length bytes.now < 2 ^ 32 }
    ensures { Gives result (lists.archive_listing name.now bytes.now) }
{
    match read_archive(alloc, bytes) {
        Ok(archive) => Ok(list_archive(alloc, &archive)?),
        Err(fault) => Err(named_fault(alloc, name, fault)),
    }
}

fn aif_listing(alloc: Global, name: &Text, bytes: &[u8]) -> Result<Text, Fault>
    requires { length bytes.now < 2 ^ 32 }
    ensures { Gives result (lists.aif_listing name.now bytes.now) }
{
    match read_aif(alloc, bytes) {
        Ok(aif) => Ok(list_aif(alloc, &aif, bytes)?),
        Err(fault) => Err(named_fault(alloc, name, fault)),
    }
}

fn elf_listing(alloc: Global, name: &Text, bytes: &[u8]) -> Result<Text, Fault>
    requires { length bytes.now < 2 ^ 32 }
    ensures { Gives result (lists.elf_listing name.now bytes.now) }
{
    match read_elf(alloc, bytes) {
        Ok(elf) => Ok(list_elf(alloc, &elf)?),
        Err(fault) => Err(named_fault(alloc, name, fault)),
    }
}

fn chunk_listing(alloc: Global, name: &Text, bytes: &[u8]) -> Result<Text, Fault>
    requires { length bytes.now < 2 ^ 32 }
    ensures { Gives result (lists.chunk_listing name.now bytes.now) }
{
    if is_library(alloc, bytes)? {
        return archive_listing(alloc, name, bytes);
    }
    object_listing(alloc, name, bytes)
}

fn begins_with(word: u32, bytes: &[u8]) -> bool
    ensures { result ≡ lists.begins_with word bytes.now }
{
    bytes.len() >= 4 && word_at(bytes, 0) == word
}

/// The listing of a file's bytes, or its refusal with the file's name.
#[tactic(auto, unfolding(crate::specs::Lists::listing))]
pub fn listing(alloc: Global, name: &Text, bytes: &[u8]) -> Result<Text, Fault>
    requires { length bytes.now < 2 ^ 32 }
    ensures { Gives result (lists.listing name.now bytes.now) }
{
    if begins_with(0xC3CB_C6C5, bytes) {
        return chunk_listing(alloc, name, bytes);
    }
    if begins_with(0x464C_457F, bytes) {
        return elf_listing(alloc, name, bytes);
    }
    aif_listing(alloc, name, bytes)
}
