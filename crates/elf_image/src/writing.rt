//! Writing: the file of a linked image.

ghost use Rattle.std.specs.Prelude.{◌≡◌, ◌<◌, ◌≤◌, ◌+◌, ◌^◌, ◌++◌, IfOk, OnOk, length};
ghost use Rattle.boot_code.specs.Maps.{bytes_of_words};
ghost use Rattle.elf_image.specs.Files as files;

use link_model::{Image, LoadRegion};
use sdt_fault::{Bytes, NoMemory};
use sdt_word::push_word;
use std::alloc::Global;

pub fn push_words(out: &mut Vec<u8>, words: &[u32]) -> Result<(), NoMemory>
    ensures { OnOk result (out.new.items ≡ out.old.items ++ bytes_of_words words.now) }
{
    for word in words {
        push_word(out, *word)?;
    }
    Ok(())
}

fn header_words(entry: u32, count: u16) -> [u32; 13]
    ensures { result ≡ files.header_words entry count }
{
    [
        0x464C_457F,
        0x0001_0101,
        0,
        0,
        0x0028_0002,
        1,
        entry,
        52,
        0,
        0,
        0x0020_0034,
        u32::from(count),
        0,
    ]
}

fn load_words(offset: u32, load: &LoadRegion) -> [u32; 8]
    requires { length load.now.bytes < 2 ^ 32 }
    ensures { result ≡ files.load_words offset load.now }
{
    let size = load.bytes.as_slice().len() as u32;
    [1, offset, load.base, load.base, size, size, 7, 4]
}

pub fn push_headers(out: &mut Vec<u8>, first: u64, loads: &[LoadRegion]) -> Result<(), NoMemory>
    requires { first + length (files.loads_bytes loads.now) < 2 ^ 32 }
    ensures { OnOk result (out.new.items ≡ out.old.items ++ files.headers_bytes first loads.now) }
{
    let mut offset = first;
    for load in loads {
        push_words(out, &load_words(offset as u32, load))?;
        offset += load.bytes.as_slice().len() as u64;
    }
    Ok(())
}

pub fn push_bytes(out: &mut Vec<u8>, loads: &[LoadRegion]) -> Result<(), NoMemory>
    ensures { OnOk result (out.new.items ≡ out.old.items ++ files.loads_bytes loads.now) }
{
    for load in loads {
        out.extend_from_slice(load.bytes.as_slice())?;
    }
    Ok(())
}

fn push_file(out: &mut Vec<u8>, start: u32, loads: &[LoadRegion]) -> Result<(), NoMemory>
    requires counted { length loads.now < 2 ^ 16 }
    requires sized { files.file_size loads.now < 2 ^ 32 }
    ensures { OnOk result (out.new.items ≡ out.old.items ++ files.file_of start loads.now) }
{
    push_words(out, &header_words(start, loads.len() as u16))?;
    push_headers(out, 52 + 32 * loads.len() as u64, loads)?;
    push_bytes(out, loads)
}

/// The ELF executable of a linked image: a header, a program header for each load region, and their bytes in order.
/// A loader puts each where the region is, and enters the image at its start. Of an image that can be moved the list of
/// its moves is left out.
pub fn write_elf(alloc: Global, image: &Image) -> Result<Bytes, NoMemory>
    requires counted { length image.now.loads < 2 ^ 16 }
    requires sized { files.file_size image.now.loads < 2 ^ 32 }
    ensures exact { IfOk result (λ bytes. bytes ≡ files.elf_file image.now) }
{
    let mut out = Vec::new(alloc);
    push_file(&mut out, image.start, image.loads.as_slice())?;
    Ok(Bytes::from_vec(out))
}
