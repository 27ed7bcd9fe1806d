//! Maps, and the images that their load files make.

ghost use Rattle.std.specs.Prelude.{◌≡◌, ◌<◌, ◌^◌, ◌++◌, All, IfOk, IfSome, OnOk, List as Items, length, map};
ghost use Rattle.chunk_file.specs.Reading.{Gives};
ghost use Rattle.bin_image.specs.Maps.{ReadsMap};
ghost use Rattle.bin_image.specs.Reading.{map_of};
ghost use Rattle.run_opening.specs.Openings.{AreNeeded};
ghost use Rattle.tool_run.specs.Ends.{named_by};
ghost use Rattle.tool_run.specs.Images as images;

use crate::ends::named_fault;
use bin_image::{MapFile, MapLoad, MapRegion, read_map};
use run_opening::{Image, Load, Need};
use sdt_fault::answer::Fault;
use sdt_fault::kinds::FileKind;
use sdt_fault::refusal::Refusal;
use sdt_fault::{Bytes, List, NoMemory, Text};
use std::alloc::Global;

/// The map that a file spells, or its refusal with the file's name.
pub fn map_named(alloc: Global, name: &Text, bytes: &[u8]) -> Result<MapFile, Fault>
    requires { length bytes.now < 2 ^ 32 }
    ensures exact { Gives result (named_by name.now (map_of bytes.now)) }
    ensures found { IfOk result (λ m. ReadsMap bytes.now m) }
{
    match read_map(alloc, bytes) {
        Ok(m) => Ok(m),
        Err(fault) => Err(named_fault(alloc, name, fault)),
    }
}

/// The names of the load files.
pub fn files_in(alloc: Global, lines: &[MapLoad]) -> Result<Vec<Text>, NoMemory>
    ensures { IfOk result (λ names. names.items ≡ map (λ l. l.file) lines.now) }
{
    let mut names = Vec::new(alloc);
    for line in lines {
        names.push(line.file.try_clone(alloc)?)?;
    }
    Ok(names)
}

/// Whether a name has a zero byte, so that it is the name of no file.
fn has_zero(name: &Text) -> bool
    ensures { result ≡ images.has_zero name.now }
{
    name.as_slice().iter().any(|byte| *byte == 0)
}

/// The place of the first name that is the name of no file.
pub fn unnamed(names: &[Text]) -> Option<usize>
    ensures place { result ≡ images.unnamed names.now }
    ensures within { IfSome result (λ k. k < length names.now) }
{
    names.iter().position(|name| has_zero(name))
}

/// The names before a place, or all where there is none.
pub fn front_of(names: &[Text], place: Option<usize>) -> &[Text]
    requires { IfSome place (λ k. k < length names.now) }
    ensures { result.now ≡ images.front_of names.now place }
{
    match place {
        Some(k) => &names[..k],
        None => names,
    }
}

fn judge_length(alloc: Global, line: &MapLoad, bytes: &[u8]) -> Result<(), Fault>
    requires { length bytes.now < 2 ^ 32 }
    ensures { Gives result (images.length_judged line.now bytes.now) }
{
    if bytes.len() as u64 == u64::from(line.size) {
        return Ok(());
    }
    let file = line.file.try_clone(alloc)?;
    Err(Fault::Refused(Refusal::BadImage {
        file,
        offset: bytes.len() as u32,
        kind: FileKind::Length,
    }))
}

fn judge_lengths(alloc: Global, lines: &[MapLoad], contents: &[Bytes]) -> Result<(), Fault>
    requires few { length contents.now ≡ length lines.now }
    requires bounded { All (λ bytes. length bytes < 2 ^ 32) contents.now }
    ensures { Gives result (images.lengths_judged lines.now contents.now) }
{
    for k in 0..lines.len() {
        match judge_length(alloc, &lines[k], contents[k].as_slice()) {
            Ok(()) => {}
            Err(fault) => return Err(fault),
        }
    }
    Ok(())
}

fn loads_of(alloc: Global, lines: &[MapLoad], contents: Vec<Bytes>) -> Result<Vec<Load>, NoMemory>
    ensures { IfOk result (λ loads. loads.items ≡ images.loads_of lines.now contents.items) }
{
    let mut loads = Vec::new(alloc);
    for (line, bytes) in lines.iter().zip(contents) {
        loads.push(Load {
            base: line.base,
            bytes,
        })?;
    }
    Ok(loads)
}

fn push_load_needs(needs: &mut Vec<Need>, lines: &[MapLoad]) -> Result<(), NoMemory>
    ensures { OnOk result (needs.new.items ≡ needs.old.items ++ map images.load_need lines.now) }
{
    for line in lines {
        needs.push(Need {
            base: line.base,
            size: u64::from(line.size),
        })?;
    }
    Ok(())
}

fn push_region_needs(needs: &mut Vec<Need>, lines: &[MapRegion]) -> Result<(), NoMemory>
    ensures { OnOk result (needs.new.items ≡ needs.old.items ++ map images.region_need lines.now) }
{
    for line in lines {
        needs.push(Need {
            base: line.base,
            size: u64::from(line.length) + u64::from(line.zero),
        })?;
    }
    Ok(())
}

fn map_image(alloc: Global, m: &MapFile, contents: Vec<Bytes>) -> Result<Image, NoMemory>
    ensures { IfOk result (λ image. image ≡ images.map_image m.now contents.items) }
{
    let loads = loads_of(alloc, m.loads.as_slice(), contents)?;
    let mut needs = Vec::new(alloc);
    push_load_needs(&mut needs, m.loads.as_slice())?;
    push_region_needs(&mut needs, m.regions.as_slice())?;
    Ok(Image {
        loads: List::from_vec(loads),
        needs: List::from_vec(needs),
        start: m.start,
        thumb: false,
    })
}

/// The image that a map's files make, once all are read.
pub fn loaded_image(alloc: Global, m: &MapFile, contents: Vec<Bytes>) -> Result<Image, Fault>
    requires few { length contents.items ≡ length m.now.loads }
    requires bounded { All (λ bytes. length bytes < 2 ^ 32) contents.items }
    ensures exact { Gives result (images.loaded_image m.now contents.items) }
    ensures needed { IfOk result (λ image. AreNeeded image) }
{
    match judge_lengths(alloc, m.loads.as_slice(), contents.as_slice()) {
        Ok(()) => Ok(map_image(alloc, m, contents)?),
        Err(fault) => Err(fault),
    }
}
