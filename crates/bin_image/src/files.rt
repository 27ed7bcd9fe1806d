//! The files of a linked image.

ghost use Rattle.std.specs.Prelude.{◌≡◌, ◌<◌, ◌%◌, ◌^◌, ◌++◌, IfOk, length, map, codes};
ghost use Rattle.std.specs.List.{AllByRecursion, flat_map};
ghost use Rattle.bin_image.specs.Files.{binary_file, load_file, load_files, load_name};
ghost use Rattle.bin_image.specs.Files.{map_file, map_load, map_of, map_region, IsMapped};

use crate::records::{MapFile, MapLoad, MapRegion, OutFile};
use crate::writing::write_map;
use link_model::{Image, LoadRegion, Region};
use sdt_fault::{Bytes, List, NoMemory, Text};
use std::alloc::Global;

fn joined(alloc: Global, first: &Text, rest: &[u8]) -> Result<Text, NoMemory>
    ensures { IfOk result (λ name. name ≡ first.now ++ rest.now) }
{
    let mut out = Vec::from_slice(alloc, first.as_slice())?;
    out.extend_from_slice(rest)?;
    Ok(Text::from_vec(out))
}

fn load_name(alloc: Global, out: &Text, name: &Text) -> Result<Text, NoMemory>
    ensures { IfOk result (λ n. n ≡ load_name out.now name.now) }
{
    let dotted = joined(alloc, out, b".")?;
    joined(alloc, &dotted, name.as_slice())
}

// ---- the map

fn map_load(alloc: Global, out: &Text, load: &LoadRegion) -> Result<MapLoad, NoMemory>
    requires { length load.now.bytes < 2 ^ 32 }
    ensures { IfOk result (λ l. l ≡ map_load out.now load.now) }
{
    Ok(MapLoad {
        name: load.name.try_clone(alloc)?,
        base: load.base,
        size: load.bytes.as_slice().len() as u32,
        file: load_name(alloc, out, &load.name)?,
    })
}

fn map_loads(alloc: Global, out: &Text, loads: &[LoadRegion]) -> Result<Vec<MapLoad>, NoMemory>
    requires { AllByRecursion (λ l. length l.bytes < 2 ^ 32) loads.now }
    ensures { IfOk result (λ ls. ls.items ≡ map (map_load out.now) loads.now) }
{
    let mut mapped = Vec::new(alloc);
    for load in loads {
        mapped.push(map_load(alloc, out, load)?)?;
    }
    Ok(mapped)
}

/// An address of 32 bits; 0 for 2^32.
fn wrapped(address: u64) -> u32
    ensures { result ≡ address % 2 ^ 32 }
{
    (address % (1 << 32)) as u32
}

fn map_region(alloc: Global, region: &Region) -> Result<MapRegion, NoMemory>
    requires { IsMapped region.now }
    ensures { IfOk result (λ r. r ≡ map_region region.now) }
{
    Ok(MapRegion {
        name: region.name.try_clone(alloc)?,
        load: wrapped(region.load),
        base: wrapped(region.base),
        length: region.length as u32,
        zero: region.zero as u32,
    })
}

fn map_regions(alloc: Global, regions: &[Region]) -> Result<Vec<MapRegion>, NoMemory>
    requires { AllByRecursion IsMapped regions.now }
    ensures { IfOk result (λ rs. rs.items ≡ map map_region regions.now) }
{
    let mut mapped = Vec::new(alloc);
    for region in regions {
        mapped.push(map_region(alloc, region)?)?;
    }
    Ok(mapped)
}

fn map_of(alloc: Global, image: &Image, out: &Text) -> Result<MapFile, NoMemory>
    requires loads { AllByRecursion (λ l. length l.bytes < 2 ^ 32) image.now.loads }
    requires regions { AllByRecursion IsMapped image.now.regions }
    ensures { IfOk result (λ m. m ≡ map_of image.now out.now) }
{
    Ok(MapFile {
        loads: List::from_vec(map_loads(alloc, out, image.loads.as_slice())?),
        regions: List::from_vec(map_regions(alloc, image.regions.as_slice())?),
        start: image.start,
        entry: image.entry,
        thumb: image.thumb,
        bound: image.bound,
    })
}

fn map_file(alloc: Global, image: &Image, out: &Text) -> Result<OutFile, NoMemory>
    requires loads { AllByRecursion (λ l. length l.bytes < 2 ^ 32) image.now.loads }
    requires regions { AllByRecursion IsMapped image.now.regions }
    ensures { IfOk result (λ f. f ≡ map_file image.now out.now) }
{
    let m = map_of(alloc, image, out)?;
    Ok(OutFile {
        name: joined(alloc, out, b".map")?,
        bytes: write_map(alloc, &m)?,
    })
}

// ---- a file for each load region

fn load_file(alloc: Global, out: &Text, load: &LoadRegion) -> Result<OutFile, NoMemory>
    ensures { IfOk result (λ f. f ≡ load_file out.now load.now) }
{
    Ok(OutFile {
        name: load_name(alloc, out, &load.name)?,
        bytes: load.bytes.try_clone(alloc)?,
    })
}

fn region_files(alloc: Global, out: &Text, loads: &[LoadRegion]) -> Result<Vec<OutFile>, NoMemory>
    ensures { IfOk result (λ fs. fs.items ≡ map (load_file out.now) loads.now) }
{
    let mut files = Vec::new(alloc);
    for load in loads {
        files.push(load_file(alloc, out, load)?)?;
    }
    Ok(files)
}

/// The files of a scatter image in the order in which they are written: one for each load region, whose name is `out`, a
/// dot and the region's name, and then the map, `out` and `.map`.
pub fn load_files(alloc: Global, image: &Image, out: &Text) -> Result<List<OutFile>, NoMemory>
    requires loads { AllByRecursion (λ l. length l.bytes < 2 ^ 32) image.now.loads }
    requires regions { AllByRecursion IsMapped image.now.regions }
    ensures exact { IfOk result (λ files. files ≡ load_files image.now out.now) }
{
    let mut files = region_files(alloc, out, image.loads.as_slice())?;
    files.push(map_file(alloc, image, out)?)?;
    Ok(List::from_vec(files))
}

// ---- the bytes alone

fn loaded_bytes(alloc: Global, loads: &[LoadRegion]) -> Result<Vec<u8>, NoMemory>
    ensures { IfOk result (λ bytes. bytes.items ≡ flat_map (λ l. l.bytes) loads.now) }
{
    let mut bytes = Vec::new(alloc);
    for load in loads {
        bytes.extend_from_slice(load.bytes.as_slice())?;
    }
    Ok(bytes)
}

/// The file of the bytes alone: those of the load regions, one behind the other.
pub fn make_binary(alloc: Global, image: &Image) -> Result<Bytes, NoMemory>
    ensures exact { IfOk result (λ bytes. bytes ≡ binary_file image.now) }
{
    let bytes = loaded_bytes(alloc, image.loads.as_slice())?;
    Ok(Bytes::from_vec(bytes))
}
