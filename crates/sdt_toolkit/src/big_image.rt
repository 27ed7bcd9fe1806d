//! What `make-big` runs: a source of any size, assembled and linked as `build` does, and ready to be loaded.

ghost use Rattle.std.specs.Prelude.{◌≡◌, ◌+◌, ◌<◌, ◌≤◌, ◌^◌, ◌++◌, [], IfErr, IfOk, Ok, OnOk, Some, length, map};
ghost use Rattle.std.specs.List.{AllByRecursion};
ghost use Rattle.aof_object.specs.Validity.{IsValid};
ghost use Rattle.armasm_core.specs.Assembling.{AssembledFrom};
ghost use Rattle.sdt_outside.specs.Files.{files_of};
ghost use Rattle.run_opening.specs.Openings.{AreNeeded};
ghost use Rattle.sdt_fault.specs.declared.answer.Fault.TheVariants as fault;
ghost use Rattle.big_faults.specs.Big.{big_object};
ghost use Rattle.big_model.specs.Sources.{big_text};
ghost use Rattle.sdt_toolkit.specs.Big.{IsBigImage, first_words};
ghost use Rattle.sdt_toolkit.specs.BigMade.{big_image, big_named};
ghost use Rattle.sdt_toolkit.specs.Inputs.{module_of};
ghost use Rattle.sdt_toolkit.specs.RunImages as images;
ghost use Rattle.sdt_toolkit.specs.Starting.{HasBytes};

use crate::big_laws::big_law;
use crate::gathering::{list_of_one, named, put};
use crate::sound::areas_fit;
use aof_object::{Area, Object};
use armasm_core::assemble;
use armlink_core::link_scatter;
use big_input::{NoFiles, big_source};
use link_model::{Image as LinkedImage, LoadRegion, Named, Region};
use run_opening::{Image, Load, Need};
use sdt_fault::answer::Fault;
use sdt_fault::{Bytes, List, NoMemory, Text};
use std::alloc::Global;

/// The scatter description that the source is linked with.
const DESCRIPTION: &[u8] = b"ROM 0x0 { CODE 0x0 { *(+RO) } RAM 0x800000 { *(+RW,+ZI) } }";

/// A source, and its object under the name of the source's file.
#[derive(Drop)]
struct WithObject {
    source: Bytes,
    object: Named<Object>,
}

/// The object of so many steps and words of data, whose source this is.
fn object_of(alloc: Global, name: &Text, count: u32, source: &[u8]) -> Result<Named<Object>, Fault>
    requires few { count ≤ 50000 }
    requires source { source.now ≡ big_text count }
    ensures object { IfOk result (λ object. object ≡ big_named name.now (module_of name.now) count) }
    ensures told { IfOk result (λ o. AssembledFrom (Some (files_of [])) name.now (big_text count) (Ok (big_object count))) }
    ensures valid { IfOk result (λ o. IsValid (big_object count)) }
    ensures bytes { IfOk result (λ o. HasBytes (big_object count)) }
    ensures memory { IfErr result (λ e. e ≡ fault.NoMemory) }
{
    big_law();
    match assemble(alloc, name, source, &mut NoFiles) {
        Ok(object) => {
            areas_fit(object.areas.as_slice());
            Ok(named(alloc, name, object)?)
        }
        Err(fault) => Err(fault),
    }
}

fn assembled(alloc: Global, name: &Text, count: u32) -> Result<WithObject, Fault>
    requires { count ≤ 50000 }
    ensures source { IfOk result (λ a. a.source ≡ big_text count) }
    ensures object { IfOk result (λ a. a.object ≡ big_named name.now (module_of name.now) count) }
    ensures told { IfOk result (λ a. AssembledFrom (Some (files_of [])) name.now (big_text count) (Ok (big_object count))) }
    ensures valid { IfOk result (λ a. IsValid (big_object count)) }
    ensures bytes { IfOk result (λ a. HasBytes (big_object count)) }
    ensures memory { IfErr result (λ e. e ≡ fault.NoMemory) }
{
    let source = big_source(alloc, count)?;
    match object_of(alloc, name, count, source.as_slice()) {
        Ok(object) => Ok(WithObject { source, object }),
        Err(fault) => {
            drop(source);
            Err(fault)
        }
    }
}

/// The words of the first area.
fn first_words(areas: &[Area]) -> u32
    ensures { result ≡ first_words areas.now }
{
    match areas.first() {
        Some(area) => area.size / 4,
        None => 0,
    }
}

/// A source, the words of its code, and its image.
#[derive(Drop)]
struct WithImage {
    source: Bytes,
    words: u32,
    image: LinkedImage,
}

/// The linked image of this object.
fn image_of(
    alloc: Global,
    name: &Text,
    count: u32,
    object: Named<Object>,
) -> Result<LinkedImage, Fault>
    requires some { 1 ≤ count }
    requires few { count ≤ 50000 }
    requires object { object ≡ big_named name.now (module_of name.now) count }
    requires valid { IsValid (big_object count) }
    ensures image { IfOk result (λ i. i ≡ big_image name.now (module_of name.now) count) }
    ensures memory { IfErr result (λ e. e ≡ fault.NoMemory) }
{
    big_law();
    let objects = list_of_one(alloc, object)?;
    match link_scatter(alloc, objects, Vec::new(alloc), DESCRIPTION, None) {
        Ok(image) => Ok(image),
        Err(fault) => Err(fault),
    }
}

fn linked(alloc: Global, name: &Text, count: u32) -> Result<WithImage, Fault>
    requires some { 1 ≤ count }
    requires few { count ≤ 50000 }
    ensures source { IfOk result (λ l. l.source ≡ big_text count) }
    ensures words { IfOk result (λ l. l.words ≡ count + 3) }
    ensures image { IfOk result (λ l. l.image ≡ big_image name.now (module_of name.now) count) }
    ensures told { IfOk result (λ l. AssembledFrom (Some (files_of [])) name.now (big_text count) (Ok (big_object count))) }
    ensures valid { IfOk result (λ l. IsValid (big_object count)) }
    ensures bytes { IfOk result (λ l. HasBytes (big_object count)) }
    ensures memory { IfErr result (λ e. e ≡ fault.NoMemory) }
{
    let parts = assembled(alloc, name, count)?;
    let words = first_words(parts.object.value.areas.as_slice());
    match image_of(alloc, name, count, parts.object) {
        Ok(image) => Ok(WithImage {
            source: parts.source,
            words,
            image,
        }),
        Err(fault) => {
            drop(parts.source);
            Err(fault)
        }
    }
}

// ---- the image of a run

fn push_load_needs(needs: &mut Vec<Need>, loads: &[LoadRegion]) -> Result<(), NoMemory>
    ensures { OnOk result (needs.new.items ≡ needs.old.items ++ map images.load_need loads.now) }
{
    for load in loads {
        let need = Need {
            base: load.base,
            size: load.bytes.as_slice().len() as u64,
        };
        put(needs, need)?;
    }
    Ok(())
}

fn region_need(region: &Region) -> Need
    requires { region.now.length + region.now.zero ≤ 2 ^ 26 }
    ensures { result ≡ images.region_need region.now }
{
    Need {
        base: (region.base % 0x1_0000_0000) as u32,
        size: region.length + region.zero,
    }
}

fn push_region_needs(needs: &mut Vec<Need>, regions: &[Region]) -> Result<(), NoMemory>
    requires { AllByRecursion (λ r. r.length + r.zero ≤ 2 ^ 26) regions.now }
    ensures { OnOk result (needs.new.items ≡ needs.old.items ++ map images.region_need regions.now) }
{
    for region in regions {
        put(needs, region_need(region))?;
    }
    Ok(())
}

fn push_needs(
    needs: &mut Vec<Need>,
    loads: &[LoadRegion],
    regions: &[Region],
) -> Result<(), NoMemory>
    requires none { needs.old.items ≡ [] }
    requires sized { AllByRecursion (λ r. r.length + r.zero ≤ 2 ^ 26) regions.now }
    ensures { OnOk result (needs.new.items ≡ map images.load_need loads.now ++ map images.region_need regions.now) }
{
    push_load_needs(needs, loads)?;
    push_region_needs(needs, regions)
}

fn loads_of(alloc: Global, loads: Vec<LoadRegion>) -> Result<Vec<Load>, NoMemory>
    ensures { IfOk result (λ out. out.items ≡ map images.load_of loads.items) }
{
    let mut out = Vec::new(alloc);
    for load in loads {
        let load = Load {
            base: load.base,
            bytes: load.bytes,
        };
        let Ok(()) = put(&mut out, load) else {
            drop(out);
            return Err(NoMemory);
        };
    }
    Ok(out)
}

fn needs_of(alloc: Global, loads: &[LoadRegion], regions: &[Region]) -> Result<Vec<Need>, NoMemory>
    requires { AllByRecursion (λ r. r.length + r.zero ≤ 2 ^ 26) regions.now }
    ensures { IfOk result (λ needs. needs.items ≡ map images.load_need loads.now ++ map images.region_need regions.now) }
{
    let mut needs = Vec::new(alloc);
    match push_needs(&mut needs, loads, regions) {
        Ok(()) => Ok(needs),
        Err(NoMemory) => {
            drop(needs);
            Err(NoMemory)
        }
    }
}

/// The image of a run: the load regions, and what is to be memory: they, and the execution ranges with their zero parts.
fn run_image(alloc: Global, image: LinkedImage) -> Result<Image, NoMemory>
    requires { AllByRecursion (λ r. r.length + r.zero ≤ 2 ^ 26) image.regions }
    ensures { IfOk result (λ i. i ≡ images.run_image image) }
{
    let needs = match needs_of(alloc, image.loads.as_slice(), image.regions.as_slice()) {
        Ok(needs) => needs,
        Err(NoMemory) => {
            drop(image);
            return Err(NoMemory);
        }
    };
    let start = image.start;
    match loads_of(alloc, image.loads.into_vec()) {
        Ok(loads) => Ok(Image {
            loads: List::from_vec(loads),
            needs: List::from_vec(needs),
            start,
            thumb: false,
        }),
        Err(NoMemory) => {
            drop(needs);
            Err(NoMemory)
        }
    }
}

// ---- both

/// A source, the words of its code, and what is run of it.
#[derive(Drop)]
pub struct Program {
    pub source: Bytes,
    pub words: u32,
    pub image: Image,
}

/// The source of so many steps and words of data, under the name of its file, and what `build` makes of it.
pub fn build_program(alloc: Global, name: &Text, count: u32) -> Result<Program, Fault>
    requires some { 1 ≤ count }
    requires few { count ≤ 50000 }
    ensures source { IfOk result (λ b. b.source ≡ big_text count) }
    ensures short { IfOk result (λ b. length b.source < 2 ^ 32) }
    ensures words { IfOk result (λ b. b.words ≡ count + 3) }
    ensures image { IfOk result (λ b. b.image ≡ images.run_image (big_image name.now (module_of name.now) count)) }
    ensures needed { IfOk result (λ b. AreNeeded b.image) }
    ensures valid { IfOk result (λ b. IsValid (big_object count)) }
    ensures bytes { IfOk result (λ b. HasBytes (big_object count)) }
    ensures built { IfOk result (λ b. IsBigImage name.now count (big_image name.now (module_of name.now) count)) }
    ensures memory { IfErr result (λ e. e ≡ fault.NoMemory) }
{
    big_law();
    let parts = linked(alloc, name, count)?;
    let image = run_image(alloc, parts.image)?;
    Ok(Program {
        source: parts.source,
        words: parts.words,
        image,
    })
}
