//! Objects as they are read and assembled: what their areas hold are bytes, and their numbers are words.

ghost use Rattle.std.specs.List.{AllByRecursion};
ghost use Rattle.std.specs.Prelude.{◌<◌, ◌^◌};
ghost use Rattle.aof_object.specs.Grammar.{AreaFits, Fits};
ghost use Rattle.link_apply.specs.Laws.{AreBytes};
ghost use Rattle.sdt_toolkit.specs.Starting.{HasBytes};

use alf_archive::{Archive, Member};
use aof_object::{Area, Object, Reloc, Symbol};
use link_model::Named;

fn each_fits(bytes: &[u8])
    ensures { AreBytes bytes.now }
{
    let _first = bytes.first();
}

/// Areas have bytes.
pub fn areas_fit(areas: &[Area])
    ensures { AllByRecursion (λ a. AreBytes a.bytes) areas.now }
{
    for area in areas {
        each_fits(area.bytes.as_slice());
    }
}

fn members_fit(members: &[Member])
    ensures { AllByRecursion (λ m. HasBytes m.object) members.now }
{
    for member in members {
        areas_fit(member.object.areas.as_slice());
    }
}

/// Objects have bytes.
pub fn objects_fit(objects: &[Named<Object>])
    ensures { AllByRecursion (λ o. HasBytes o.value) objects.now }
{
    for object in objects {
        areas_fit(object.value.areas.as_slice());
    }
}

/// Libraries have bytes.
pub fn archives_fit(archives: &[Named<Archive>])
    ensures { AllByRecursion (λ a. AllByRecursion (λ m. HasBytes m.object) a.value.members) archives.now }
{
    for archive in archives {
        members_fit(archive.value.members.as_slice());
    }
}

fn word_fits(word: u32)
    ensures { word < 2 ^ 32 }
{
    let _word = word;
}

fn reloc_fits(reloc: &Reloc)
    ensures { (reloc.now.offset < 2 ^ 32) × (reloc.now.word < 2 ^ 32) }
{
    word_fits(reloc.offset);
    word_fits(reloc.word);
}

fn relocs_fit(relocs: &[Reloc])
    ensures { AllByRecursion (λ r. (r.offset < 2 ^ 32) × (r.word < 2 ^ 32)) relocs.now }
{
    for reloc in relocs {
        reloc_fits(reloc);
    }
}

fn area_fits(area: &Area)
    ensures { AreaFits area.now }
{
    word_fits(area.attributes);
    relocs_fit(area.relocs.as_slice());
}

fn heads_fit(areas: &[Area])
    ensures { AllByRecursion AreaFits areas.now }
{
    for area in areas {
        area_fits(area);
    }
}

fn symbol_fits(symbol: &Symbol)
    ensures { (symbol.now.attributes < 2 ^ 32) × (symbol.now.value < 2 ^ 32) }
{
    word_fits(symbol.attributes);
    word_fits(symbol.value);
}

fn symbols_fit(symbols: &[Symbol])
    ensures { AllByRecursion (λ s. (s.attributes < 2 ^ 32) × (s.value < 2 ^ 32)) symbols.now }
{
    for symbol in symbols {
        symbol_fits(symbol);
    }
}

/// The numbers of an object are words.
pub fn object_fits(object: &Object)
    ensures { Fits object.now }
{
    heads_fit(object.areas.as_slice());
    symbols_fit(object.symbols.as_slice());
}
