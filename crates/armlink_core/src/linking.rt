//! Links, without a scatter description and with one.

ghost use Rattle.std.specs.Prelude.{◌≡◌, ◌%◌, ◌<◌, IfOk, None, length};
ghost use Rattle.std.specs.List.{AllByRecursion};
ghost use Rattle.std.specs.Option.{option_copied};
ghost use Rattle.alf_archive.specs.Grammar.{IsValid as IsValidArchive};
ghost use Rattle.aof_object.specs.Validity.{IsValid};
ghost use Rattle.armlink_core.specs.Images.{linking, scatter_linking, Links};
ghost use Rattle.armlink_core.specs.Sizes.{IsSmall};
ghost use Rattle.armlink_core.specs.Tables.{named_scatter};
ghost use Rattle.place_model.specs.declared.scatter.Kind.TheVariants as kind;

use crate::imaging::image_by;
use crate::naming::{NamedImage, named_by};
use crate::placing::{place_parts, place_scatter};
use alf_archive::Archive;
use aof_object::Object;
use link_model::{Image, Named};
use place_model::Kind;
use sdt_fault::answer::Fault;
use sdt_word::Range32;
use std::alloc::Global;

/// The image of a form, linked of objects and libraries. The objects of the command line stand first, then the members
/// that are needed. `ram` has the ranges that can be written, if they are told.
///
/// It is what `link_plain` and `link_aif` give for their forms, and what `link_scatter` gives for a description that is
/// read already, with their refusals. Of a description only its size is asked for, which one that is read has.
pub fn link(
    alloc: Global,
    objects: Vec<Named<Object>>,
    archives: Vec<Named<Archive>>,
    kind: &Kind,
    ram: Option<&[Range32]>,
) -> Result<Image, Fault>
    requires objects { AllByRecursion (λ o. IsValid o.value) objects.items }
    requires archives { AllByRecursion (λ a. IsValidArchive a.value) archives.items }
    requires small { IsSmall kind.now }
    ensures exact { Links objects.items archives.items (linking kind.now (option_copied ram.entry)) result }
{
    match place_parts(alloc, objects, archives, kind, ram) {
        Ok(parts) => image_by(alloc, parts, kind),
        Err(fault) => Err(fault),
    }
}

/// The image of bytes alone, linked from a base on, a multiple of 4: its one load region has the read-only and
/// read-write parts. The objects of the command line stand first, then the members that are needed.
///
/// Refusals, the first that is present: those of `link_select::select`, `link_assign::assign`,
/// `link_veneer::plan_veneers`, `link_place::place` and `link_apply::apply`, in this order.
pub fn link_plain(
    alloc: Global,
    objects: Vec<Named<Object>>,
    archives: Vec<Named<Archive>>,
    base: u32,
) -> Result<Image, Fault>
    requires objects { AllByRecursion (λ o. IsValid o.value) objects.items }
    requires archives { AllByRecursion (λ a. IsValidArchive a.value) archives.items }
    requires base { base % 4 ≡ 0 }
    ensures exact { Links objects.items archives.items (linking (kind.Plain base) None) result }
{
    let kind = Kind::Plain { base };
    link(alloc, objects, archives, &kind, None)
}

/// An ARM image file that is linked for a base, a multiple of 4, and runs there alone, or elsewhere too where it is
/// relocatable: its load region has 0x80 zero bytes in the place of the header, the read-only and the read-write parts;
/// a relocatable one has the offsets of the words that are shifted too. `ram` has the ranges that can be written, if
/// they are told.
///
/// Refusals are those of `link_plain`, and then, of a relocatable one, that of `link_shifts::movements`; in its place
/// fits what has 16 MiB at most.
pub fn link_aif(
    alloc: Global,
    objects: Vec<Named<Object>>,
    archives: Vec<Named<Archive>>,
    base: u32,
    relocatable: bool,
    ram: Option<&[Range32]>,
) -> Result<Image, Fault>
    requires objects { AllByRecursion (λ o. IsValid o.value) objects.items }
    requires archives { AllByRecursion (λ a. IsValidArchive a.value) archives.items }
    requires base { base % 4 ≡ 0 }
    ensures exact { Links objects.items archives.items (linking (kind.Aif base relocatable) (option_copied ram.entry)) result }
{
    let kind = Kind::Aif { base, relocatable };
    link(alloc, objects, archives, &kind, ram)
}

/// The image by a scatter description's text. `ram` has the ranges that can be written, if they are told.
///
/// A text that is no description is refused by `ScatterLine`, behind the refusals of selection, for which every name
/// of a region symbol's form has a meaning then.
pub fn link_scatter(
    alloc: Global,
    objects: Vec<Named<Object>>,
    archives: Vec<Named<Archive>>,
    text: &[u8],
    ram: Option<&[Range32]>,
) -> Result<Image, Fault>
    requires objects { AllByRecursion (λ o. IsValid o.value) objects.items }
    requires archives { AllByRecursion (λ a. IsValidArchive a.value) archives.items }
    ensures exact { Links objects.items archives.items (scatter_linking text.now (option_copied ram.entry)) result }
{
    match place_scatter(alloc, objects, archives, text, ram) {
        Ok(placed) => image_by(alloc, placed.parts, &placed.kind),
        Err(fault) => Err(fault),
    }
}

/// The image that `link_scatter` gives, with the tables of its link: sections and symbols, for `write_named_elf`. Memory
/// is refused too, where there would be 0xFEFC sections or more.
pub fn link_named_scatter(
    alloc: Global,
    objects: Vec<Named<Object>>,
    archives: Vec<Named<Archive>>,
    text: &[u8],
    ram: Option<&[Range32]>,
) -> Result<NamedImage, Fault>
    requires objects { AllByRecursion (λ o. IsValid o.value) objects.items }
    requires archives { AllByRecursion (λ a. IsValidArchive a.value) archives.items }
    ensures exact { Links objects.items archives.items (named_scatter text.now (option_copied ram.entry)) result }
    ensures few { IfOk result (λ n. length n.tables.sections < 0xFEFC) }
{
    match place_scatter(alloc, objects, archives, text, ram) {
        Ok(placed) => named_by(alloc, placed),
        Err(fault) => Err(fault),
    }
}
