//! Links whose objects are placed: what images are made of, and what else is told of a link.

ghost use Rattle.std.specs.Prelude.{◌≡◌, IfOk, Err, None};
ghost use Rattle.std.specs.List.{AllByRecursion};
ghost use Rattle.std.specs.Option.{option_copied};
ghost use Rattle.alf_archive.specs.Grammar.{IsValid as IsValidArchive};
ghost use Rattle.aof_object.specs.Validity.{IsValid};
ghost use Rattle.armlink_core.specs.Images.{Links};
ghost use Rattle.armlink_core.specs.Placing as places;
ghost use Rattle.armlink_core.specs.Placing.{IsRoomy};
ghost use Rattle.armlink_core.specs.Sizes.{IsSmall};

use crate::making::{PlacedImage, make};
use crate::symbols::region_symbols;
use alf_archive::Archive;
use aof_object::Object;
use link_model::Named;
use link_select::select;
use place_model::Kind;
use scatter_text::read_scatter;
use sdt_fault::answer::Fault;
use sdt_fault::refusal::Refusal;
use sdt_word::Range32;
use std::alloc::Global;

/// A link whose objects are placed, and the form of image that they are placed as.
#[derive(Drop)]
pub struct PlacedLink {
    pub kind: Kind,
    pub parts: PlacedImage,
}

/// What is linked, placed as an image of a form. The objects of the command line stand first, then the members that are
/// needed.
pub fn place_parts(
    alloc: Global,
    objects: Vec<Named<Object>>,
    archives: Vec<Named<Archive>>,
    kind: &Kind,
    ram: Option<&[Range32]>,
) -> Result<PlacedImage, Fault>
    requires objects { AllByRecursion (λ o. IsValid o.value) objects.items }
    requires archives { AllByRecursion (λ a. IsValidArchive a.value) archives.items }
    requires small { IsSmall kind.now }
    ensures exact { Links objects.items archives.items (places.placing kind.now (option_copied ram.entry)) result }
    ensures roomy { IfOk result IsRoomy }
{
    let symbols = region_symbols(alloc, kind)?;
    let linked = select(alloc, objects, archives, Some(symbols.as_slice()))?;
    make(alloc, linked, kind, ram)
}

/// A link that is placed as an image of a form. `ram` has the ranges that can be written, if they are told.
///
/// Refusals, the first that is present: those of `link_select::select`, `link_assign::assign`,
/// `link_veneer::plan_veneers`, `link_place::place` and `link_apply::apply`, in this order. Of a description only its
/// size is asked for, which one that is read has.
pub fn place_link(
    alloc: Global,
    objects: Vec<Named<Object>>,
    archives: Vec<Named<Archive>>,
    kind: Kind,
    ram: Option<&[Range32]>,
) -> Result<PlacedLink, Fault>
    requires objects { AllByRecursion (λ o. IsValid o.value) objects.items }
    requires archives { AllByRecursion (λ a. IsValidArchive a.value) archives.items }
    requires small { IsSmall kind }
    ensures exact { Links objects.items archives.items (places.placed_link kind (option_copied ram.entry)) result }
    ensures kind { IfOk result (λ p. p.kind ≡ kind) }
    ensures roomy { IfOk result (λ p. IsRoomy p.parts) }
{
    match place_parts(alloc, objects, archives, &kind, ram) {
        Ok(parts) => Ok(PlacedLink { kind, parts }),
        Err(fault) => Err(fault),
    }
}

/// The refusal of a description that can't be read, behind those of a selection for which every name of a region
/// symbol's form has a meaning.
fn refuse(
    alloc: Global,
    objects: Vec<Named<Object>>,
    archives: Vec<Named<Archive>>,
    refusal: Refusal,
) -> Result<PlacedLink, Fault>
    ensures exact { Links objects.items archives.items (places.placed_by (Err refusal) None) result }
    ensures none { IfOk result (λ p. ⊥) }
{
    let _ = select(alloc, objects, archives, None)?;
    Err(Fault::Refused(refusal))
}

/// A link that is placed by a scatter description's text. `ram` has the ranges that can be written, if they are told.
///
/// A text that is no description is refused by `ScatterLine`, behind the refusals of selection, for which every name
/// of a region symbol's form has a meaning then.
pub fn place_scatter(
    alloc: Global,
    objects: Vec<Named<Object>>,
    archives: Vec<Named<Archive>>,
    text: &[u8],
    ram: Option<&[Range32]>,
) -> Result<PlacedLink, Fault>
    requires objects { AllByRecursion (λ o. IsValid o.value) objects.items }
    requires archives { AllByRecursion (λ a. IsValidArchive a.value) archives.items }
    ensures exact { Links objects.items archives.items (places.placed_scatter text.now (option_copied ram.entry)) result }
    ensures small { IfOk result (λ p. IsSmall p.kind) }
    ensures roomy { IfOk result (λ p. IsRoomy p.parts) }
{
    match read_scatter(alloc, text) {
        Ok(scatter) => place_link(alloc, objects, archives, Kind::Scatter(scatter), ram),
        Err(Fault::Refused(refusal)) => refuse(alloc, objects, archives, refusal),
        Err(fault) => Err(fault),
    }
}
