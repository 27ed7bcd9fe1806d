//! A link of what is selected.

ghost use Rattle.std.specs.Prelude.{◌≡◌};
ghost use Rattle.std.specs.List.{AllByRecursion};
ghost use Rattle.std.specs.Option.{option_copied};
ghost use Rattle.aof_object.specs.Validity.{IsValid};
ghost use Rattle.chunk_file.specs.Reading.{Gives};
ghost use Rattle.link_apply.specs.Applied.{IsWithin};
ghost use Rattle.link_items.specs.LinkedItems.{has_header};
ghost use Rattle.armlink_core.specs.Linking.{made_at, made_of, made_with};
ghost use Rattle.armlink_core.specs.Sizes.{IsSmall};

use link_apply::apply;
use link_assign::assign;
use link_model::{Assigned, Linked, Placement, Veneer};
use link_place::place;
use link_veneer::plan_veneers;
use place_model::Kind;
use sdt_fault::answer::Fault;
use sdt_fault::{Bytes, List};
use sdt_word::Range32;
use std::alloc::Global;

/// What a link of selected objects is.
#[derive(Drop)]
pub struct PlacedImage {
    pub linked: Linked,
    pub assigned: Assigned,
    pub veneers: List<Veneer>,
    pub placement: Placement,
    /// Of each region before its zero part.
    pub bytes: List<Bytes>,
}

fn has_header(kind: &Kind) -> bool
    ensures { result ≡ has_header kind.now }
{
    match kind {
        Kind::Aif { .. } => true,
        Kind::Scatter(_) | Kind::Plain { .. } => false,
    }
}

fn make_at(
    alloc: Global,
    linked: Linked,
    assigned: Assigned,
    veneers: List<Veneer>,
    placement: Placement,
) -> Result<PlacedImage, Fault>
    requires objects { AllByRecursion (λ o. IsValid o.value) linked.objects }
    requires within { IsWithin placement }
    ensures { Gives result (made_at linked assigned veneers placement) }
{
    let bytes = apply(alloc, &linked, &placement)?;
    Ok(PlacedImage {
        linked,
        assigned,
        veneers,
        placement,
        bytes,
    })
}

fn make_with(
    alloc: Global,
    linked: Linked,
    assigned: Assigned,
    kind: &Kind,
    ram: Option<&[Range32]>,
) -> Result<PlacedImage, Fault>
    requires objects { AllByRecursion (λ o. IsValid o.value) linked.objects }
    requires small { IsSmall kind.now }
    ensures { Gives result (made_with kind.now (option_copied ram.entry) linked assigned) }
{
    let veneers = plan_veneers(alloc, &linked, &assigned, has_header(kind))?;
    let placement = place(alloc, &linked, kind, &assigned, veneers.as_slice(), ram)?;
    make_at(alloc, linked, assigned, veneers, placement)
}

/// The link of what is selected, as an image of a form.
pub fn make(
    alloc: Global,
    linked: Linked,
    kind: &Kind,
    ram: Option<&[Range32]>,
) -> Result<PlacedImage, Fault>
    requires objects { AllByRecursion (λ o. IsValid o.value) linked.objects }
    requires small { IsSmall kind.now }
    ensures { Gives result (made_of kind.now (option_copied ram.entry) linked) }
{
    let assigned = assign(alloc, &linked, kind)?;
    make_with(alloc, linked, assigned, kind, ram)
}
