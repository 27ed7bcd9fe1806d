//! What is told of a relocation with a flaw.

ghost use Rattle.std.specs.Prelude.{◌≡◌, IfOk};
ghost use Rattle.link_apply.specs.Flaws.{symbol_name, told};

use crate::flaws::Flaw;
use aof_object::{Area, Object, Reloc, RelocationTarget};
use link_model::Named;
use sdt_fault::refusal::Refusal;
use sdt_fault::{NoMemory, Text};
use std::alloc::Global;

/// The name of the symbol or area that a relocation names, or none where nothing has its number.
fn name_of(alloc: Global, object: &Object, reloc: Reloc) -> Result<Text, NoMemory>
    ensures { IfOk result (λ name. name ≡ symbol_name object.now reloc) }
{
    match reloc.target() {
        RelocationTarget::Symbol(number) => match object.symbols.as_slice().get(number as usize) {
            None => Ok(Text::from_vec(Vec::new(alloc))),
            Some(symbol) => symbol.name.try_clone(alloc),
        },
        RelocationTarget::Area(number) => match object.areas.as_slice().get(number as usize) {
            None => Ok(Text::from_vec(Vec::new(alloc))),
            Some(area) => area.name.try_clone(alloc),
        },
    }
}

/// The refusal of a relocation of an area of an object, by its flaw.
pub fn refusal_of(
    alloc: Global,
    object: &Named<Object>,
    area: &Area,
    reloc: Reloc,
    flaw: Flaw,
) -> Result<Refusal, NoMemory>
    ensures { IfOk result (λ refusal. refusal
        ≡ told object.now.name object.now.value area.now reloc flaw) }
{
    let name = object.name.try_clone(alloc)?;
    let place = area.name.try_clone(alloc)?;
    let offset = reloc.field().place;
    Ok(match flaw {
        Flaw::Malformed => Refusal::BadRelocation {
            object: name,
            area: place,
            offset,
        },
        Flaw::Overflow => Refusal::FieldOverflow {
            object: name,
            area: place,
            offset,
        },
        Flaw::OutOfReach => Refusal::Unreachable {
            object: name,
            area: place,
            offset,
            symbol: name_of(alloc, &object.value, reloc)?,
        },
    })
}
