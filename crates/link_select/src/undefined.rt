//! Names without a meaning.

ghost use Rattle.std.specs.Prelude.{◌≡◌};
ghost use Rattle.std.specs.Option.{option_copied};
ghost use Rattle.chunk_file.specs.Reading.{Gives};
ghost use Rattle.link_model.specs.Members.{objects_in};
ghost use Rattle.link_model.specs.Options.{first_given};
ghost use Rattle.link_select.specs.Index.{IsIndexOf};
ghost use Rattle.link_select.specs.Regions.{known_by};
ghost use Rattle.link_select.specs.Undefined.{lacking, lacking_in, told, undefined};
ghost use Rattle.link_select.specs.Selection.{passes};

use crate::index::find;
use crate::regions::{RegionSymbols, is_region_symbol, region_symbols};
use aof_object::{Object, Symbol};
use indexmap::IndexMap;
use link_model::Named;
use sdt_fault::Text;
use sdt_fault::answer::Fault;
use sdt_fault::refusal::Refusal;
use std::alloc::Global;

/// Whether a name is exported by a linked object, or is a region symbol.
fn is_known(exports: &IndexMap<&[u8], usize>, regions: &RegionSymbols, name: &[u8]) -> bool
    ensures { result ≡ known_by exports.now regions.now name.now }
{
    if find(exports, name).is_some() {
        return true;
    }
    is_region_symbol(regions, name)
}

/// A name that needs a meaning and has none, with its object's.
#[derive(Clone, Copy)]
pub struct Unresolved<'a> {
    pub symbol: &'a Text,
    pub object: &'a Text,
}

/// The name of a symbol of the object called `name`, where it needs a meaning and has none.
fn lacking_of<'a>(
    exports: &IndexMap<&[u8], usize>,
    regions: &RegionSymbols,
    name: &'a Text,
    symbol: &'a Symbol,
) -> Option<Unresolved<'a>>
    ensures { told result ≡ lacking (known_by exports.now regions.now) name.now symbol.now }
{
    if !symbol.flags().is_reference() {
        return None;
    }
    if symbol.flags().is_weak() {
        return None;
    }
    if is_known(exports, regions, symbol.name.as_slice()) {
        return None;
    }
    Some(Unresolved {
        symbol: &symbol.name,
        object: name,
    })
}

fn first_lacking<'a>(
    exports: &IndexMap<&[u8], usize>,
    regions: &RegionSymbols,
    name: &'a Text,
    symbols: &'a [Symbol],
) -> Option<Unresolved<'a>>
    ensures { told result ≡ first_given (lacking (known_by exports.now regions.now) name.now) symbols.now }
{
    for symbol in symbols {
        let lacking = lacking_of(exports, regions, name, symbol);
        if lacking.is_some() {
            return lacking;
        }
    }
    None
}

fn first_undefined<'a>(
    exports: &IndexMap<&[u8], usize>,
    regions: &RegionSymbols,
    objects: &'a [Named<Object>],
) -> Option<Unresolved<'a>>
    ensures { told result ≡ first_given (lacking_in (known_by exports.now regions.now)) objects.now }
{
    for object in objects {
        let symbols = object.value.symbols.as_slice();
        let lacking = first_lacking(exports, regions, &object.name, symbols);
        if lacking.is_some() {
            return lacking;
        }
    }
    None
}

fn refuse(alloc: Global, lacking: Option<Unresolved<'_>>) -> Result<(), Fault>
    ensures { Gives result (passes (told lacking.entry)) }
{
    let Some(names) = lacking else {
        return Ok(());
    };
    Err(Fault::Refused(Refusal::Undefined {
        symbol: names.symbol.try_clone(alloc)?,
        object: names.object.try_clone(alloc)?,
    }))
}

/// Refuses the first name that has no meaning.
pub fn refuse_undefined(
    alloc: Global,
    exports: &IndexMap<&[u8], usize>,
    regions: Option<&[Text]>,
    objects: &[Named<Object>],
) -> Result<(), Fault>
    requires { IsIndexOf 0 (objects_in objects.now) exports.now }
    ensures { Gives result (passes (undefined (option_copied regions.entry) objects.now)) }
{
    let symbols = region_symbols(alloc, regions, objects)?;
    let lacking = first_undefined(exports, &symbols, objects);
    drop(symbols);
    refuse(alloc, lacking)
}
