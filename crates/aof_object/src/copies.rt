//! Copies of objects.

ghost use Rattle.std.specs.Prelude.{◌≡◌, IfOk};

use crate::records::{Area, Object, Symbol};
use sdt_fault::{List, NoMemory};
use std::alloc::Global;

impl Symbol {
    /// A copy.
    pub fn try_clone(&self, alloc: Global) -> Result<Symbol, NoMemory>
        ensures { IfOk result (λ copy. copy ≡ self.now) }
    {
        Ok(Symbol {
            name: self.name.try_clone(alloc)?,
            attributes: self.attributes,
            value: self.value,
            area: self.area,
        })
    }
}

impl Area {
    /// A copy, with its bytes and relocations.
    pub fn try_clone(&self, alloc: Global) -> Result<Area, NoMemory>
        ensures { IfOk result (λ copy. copy ≡ self.now) }
    {
        Ok(Area {
            name: self.name.try_clone(alloc)?,
            attributes: self.attributes,
            size: self.size,
            bytes: self.bytes.try_clone(alloc)?,
            relocs: List::from_vec(Vec::from_slice(alloc, self.relocs.as_slice())?),
        })
    }
}

fn copy_areas(alloc: Global, areas: &[Area]) -> Result<List<Area>, NoMemory>
    ensures { IfOk result (λ copy. copy ≡ areas.now) }
{
    let mut copy = Vec::with_capacity(alloc, areas.len())?;
    for area in areas {
        copy.push(area.try_clone(alloc)?)?;
    }
    Ok(List::from_vec(copy))
}

fn copy_symbols(alloc: Global, symbols: &[Symbol]) -> Result<List<Symbol>, NoMemory>
    ensures { IfOk result (λ copy. copy ≡ symbols.now) }
{
    let mut copy = Vec::with_capacity(alloc, symbols.len())?;
    for symbol in symbols {
        copy.push(symbol.try_clone(alloc)?)?;
    }
    Ok(List::from_vec(copy))
}

impl Object {
    /// A copy, linear in the object's size.
    pub fn try_clone(&self, alloc: Global) -> Result<Object, NoMemory>
        ensures { IfOk result (λ copy. copy ≡ self.now) }
    {
        Ok(Object {
            areas: copy_areas(alloc, self.areas.as_slice())?,
            symbols: copy_symbols(alloc, self.symbols.as_slice())?,
            entry: self.entry,
        })
    }
}
