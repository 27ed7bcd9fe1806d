//! The names of the region symbols that an image of a form has.

ghost use Rattle.std.specs.Prelude.{◌≡◌, ◌∷◌, ◌++◌, [], OnOk, IfOk, map};
ghost use Rattle.std.specs.List.{flat_map};
ghost use Rattle.link_model.specs.RegionNames.{names_of_plain, names_of_scatter, plain_names, scatter_names};
ghost use Rattle.armlink_core.specs.Linking.{symbols_of};

use place_model::{Kind, ScatterLoad, ScatterRegion};
use sdt_fault::{NoMemory, Text};
use std::alloc::Global;

/// Adds a name in three parts.
fn add(
    alloc: Global,
    names: &mut Vec<Text>,
    before: &[u8],
    region: &[u8],
    after: &[u8],
) -> Result<(), NoMemory>
    ensures { OnOk result (names.new.items ≡ names.old.items ++ (before.now ++ (region.now ++ after.now)) ∷ []) }
{
    let mut name = Vec::new(alloc);
    name.extend_from_slice(before)?;
    name.extend_from_slice(region)?;
    name.extend_from_slice(after)?;
    names.push(Text::from_vec(name))?;
    Ok(())
}

fn add_scatter(alloc: Global, names: &mut Vec<Text>, region: &[u8]) -> Result<(), NoMemory>
    ensures { OnOk result (names.new.items ≡ names.old.items ++ scatter_names region.now) }
{
    add(alloc, names, b"Load$$", region, b"$$Base")?;
    add(alloc, names, b"Image$$", region, b"$$Base")?;
    add(alloc, names, b"Image$$", region, b"$$Length")?;
    add(alloc, names, b"Image$$", region, b"$$ZI$$Base")?;
    add(alloc, names, b"Image$$", region, b"$$ZI$$Length")?;
    Ok(())
}

fn add_plain(alloc: Global, names: &mut Vec<Text>, region: &[u8]) -> Result<(), NoMemory>
    ensures { OnOk result (names.new.items ≡ names.old.items ++ plain_names region.now) }
{
    add(alloc, names, b"Image$$", region, b"$$Base")?;
    add(alloc, names, b"Image$$", region, b"$$Limit")
}

fn add_regions(
    alloc: Global,
    names: &mut Vec<Text>,
    regions: &[ScatterRegion],
) -> Result<(), NoMemory>
    ensures { OnOk result (names.new.items ≡ names.old.items ++ flat_map scatter_names (map (λ r. r.name) regions.now)) }
{
    for region in regions {
        add_scatter(alloc, names, region.name.as_slice())?;
    }
    Ok(())
}

fn scatter_symbols(alloc: Global, loads: &[ScatterLoad]) -> Result<Vec<Text>, NoMemory>
    ensures { IfOk result (λ names. names.items ≡ names_of_scatter (map (λ r. r.name) (flat_map (λ l. l.regions) loads.now))) }
{
    let mut names = Vec::new(alloc);
    names.push(Text::from_slice(alloc, b"Boot$$Start")?)?;
    for load in loads {
        add_regions(alloc, &mut names, load.regions.as_slice())?;
    }
    Ok(names)
}

fn plain_symbols(alloc: Global) -> Result<Vec<Text>, NoMemory>
    ensures { IfOk result (λ names. names.items ≡ names_of_plain) }
{
    let mut names = Vec::new(alloc);
    add_plain(alloc, &mut names, b"RO")?;
    add_plain(alloc, &mut names, b"RW")?;
    add_plain(alloc, &mut names, b"ZI")?;
    Ok(names)
}

/// The region symbols that an image of the form has, without the Base and Limit of areas.
pub fn region_symbols(alloc: Global, kind: &Kind) -> Result<Vec<Text>, NoMemory>
    ensures { IfOk result (λ names. names.items ≡ symbols_of kind.now) }
{
    match kind {
        Kind::Scatter(scatter) => scatter_symbols(alloc, scatter.loads.as_slice()),
        Kind::Plain { .. } | Kind::Aif { .. } => plain_symbols(alloc),
    }
}
