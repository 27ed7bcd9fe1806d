//! Writing: the one text of a map.

ghost use Rattle.std.specs.Prelude.{◌≡◌, ◌++◌, ◌∷◌, OnOk, IfOk};
ghost use Rattle.std.specs.List.{flat_map};
ghost use Rattle.std.specs.Fmt.{decimal};
ghost use Rattle.bin_image.specs.Fields.{address};
ghost use Rattle.bin_image.specs.Maps.{bound_line, end_line, ended, entry_line, header, load_line, map_text, region_line, start_line, state_word};

use crate::records::{MapFile, MapLoad, MapRegion};
use sdt_fault::digits::{push_decimal, push_hexadecimal_places};
use sdt_fault::{Bytes, NoMemory};
use std::alloc::Global;

fn push(out: &mut Vec<u8>, bytes: &[u8]) -> Result<(), NoMemory>
    ensures { OnOk result (out.new.items ≡ out.old.items ++ bytes.now) }
{
    out.extend_from_slice(bytes)?;
    Ok(())
}

fn push_line(out: &mut Vec<u8>, line: &[u8]) -> Result<(), NoMemory>
    ensures { OnOk result (out.new.items ≡ out.old.items ++ ended line.now) }
{
    push(out, line)?;
    push(out, b"\n")
}

// The field behind a space.
fn push_field(out: &mut Vec<u8>, field: &[u8]) -> Result<(), NoMemory>
    ensures { OnOk result (out.new.items ≡ out.old.items ++ (32 ∷ field.now)) }
{
    push(out, b" ")?;
    push(out, field)
}

#[tactic(auto, unfolding(crate::specs::Fields::address))]
fn push_address(out: &mut Vec<u8>, number: u32) -> Result<(), NoMemory>
    ensures { OnOk result (out.new.items ≡ out.old.items ++ (32 ∷ address number)) }
{
    push(out, b" ")?;
    push_hexadecimal_places(out, u64::from(number), 8)
}

fn push_load(out: &mut Vec<u8>, load: &MapLoad) -> Result<(), NoMemory>
    ensures { OnOk result (out.new.items ≡ out.old.items ++ ended (load_line load.now)) }
{
    push(out, b"load")?;
    push_field(out, load.name.as_slice())?;
    push_address(out, load.base)?;
    push_address(out, load.size)?;
    push_field(out, load.file.as_slice())?;
    push(out, b"\n")
}

fn push_loads(out: &mut Vec<u8>, loads: &[MapLoad]) -> Result<(), NoMemory>
    ensures { OnOk result (out.new.items ≡ out.old.items ++ flat_map (λ l. ended (load_line l)) loads.now) }
{
    for load in loads {
        push_load(out, load)?;
    }
    Ok(())
}

fn push_region(out: &mut Vec<u8>, region: &MapRegion) -> Result<(), NoMemory>
    ensures { OnOk result (out.new.items ≡ out.old.items ++ ended (region_line region.now)) }
{
    push(out, b"exec")?;
    push_field(out, region.name.as_slice())?;
    push_address(out, region.load)?;
    push_address(out, region.base)?;
    push_address(out, region.length)?;
    push_address(out, region.zero)?;
    push(out, b"\n")
}

fn push_regions(out: &mut Vec<u8>, regions: &[MapRegion]) -> Result<(), NoMemory>
    ensures { OnOk result (out.new.items ≡ out.old.items ++ flat_map (λ r. ended (region_line r)) regions.now) }
{
    for region in regions {
        push_region(out, region)?;
    }
    Ok(())
}

fn push_start(out: &mut Vec<u8>, start: u32) -> Result<(), NoMemory>
    ensures { OnOk result (out.new.items ≡ out.old.items ++ ended (start_line start)) }
{
    push(out, b"start")?;
    push_address(out, start)?;
    push(out, b"\n")
}

fn state_word(thumb: bool) -> &'static [u8]
    ensures { result.now ≡ state_word thumb }
{
    if thumb { b"THUMB" } else { b"ARM" }
}

fn push_entry(out: &mut Vec<u8>, entry: u32, thumb: bool) -> Result<(), NoMemory>
    ensures { OnOk result (out.new.items ≡ out.old.items ++ ended (entry_line entry thumb)) }
{
    push(out, b"entry")?;
    push_address(out, entry)?;
    push_field(out, state_word(thumb))?;
    push(out, b"\n")
}

fn push_bound(alloc: Global, out: &mut Vec<u8>, bound: u64) -> Result<(), NoMemory>
    ensures { OnOk result (out.new.items ≡ out.old.items ++ ended (bound_line bound)) }
{
    push(out, b"bound ")?;
    push_decimal(alloc, out, bound)?;
    push(out, b"\n")
}

/// The map's text: a line for each load region, then one for each execution region, both in the order of the
/// description, then the start, the entry with its state and the bound. Addresses and sizes are eight
/// upper-case hexadecimal digits, the bound is decimal, and each line ends with a line feed.
pub fn write_map(alloc: Global, m: &MapFile) -> Result<Bytes, NoMemory>
    ensures { IfOk result (λ b. b ≡ map_text m.now) }
{
    let mut out = Vec::new(alloc);
    push_line(&mut out, b"armsdt map 1")?;
    push_loads(&mut out, m.loads.as_slice())?;
    push_regions(&mut out, m.regions.as_slice())?;
    push_start(&mut out, m.start)?;
    push_entry(&mut out, m.entry, m.thumb)?;
    push_bound(alloc, &mut out, m.bound)?;
    push_line(&mut out, b"end")?;
    Ok(Bytes::from_vec(out))
}
