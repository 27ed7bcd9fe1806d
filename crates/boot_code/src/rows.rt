//! The table behind the startup code: its rows of copies and of zero parts, and the bound on its steps.

ghost use Rattle.std.specs.Prelude.{◌≡◌, ◌+◌, ◌*◌, ◌^◌, ◌≤◌, ◌++◌, ◌∷◌, [], IfOk, OnOk};
ghost use Rattle.boot_code.specs.Startup.{copy_words, table_list, zero_words};

use sdt_fault::NoMemory;
use std::alloc::Global;

/// A copy of `size` bytes from `source` to `target`.
#[derive(Clone, Copy)]
pub struct CopyRow {
    pub source: u32,
    pub target: u32,
    pub size: u32,
}

/// A zero part of `size` bytes from `base` on.
#[derive(Clone, Copy)]
pub struct ZeroRow {
    pub base: u32,
    pub size: u32,
}

/// A bound on the steps of the startup code, for `c` copies of `w` words and `z` zero parts of `v` words.
pub fn steps_bound(c: u64, w: u64, z: u64, v: u64) -> u64
    requires copies { c ≤ 2 ^ 32 }
    requires copied { w ≤ 2 ^ 32 }
    requires parts { z ≤ 2 ^ 32 }
    requires zeroed { v ≤ 2 ^ 32 }
    ensures { result ≡ 32 + 16 * c + 4 * w + 12 * z + 3 * v }
{
    32 + 16 * c + 4 * w + 12 * z + 3 * v
}

fn push_copy(out: &mut Vec<u32>, row: &CopyRow) -> Result<(), NoMemory>
    ensures { OnOk result (out.new.items ≡ out.old.items ++ copy_words (row.now ∷ [])) }
{
    if row.size == 0 {
        return Ok(());
    }
    out.extend_from_slice(&[row.source, row.target, row.size])?;
    Ok(())
}

fn push_copies(out: &mut Vec<u32>, copies: &[CopyRow]) -> Result<(), NoMemory>
    ensures { OnOk result (out.new.items ≡ out.old.items ++ copy_words copies.now) }
{
    for row in copies {
        push_copy(out, row)?;
    }
    Ok(())
}

fn push_part(out: &mut Vec<u32>, row: &ZeroRow) -> Result<(), NoMemory>
    ensures { OnOk result (out.new.items ≡ out.old.items ++ zero_words (row.now ∷ [])) }
{
    if row.size == 0 {
        return Ok(());
    }
    out.extend_from_slice(&[row.base, row.size])?;
    Ok(())
}

fn push_parts(out: &mut Vec<u32>, parts: &[ZeroRow]) -> Result<(), NoMemory>
    ensures { OnOk result (out.new.items ≡ out.old.items ++ zero_words parts.now) }
{
    for row in parts {
        push_part(out, row)?;
    }
    Ok(())
}

/// The words behind the startup code: a row for each copy, three zeros, a row for each zero part, two
/// zeros, and the entry with bit 0 set for Thumb. A row of size 0 would end the table and is left out.
pub fn table(
    alloc: Global,
    copies: &[CopyRow],
    zeros: &[ZeroRow],
    entry: u32,
) -> Result<Vec<u32>, NoMemory>
    ensures { IfOk result (λ v. v.items ≡ table_list copies.now zeros.now entry) }
{
    let mut out = Vec::new(alloc);
    push_copies(&mut out, copies)?;
    out.extend_from_slice(&[0, 0, 0])?;
    push_parts(&mut out, zeros)?;
    out.extend_from_slice(&[0, 0, entry])?;
    Ok(out)
}
