//! What the relocations of an area's fields add and take away of what moves.

ghost use Rattle.std.specs.Prelude.{◌≡◌, ◌+◌, if◌then◌else◌, IfOk, OnOk};
ghost use Rattle.sdt_word.specs.Numbers.{flag};
ghost use Rattle.link_values.specs.Shifts.{names_moving as names_moving_of};
ghost use Rattle.link_shifts.specs.declared.balances.Spot.{Spot as SpotModel};
ghost use Rattle.patch_model.specs.Fields.{is_relative};
ghost use Rattle.link_model.specs.Members.{link_of};
ghost use Rattle.link_shifts.specs.Balances.{balance_in, code_of as code, is_same, spot_of as spot, weighed as with_one, AreBalances};
ghost use Rattle.link_shifts.specs.Tells.{Tells};

use crate::moving::{Image, names_moving};
use aof_object::{FieldKind, Reloc};
use indexmap::IndexMap;
use sdt_fault::NoMemory;
use std::alloc::Global;

/// A field: where it begins, and a number for its kind.
#[derive(Clone, Copy, PartialEq, Eq, Hash)]
pub struct Spot {
    pub place: u32,
    pub code: u32,
}

/// How often what moves is added to a field, and how often its area's base is taken from what stays.
#[derive(Clone, Copy)]
pub struct Balance {
    pub more: u64,
    pub less: u64,
}

fn code_of(kind: FieldKind) -> u32
    ensures { result ≡ code kind }
{
    match kind {
        FieldKind::Byte => 0,
        FieldKind::Half => 1,
        FieldKind::Word => 2,
        FieldKind::Branch(false) => 3,
        FieldKind::Branch(true) => 4,
    }
}

/// The field of a relocation.
pub fn spot_of(reloc: Reloc) -> Spot
    ensures { result ≡ spot reloc }
{
    let field = reloc.field();
    Spot {
        place: field.place,
        code: code_of(field.kind),
    }
}

/// A count with one more, where there is one. No memory has so many relocations that it needs more bits.
fn counted(one: bool, count: u64) -> Result<u64, NoMemory>
    ensures { IfOk result (λ sum. sum ≡ flag one + count) }
{
    if !one {
        return Ok(count);
    }
    if count == u64::MAX {
        return Err(NoMemory);
    }
    Ok(count + 1)
}

pub fn weighed(relative: bool, moving: bool, balance: Balance) -> Result<Balance, NoMemory>
    ensures { IfOk result (λ b. b ≡ with_one relative moving balance) }
{
    Ok(Balance {
        more: counted(!relative && moving, balance.more)?,
        less: counted(relative && !moving, balance.less)?,
    })
}

/// The balance of a spot, with 0 of both where none is there.
pub fn balance_at(balances: &IndexMap<Spot, Balance>, at: Spot) -> Balance
    ensures { result ≡ balance_in balances.now at }
{
    match balances.get(&at) {
        None => Balance { more: 0, less: 0 },
        Some(balance) => *balance,
    }
}

fn note(
    balances: &mut IndexMap<Spot, Balance>,
    image: &Image<'_>,
    object: u32,
    reloc: Reloc,
) -> Result<(), NoMemory>
    requires { Tells image.now }
    ensures { OnOk result ((s : SpotModel) → balance_in balances.new s
        ≡ (if is_same (spot reloc) s
        then with_one (is_relative reloc)
        (names_moving_of (link_of image.now.linked.now) image.now.placement.now object reloc)
        (balance_in balances.old (spot reloc))
        else balance_in balances.old s)) }
{
    let at = spot_of(reloc);
    let relative = reloc.is_relative();
    let moving = names_moving(image, object, reloc);
    let balance = weighed(relative, moving, balance_at(balances, at))?;
    balances.insert(at, balance)?;
    Ok(())
}

/// Of the relocations of an area of an object.
pub fn balances_of(
    alloc: Global,
    image: &Image<'_>,
    object: u32,
    relocs: &[Reloc],
) -> Result<IndexMap<Spot, Balance>, NoMemory>
    requires { Tells image.now }
    ensures { IfOk result (λ balances. AreBalances
        (names_moving_of (link_of image.now.linked.now) image.now.placement.now object) relocs.now balances) }
{
    let mut balances = IndexMap::new(alloc);
    for i in (0..relocs.len()).rev() {
        note(&mut balances, image, object, relocs[i])?;
    }
    Ok(balances)
}
