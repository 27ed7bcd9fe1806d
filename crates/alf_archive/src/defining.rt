//! Which members define a symbol.

ghost use Rattle.std.specs.Prelude.{◌≡◌, ◌^◌, ◌<◌, ◌++◌, ◌&&◌, length, OnOk, IfOk};
ghost use Rattle.std.specs.Str.{bytes_eq};
ghost use Rattle.aof_object.specs.Names.{among};
ghost use Rattle.aof_object.specs.Checks.{is_exported};
ghost use Rattle.aof_object.specs.Objects.{exported};
ghost use Rattle.alf_archive.specs.Numbered.{numbered};
ghost use Rattle.alf_archive.specs.Defining.{number_if_defining, defining};

use crate::records::{Archive, Member};
use aof_object::Symbol;
use sdt_fault::{List, NoMemory, Text};
use std::alloc::Global;

fn exports(symbol: &Symbol, name: &Text) -> bool
    ensures { result ≡ (is_exported symbol.now.attributes && bytes_eq symbol.now.name name.now) }
{
    if symbol.flags().is_exported() {
        symbol.name == *name
    } else {
        false
    }
}

fn any_exports(symbols: &[Symbol], name: &Text) -> bool
    ensures { result ≡ among name.now (exported symbols.now) }
{
    for symbol in symbols {
        if exports(symbol, name) {
            return true;
        }
    }
    false
}

/// Adds the number of a member, where it defines the symbol.
fn push_if_defining(
    found: &mut Vec<u32>,
    symbol: &Text,
    number: u32,
    member: &Member,
) -> Result<(), NoMemory>
    ensures { OnOk result (found.new.items ≡ found.old.items ++ number_if_defining symbol.now number member.now) }
{
    if any_exports(member.object.symbols.as_slice(), symbol) {
        found.push(number)?;
    }
    Ok(())
}

fn numbers_defining(alloc: Global, members: &[Member], symbol: &Text) -> Result<List<u32>, NoMemory>
    requires { length members.now < 2 ^ 32 }
    ensures { IfOk result (λ found. found ≡ numbered (number_if_defining symbol.now) 0 members.now) }
{
    let mut found = Vec::new(alloc);
    for (i, member) in members.iter().enumerate() {
        push_if_defining(&mut found, symbol, i as u32, member)?;
    }
    Ok(List::from_vec(found))
}

/// The numbers, counted from 0 and ascending, of the members that export the symbol. The members' own
/// symbol tables decide.
pub fn members_defining(alloc: Global, a: &Archive, symbol: &Text) -> Result<List<u32>, NoMemory>
    requires { length a.now.members < 2 ^ 32 }
    ensures { IfOk result (λ found. found ≡ defining symbol.now a.now) }
{
    numbers_defining(alloc, a.members.as_slice(), symbol)
}
