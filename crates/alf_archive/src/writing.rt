//! Writing: the one spelling.

ghost use Rattle.std.specs.Prelude.{◌≡◌, ◌-◌, ◌%◌, ◌++◌, [], ◌∷◌, length, replicate, codes, OnOk, IfOk};
ghost use Rattle.sdt_word.specs.Bytes.{bytes_of};
ghost use Rattle.chunk_file.specs.Reading.{Gives};
ghost use Rattle.aof_object.specs.Spelling.{chunk};
ghost use Rattle.alf_archive.specs.Spelling.{padded, entry, name_and_time, member_entry, name_entry, symbol_entries, directory_of, symbols_of, first_chunks, written, SpellsMember, SpellsMembers};

use crate::records::{Archive, Member};
use aof_object::{Symbol, write_object};
use byte_tools::push_zeros;
use chunk_file::{Chunk, Chunks, push_word, write_chunks};
use sdt_fault::answer::Fault;
use sdt_fault::{Bytes, List, NoMemory, Text};
use std::alloc::Global;

/// Writes the low four bytes of a number at the end.
fn push_number(out: &mut Vec<u8>, number: usize) -> Result<(), NoMemory>
    ensures { OnOk result (out.new.items ≡ out.old.items ++ bytes_of number 4) }
{
    push_word(out, (number % (1 << 32)) as u32)
}

fn push_padded(out: &mut Vec<u8>, name: &[u8]) -> Result<(), NoMemory>
    ensures { OnOk result (out.new.items ≡ out.old.items ++ padded name.now) }
{
    out.extend_from_slice(name)?;
    push_zeros(out, 4 - name.len() % 4)?;
    Ok(())
}

fn push_entry(out: &mut Vec<u8>, index: usize, text: &[u8]) -> Result<(), NoMemory>
    ensures { OnOk result (out.new.items ≡ out.old.items ++ entry index text.now) }
{
    push_number(out, index)?;
    push_number(out, text.len() + 12)?;
    push_number(out, text.len())?;
    out.extend_from_slice(text)?;
    Ok(())
}

fn name_with_time(alloc: Global, name: &[u8]) -> Result<Vec<u8>, NoMemory>
    ensures { IfOk result (λ text. text.items ≡ name_and_time name.now) }
{
    let mut text = Vec::new(alloc);
    push_padded(&mut text, name)?;
    push_zeros(&mut text, 8)?;
    Ok(text)
}

fn name_alone(alloc: Global, name: &[u8]) -> Result<Vec<u8>, NoMemory>
    ensures { IfOk result (λ text. text.items ≡ padded name.now) }
{
    let mut text = Vec::new(alloc);
    push_padded(&mut text, name)?;
    Ok(text)
}

fn push_member(
    alloc: Global,
    out: &mut Vec<u8>,
    index: usize,
    member: &Member,
) -> Result<(), NoMemory>
    ensures { OnOk result (out.new.items ≡ out.old.items ++ member_entry index member.now) }
{
    let text = name_with_time(alloc, member.name.as_slice())?;
    push_entry(out, index, &text)
}

fn push_name(alloc: Global, out: &mut Vec<u8>, index: usize, name: &Text) -> Result<(), NoMemory>
    ensures { OnOk result (out.new.items ≡ out.old.items ++ name_entry index name.now) }
{
    let text = name_alone(alloc, name.as_slice())?;
    push_entry(out, index, &text)
}

/// Writes the entry of a symbol of a member, where it is exported.
fn push_symbol(
    alloc: Global,
    out: &mut Vec<u8>,
    index: usize,
    symbol: &Symbol,
) -> Result<(), NoMemory>
    ensures { OnOk result (out.new.items ≡ out.old.items ++ symbol_entries index (symbol.now ∷ [])) }
{
    if symbol.flags().is_exported() {
        push_name(alloc, out, index, &symbol.name)?;
    }
    Ok(())
}

fn push_symbols(
    alloc: Global,
    out: &mut Vec<u8>,
    index: usize,
    symbols: &[Symbol],
) -> Result<(), NoMemory>
    ensures { OnOk result (out.new.items ≡ out.old.items ++ symbol_entries index symbols.now) }
{
    for symbol in symbols {
        push_symbol(alloc, out, index, symbol)?;
    }
    Ok(())
}

fn directory(alloc: Global, members: &[Member]) -> Result<Vec<u8>, NoMemory>
    ensures { IfOk result (λ out. out.items ≡ directory_of members.now) }
{
    let mut out = Vec::new(alloc);
    for (i, member) in members.iter().enumerate() {
        push_member(alloc, &mut out, 5 + i, member)?;
    }
    Ok(out)
}

fn symbol_table(alloc: Global, members: &[Member]) -> Result<Vec<u8>, NoMemory>
    ensures { IfOk result (λ out. out.items ≡ symbols_of members.now) }
{
    let mut out = Vec::new(alloc);
    for (i, member) in members.iter().enumerate() {
        push_symbols(alloc, &mut out, 5 + i, member.object.symbols.as_slice())?;
    }
    Ok(out)
}

fn chunk_of(name: [u8; 8], bytes: Vec<u8>) -> Option<Chunk>
    ensures { result ≡ chunk name bytes.items }
{
    Some(Chunk {
        name,
        bytes: Bytes::from_vec(bytes),
    })
}

fn time(alloc: Global) -> Result<Vec<u8>, NoMemory>
    ensures { IfOk result (λ out. out.items ≡ replicate 8 0) }
{
    Ok(Vec::from_slice(alloc, &[0; 8])?)
}

fn version(alloc: Global) -> Result<Vec<u8>, NoMemory>
    ensures { IfOk result (λ out. out.items ≡ bytes_of 1 4) }
{
    Ok(Vec::from_slice(alloc, &[1, 0, 0, 0])?)
}

/// The five chunks before those of the members.
fn list_first(
    alloc: Global,
    names: Vec<u8>,
    symbols: Vec<u8>,
) -> Result<Vec<Option<Chunk>>, NoMemory>
    ensures { IfOk result (λ list. list.items ≡ first_chunks names.items symbols.items) }
{
    let mut list = Vec::new(alloc);
    list.push(chunk_of(*b"LIB_DIRY", names))?;
    list.push(chunk_of(*b"LIB_TIME", time(alloc)?))?;
    list.push(chunk_of(*b"LIB_VSRN", version(alloc)?))?;
    list.push(chunk_of(*b"OFL_SYMT", symbols))?;
    list.push(chunk_of(*b"OFL_TIME", time(alloc)?))?;
    Ok(list)
}

fn first_of_members(alloc: Global, members: &[Member]) -> Result<Vec<Option<Chunk>>, NoMemory>
    ensures { IfOk result (λ list. list.items ≡ first_chunks (directory_of members.now) (symbols_of members.now)) }
{
    let names = directory(alloc, members)?;
    let symbols = symbol_table(alloc, members)?;
    list_first(alloc, names, symbols)
}

fn chunk_of_member(alloc: Global, member: &Member) -> Result<Option<Chunk>, Fault>
    ensures { SpellsMember result member.now }
{
    let bytes = write_object(alloc, &member.object)?;
    Ok(Some(Chunk {
        name: *b"LIB_DATA",
        bytes,
    }))
}

fn push_members(
    alloc: Global,
    list: &mut Vec<Option<Chunk>>,
    members: &[Member],
) -> Result<(), Fault>
    ensures { SpellsMembers result list.old.items list.new.items members.now }
{
    for member in members {
        let chunk = chunk_of_member(alloc, member)?;
        list.push(chunk)?;
    }
    Ok(())
}

/// The one spelling of a library: LIB_DIRY, LIB_TIME, LIB_VSRN, OFL_SYMT, OFL_TIME, and LIB_DATA for each
/// member. It reads as this library again where the members' names differ and hold no zero byte and
/// their objects are valid. Gives `TooLarge` exactly where it would have 2^32 bytes or more.
pub fn write_archive(alloc: Global, a: &Archive) -> Result<Bytes, Fault>
    ensures { Gives result (written a.now) }
{
    let members = a.members.as_slice();
    let mut list = first_of_members(alloc, members)?;
    push_members(alloc, &mut list, members)?;
    write_chunks(
        alloc,
        &Chunks {
            list: List::from_vec(list),
        },
    )
}
