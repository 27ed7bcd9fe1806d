//! Members of libraries, from files and to files.

ghost use Rattle.std.specs.Prelude.{◌≡◌, ◌<◌, ◌^◌, All, IfOk, length};
ghost use Rattle.chunk_file.specs.Reading.{Gives};
ghost use Rattle.aof_object.specs.Objects.{object_of};
ghost use Rattle.alf_archive.specs.Archives.{archive_of};
ghost use Rattle.tool_answers.specs.Inputs as inputs;
ghost use Rattle.tool_library.specs.Libraries as libraries;

use alf_archive::{Archive, Member, read_archive, write_archive};
use aof_object::{Object, read_object, write_object};
use chunk_file::size_law;
use sdt_fault::answer::Fault;
use sdt_fault::refusal::Refusal;
use sdt_fault::{Bytes, List, NoMemory, Text};
use std::alloc::Global;
use tool_answers::named;

/// A reader's fault, with the name of the file.
pub fn named_fault(alloc: Global, name: &Text, fault: Fault) -> Fault
    ensures { libraries.NamesFault name.now fault result }
{
    match fault {
        Fault::Refused(refusal) => match name.try_clone(alloc) {
            Ok(name) => Fault::Refused(named(name, refusal)),
            Err(NoMemory) => Fault::NoMemory,
        },
        other => other,
    }
}

fn object_named(alloc: Global, name: &Text, bytes: &[u8]) -> Result<Object, Fault>
    requires { length bytes.now < 2 ^ 32 }
    ensures { Gives result (libraries.named_by name.now (object_of bytes.now)) }
{
    match read_object(alloc, bytes) {
        Ok(object) => Ok(object),
        Err(fault) => Err(named_fault(alloc, name, fault)),
    }
}

fn archive_named(alloc: Global, name: &Text, bytes: &[u8]) -> Result<Archive, Fault>
    requires { length bytes.now < 2 ^ 32 }
    ensures { Gives result (libraries.named_by name.now (archive_of bytes.now)) }
{
    match read_archive(alloc, bytes) {
        Ok(archive) => Ok(archive),
        Err(fault) => Err(named_fault(alloc, name, fault)),
    }
}

fn member_of(alloc: Global, name: &Text, bytes: &[u8]) -> Result<Member, Fault>
    requires { length bytes.now < 2 ^ 32 }
    ensures { Gives result (libraries.member_of name.now bytes.now) }
{
    let object = object_named(alloc, name, bytes)?;
    let name = name.try_clone(alloc)?;
    Ok(Member { name, object })
}

ghost use Rattle.std.specs.Prelude.{Some, slice_get};

/// The members that files make, in order, or the refusal of the first that is no object.
pub fn members_of(alloc: Global, names: &[Text], contents: &[Bytes]) -> Result<List<Member>, Fault>
    requires few { length contents.now ≡ length names.now }
    requires bounded { All (λ bytes. length bytes < 2 ^ 32) contents.now }
    ensures { Gives result (libraries.members_of names.now contents.now) }
{
    let mut members = Vec::new(alloc);
    for k in 0..names.len() {
        match member_of(alloc, &names[k], contents[k].as_slice()) {
            Ok(member) => members.push(member)?,
            Err(fault) => return Err(fault),
        }
    }
    Ok(List::from_vec(members))
}

/// The library of files under their names.
pub fn library_of(alloc: Global, names: &[Text], contents: &[Bytes]) -> Result<Bytes, Fault>
    requires few { length contents.now ≡ length names.now }
    requires bounded { All (λ bytes. length bytes < 2 ^ 32) contents.now }
    ensures value { Gives result (libraries.library_of names.now contents.now) }
    ensures short { IfOk result (λ bytes. length bytes < 2 ^ 32) }
{
    size_law();
    match members_of(alloc, names, contents) {
        Ok(members) => write_archive(alloc, &Archive { members }),
        Err(fault) => Err(fault),
    }
}

fn push_line(text: &mut Vec<u8>, name: &[u8]) -> Result<(), NoMemory>
    ensures { OnOk result (text.new.items ≡ text.old.items ++ name.now ++ 10 ∷ []) }
{
    text.extend_from_slice(name)?;
    text.push(b'\n')?;
    Ok(())
}

ghost use Rattle.std.specs.Prelude.{◌++◌, ◌∷◌, [], OnOk};

fn names_text(alloc: Global, members: &[Member]) -> Result<Vec<u8>, NoMemory>
    ensures { IfOk result (λ text. text.items ≡ libraries.names_text members.now) }
{
    let mut text = Vec::new(alloc);
    for member in members {
        push_line(&mut text, member.name.as_slice())?;
    }
    Ok(text)
}

/// The names of a library's members, a line each.
pub fn listing(alloc: Global, name: &Text, bytes: &[u8]) -> Result<Text, Fault>
    requires { length bytes.now < 2 ^ 32 }
    ensures { Gives result (libraries.listing name.now bytes.now) }
{
    match archive_named(alloc, name, bytes) {
        Ok(archive) => {
            let text = names_text(alloc, archive.members.as_slice())?;
            Ok(Text::from_vec(text))
        }
        Err(fault) => Err(fault),
    }
}

fn place_named(members: &[Member], name: &[u8]) -> Option<usize>
    ensures { libraries.IsPlaced result name.now members.now }
{
    let mut place = 0;
    'members: while place < members.len() {
        if members[place].name.as_slice() == name {
            return Some(place);
        }
        place += 1;
    }
    None
}

fn missing(alloc: Global, name: &Text) -> Fault
    ensures { libraries.IsMissing result name.now }
{
    match name.try_clone(alloc) {
        Ok(name) => Fault::Refused(Refusal::Missing { name }),
        Err(NoMemory) => Fault::NoMemory,
    }
}

fn extract_from(alloc: Global, members: &[Member], member: &Text) -> Result<Bytes, Fault>
    ensures short { IfOk result (λ bytes. length bytes < 2 ^ 32) }
    ensures value { Gives result (libraries.extract_from member.now members.now) }
{
    size_law();
    match place_named(members, member.as_slice()) {
        Some(place) => write_object(alloc, &members[place].object),
        None => Err(missing(alloc, member)),
    }
}

/// A library's member of a name, as an object file.
pub fn extract(alloc: Global, name: &Text, member: &Text, bytes: &[u8]) -> Result<Bytes, Fault>
    requires { length bytes.now < 2 ^ 32 }
    ensures short { IfOk result (λ bytes. length bytes < 2 ^ 32) }
    ensures value { Gives result (libraries.extract name.now member.now bytes.now) }
{
    match archive_named(alloc, name, bytes) {
        Ok(archive) => extract_from(alloc, archive.members.as_slice(), member),
        Err(fault) => Err(fault),
    }
}
