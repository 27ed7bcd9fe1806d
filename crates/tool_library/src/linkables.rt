//! Inputs of a link: objects and libraries, from files.

ghost use Rattle.std.specs.Prelude.{◌<◌, ◌^◌, IfOk, length};
ghost use Rattle.chunk_file.specs.Reading.{Gives};
ghost use Rattle.tool_library.specs.Linkables.{IsValidInput, archive_input, linkable_of, object_input};

use crate::members::named_fault;
use alf_archive::{Archive, is_library, read_archive};
use aof_object::{Object, read_object};
use sdt_fault::Text;
use sdt_fault::answer::Fault;
use std::alloc::Global;

/// What a link takes.
#[derive(Drop)]
pub enum Linkable {
    Object(Object),
    Library(Archive),
}

fn object_input(alloc: Global, name: &Text, bytes: &[u8]) -> Result<Linkable, Fault>
    requires { length bytes.now < 2 ^ 32 }
    ensures value { Gives result (object_input name.now bytes.now) }
    ensures valid { IfOk result IsValidInput }
{
    match read_object(alloc, bytes) {
        Ok(object) => Ok(Linkable::Object(object)),
        Err(fault) => Err(named_fault(alloc, name, fault)),
    }
}

fn archive_input(alloc: Global, name: &Text, bytes: &[u8]) -> Result<Linkable, Fault>
    requires { length bytes.now < 2 ^ 32 }
    ensures value { Gives result (archive_input name.now bytes.now) }
    ensures valid { IfOk result IsValidInput }
{
    match read_archive(alloc, bytes) {
        Ok(archive) => Ok(Linkable::Library(archive)),
        Err(fault) => Err(named_fault(alloc, name, fault)),
    }
}

/// The library that a file with a LIB_DIRY chunk holds, or the object of any other file. A refusal of a reader
/// carries the file's name.
#[tactic(auto, unfolding(crate::specs::Linkables::linkable_of))]
pub fn read_linkable(alloc: Global, name: &Text, bytes: &[u8]) -> Result<Linkable, Fault>
    requires { length bytes.now < 2 ^ 32 }
    ensures value { Gives result (linkable_of name.now bytes.now) }
    // What is read is valid.
    ensures valid { IfOk result IsValidInput }
{
    if is_library(alloc, bytes)? {
        return archive_input(alloc, name, bytes);
    }
    object_input(alloc, name, bytes)
}
