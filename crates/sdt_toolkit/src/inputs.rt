//! The inputs of a link: what each file that was read is.

ghost use Rattle.std.specs.Prelude.{◌≡◌, ◌<◌, ◌≤◌, ◌^◌, ℕ, All, IfOk, List as Items, length};
ghost use Rattle.armasm_core.specs.Assembling.{MayGet};
ghost use Rattle.sdt_toolkit.specs.Inputs.{AreValid, InputIs, InputsAre, IsGot, IsGotBy, NamedIs};
ghost use Rattle.sdt_toolkit.specs.Reads.{Told};
ghost use Rattle.sdt_toolkit.specs.Contents.{AgreesUnder, AllAgree, IsShort};
ghost use Rattle.tool_library.specs.Linkables.{IsValidInput};

use crate::assemble::long_source;
use crate::contents::{Content, is_source};
use crate::gathering::{named, put};
use crate::sound::object_fits;
use armasm_core::assemble;
use link_model::Named;
use sdt_fault::answer::Fault;
use sdt_fault::{List, Text};
use sdt_outside::Store;
use std::alloc::Global;
use tool_library::{Linkable, read_linkable};

/// The object of a source.
fn source_input<S: Store>(
    alloc: Global,
    store: &mut S,
    name: &Text,
    bytes: &[u8],
) -> Result<Linkable, Fault>
    ensures value { Told (S.files store.old) (S.read_faults store.old) (S.read_faults store.new)
        result (λ s. IsSource s name.now bytes.now) (λ s. MayGet s.told name.now bytes.now) }
    ensures valid { IfOk result IsValidInput }
    ensures files { S.files store.new ≡ S.files store.old }
    ensures read_faults { S.read_faults store.old ≤ S.read_faults store.new }
    ensures write_faults { S.write_faults store.new ≡ S.write_faults store.old }
{
    let object = assemble(alloc, name, bytes, store)?;
    object_fits(&object);
    Ok(Linkable::Object(object))
}

ghost use Rattle.sdt_toolkit.specs.Inputs.{IsSource};

/// A file as an input; where `sources` are taken, one with a source's name is assembled.
fn input<S: Store>(
    alloc: Global,
    store: &mut S,
    sources: bool,
    name: &Text,
    bytes: &[u8],
) -> Result<Linkable, Fault>
    requires { length bytes.now < 2 ^ 32 }
    ensures value { Told (S.files store.old) (S.read_faults store.old) (S.read_faults store.new)
        result (λ s. InputIs s sources name.now bytes.now)
        (λ s. IsGotBy s.told sources name.now bytes.now) }
    ensures valid { IfOk result IsValidInput }
    ensures files { S.files store.new ≡ S.files store.old }
    ensures read_faults { S.read_faults store.old ≤ S.read_faults store.new }
    ensures write_faults { S.write_faults store.new ≡ S.write_faults store.old }
{
    if is_source(sources, name) {
        return source_input(alloc, store, name, bytes);
    }
    read_linkable(alloc, name, bytes)
}

/// What was read of a file as an input: a source that is too long is refused.
fn content_input<S: Store>(
    alloc: Global,
    store: &mut S,
    sources: bool,
    name: &Text,
    content: &Content,
) -> Result<Linkable, Fault>
    requires { IsShort content.now }
    ensures value { (bytes : Items ℕ) → AgreesUnder sources name.now content.now bytes
        → Told (S.files store.old) (S.read_faults store.old) (S.read_faults store.new)
        result (λ s. InputIs s sources name.now bytes)
        (λ s. IsGotBy s.told sources name.now bytes) }
    ensures valid { IfOk result IsValidInput }
    ensures files { S.files store.new ≡ S.files store.old }
    ensures read_faults { S.read_faults store.old ≤ S.read_faults store.new }
    ensures write_faults { S.write_faults store.new ≡ S.write_faults store.old }
{
    match content {
        Content::Whole(bytes) => input(alloc, store, sources, name, bytes.as_slice()),
        Content::Long => Err(long_source()),
    }
}

fn named_input<S: Store>(
    alloc: Global,
    store: &mut S,
    sources: bool,
    name: &Text,
    content: &Content,
) -> Result<Named<Linkable>, Fault>
    requires { IsShort content.now }
    ensures value { (bytes : Items ℕ) → AgreesUnder sources name.now content.now bytes
        → Told (S.files store.old) (S.read_faults store.old) (S.read_faults store.new)
        result (λ s. NamedIs s sources name.now bytes)
        (λ s. IsGotBy s.told sources name.now bytes) }
    ensures valid { IfOk result (λ x. IsValidInput x.value) }
    ensures files { S.files store.new ≡ S.files store.old }
    ensures read_faults { S.read_faults store.old ≤ S.read_faults store.new }
    ensures write_faults { S.write_faults store.new ≡ S.write_faults store.old }
{
    match content_input(alloc, store, sources, name, content) {
        Ok(value) => Ok(named(alloc, name, value)?),
        Err(fault) => Err(fault),
    }
}

/// Files of these names, of which this was read, as inputs, or the first refusal, whatever contents they have that agree
/// with that. Where `sources` are taken, a name that ends in
/// `.s` is a source, which is assembled, with the files that its GETs name; any other file is a library or an object.
pub fn inputs_of<S: Store>(
    alloc: Global,
    store: &mut S,
    sources: bool,
    names: &[Text],
    read: &[Content],
) -> Result<List<Named<Linkable>>, Fault>
    requires few { length read.now ≡ length names.now }
    requires bounded { All IsShort read.now }
    ensures value { (contents : Items (Items ℕ)) → AllAgree sources names.now read.now contents
        → Told (S.files store.old) (S.read_faults store.old) (S.read_faults store.new)
        result (λ s. InputsAre s sources names.now contents)
        (λ s. IsGot s.told sources names.now contents) }
    ensures valid { IfOk result AreValid }
    ensures files { S.files store.new ≡ S.files store.old }
    ensures read_faults { S.read_faults store.old ≤ S.read_faults store.new }
    ensures write_faults { S.write_faults store.new ≡ S.write_faults store.old }
{
    let mut inputs = Vec::new(alloc);
    for k in 0..names.len() {
        match named_input(alloc, store, sources, &names[k], &read[k]) {
            Ok(input) => {
                let Ok(()) = put(&mut inputs, input) else {
                    drop(inputs);
                    return Err(Fault::NoMemory);
                };
            }
            Err(fault) => {
                drop(inputs);
                return Err(fault);
            }
        }
    }
    Ok(List::from_vec(inputs))
}
