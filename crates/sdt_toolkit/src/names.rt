//! Names of inputs: which are those of sources, and the modules that they name.

ghost use Rattle.std.specs.Prelude.{◌≡◌, ◌≤◌, IfOk, IsTrue, length};
ghost use Rattle.sdt_toolkit.specs.Inputs.{is_source_name, last_part, module_of, object_name};

use sdt_fault::{NoMemory, Text};
use std::alloc::Global;

/// Whether a name is that of a source.
pub fn is_source_name(name: &[u8]) -> bool
    ensures value { result ≡ is_source_name name.now }
    ensures long { IsTrue result → 2 ≤ length name.now }
{
    name.ends_with(b".s")
}

/// The part of a name behind the last `/`.
fn last_part(name: &[u8]) -> &[u8]
    ensures { result.now ≡ last_part name.now }
{
    let mut start = 0;
    for i in 0..name.len() {
        if name[i] == b'/' {
            start = i + 1;
        }
    }
    &name[start..]
}

/// The name of a source's object.
fn object_name(alloc: Global, name: &[u8]) -> Result<Text, NoMemory>
    requires { 2 ≤ length name.now }
    ensures { IfOk result (λ text. text ≡ object_name name.now) }
{
    let mut bytes = Vec::from_slice(alloc, &name[..name.len() - 2])?;
    bytes.extend_from_slice(b".o")?;
    Ok(Text::from_vec(bytes))
}

/// The module of a file.
pub fn module_of(alloc: Global, name: &Text) -> Result<Text, NoMemory>
    ensures { IfOk result (λ text. text ≡ module_of name.now) }
{
    let part = last_part(name.as_slice());
    if is_source_name(part) {
        return object_name(alloc, part);
    }
    Text::from_slice(alloc, part)
}
