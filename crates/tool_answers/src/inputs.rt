//! The inputs of a command: named files, read in order.

ghost use Rattle.std.specs.Prelude.{◌≡◌, ◌≤◌, ◌<◌, ◌^◌, ◌∷◌, [], ℕ, List, All, IfOk, IfErr, length};
ghost use Rattle.sdt_outside.specs.Counts.{Rose};
ghost use Rattle.sdt_outside.specs.Files.{IsFound, IsFoundUpTo, ReadFails};
ghost use Rattle.tool_answers.specs.Inputs.{AreInputs, InputsEnd, named};

use sdt_fault::refusal::Refusal;
use sdt_fault::{Bytes, NoMemory, Text};
use sdt_outside::{Store, StoreError};
use std::alloc::{AllocError, AllocFailed, Global};

/// Why an input was not read.
#[derive(Drop)]
pub enum InputEnd {
    /// There is no file of this name.
    Missing(Text),
    /// The read of this name failed.
    Failed(Text),
    NoMemory,
}

impl From<NoMemory> for InputEnd {
    ghost use Rattle.tool_answers.specs.declared.inputs.InputEnd.TheVariants as end;

    ghost from_gives = { λ _ e. e ≡ end.NoMemory };

    fn from(_e: NoMemory) -> InputEnd {
        InputEnd::NoMemory
    }
}

impl<T: Drop> From<AllocFailed<T>> for InputEnd {
    ghost use Rattle.tool_answers.specs.declared.inputs.InputEnd.TheVariants as end;

    ghost from_gives = { λ _ e. e ≡ end.NoMemory };

    fn from(_e: AllocFailed<T>) -> InputEnd {
        InputEnd::NoMemory
    }
}

// Why this file was not read.
fn end_of(alloc: Global, error: StoreError, name: &Text) -> InputEnd
    ensures { EndsAs result error name.now }
{
    match error {
        StoreError::NoMemory => InputEnd::NoMemory,
        StoreError::Missing => match name.try_clone(alloc) {
            Ok(name) => InputEnd::Missing(name),
            Err(NoMemory) => InputEnd::NoMemory,
        },
        StoreError::Failed => match name.try_clone(alloc) {
            Ok(name) => InputEnd::Failed(name),
            Err(NoMemory) => InputEnd::NoMemory,
        },
    }
}

ghost use Rattle.tool_answers.specs.Inputs.{EndsAs, IsEnd};

/// What a file holds.
pub fn read_input<S: Store>(alloc: Global, store: &mut S, name: &Text) -> Result<Bytes, InputEnd>
    ensures found { IfOk result (λ bytes. IsFound (S.files store.old) name.now bytes) }
    ensures bounded { IfOk result (λ bytes. length bytes < 2 ^ 32) }
    ensures end { IfErr result (λ e. IsEnd e (S.files store.old) name.now (Rose (S.read_faults store.old) (S.read_faults store.new))) }
    ensures files { S.files store.new ≡ S.files store.old }
    ensures read_faults { S.read_faults store.old ≤ S.read_faults store.new }
    ensures write_faults { S.write_faults store.new ≡ S.write_faults store.old }
{
    match store.read(alloc, name) {
        Ok(bytes) => Ok(bytes),
        Err(error) => Err(end_of(alloc, error, name)),
    }
}

/// What a file of at most `most` bytes holds, or None where it is longer.
pub fn read_input_up_to<S: Store>(
    alloc: Global,
    store: &mut S,
    name: &Text,
    most: u32,
) -> Result<Option<Bytes>, InputEnd>
    ensures found { IfOk result (IsFoundUpTo most (S.files store.old) name.now) }
    ensures end { IfErr result (λ e. IsEnd e (S.files store.old) name.now (Rose (S.read_faults store.old) (S.read_faults store.new))) }
    ensures files { S.files store.new ≡ S.files store.old }
    ensures read_faults { S.read_faults store.old ≤ S.read_faults store.new }
    ensures write_faults { S.write_faults store.new ≡ S.write_faults store.old }
{
    match store.read_up_to(alloc, name, most) {
        Ok(found) => Ok(found),
        Err(error) => Err(end_of(alloc, error, name)),
    }
}

/// The most bytes of inputs that a command keeps at once.
const MOST_BYTES: usize = 1 << 30;

/// What files hold, in order. The first that can't be read ends it. A file that is named often is read as often; more than
/// 2^30 bytes in all count as want of memory.
pub fn read_inputs<S: Store>(
    alloc: Global,
    store: &mut S,
    names: &[Text],
) -> Result<Vec<Bytes>, InputEnd>
    ensures found { IfOk result (λ contents. AreInputs (S.files store.old) names.now contents.items) }
    ensures bounded { IfOk result (λ contents. All (λ bytes. length bytes < 2 ^ 32) contents.items) }
    ensures count { IfOk result (λ contents. length contents.items ≡ length names.now) }
    ensures end { IfErr result (λ e. InputsEnd e (S.files store.old) names.now (Rose (S.read_faults store.old) (S.read_faults store.new))) }
    ensures files { S.files store.new ≡ S.files store.old }
    ensures read_faults { S.read_faults store.old ≤ S.read_faults store.new }
    ensures write_faults { S.write_faults store.new ≡ S.write_faults store.old }
{
    let mut contents = Vec::new(alloc);
    let mut left = MOST_BYTES;
    for name in names {
        match read_input(alloc, store, name) {
            Ok(bytes) => {
                left = left.checked_sub(bytes.as_slice().len()).ok_or(NoMemory)?;
                contents.push(bytes)?
            }
            Err(end) => return Err(end),
        }
    }
    Ok(contents)
}

/// The refusal of a reader, which knows no file's name, with the name of the file.
pub fn named(name: Text, refusal: Refusal) -> Refusal
    ensures { result ≡ named name refusal }
{
    match refusal {
        Refusal::BadChunk {
            file: _,
            offset,
            kind,
        } => Refusal::BadChunk {
            file: name,
            offset,
            kind,
        },
        Refusal::BadObject {
            file: _,
            offset,
            kind,
        } => Refusal::BadObject {
            file: name,
            offset,
            kind,
        },
        Refusal::BadLibrary {
            file: _,
            offset,
            kind,
        } => Refusal::BadLibrary {
            file: name,
            offset,
            kind,
        },
        Refusal::BadImage {
            file: _,
            offset,
            kind,
        } => Refusal::BadImage {
            file: name,
            offset,
            kind,
        },
        Refusal::BadRecord {
            file: _,
            line,
            kind,
        } => Refusal::BadRecord {
            file: name,
            line,
            kind,
        },
        Refusal::BadCommand {
            file: _,
            line,
            kind,
        } => Refusal::BadCommand {
            file: name,
            line,
            kind,
        },
        other => other,
    }
}
