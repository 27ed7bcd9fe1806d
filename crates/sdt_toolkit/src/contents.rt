//! What is read for a link: the scatter file's text, if there is one, and what stands under the names, of a source no
//! further than its limit.

ghost use Rattle.std.specs.Prelude.{◌≡◌, ◌≤◌, ◌&&◌, All, IfErr, IfOk, length};
ghost use Rattle.sdt_outside.specs.Counts.{Rose};
ghost use Rattle.tool_answers.specs.Inputs.{InputsEnd, IsEnd};
ghost use Rattle.sdt_toolkit.specs.Inputs as inputs;
ghost use Rattle.sdt_toolkit.specs.Contents.{AreCounted, AreFiles, AreKept, IsKept, IsShort};
ghost use Rattle.sdt_toolkit.specs.Links.{read_by, text_in};

use crate::gathering::{list_of_one, put};
use crate::names::is_source_name;
use armasm_core::MOST_BYTES;
use sdt_fault::{Bytes, List, NoMemory, Text};
use sdt_outside::Store;
use std::alloc::{AllocError, AllocFailed, Global};
use tool_answers::{InputEnd, read_input, read_input_up_to, read_inputs};
use tool_words::LinkPlacement;

/// What was read of a file.
#[derive(Drop)]
pub enum Content {
    /// All that it holds.
    Whole(Bytes),
    /// Of a source, that it holds more than `MOST_BYTES` bytes.
    Long,
}

/// What was read for a link.
#[derive(Drop)]
pub struct LinkFiles {
    /// The scatter file's text, if there is one.
    pub texts: List<Bytes>,
    /// What stands under the names.
    pub contents: List<Content>,
}

/// Whether a name is that of a source, where sources are taken.
pub fn is_source(sources: bool, name: &Text) -> bool
    ensures { result ≡ (sources && inputs.is_source_name name.now) }
{
    if !sources {
        return false;
    }
    is_source_name(name.as_slice())
}

fn source_content<S: Store>(alloc: Global, store: &mut S, name: &Text) -> Result<Content, InputEnd>
    ensures found { IfOk result (IsKept (S.files store.old) true name.now) }
    ensures short { IfOk result IsShort }
    ensures end { IfErr result (λ e. IsEnd e (S.files store.old) name.now (Rose (S.read_faults store.old) (S.read_faults store.new))) }
    ensures files { S.files store.new ≡ S.files store.old }
    ensures read_faults { S.read_faults store.old ≤ S.read_faults store.new }
    ensures write_faults { S.write_faults store.new ≡ S.write_faults store.old }
{
    match read_input_up_to(alloc, store, name, MOST_BYTES as u32) {
        Ok(Some(bytes)) => Ok(Content::Whole(bytes)),
        Ok(None) => Ok(Content::Long),
        Err(end) => Err(end),
    }
}

ghost use Rattle.std.specs.Prelude.{true};

fn file_content<S: Store>(
    alloc: Global,
    store: &mut S,
    source: bool,
    name: &Text,
) -> Result<Content, InputEnd>
    ensures found { IfOk result (IsKept (S.files store.old) source name.now) }
    ensures short { IfOk result IsShort }
    ensures end { IfErr result (λ e. IsEnd e (S.files store.old) name.now (Rose (S.read_faults store.old) (S.read_faults store.new))) }
    ensures files { S.files store.new ≡ S.files store.old }
    ensures read_faults { S.read_faults store.old ≤ S.read_faults store.new }
    ensures write_faults { S.write_faults store.new ≡ S.write_faults store.old }
{
    if source {
        return source_content(alloc, store, name);
    }
    match read_input(alloc, store, name) {
        Ok(bytes) => Ok(Content::Whole(bytes)),
        Err(end) => Err(end),
    }
}

/// How many bytes are kept of it.
fn kept(content: &Content) -> usize {
    match content {
        Content::Whole(bytes) => bytes.as_slice().len(),
        Content::Long => 0,
    }
}

/// The most bytes of inputs that a command keeps at once.
const MOST_KEPT: usize = 1 << 30;

/// What files hold, in order; where `sources` are taken, those of sources are read no further than their limit. The
/// first that can't be read ends it. A file that is named often is read as often; more than 2^30 bytes in all, with `before`
/// that were read before these, count as want of memory.
fn read_contents<S: Store>(
    alloc: Global,
    store: &mut S,
    sources: bool,
    names: &[Text],
    before: usize,
) -> Result<Vec<Content>, InputEnd>
    ensures found { IfOk result (λ contents. AreKept (S.files store.old) sources names.now contents.items) }
    ensures short { IfOk result (λ contents. All IsShort contents.items) }
    ensures count { IfOk result (λ contents. length contents.items ≡ length names.now) }
    ensures end { IfErr result (λ e. InputsEnd e (S.files store.old) names.now (Rose (S.read_faults store.old) (S.read_faults store.new))) }
    ensures files { S.files store.new ≡ S.files store.old }
    ensures read_faults { S.read_faults store.old ≤ S.read_faults store.new }
    ensures write_faults { S.write_faults store.new ≡ S.write_faults store.old }
{
    let mut left = MOST_KEPT.checked_sub(before).ok_or(NoMemory)?;
    let mut contents = Vec::new(alloc);
    for name in names {
        match file_content(alloc, store, is_source(sources, name), name) {
            Ok(content) => {
                let count = kept(&content);
                let Ok(()) = put(&mut contents, content) else {
                    drop(contents);
                    return Err(InputEnd::NoMemory);
                };
                let Some(rest) = left.checked_sub(count) else {
                    drop(contents);
                    return Err(InputEnd::NoMemory);
                };
                left = rest;
            }
            Err(end) => {
                drop(contents);
                return Err(end);
            }
        }
    }
    Ok(contents)
}

fn scatter_names(alloc: Global, placement: &LinkPlacement) -> Result<Vec<Text>, NoMemory>
    ensures { IfOk result (λ names. names.items ≡ read_by placement.now []) }
{
    match placement {
        LinkPlacement::Scatter { file } => list_of_one(alloc, file.try_clone(alloc)?),
        LinkPlacement::Aif { .. } | LinkPlacement::Plain { .. } => Ok(Vec::new(alloc)),
    }
}

ghost use Rattle.std.specs.Prelude.{[]};

/// The scatter file's text; none without one.
pub fn text_in<'a>(placement: &LinkPlacement, contents: &'a [Bytes]) -> &'a [u8]
    ensures { result.now ≡ text_in placement.now contents.now }
{
    match placement {
        LinkPlacement::Aif { .. } | LinkPlacement::Plain { .. } => b"",
        LinkPlacement::Scatter { .. } => match contents.first() {
            Some(text) => text.as_slice(),
            None => b"",
        },
    }
}

/// The files that a placement and these names tell, in the order in which they are read: the scatter file, if there is
/// one, and then those of the names.
pub fn read_files<S: Store>(
    alloc: Global,
    store: &mut S,
    sources: bool,
    placement: &LinkPlacement,
    names: &[Text],
) -> Result<LinkFiles, InputEnd>
    ensures found { IfOk result (AreFiles (S.files store.old) sources placement.now names.now) }
    ensures counted { IfOk result (AreCounted placement.now names.now) }
    ensures end { IfErr result (λ e. InputsEnd e (S.files store.old) (read_by placement.now names.now)
        (Rose (S.read_faults store.old) (S.read_faults store.new))) }
    ensures files { S.files store.new ≡ S.files store.old }
    ensures read_faults { S.read_faults store.old ≤ S.read_faults store.new }
    ensures write_faults { S.write_faults store.new ≡ S.write_faults store.old }
{
    let scatter = scatter_names(alloc, placement)?;
    let texts = match read_inputs(alloc, store, scatter.as_slice()) {
        Ok(texts) => texts,
        Err(end) => return Err(end),
    };
    let before = text_in(placement, texts.as_slice()).len();
    match read_contents(alloc, store, sources, names, before) {
        Ok(contents) => Ok(LinkFiles {
            texts: List::from_vec(texts),
            contents: List::from_vec(contents),
        }),
        Err(end) => Err(end),
    }
}
