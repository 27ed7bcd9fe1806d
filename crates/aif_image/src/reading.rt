//! Reading: the checks of the header in their order.

ghost use Rattle.std.specs.Prelude.{◌≡◌, ◌<◌, ◌≤◌, ◌^◌, ◌||◌, [], IfErr, IfOk, length};
ghost use Rattle.sdt_word.specs.Bytes.{word_in};
ghost use Rattle.sdt_fault.specs.declared.answer.Fault.TheVariants.{Refused};
ghost use Rattle.sdt_fault.specs.declared.refusal.Refusal.TheVariants.{BadImage};
ghost use Rattle.chunk_file.specs.Reading.{Gives};
ghost use Rattle.aif_image.specs.Checks.{ReadsAif};
ghost use Rattle.aif_image.specs.Reading as read;
ghost use Rattle.aif_image.specs.Reading.{IsFaultOf, aif_of};

use link_model::Aif;
use sdt_fault::Text;
use sdt_fault::answer::Fault;
use sdt_fault::kinds::FileKind;
use sdt_fault::refusal::Refusal;
use sdt_word::word_at;
use std::alloc::Global;

fn bad_image(alloc: Global, at: usize, kind: FileKind) -> Fault
    requires { at < 2 ^ 32 }
    ensures { result ≡ Refused (BadImage [] at kind) }
{
    Fault::Refused(Refusal::BadImage {
        file: Text::from_vec(Vec::new(alloc)),
        offset: at as u32,
        kind,
    })
}

fn is_nop(word: u32) -> bool
    ensures { result ≡ read.is_nop word }
{
    word == 0xE1A0_0000
}

fn is_call(word: u32) -> bool
    ensures { result ≡ read.is_call word }
{
    word >> 24 == 0xEB
}

fn is_nop_or_call(word: u32) -> bool
    ensures { result ≡ (read.is_nop word || read.is_call word) }
{
    is_nop(word) || is_call(word)
}

fn has_sizes(bytes: &[u8]) -> bool
    requires { 0x80 ≤ length bytes.now }
    ensures { result ≡ read.has_sizes bytes.now }
{
    let ro = word_at(bytes, 0x14);
    let rw = word_at(bytes, 0x18);
    let zero = word_at(bytes, 0x20);
    ro % 4 == 0
        && rw % 4 == 0
        && zero % 4 == 0
        && ro >= 0x80
        && u64::from(ro) + u64::from(rw) <= bytes.len() as u64
}

fn record_of(bytes: &[u8]) -> Aif
    requires { 0x80 ≤ length bytes.now }
    ensures { result ≡ read.record_of bytes.now }
{
    Aif {
        ro: word_at(bytes, 0x14),
        rw: word_at(bytes, 0x18),
        zero: word_at(bytes, 0x20),
        base: word_at(bytes, 0x28),
        relocatable: is_call(word_at(bytes, 4)),
    }
}

#[tactic(auto, unfolding(crate::specs::Reading::aif_of))]
fn aif(alloc: Global, bytes: &[u8]) -> Result<Aif, Fault>
    requires { length bytes.now < 2 ^ 32 }
    ensures { Gives result (aif_of bytes.now) }
{
    if bytes.len() < 0x80 {
        return Err(bad_image(alloc, bytes.len(), FileKind::Short));
    }
    if !is_nop(word_at(bytes, 0)) {
        return Err(bad_image(alloc, 0, FileKind::Compressed));
    }
    if !is_nop_or_call(word_at(bytes, 4)) {
        return Err(bad_image(alloc, 4, FileKind::Header));
    }
    if !is_call(word_at(bytes, 0xC)) {
        return Err(bad_image(alloc, 0xC, FileKind::NotExecutable));
    }
    if !has_sizes(bytes) {
        return Err(bad_image(alloc, 0x14, FileKind::Sizes));
    }
    if word_at(bytes, 0x30) % 256 != 32 {
        return Err(bad_image(alloc, 0x30, FileKind::Mode));
    }
    Ok(record_of(bytes))
}

/// What the header of an ARM image file says. Gives `BadImage`, with an empty file name, exactly where the file
/// isn't one, with the offset and the kind of the first check that fails: fewer than 0x80 bytes (the file's length,
/// `Short`), a first word that isn't NOP (0, `Compressed`), a second that is neither NOP nor BL (4, `Header`), a
/// fourth that isn't BL (0xC, `NotExecutable`), sizes that aren't of whole words or don't fit the file (0x14,
/// `Sizes`), addresses of other than 32 bits (0x30, `Mode`). Needs no memory, and takes the same time for any file.
pub fn read_aif(alloc: Global, bytes: &[u8]) -> Result<Aif, Fault>
    requires { length bytes.now < 2 ^ 32 }
    // What is read is what the bytes say.
    ensures found { IfOk result (λ a. ReadsAif bytes.now a) }
    // What the bytes say is read, unless memory was refused.
    ensures only { (a : Aif) → ReadsAif bytes.now a → Gives result (Ok a) }
    // The error tells the first check that fails, unless memory was refused.
    ensures first_failed { IfErr result (IsFaultOf bytes.now) }
    // Which check fails first.
    ensures exact { Gives result (aif_of bytes.now) }
{
    aif(alloc, bytes)
}
