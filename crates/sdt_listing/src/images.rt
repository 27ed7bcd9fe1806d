//! The listing of an ARM image file.

ghost use Rattle.std.specs.Prelude.{◌≡◌, ◌<◌, ◌≤◌, ◌+◌, ◌^◌, ◌++◌, ◌∷◌, [], codes, length, IfOk, OnOk};
ghost use Rattle.aif_image.specs.Checks.{ReadsAif};
ghost use Rattle.sdt_listing.specs.Images as images;
ghost use Rattle.sdt_listing.specs.Listings.{line};
ghost use Rattle.sdt_listing.specs.Parts.{eight};

use crate::listing::{push_data_lines, push_word_lines};
use crate::parts::push;
use crate::pieces::{Piece, push_pieces};
use link_model::Aif;
use sdt_fault::{NoMemory, Text};
use std::alloc::Global;

/// Appends a line of a name and eight digits.
pub fn push_number_line(
    alloc: Global,
    out: &mut Vec<u8>,
    name: &[u8],
    number: u32,
) -> Result<(), NoMemory>
    ensures { OnOk result (out.new.items ≡ out.old.items ++ line (name.now ∷ eight number ∷ [])) }
{
    push(out, name)?;
    push_pieces(alloc, out, &[Piece::Field(number), Piece::Letter(b'\n')])
}

fn reloc_line(relocatable: bool) -> &'static [u8]
    ensures { result.now ≡ line (codes "reloc" ∷ images.reloc_word relocatable ∷ []) }
{
    if relocatable {
        b"reloc yes\n"
    } else {
        b"reloc no\n"
    }
}

#[tactic(auto, unfolding(crate::specs::Images::head_text))]
fn push_head(alloc: Global, out: &mut Vec<u8>, a: Aif) -> Result<(), NoMemory>
    ensures { OnOk result (out.new.items ≡ out.old.items ++ images.head_text a) }
{
    push(out, b"aif\n")?;
    push_number_line(alloc, out, b"base", a.base)?;
    push_number_line(alloc, out, b"ro", a.ro)?;
    push_number_line(alloc, out, b"rw", a.rw)?;
    push_number_line(alloc, out, b"zi", a.zero)?;
    push(out, reloc_line(a.relocatable))
}

fn push_code(alloc: Global, out: &mut Vec<u8>, ro: u32, bytes: &[u8]) -> Result<(), NoMemory>
    requires bounded { length bytes.now < 2 ^ 32 }
    requires header { 0x80 ≤ ro }
    requires within { ro ≤ length bytes.now }
    ensures { OnOk result (out.new.items ≡ out.old.items ++ images.code_text ro bytes.now) }
{
    push_word_lines(alloc, out, bytes, 32, ro as usize / 4)
}

// The read-write part, which stands behind the read-only part.
fn rw_part(ro: u32, rw: u32, bytes: &[u8]) -> &[u8]
    requires { ro + rw ≤ length bytes.now }
    ensures part { result.now ≡ images.rw_part ro rw bytes.now }
    ensures size { length result.now ≡ rw }
{
    let rest = &bytes[ro as usize..];
    &rest[..rw as usize]
}

fn push_data(
    alloc: Global,
    out: &mut Vec<u8>,
    ro: u32,
    rw: u32,
    bytes: &[u8],
) -> Result<(), NoMemory>
    requires bounded { length bytes.now < 2 ^ 32 }
    requires within { ro + rw ≤ length bytes.now }
    ensures { OnOk result (out.new.items ≡ out.old.items ++ images.data_text ro rw bytes.now) }
{
    push_data_lines(alloc, out, ro, rw_part(ro, rw, bytes))
}

/// The listing of an ARM image file of this record: what its header says, the words of the read-only part behind the
/// header, and the bytes of the read-write part, each with its offset in the file.
pub fn list_aif(alloc: Global, a: &Aif, bytes: &[u8]) -> Result<Text, NoMemory>
    requires bounded { length bytes.now < 2 ^ 32 }
    requires reads { ReadsAif bytes.now a.now }
    ensures { IfOk result (λ text. text ≡ images.aif_text a.now bytes.now) }
{
    let mut out = Vec::new(alloc);
    push_head(alloc, &mut out, *a)?;
    push_code(alloc, &mut out, a.ro, bytes)?;
    push_data(alloc, &mut out, a.ro, a.rw, bytes)?;
    push(&mut out, b"end\n")?;
    Ok(Text::from_vec(out))
}
