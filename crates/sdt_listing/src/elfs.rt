//! The listing of an ELF executable.

ghost use Rattle.std.specs.Prelude.{◌≡◌, ◌++◌, IfOk, OnOk};
ghost use Rattle.std.specs.List.{flat_map};
ghost use Rattle.sdt_listing.specs.Elfs as elfs;

use crate::images::push_number_line;
use crate::parts::push;
use crate::pieces::{Piece, push_pieces};
use elf_image::{Elf, Segment};
use sdt_fault::{NoMemory, Text};
use std::alloc::Global;

fn push_load(alloc: Global, out: &mut Vec<u8>, segment: Segment) -> Result<(), NoMemory>
    ensures { OnOk result (out.new.items ≡ out.old.items ++ elfs.load_line segment) }
{
    push(out, b"load")?;
    let fields = [
        Piece::Field(segment.address),
        Piece::Field(segment.file_size),
        Piece::Field(segment.memory_size),
        Piece::Field(segment.flags),
        Piece::Letter(b'\n'),
    ];
    push_pieces(alloc, out, &fields)
}

fn push_loads(alloc: Global, out: &mut Vec<u8>, segments: &[Segment]) -> Result<(), NoMemory>
    ensures { OnOk result (out.new.items ≡ out.old.items ++ flat_map elfs.load_line segments.now) }
{
    for segment in segments {
        push_load(alloc, out, *segment)?;
    }
    Ok(())
}

/// The listing of an ELF executable of this record: where it is entered, and what each segment loads.
pub fn list_elf(alloc: Global, elf: &Elf) -> Result<Text, NoMemory>
    ensures { IfOk result (λ text. text ≡ elfs.elf_text elf.now) }
{
    let mut out = Vec::new(alloc);
    push(&mut out, b"elf\n")?;
    push_number_line(alloc, &mut out, b"entry", elf.entry)?;
    push_loads(alloc, &mut out, elf.segments.as_slice())?;
    push(&mut out, b"end\n")?;
    Ok(Text::from_vec(out))
}
