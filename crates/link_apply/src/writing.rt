//! The writing of an area's fields.

ghost use Rattle.std.specs.Prelude.{◌≡◌, ℕ, List, ◌<◌, ◌^◌, false, length, slice_get, get_or, Some};
ghost use Rattle.aof_object.specs.declared.records.Area.{Area};
ghost use Rattle.aof_object.specs.declared.records.Reloc.{Reloc as Relocation};
ghost use Rattle.aof_object.specs.declared.records.Reloc.{Reloc as Relocation};
ghost use Rattle.sdt_word.specs.Bytes.{bytes_of, written};
ghost use Rattle.link_model.specs.declared.placing.Placement.{Placement};
ghost use Rattle.patch_model.specs.Fields.{field_of, kind_of as field_kind, size_of, Values};
ghost use Rattle.link_apply.specs.PatchedBytes.{patched_bytes};
ghost use Rattle.link_apply.specs.Written.{AreInside, AreFitting, AreNumbers};

use crate::fields::put_number;
use aof_object::Reloc;

/// Writes the number of the field of one of these relocations.
fn put_field(bytes: &mut [u8], relocs: &[Reloc], numbers: &[u32], i: usize)
    requires many { length numbers.now ≡ length relocs.now }
    requires there { i < length relocs.now }
    requires inside { AreInside (length bytes.old) relocs.now }
    requires fitting { AreFitting relocs.now numbers.now }
    ensures { (r : Relocation) → slice_get relocs.now i ≡ Some r
        → bytes.new ≡ written bytes.old (field_of r).place
        (bytes_of (get_or numbers.now i 0) (size_of (field_kind r))) }
{
    let reloc = relocs[i];
    let field = reloc.field();
    put_number(bytes, field.place as usize, field.kind, numbers[i]);
}

/// Writes the number of each field. Relocations of one field have the same number.
pub fn put_numbers(bytes: &mut [u8], relocs: &[Reloc], numbers: &[u32])
    requires many { length numbers.now ≡ length relocs.now }
    requires inside { AreInside (length bytes.old) relocs.now }
    requires fitting { AreFitting relocs.now numbers.now }
    ensures { (p : Placement) (values : Values) (region base : ℕ) (a : Area)
        → a.bytes ≡ bytes.old → a.relocs ≡ relocs.now
        → AreNumbers p values region base a numbers.now
        → bytes.new ≡ patched_bytes p values region base a }
{
    for i in (0..relocs.len()).rev() {
        put_field(bytes, relocs, numbers, i);
    }
}
