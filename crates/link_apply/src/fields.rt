//! The numbers of fields.

ghost use Rattle.std.specs.Prelude.{◌≡◌, ◌+◌, ◌<◌, ◌≤◌, ◌^◌, length};
ghost use Rattle.sdt_word.specs.Bytes.{bytes_of, written};
ghost use Rattle.patch_model.specs.Fields.{number_in, size_of as kind_size};

use aof_object::FieldKind;
use sdt_word::{half_at, put_half, put_word, word_at};

/// What a field holds.
pub fn number_at(bytes: &[u8], place: usize, kind: FieldKind) -> u32
    requires { place + kind_size kind ≤ length bytes.now }
    ensures { result ≡ number_in bytes.now (record { place = place; kind = kind }) }
{
    match kind {
        FieldKind::Byte => bytes[place] as u32,
        FieldKind::Half => half_at(bytes, place) as u32,
        _ => word_at(bytes, place),
    }
}

/// Writes the number of a field.
pub fn put_number(bytes: &mut [u8], place: usize, kind: FieldKind, number: u32)
    requires inside { place + kind_size kind ≤ length bytes.old }
    requires fits { number < 256 ^ kind_size kind }
    ensures { bytes.new ≡ written bytes.old place (bytes_of number (kind_size kind)) }
{
    match kind {
        FieldKind::Byte => bytes[place] = number as u8,
        FieldKind::Half => put_half(bytes, place, number as u16),
        _ => put_word(bytes, place, number),
    }
}
