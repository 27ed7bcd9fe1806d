//! Accesses to parts of a word.

ghost use Rattle.std.specs.Prelude.{◌≡◌, ◌%◌, ◌^◌, ◌<◌};
ghost use Rattle.sdt_word.specs.Codes.{bytes_in};
ghost use Rattle.sdt_outside.specs.Devices.{part_of, replaced, with_part};

use sdt_word::Width;

/// The bytes of a word that an access at the offset names.
pub fn part_of(word: u32, offset: u32, width: Width) -> u32
    ensures { result ≡ part_of word offset width }
{
    let low = word >> (8 * (offset % 4));
    match width {
        Width::Byte => low % 0x100,
        Width::Half => low % 0x1_0000,
        Width::Word => low,
    }
}

/// The word with the bytes that an access at the offset names replaced.
pub fn replaced(word: u32, offset: u32, width: Width, value: u32) -> u32
    requires { offset % bytes_in width ≡ 0 }
    ensures { result ≡ replaced word offset width value }
{
    match width {
        Width::Byte => replaced_byte(word, offset % 4, value % 0x100),
        Width::Half => replaced_half(word, offset % 4, value % 0x1_0000),
        Width::Word => value,
    }
}

// The word with the byte at the place replaced.
fn replaced_byte(word: u32, place: u32, byte: u32) -> u32
    requires place { place < 4 }
    requires byte { byte < 2 ^ 8 }
    ensures { result ≡ with_part word place 1 byte }
{
    match place {
        0 => byte + word / 0x100 * 0x100,
        1 => word % 0x100 + 0x100 * byte + word / 0x1_0000 * 0x1_0000,
        2 => word % 0x1_0000 + 0x1_0000 * byte + word / 0x100_0000 * 0x100_0000,
        _ => word % 0x100_0000 + 0x100_0000 * byte,
    }
}

// The word with its low or high half replaced.
fn replaced_half(word: u32, place: u32, half: u32) -> u32
    requires place { place < 4 }
    requires aligned { place % 2 ≡ 0 }
    requires half { half < 2 ^ 16 }
    ensures { result ≡ with_part word place 2 half }
{
    match place {
        0 => half + word / 0x1_0000 * 0x1_0000,
        _ => word % 0x1_0000 + 0x1_0000 * half,
    }
}
