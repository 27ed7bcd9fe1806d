//! Words and half-words in a slice of bytes, lowest byte first.

ghost use Rattle.std.specs.Prelude.{◌≡◌, ◌+◌, ◌≤◌, ◌++◌, length, OnErr, OnOk};
ghost use Rattle.sdt_word.specs.Bytes.{bytes_of, half_in, word_in, written};

use byteorder::{ByteOrder, LittleEndian};
use std::alloc::AllocError;

/// The word in the four bytes from `at` on.
pub fn word_at(b: &[u8], at: usize) -> u32
    requires { at + 4 ≤ length b.now }
    ensures { result ≡ word_in b.now at }
{
    LittleEndian::read_u32(&b[at..])
}

/// Writes a word into the four bytes from `at` on.
pub fn put_word(b: &mut [u8], at: usize, v: u32)
    requires { at + 4 ≤ length b.old }
    ensures { b.new ≡ written b.old at (bytes_of v 4) }
{
    LittleEndian::write_u32(&mut b[at..], v);
}

/// The half-word in the two bytes from `at` on.
pub fn half_at(b: &[u8], at: usize) -> u16
    requires { at + 2 ≤ length b.now }
    ensures { result ≡ half_in b.now at }
{
    LittleEndian::read_u16(&b[at..])
}

/// Writes a half-word into the two bytes from `at` on.
pub fn put_half(b: &mut [u8], at: usize, v: u16)
    requires { at + 2 ≤ length b.old }
    ensures { b.new ≡ written b.old at (bytes_of v 2) }
{
    LittleEndian::write_u16(&mut b[at..], v);
}

/// Appends the four bytes of a word. An `Err` leaves the vector as it was.
pub fn push_word(out: &mut Vec<u8>, v: u32) -> Result<(), AllocError>
    ensures ok { OnOk result (out.new.items ≡ out.old.items ++ bytes_of v 4) }
    ensures err { OnErr result (out.new.items ≡ out.old.items) }
{
    let mut bytes = [0; 4];
    put_word(&mut bytes, 0, v);
    out.extend_from_slice(&bytes)?;
    Ok(())
}

/// Appends the two bytes of a half-word. An `Err` leaves the vector as it was.
pub fn push_half(out: &mut Vec<u8>, v: u16) -> Result<(), AllocError>
    ensures ok { OnOk result (out.new.items ≡ out.old.items ++ bytes_of v 2) }
    ensures err { OnErr result (out.new.items ≡ out.old.items) }
{
    let mut bytes = [0; 2];
    put_half(&mut bytes, 0, v);
    out.extend_from_slice(&bytes)?;
    Ok(())
}
