//! The bytes that pairs of digits write, their sum, and the numbers that they make.

ghost use Rattle.std.specs.Prelude.{◌≡◌, ◌<◌, ◌≤◌, ◌%◌, ◌^◌, IfOk, length, sum};
ghost use Rattle.hex_image.specs.Digits as digits;

use hex::FromHexError;
use sdt_fault::{Bytes, NoMemory};
use std::alloc::Global;

/// The bytes that a text of pairs of digits in either case writes, one or more.
pub fn digits_in(alloc: Global, text: &[u8]) -> Result<Option<Bytes>, NoMemory>
    ensures { IfOk result (λ found. found ≡ digits.digits_in text.now) }
{
    if text.is_empty() {
        return Ok(None);
    }
    match hex::decode(alloc, text) {
        Ok(bytes) => Ok(Some(Bytes::from_vec(bytes))),
        Err(FromHexError::OutOfMemory) => Err(NoMemory),
        Err(_) => Ok(None),
    }
}

/// The low byte of the bytes' sum.
pub fn sum_of(bytes: &[u8]) -> u8
    ensures { result ≡ sum bytes.now % 256 }
{
    let mut total = 0u8;
    for byte in bytes {
        total = total.wrapping_add(*byte);
    }
    total
}

/// The number that the first two bytes make, the higher first.
pub fn half(bytes: &[u8]) -> u32
    requires { 2 ≤ length bytes.now }
    ensures value { result ≡ digits.half bytes.now }
    ensures bound { result < 2 ^ 16 }
{
    256 * u32::from(bytes[0]) + u32::from(bytes[1])
}

/// The number that the first three bytes make.
pub fn three(bytes: &[u8]) -> u32
    requires { 3 ≤ length bytes.now }
    ensures value { result ≡ digits.three bytes.now }
{
    65536 * u32::from(bytes[0]) + half(&bytes[1..])
}

/// The number that the first four bytes make.
pub fn word(bytes: &[u8]) -> u32
    requires { 4 ≤ length bytes.now }
    ensures value { result ≡ digits.word bytes.now }
{
    65536 * half(bytes) + half(&bytes[2..])
}

/// The two bytes of a half-word, the higher first.
pub fn half_bytes(n: u16) -> [u8; 2]
    ensures { result ≡ digits.half_bytes n }
{
    [(n / 256) as u8, (n % 256) as u8]
}

/// The four bytes of a word, the highest first.
pub fn word_bytes(n: u32) -> [u8; 4]
    ensures { result ≡ digits.word_bytes n }
{
    [
        (n / 0x0100_0000) as u8,
        (n / 0x1_0000 % 256) as u8,
        (n / 256 % 256) as u8,
        (n % 256) as u8,
    ]
}
