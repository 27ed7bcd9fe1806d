//! Bytes and words as hexadecimal digits.

ghost use Rattle.std.specs.Prelude.{◌≡◌, ◌++◌, ◌<◌, IfOk, OnOk, false};
ghost use Rattle.std.specs.Fmt.{digit_glyph};
ghost use Rattle.gdb_packets.specs.Shown as shown;

use sdt_fault::NoMemory;
use std::alloc::Global;

/// The digit of a number below 16.
pub fn digit(value: u8) -> u8
    requires { value < 16 }
    ensures { result ≡ digit_glyph false value }
{
    if value < 10 {
        return b'0' + value;
    }
    b'a' + (value - 10)
}

fn put_byte(out: &mut Vec<u8>, byte: u8) -> Result<(), NoMemory>
    ensures { IfOk result (λ _. out.new.items ≡ out.old.items ++ shown.byte_shown byte) }
{
    out.push(digit(byte / 16))?;
    out.push(digit(byte % 16))?;
    Ok(())
}

/// Adds the digits of bytes.
pub fn put_bytes(out: &mut Vec<u8>, bytes: &[u8]) -> Result<(), NoMemory>
    ensures { IfOk result (λ _. out.new.items ≡ out.old.items ++ shown.bytes_shown bytes.now) }
{
    'bytes: for byte in bytes {
        put_byte(out, *byte)?;
    }
    Ok(())
}

/// The bytes of a word, the lowest first.
fn word_bytes(word: u32) -> [u8; 4]
    ensures { result ≡ shown.word_bytes word }
{
    [
        (word % 256) as u8,
        (word / 256 % 256) as u8,
        (word / 65536 % 256) as u8,
        (word / 0x100_0000 % 256) as u8,
    ]
}

/// The bytes of a number, the highest first.
fn number_bytes(number: u32) -> [u8; 4]
    ensures { result ≡ shown.number_bytes number }
{
    [
        (number / 0x100_0000 % 256) as u8,
        (number / 65536 % 256) as u8,
        (number / 256 % 256) as u8,
        (number % 256) as u8,
    ]
}

fn put_word(out: &mut Vec<u8>, word: u32) -> Result<(), NoMemory>
    ensures { IfOk result (λ _. out.new.items ≡ out.old.items ++ shown.bytes_shown (shown.word_bytes word)) }
{
    put_bytes(out, &word_bytes(word))
}

/// Adds the eight digits of a number.
pub fn put_number(out: &mut Vec<u8>, number: u32) -> Result<(), NoMemory>
    ensures { IfOk result (λ _. out.new.items ≡ out.old.items ++ shown.number_shown number) }
{
    put_bytes(out, &number_bytes(number))
}

/// The reply to `m`: bytes of memory.
pub fn bytes_shown(alloc: Global, bytes: &[u8]) -> Result<Vec<u8>, NoMemory>
    ensures { IfOk result (λ reply. reply.items ≡ shown.bytes_shown bytes.now) }
{
    let mut reply = Vec::new(alloc);
    put_bytes(&mut reply, bytes)?;
    Ok(reply)
}

/// The reply to `g` and `p`: words of registers.
pub fn words_shown(alloc: Global, words: &[u32]) -> Result<Vec<u8>, NoMemory>
    ensures { IfOk result (λ reply. reply.items ≡ shown.words_shown words.now) }
{
    let mut reply = Vec::new(alloc);
    'words: for word in words {
        put_word(&mut reply, *word)?;
    }
    Ok(reply)
}
