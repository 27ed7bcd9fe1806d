//! Strings in memory.

ghost use Rattle.std.specs.Prelude.{◌≡◌, ◌≤◌, ◌<◌, ◌==◌, ◌^◌, length, min, take, IfSome, MatchResult, OnOk, OnErr};
ghost use Rattle.std.specs.List.{position};
ghost use Rattle.sdt_outside.specs.Counts.{Rose};
ghost use Rattle.sdt_outside.specs.Sinks.{Got, GotPart};
ghost use Rattle.arm7_bus.specs.Buses.{IsStarted};
ghost use Rattle.arm7_transfers.specs.Views.{state_of};
ghost use Rattle.arm7_run.specs.Strings.{IsBroken, Reaches, bytes_behind};

use arm7_bus::Bus;
use sdt_outside::{Device, Sink, SinkError};

/// The place of the first zero among some bytes.
fn first_zero(bytes: &[u8]) -> Option<usize>
    ensures place { result ≡ position (λ b. b == 0) bytes.now }
    ensures within { IfSome result (λ k. k < length bytes.now) }
{
    bytes.iter().position(|byte| *byte == 0)
}

/// How many bytes a string has, or the address of its first byte that no bank has. It looks at the bytes of a bank's page at a
/// time.
pub fn string_len(bus: &Bus, a: u32) -> Result<u64, u32>
    requires { IsStarted (state_of base size state touched bus.now) }
    ensures { MatchResult result (λ n. Reaches (state_of base size state touched bus.now).contents a n) (λ told. IsBroken (state_of base size state touched bus.now).contents a told) }
{
    let mut n: u64 = 0;
    'pieces: while n < 1 << 32 {
        let at = a.wrapping_add(n as u32);
        let piece = bus.piece(at);
        if let Some(k) = first_zero(piece) {
            return Ok((n + k as u64).min(1 << 32));
        }
        if piece.is_empty() {
            return match bus.peek(at) {
                Some(_) => Ok(n),
                None => Err(at),
            };
        }
        n += piece.len() as u64;
    }
    Ok(1 << 32)
}

/// So many of the bytes, or all where there are fewer.
fn front_of(bytes: &[u8], count: u64) -> &[u8]
    ensures { result.now ≡ take (min (length bytes.now) count) bytes.now }
{
    if (bytes.len() as u64) < count {
        bytes
    } else {
        &bytes[..count as usize]
    }
}

/// Prints the first bytes from an address on, those of a bank's page at a time. A byte that no bank has is a zero.
pub fn print_bytes<K: Sink>(bus: &Bus, a: u32, count: u64, sink: &mut K) -> Result<(), SinkError>
    requires started { IsStarted (state_of base size state touched bus.now) }
    requires few { count ≤ 2 ^ 32 }
    ensures ok { OnOk result (Got (K.bytes sink.old) (K.bytes sink.new) (bytes_behind (state_of base size state touched bus.now).contents a count)) }
    ensures failed { OnErr result (Rose (K.faults sink.old) (K.faults sink.new) × GotPart (K.bytes sink.old) (K.bytes sink.new) (bytes_behind (state_of base size state touched bus.now).contents a count)) }
    ensures some { OnErr result (0 < count) }
    ensures faults { K.faults sink.old ≤ K.faults sink.new }
{
    let mut n: u64 = 0;
    'pieces: while n < count {
        let piece = bus.piece(a.wrapping_add(n as u32));
        if piece.is_empty() {
            sink.write_all(&[0])?;
            n += 1;
        } else {
            let front = front_of(piece, count - n);
            sink.write_all(front)?;
            n += front.len() as u64;
        }
    }
    Ok(())
}
