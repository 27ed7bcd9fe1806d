//! Replies.

ghost use Rattle.std.specs.Prelude.{◌≡◌, ◌+◌, ◌%◌, ◌++◌, ◌<◌, IfOk, OnOk, false, sum};
ghost use Rattle.gdb_packets.specs.Framing as framing;
ghost use Rattle.gdb_packets.specs.Replies as replies;

use crate::request::Query;
use crate::shown::digit;
use sdt_fault::NoMemory;
use std::alloc::Global;

/// The low byte of the bytes' sum.
fn sum_of(bytes: &[u8]) -> u8
    ensures { result ≡ sum bytes.now % 256 }
{
    let mut total = 0u8;
    'bytes: for byte in bytes {
        total = total.wrapping_add(*byte);
    }
    total
}

/// A packet with this content.
pub fn framed(alloc: Global, content: &[u8]) -> Result<Vec<u8>, NoMemory>
    ensures { IfOk result (λ packet. packet.items ≡ framing.framed content.now) }
{
    let sum = sum_of(content);
    let mut packet = Vec::new(alloc);
    packet.push(b'$')?;
    packet.extend_from_slice(content)?;
    packet.push(b'#')?;
    packet.push(digit(sum / 16))?;
    packet.push(digit(sum % 16))?;
    Ok(packet)
}

/// The answer to a question that has one.
pub fn reply_to(query: Query) -> &'static [u8]
    ensures { result.now ≡ replies.reply_to query }
{
    match query {
        Query::Supported => {
            b"PacketSize=10000;qXfer:features:read+;swbreak+;hwbreak+;vContSupported+;QStartNoAckMode+"
        }
        Query::Actions => b"vCont;c;C;s;S",
        Query::Thread => b"OK",
        Query::CurrentThread => b"QC1",
        Query::FirstThreads => b"m1",
        Query::MoreThreads => b"l",
        Query::Attached => b"0",
        Query::Offsets => b"Text=0;Data=0;Bss=0",
    }
}
