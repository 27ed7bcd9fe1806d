//! The target's description.

ghost use Rattle.std.specs.Prelude.{◌≡◌, IfOk, take, drop};
ghost use Rattle.gdb_packets.specs.Target as target;

use sdt_fault::NoMemory;
use std::alloc::Global;

const DESCRIPTION: &[u8] = b"<?xml version='1.0'?>
<!DOCTYPE target SYSTEM 'gdb-target.dtd'>
<target version='1.0'><architecture>armv4t</architecture><feature name='org.gnu.gdb.arm.core'>
<reg name='r0' bitsize='32' type='uint32'/>
<reg name='r1' bitsize='32' type='uint32'/>
<reg name='r2' bitsize='32' type='uint32'/>
<reg name='r3' bitsize='32' type='uint32'/>
<reg name='r4' bitsize='32' type='uint32'/>
<reg name='r5' bitsize='32' type='uint32'/>
<reg name='r6' bitsize='32' type='uint32'/>
<reg name='r7' bitsize='32' type='uint32'/>
<reg name='r8' bitsize='32' type='uint32'/>
<reg name='r9' bitsize='32' type='uint32'/>
<reg name='r10' bitsize='32' type='uint32'/>
<reg name='r11' bitsize='32' type='uint32'/>
<reg name='r12' bitsize='32' type='uint32'/>
<reg name='sp' bitsize='32' type='data_ptr'/>
<reg name='lr' bitsize='32'/>
<reg name='pc' bitsize='32' type='code_ptr'/>
<reg name='cpsr' bitsize='32' regnum='25'/>
</feature></target>
";

/// The description's text.
fn description() -> &'static [u8]
    ensures { result.now ≡ target.description }
{
    DESCRIPTION
}

/// What stands from an offset on.
fn rest_from(text: &[u8], offset: usize) -> &[u8]
    ensures { result.now ≡ drop offset text.now }
{
    if offset >= text.len() {
        return &text[text.len()..];
    }
    &text[offset..]
}

/// At most so many bytes.
fn at_most(text: &[u8], size: usize) -> &[u8]
    ensures { result.now ≡ take size text.now }
{
    if size >= text.len() {
        return text;
    }
    &text[..size]
}

/// At most so many bytes from an offset on, behind `m` where more stand behind them, else behind `l`.
fn piece(alloc: Global, text: &[u8], offset: usize, size: usize) -> Result<Vec<u8>, NoMemory>
    ensures { IfOk result (λ reply. reply.items ≡ target.piece text.now offset size) }
{
    let rest = rest_from(text, offset);
    let mut reply = Vec::new(alloc);
    reply.push(if size < rest.len() { b'm' } else { b'l' })?;
    reply.extend_from_slice(at_most(rest, size))?;
    Ok(reply)
}

/// The reply to `qXfer:features:read:target.xml:A,N`.
pub fn description_reply(alloc: Global, offset: u32, size: u32) -> Result<Vec<u8>, NoMemory>
    ensures { IfOk result (λ reply. reply.items ≡ target.piece target.description offset size) }
{
    piece(alloc, description(), offset as usize, size as usize)
}
