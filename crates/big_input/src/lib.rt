//! The text of the source that `make-big` makes, the store that it is assembled over, which has no files, and the sink
//! of its run, which takes each text. This project's. `sdt_toolkit` calls `big_source`, and hands `NoFiles` and
//! `NoText` on.
#![tactic(auto)]

ghost use Rattle.std.specs.Prelude.{◌≡◌, ◌++◌, codes, map, OnOk, IfOk};
ghost use Rattle.std.specs.List.{range_with_len};
ghost use Rattle.big_model.specs.Sources.{big_text, data_line, spelled, step_line};

mod sink;
mod store;

pub use crate::sink::NoText;
pub use crate::store::NoFiles;
use sdt_fault::digits::push_decimal;
use sdt_fault::{Bytes, NoMemory};
use std::alloc::Global;

fn push(out: &mut Vec<u8>, bytes: &[u8]) -> Result<(), NoMemory>
    ensures { OnOk result (out.new.items ≡ out.old.items ++ bytes.now) }
{
    out.extend_from_slice(bytes)?;
    Ok(())
}

// The line of step k, which adds k modulo 256 to r4.
fn push_step(alloc: Global, out: &mut Vec<u8>, k: u32) -> Result<(), NoMemory>
    ensures { OnOk result (out.new.items ≡ out.old.items ++ (step_line k ++ codes "\n")) }
{
    push(out, b"f")?;
    push_decimal(alloc, out, u64::from(k))?;
    push(out, b" ADD r4,r4,#")?;
    push_decimal(alloc, out, u64::from(k % 256))?;
    push(out, b"\n")
}

// The line of the word of data k.
fn push_datum(alloc: Global, out: &mut Vec<u8>, k: u32) -> Result<(), NoMemory>
    ensures { OnOk result (out.new.items ≡ out.old.items ++ (data_line k ++ codes "\n")) }
{
    push(out, b" DCD ")?;
    push_decimal(alloc, out, u64::from(k))?;
    push(out, b"\n")
}

#[tactic(auto, using(crate::proofs::SourceLemmas::one_more))]
fn push_steps(alloc: Global, out: &mut Vec<u8>, n: u32) -> Result<(), NoMemory>
    ensures { OnOk result (out.new.items ≡ out.old.items ++ spelled (map step_line (range_with_len 0 n))) }
{
    for k in 0..n {
        push_step(alloc, out, k)?;
    }
    Ok(())
}

#[tactic(auto, using(crate::proofs::SourceLemmas::one_more))]
fn push_data(alloc: Global, out: &mut Vec<u8>, n: u32) -> Result<(), NoMemory>
    ensures { OnOk result (out.new.items ≡ out.old.items ++ spelled (map data_line (range_with_len 0 n))) }
{
    for k in 0..n {
        push_datum(alloc, out, k)?;
    }
    Ok(())
}

/// The source with `n` steps and `n` words of data.
///
/// # Errors
///
/// Want of memory.
pub fn big_source(alloc: Global, n: u32) -> Result<Bytes, NoMemory>
    ensures { IfOk result (λ source. source ≡ big_text n) }
{
    let mut out = Vec::new(alloc);
    push(&mut out, b" AREA big, CODE, READONLY\n ENTRY\n MOV r4,#0\n")?;
    push_steps(alloc, &mut out, n)?;
    push(
        &mut out,
        b" MOV r0,r4\n SWI 0x11\n AREA bigrw, DATA, READWRITE\n",
    )?;
    push_data(alloc, &mut out, n)?;
    push(&mut out, b" END\n")?;
    Ok(Bytes::from_vec(out))
}
