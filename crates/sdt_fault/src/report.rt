//! The text of an answer, as it is printed.

ghost use Rattle.std.specs.Prelude.{◌≡◌, ◌++◌, ◌∷◌, [], OnOk, IfOk};
ghost use Rattle.std.specs.Fmt.{decimal};
ghost use Rattle.sdt_fault.specs.Digits.{hexadecimal};
ghost use Rattle.sdt_fault.specs.Refusals.{fields_of, number_of, refusal_text, spaced, word_of};
ghost use Rattle.sdt_fault.specs.Answers.{answer_text, stop_text};

use crate::NoMemory;
use crate::answer::{Answer, Stop};
use crate::contents::Text;
use crate::digits::{push_decimal, push_hexadecimal};
use crate::refusal::Refusal;
use std::alloc::Global;

/// The text that the program prints for an answer, without a line feed. `Done` is not printed.
pub fn text_of(alloc: Global, answer: &Answer) -> Result<Text, NoMemory>
    ensures { IfOk result (λ text. text ≡ answer_text answer.now) }
{
    let mut out = Vec::new(alloc);
    push_answer(alloc, &mut out, answer)?;
    Ok(Text::from_vec(out))
}

fn push_answer(alloc: Global, out: &mut Vec<u8>, answer: &Answer) -> Result<(), NoMemory>
    ensures { OnOk result (out.new.items ≡ out.old.items ++ answer_text answer.now) }
{
    match answer {
        Answer::Done => push(out, b"done"),
        Answer::Refused(refusal) => push_refusal(alloc, out, refusal),
        Answer::ReadFault(name) => push_both(out, b"cannot read ", name.as_slice()),
        Answer::WriteFault(name) => push_both(out, b"cannot write ", name.as_slice()),
        Answer::SinkFault => push(out, b"cannot print"),
        Answer::Stopped(stop) => push_stop(alloc, out, *stop),
        Answer::NoMemory => push(out, b"no memory"),
    }
}

fn push_stop(alloc: Global, out: &mut Vec<u8>, stop: Stop) -> Result<(), NoMemory>
    ensures { OnOk result (out.new.items ≡ out.old.items ++ stop_text stop) }
{
    match stop {
        Stop::Exit => push(out, b"stopped: exit"),
        Stop::Budget => push(out, b"stopped: budget"),
        Stop::Unpredictable { address, word } => {
            push(out, b"stopped: unpredictable")?;
            push_both_addresses(alloc, out, address, word)
        }
        Stop::BadString { address } => push_stop_at(alloc, out, b"stopped: bad string", address),
        Stop::NoFrame { address } => push_stop_at(alloc, out, b"stopped: no frame", address),
        Stop::Sink => push(out, b"stopped: sink"),
    }
}

fn push_both_addresses(
    alloc: Global,
    out: &mut Vec<u8>,
    first: u32,
    second: u32,
) -> Result<(), NoMemory>
    ensures { OnOk result (out.new.items ≡ out.old.items ++ spaced (hexadecimal first ∷ hexadecimal second ∷ [])) }
{
    push_address(alloc, out, first)?;
    push_address(alloc, out, second)
}

fn push_stop_at(
    alloc: Global,
    out: &mut Vec<u8>,
    reason: &[u8],
    address: u32,
) -> Result<(), NoMemory>
    ensures { OnOk result (out.new.items ≡ out.old.items ++ (reason.now ++ spaced (hexadecimal address ∷ []))) }
{
    push(out, reason)?;
    push_address(alloc, out, address)
}

#[tactic(auto, unfolding(crate::specs::Refusals::refusal_text))]
fn push_refusal(alloc: Global, out: &mut Vec<u8>, refusal: &Refusal) -> Result<(), NoMemory>
    ensures { OnOk result (out.new.items ≡ out.old.items ++ refusal_text refusal.now) }
{
    push(out, b"refused")?;
    push_number(alloc, out, number(refusal))?;
    push_word(out, word(refusal).as_bytes())?;
    push_fields(alloc, out, refusal)
}

fn number(refusal: &Refusal) -> u32
    ensures { result ≡ number_of refusal.now }
{
    match refusal {
        Refusal::BadWords { .. } => 1,
        Refusal::BadLine { .. } => 2,
        Refusal::BadChunk { .. } => 3,
        Refusal::BadObject { .. } => 4,
        Refusal::BadLibrary { .. } => 5,
        Refusal::Duplicate { .. } => 6,
        Refusal::Undefined { .. } => 7,
        Refusal::NoEntry => 8,
        Refusal::TwoEntries { .. } => 9,
        Refusal::ScatterLine { .. } => 10,
        Refusal::Unassigned { .. } => 11,
        Refusal::Ambiguous { .. } => 12,
        Refusal::Overlap { .. } => 13,
        Refusal::Overfull { .. } => 14,
        Refusal::NoRoot { .. } => 15,
        Refusal::CopyConflict { .. } => 16,
        Refusal::TooLarge { .. } => 17,
        Refusal::NotInterworking { .. } => 18,
        Refusal::Unreachable { .. } => 19,
        Refusal::FieldOverflow { .. } => 20,
        Refusal::BadRelocation { .. } => 21,
        Refusal::NotRelocatable { .. } => 22,
        Refusal::BadImage { .. } => 23,
        Refusal::BankOverlap { .. } => 24,
        Refusal::NoRoom { .. } => 25,
        Refusal::Missing { .. } => 26,
        Refusal::NotWritable { .. } => 27,
        Refusal::BadCommand { .. } => 28,
        Refusal::BadRecord { .. } => 29,
    }
}

fn word(refusal: &Refusal) -> &'static str
    ensures { result.now ≡ word_of refusal.now }
{
    match refusal {
        Refusal::BadWords { .. } => "BadWords",
        Refusal::BadLine { .. } => "BadLine",
        Refusal::BadChunk { .. } => "BadChunk",
        Refusal::BadObject { .. } => "BadObject",
        Refusal::BadLibrary { .. } => "BadLibrary",
        Refusal::Duplicate { .. } => "Duplicate",
        Refusal::Undefined { .. } => "Undefined",
        Refusal::NoEntry => "NoEntry",
        Refusal::TwoEntries { .. } => "TwoEntries",
        Refusal::ScatterLine { .. } => "ScatterLine",
        Refusal::Unassigned { .. } => "Unassigned",
        Refusal::Ambiguous { .. } => "Ambiguous",
        Refusal::Overlap { .. } => "Overlap",
        Refusal::Overfull { .. } => "Overfull",
        Refusal::NoRoot { .. } => "NoRoot",
        Refusal::CopyConflict { .. } => "CopyConflict",
        Refusal::TooLarge { .. } => "TooLarge",
        Refusal::NotInterworking { .. } => "NotInterworking",
        Refusal::Unreachable { .. } => "Unreachable",
        Refusal::FieldOverflow { .. } => "FieldOverflow",
        Refusal::BadRelocation { .. } => "BadRelocation",
        Refusal::NotRelocatable { .. } => "NotRelocatable",
        Refusal::BadImage { .. } => "BadImage",
        Refusal::BankOverlap { .. } => "BankOverlap",
        Refusal::NoRoom { .. } => "NoRoom",
        Refusal::Missing { .. } => "Missing",
        Refusal::NotWritable { .. } => "NotWritable",
        Refusal::BadCommand { .. } => "BadCommand",
        Refusal::BadRecord { .. } => "BadRecord",
    }
}

fn push_fields(alloc: Global, out: &mut Vec<u8>, refusal: &Refusal) -> Result<(), NoMemory>
    ensures { OnOk result (out.new.items ≡ out.old.items ++ spaced (fields_of refusal.now)) }
{
    match refusal {
        Refusal::BadWords { place } => push_number(alloc, out, *place),
        Refusal::BadLine { source, line, kind } => push_line(
            alloc,
            out,
            source,
            *line,
            kind.word(),
        ),
        Refusal::BadCommand { file, line, kind } => push_line(alloc, out, file, *line, kind.word()),
        Refusal::BadRecord { file, line, kind } => push_line(alloc, out, file, *line, kind.word()),
        Refusal::BadChunk { file, offset, kind } => push_offset(
            alloc,
            out,
            file,
            *offset,
            kind.word(),
        ),
        Refusal::BadObject { file, offset, kind } => push_offset(
            alloc,
            out,
            file,
            *offset,
            kind.word(),
        ),
        Refusal::BadLibrary { file, offset, kind } => push_offset(
            alloc,
            out,
            file,
            *offset,
            kind.word(),
        ),
        Refusal::BadImage { file, offset, kind } => push_offset(
            alloc,
            out,
            file,
            *offset,
            kind.word(),
        ),
        Refusal::Duplicate {
            symbol,
            first,
            second,
        } => push_three(out, symbol, first, second),
        Refusal::Undefined { symbol, object } => push_two(out, symbol, object),
        Refusal::TwoEntries { first, second } => push_two(out, first, second),
        Refusal::Unassigned { object, area } => push_two(out, object, area),
        Refusal::NotInterworking { symbol, area } => push_two(out, symbol, area),
        Refusal::NoEntry => Ok(()),
        Refusal::ScatterLine { line, kind } => push_scatter_line(alloc, out, *line, kind.word()),
        Refusal::Ambiguous {
            object,
            area,
            first,
            second,
        } => push_two_lines(alloc, out, object, area, *first, *second),
        Refusal::Overlap {
            first,
            second,
            address,
        } => push_at(alloc, out, first, second, *address),
        Refusal::CopyConflict {
            first,
            second,
            address,
        } => push_at(alloc, out, first, second, *address),
        Refusal::FieldOverflow {
            object,
            area,
            offset,
        } => push_at(alloc, out, object, area, *offset),
        Refusal::BadRelocation {
            object,
            area,
            offset,
        } => push_at(alloc, out, object, area, *offset),
        Refusal::NotRelocatable {
            object,
            area,
            offset,
        } => push_at(alloc, out, object, area, *offset),
        Refusal::Overfull {
            region,
            size,
            maximum,
        } => push_sizes(alloc, out, region, *size, *maximum),
        Refusal::NoRoot { region } => push_word(out, region.as_slice()),
        Refusal::Missing { name } => push_word(out, name.as_slice()),
        Refusal::TooLarge { quantity, limit } => push_limit(alloc, out, quantity.word(), *limit),
        Refusal::Unreachable {
            object,
            area,
            offset,
            symbol,
        } => push_branch(alloc, out, object, area, *offset, symbol),
        Refusal::BankOverlap { address } => push_address(alloc, out, *address),
        Refusal::NoRoom { address } => push_address(alloc, out, *address),
        Refusal::NotWritable { region, address } => push_one_at(alloc, out, region, *address),
    }
}

fn push_line(
    alloc: Global,
    out: &mut Vec<u8>,
    file: &Text,
    line: u32,
    kind: &str,
) -> Result<(), NoMemory>
    ensures { OnOk result (out.new.items ≡ out.old.items ++ spaced (file.now ∷ decimal line ∷ kind.now ∷ [])) }
{
    push_word(out, file.as_slice())?;
    push_number(alloc, out, line)?;
    push_word(out, kind.as_bytes())
}

fn push_offset(
    alloc: Global,
    out: &mut Vec<u8>,
    file: &Text,
    offset: u32,
    kind: &str,
) -> Result<(), NoMemory>
    ensures { OnOk result (out.new.items ≡ out.old.items ++ spaced (file.now ∷ hexadecimal offset ∷ kind.now ∷ [])) }
{
    push_word(out, file.as_slice())?;
    push_address(alloc, out, offset)?;
    push_word(out, kind.as_bytes())
}

fn push_three(out: &mut Vec<u8>, first: &Text, second: &Text, third: &Text) -> Result<(), NoMemory>
    ensures { OnOk result (out.new.items ≡ out.old.items ++ spaced (first.now ∷ second.now ∷ third.now ∷ [])) }
{
    push_word(out, first.as_slice())?;
    push_word(out, second.as_slice())?;
    push_word(out, third.as_slice())
}

fn push_two(out: &mut Vec<u8>, first: &Text, second: &Text) -> Result<(), NoMemory>
    ensures { OnOk result (out.new.items ≡ out.old.items ++ spaced (first.now ∷ second.now ∷ [])) }
{
    push_word(out, first.as_slice())?;
    push_word(out, second.as_slice())
}

fn push_scatter_line(
    alloc: Global,
    out: &mut Vec<u8>,
    line: u32,
    kind: &str,
) -> Result<(), NoMemory>
    ensures { OnOk result (out.new.items ≡ out.old.items ++ spaced (decimal line ∷ kind.now ∷ [])) }
{
    push_number(alloc, out, line)?;
    push_word(out, kind.as_bytes())
}

fn push_two_lines(
    alloc: Global,
    out: &mut Vec<u8>,
    object: &Text,
    area: &Text,
    first: u32,
    second: u32,
) -> Result<(), NoMemory>
    ensures { OnOk result (out.new.items ≡ out.old.items ++ spaced (object.now ∷ area.now ∷ decimal first ∷ decimal second ∷ [])) }
{
    push_word(out, object.as_slice())?;
    push_word(out, area.as_slice())?;
    push_number(alloc, out, first)?;
    push_number(alloc, out, second)
}

fn push_at(
    alloc: Global,
    out: &mut Vec<u8>,
    first: &Text,
    second: &Text,
    address: u32,
) -> Result<(), NoMemory>
    ensures { OnOk result (out.new.items ≡ out.old.items ++ spaced (first.now ∷ second.now ∷ hexadecimal address ∷ [])) }
{
    push_word(out, first.as_slice())?;
    push_word(out, second.as_slice())?;
    push_address(alloc, out, address)
}

fn push_sizes(
    alloc: Global,
    out: &mut Vec<u8>,
    region: &Text,
    size: u64,
    maximum: u64,
) -> Result<(), NoMemory>
    ensures { OnOk result (out.new.items ≡ out.old.items ++ spaced (region.now ∷ hexadecimal size ∷ hexadecimal maximum ∷ [])) }
{
    push_word(out, region.as_slice())?;
    push_size(alloc, out, size)?;
    push_size(alloc, out, maximum)
}

fn push_limit(alloc: Global, out: &mut Vec<u8>, quantity: &str, limit: u64) -> Result<(), NoMemory>
    ensures { OnOk result (out.new.items ≡ out.old.items ++ spaced (quantity.now ∷ hexadecimal limit ∷ [])) }
{
    push_word(out, quantity.as_bytes())?;
    push_size(alloc, out, limit)
}

fn push_branch(
    alloc: Global,
    out: &mut Vec<u8>,
    object: &Text,
    area: &Text,
    offset: u32,
    symbol: &Text,
) -> Result<(), NoMemory>
    ensures { OnOk result (out.new.items ≡ out.old.items ++ spaced (object.now ∷ area.now ∷ hexadecimal offset ∷ symbol.now ∷ [])) }
{
    push_word(out, object.as_slice())?;
    push_word(out, area.as_slice())?;
    push_address(alloc, out, offset)?;
    push_word(out, symbol.as_slice())
}

fn push_one_at(
    alloc: Global,
    out: &mut Vec<u8>,
    region: &Text,
    address: u32,
) -> Result<(), NoMemory>
    ensures { OnOk result (out.new.items ≡ out.old.items ++ spaced (region.now ∷ hexadecimal address ∷ [])) }
{
    push_word(out, region.as_slice())?;
    push_address(alloc, out, address)
}

// A number after a space.
fn push_number(alloc: Global, out: &mut Vec<u8>, number: u32) -> Result<(), NoMemory>
    ensures { OnOk result (out.new.items ≡ out.old.items ++ 32 ∷ decimal number) }
{
    push(out, b" ")?;
    push_decimal(alloc, out, number as u64)
}

// An address after a space.
fn push_address(alloc: Global, out: &mut Vec<u8>, address: u32) -> Result<(), NoMemory>
    ensures { OnOk result (out.new.items ≡ out.old.items ++ 32 ∷ hexadecimal address) }
{
    push_size(alloc, out, address as u64)
}

fn push_size(alloc: Global, out: &mut Vec<u8>, size: u64) -> Result<(), NoMemory>
    ensures { OnOk result (out.new.items ≡ out.old.items ++ 32 ∷ hexadecimal size) }
{
    push(out, b" ")?;
    push_hexadecimal(alloc, out, size)
}

// A word after a space.
fn push_word(out: &mut Vec<u8>, word: &[u8]) -> Result<(), NoMemory>
    ensures { OnOk result (out.new.items ≡ out.old.items ++ 32 ∷ word.now) }
{
    push_both(out, b" ", word)
}

fn push_both(out: &mut Vec<u8>, first: &[u8], second: &[u8]) -> Result<(), NoMemory>
    ensures { OnOk result (out.new.items ≡ out.old.items ++ (first.now ++ second.now)) }
{
    push(out, first)?;
    push(out, second)
}

fn push(out: &mut Vec<u8>, piece: &[u8]) -> Result<(), NoMemory>
    ensures { OnOk result (out.new.items ≡ out.old.items ++ piece.now) }
{
    out.extend_from_slice(piece)?;
    Ok(())
}
