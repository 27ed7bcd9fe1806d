//! An image of records, read line by line.

ghost use Rattle.std.specs.Prelude.{◌≡◌, ◌+◌, ◌∷◌, ◌<◌, ◌==◌, ◌||◌, [], length, position, IfOk, OnOk, None};
ghost use Rattle.std.specs.Str.Lines.{lines, strip_carriage_return};
ghost use Rattle.sdt_fault.specs.declared.answer.Fault.TheVariants as fault;
ghost use Rattle.sdt_fault.specs.declared.refusal.Refusal.TheVariants.{BadRecord};
ghost use Rattle.hex_image.specs.declared.records.Form.TheVariants as form_of;
ghost use Rattle.hex_image.specs.declared.records.Item.TheVariants as item_of;
ghost use Rattle.hex_image.specs.Images as images;
ghost use Rattle.hex_image.specs.declared.records.Burn.{Burn};
ghost use Rattle.hex_image.specs.Reads.{ReadsIhex, ReadsSrec};
ghost use Rattle.hex_image.specs.Reading as reading;
ghost use Rattle.hex_image.specs.Reading.{Gives, burn_of};
ghost use Rattle.hex_image.specs.Readers.{IsJudged, IsRead, state_of};

use crate::pieces::Pieces;
use crate::records::{Burn, Form, Item, Piece};
use crate::{ihex, srec};
use sdt_fault::answer::Fault;
use sdt_fault::kinds::RecordKind;
use sdt_fault::refusal::Refusal;
use sdt_fault::{Bytes, List, NoMemory, Text};
use std::alloc::Global;

/// Where the first line feed stands.
fn line_feed(text: &[u8]) -> Option<usize>
    ensures { result ≡ position (λ b. b == 10) text.now }
{
    text.iter().position(|byte| *byte == b'\n')
}

/// The text without the carriage return at its end.
fn without_return(text: &[u8]) -> &[u8]
    ensures { result.now ≡ strip_carriage_return text.now }
{
    if text.is_empty() {
        return text;
    }
    let last = text.len() - 1;
    if text[last] == b'\r' {
        return &text[..last];
    }
    text
}

/// The first line of a text that isn't empty, and the text behind its end.
fn first_line(text: &[u8]) -> (&[u8], &[u8])
    requires { 0 < length text.now }
    ensures first { lines text.now ≡ result.0.now ∷ lines result.1.now }
    ensures shorter { length result.1.now < length text.now }
{
    match line_feed(text) {
        None => (text, &text[text.len()..]),
        Some(end) => (without_return(&text[..end]), &text[end + 1..]),
    }
}

/// Whether the line has spaces and tabs alone.
fn is_blank(line: &[u8]) -> bool
    ensures { result ≡ reading.is_blank line.now }
{
    line.iter().all(|byte| *byte == b' ' || *byte == b'\t')
}

/// What a line says, or the first of what is wrong with it.
fn said(alloc: Global, form: Form, line: &[u8]) -> Result<Result<Item, RecordKind>, NoMemory>
    ensures { IfOk result (λ said. said ≡ reading.said form line.now) }
{
    match form {
        Form::Ihex => ihex::said(alloc, line),
        Form::Srec => srec::said(alloc, line),
    }
}

/// What is read so far: the base of the data behind it, the start, whether the end stands before, and the pieces.
#[derive(Drop)]
pub struct Reader {
    base: u32,
    start: u32,
    ended: bool,
    pieces: Pieces,
}

impl Reader {
    fn late(&self) -> Option<RecordKind>
        ensures { result ≡ reading.late (state_of self.now) }
    {
        self.ended.then_some(RecordKind::Order)
    }

    fn start_flaw(&self, address: u32) -> Option<RecordKind>
        ensures { result ≡ reading.start_flaw (state_of self.now) address }
    {
        if address % 4 == 2 {
            return Some(RecordKind::Address);
        }
        self.late()
    }

    /// What is wrong with bytes from here up to there.
    fn range_flaw(&self, base: u64, end: u64) -> Option<RecordKind>
        requires { IsRead self.now }
        ensures { result ≡ reading.range_flaw (state_of self.now) base end }
    {
        if end > 1 << 32 {
            return Some(RecordKind::Address);
        }
        if base < end && self.pieces.meets(base, end) {
            return Some(RecordKind::Repeated);
        }
        self.late()
    }

    fn data_flaw(&self, address: u32, bytes: &Bytes) -> Option<RecordKind>
        requires { IsRead self.now }
        ensures { result ≡ reading.piece_flaw (state_of self.now) (images.piece (self.now.base + address) bytes.now) }
    {
        let base = u64::from(self.base) + u64::from(address);
        self.range_flaw(base, base + bytes.as_slice().len() as u64)
    }

    /// The first of what is wrong with an item behind those before it.
    fn flaw(&self, item: &Item) -> Option<RecordKind>
        requires { IsRead self.now }
        ensures { result ≡ reading.flaw (state_of self.now) item.now }
    {
        match item {
            Item::Data { address, bytes } => self.data_flaw(*address, bytes),
            Item::Start(address) => self.start_flaw(*address),
            Item::EndAt(address) => self.start_flaw(*address),
            _ => self.late(),
        }
    }

    fn add_data(&mut self, address: u32, bytes: Bytes) -> Result<(), NoMemory>
        requires read { IsRead self.old }
        requires good { reading.piece_flaw (state_of self.old) (images.piece (self.old.base + address) bytes) ≡ None }
        ensures state { OnOk result (state_of self.new ≡ reading.after (state_of self.old) (item_of.Data address bytes)) }
        ensures read { OnOk result (IsRead self.new) }
    {
        if bytes.as_slice().is_empty() {
            return Ok(());
        }
        let base = u64::from(self.base) + u64::from(address);
        self.pieces.add(Piece {
            base: base as u32,
            bytes,
        })
    }

    /// Adds an item with which nothing is wrong.
    fn add(&mut self, item: Item) -> Result<(), NoMemory>
        requires read { IsRead self.old }
        requires good { reading.flaw (state_of self.old) item ≡ None }
        ensures state { OnOk result (state_of self.new ≡ reading.after (state_of self.old) item) }
        ensures read { OnOk result (IsRead self.new) }
    {
        match item {
            Item::Data { address, bytes } => return self.add_data(address, bytes),
            Item::Base(base) => self.base = base,
            Item::Start(start) => self.start = start,
            Item::End => self.ended = true,
            Item::EndAt(start) => {
                self.start = start;
                self.ended = true;
            }
            Item::Nothing => {}
        }
        Ok(())
    }

    /// Adds what a line says, or gives the first of what is wrong with it.
    fn add_line(
        &mut self,
        alloc: Global,
        form: Form,
        line: &[u8],
    ) -> Result<Option<RecordKind>, NoMemory>
        requires { IsRead self.old }
        ensures line { IfOk result (IsJudged (reading.with_line form (state_of self.old) line.now) (state_of self.new)) }
        ensures read { OnOk result (IsRead self.new) }
    {
        if is_blank(line) {
            return Ok(None);
        }
        let item = match said(alloc, form, line)? {
            Ok(item) => item,
            Err(kind) => return Ok(Some(kind)),
        };
        if let Some(kind) = self.flaw(&item) {
            return Ok(Some(kind));
        }
        self.add(item)?;
        Ok(None)
    }
}

fn bad_line(alloc: Global, line: u64, kind: RecordKind) -> Fault
    ensures { result ≡ fault.Refused (BadRecord [] (reading.told_line line) kind) }
{
    Fault::Refused(Refusal::BadRecord {
        file: Text::from_vec(Vec::new(alloc)),
        line: line.min(0xFFFF_FFFF) as u32,
        kind,
    })
}

/// The image, where the end stands.
fn whole(alloc: Global, line: u64, reader: Reader) -> Result<Burn, Fault>
    ensures { Gives result (reading.refusal (reading.whole line (state_of reader))) }
{
    if !reader.ended {
        return Err(bad_line(alloc, line, RecordKind::Order));
    }
    Ok(Burn {
        pieces: List::from_vec(reader.pieces.into_vec()),
        start: reader.start,
    })
}

fn read(alloc: Global, form: Form, b: &[u8]) -> Result<Burn, Fault>
    ensures { Gives result (burn_of form b.now) }
{
    let mut reader = Reader {
        base: 0,
        start: 0,
        ended: false,
        pieces: Pieces::new(alloc),
    };
    let mut number = 1;
    let mut rest = b;
    'lines: while !rest.is_empty() {
        let (line, after) = first_line(rest);
        if let Some(kind) = reader.add_line(alloc, form, line)? {
            return Err(bad_line(alloc, number, kind));
        }
        rest = after;
        number += 1;
    }
    whole(alloc, number, reader)
}

/// The image of a text in Intel HEX, with a piece for each data record that has bytes. Gives `BadRecord`, with an empty
/// file name, exactly where a line is at fault, with the number of the first such line, from 1, and the first of what is
/// wrong with it; where no end stands, that is the line behind the last.
pub fn read_ihex(alloc: Global, b: &[u8]) -> Result<Burn, Fault>
    // What is read is what the text tells.
    ensures found { IfOk result (ReadsIhex b.now) }
    // What a text tells is read, unless memory was refused.
    ensures only { (burn : Burn) → ReadsIhex b.now burn → Gives result (Ok burn) }
    // The lines in order, up to the first at fault.
    ensures exact { Gives result (burn_of form_of.Ihex b.now) }
{
    read(alloc, Form::Ihex, b)
}

/// The image of a text of S-records, as `read_ihex` has it.
pub fn read_srec(alloc: Global, b: &[u8]) -> Result<Burn, Fault>
    // What is read is what the text tells.
    ensures found { IfOk result (ReadsSrec b.now) }
    // What a text tells is read, unless memory was refused.
    ensures only { (burn : Burn) → ReadsSrec b.now burn → Gives result (Ok burn) }
    // The lines in order, up to the first at fault.
    ensures exact { Gives result (burn_of form_of.Srec b.now) }
{
    read(alloc, Form::Srec, b)
}
