//! Packets among bytes: `$`, the content, `#`, and two digits of the content's sum.

ghost use Rattle.std.specs.Prelude.{◌≡◌, ◌≤◌, ◌<◌, ◌+◌, ◌%◌, false, [], length, vec_len, vec_capacity, IfOk};
ghost use Rattle.gdb_packets.specs.Framing.{Hearing};
ghost use Rattle.gdb_packets.specs.Framing as framing;

use byte_tools::digit_value;
use sdt_fault::NoMemory;
use std::alloc::Global;
use std::marker::Model;

/// Where the next byte stands.
#[derive(Clone, Copy, PartialEq, Eq, Debug)]
pub enum Place {
    /// Between two packets.
    Between,
    /// In a packet's content, or at its `#`.
    Inside,
    /// At the first digit of the sum.
    First,
    /// At the second digit, behind this one.
    Second(u8),
}

/// What a byte came to.
#[derive(Clone, Copy, PartialEq, Eq, Debug)]
pub enum Heard {
    /// Nothing yet.
    Nothing,
    /// `+`: the last reply came in whole.
    Accepted,
    /// `-`: the last reply is wanted again.
    Again,
    /// 0x03: an interrupt.
    Interrupt,
    /// A packet ended whose content is held.
    Packet,
    /// A packet ended whose sum is wrong.
    Broken,
    /// A packet ended whose content is too long.
    TooLong,
}

/// The packet that is being heard, of at most 65,536 bytes.
#[derive(Drop)]
pub struct Framer {
    place: Place,
    content: Vec<u8>,
    sum: u8,
    long: bool,
    ghost room: { 65536 ≤ vec_capacity content },
    ghost few: { vec_len content ≤ 65536 },
}

impl Model for Framer {
    ghost Value = { Hearing };

    ghost view = { λ f. record { place = f.place; content = f.content.items; sum = f.sum; long = f.long } };
}

/// Whether two digits write the sum.
fn writes(high: u8, low: u8, sum: u8) -> bool
    ensures { result ≡ framing.writes high low sum }
{
    let high = digit_value(high);
    let low = digit_value(low);
    high < 16 && low < 16 && 16 * high + low == sum
}

/// What a byte between two packets comes to.
fn between(byte: u8) -> Heard
    ensures { result ≡ framing.between byte }
{
    if byte == b'+' {
        return Heard::Accepted;
    }
    if byte == b'-' {
        return Heard::Again;
    }
    if byte == 3 {
        return Heard::Interrupt;
    }
    Heard::Nothing
}

/// What a packet comes to that ends.
fn ended(right: bool, long: bool) -> Heard
    ensures { result ≡ framing.ended right long }
{
    if !right {
        return Heard::Broken;
    }
    if long {
        return Heard::TooLong;
    }
    Heard::Packet
}

impl Framer {
    /// No packet has begun. The memory of its content is taken now.
    pub fn new(alloc: Global) -> Result<Framer, NoMemory>
        ensures { IfOk result (λ framer. framer ≡ framing.idle) }
    {
        Ok(Framer {
            place: Place::Between,
            content: Vec::with_capacity(alloc, 65536)?,
            sum: 0,
            long: false,
        })
    }

    /// The content of the last packet.
    pub fn content(&self) -> &[u8]
        ensures { result.now ≡ self.now.content }
    {
        self.content.as_slice()
    }

    /// What the next byte comes to. Where sums aren't checked, each is right.
    pub fn told(&self, byte: u8, checked: bool) -> Heard
        ensures { result ≡ framing.told checked self.now byte }
    {
        match self.place {
            Place::Between => between(byte),
            Place::Inside | Place::First => Heard::Nothing,
            Place::Second(high) => ended(!checked || writes(high, byte, self.sum), self.long),
        }
    }

    /// A packet begins.
    fn begin(&mut self)
        ensures { self.new ≡ framing.begun }
    {
        self.place = Place::Inside;
        self.content.clear();
        self.sum = 0;
        self.long = false;
    }

    /// Keeps a byte of the content, where there is room.
    fn keep(&mut self, byte: u8)
        ensures { self.new ≡ framing.kept self.old byte }
    {
        self.sum = self.sum.wrapping_add(byte);
        if self.content.len() < 65536 {
            self.content.push(byte).unwrap();
        } else {
            self.long = true;
        }
    }

    /// Takes a byte in a packet.
    fn take_inside(&mut self, byte: u8)
        ensures { self.new ≡ framing.inside self.old byte }
    {
        if byte == b'$' {
            self.begin();
        } else if byte == b'#' {
            self.place = Place::First;
        } else {
            self.keep(byte);
        }
    }

    /// Takes the next byte.
    pub fn take(&mut self, byte: u8)
        ensures { self.new ≡ framing.after self.old byte }
    {
        match self.place {
            Place::Between => {
                if byte == b'$' {
                    self.begin();
                }
            }
            Place::Inside => self.take_inside(byte),
            Place::First => self.place = Place::Second(byte),
            Place::Second(_) => self.place = Place::Between,
        }
    }
}
