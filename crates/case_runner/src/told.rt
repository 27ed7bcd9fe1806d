//! Texts that grow, and what is told of a case that fails.

use sdt_fault::NoMemory;
use std::alloc::Global;

/// The number of bytes of a content that a report shows.
const SHOWN: usize = 80;

/// Bytes that grow. Where memory was refused they lack something, and are `short` from then on.
#[derive(Drop)]
pub struct Growing {
    pub bytes: Vec<u8>,
    pub short: bool,
}

impl Growing {
    pub fn new(alloc: Global) -> Growing {
        Growing {
            bytes: Vec::new(alloc),
            short: false,
        }
    }

    pub fn put(&mut self, byte: u8) {
        if self.bytes.push(byte).is_err() {
            self.short = true;
        }
    }

    pub fn put_all(&mut self, bytes: &[u8]) {
        if self.bytes.extend_from_slice(bytes).is_err() {
            self.short = true;
        }
    }

    pub fn say(&mut self, text: &str) {
        self.put_all(text.as_bytes());
    }

    /// The number in decimal.
    pub fn say_number(&mut self, number: u64) {
        let mut digits = itoa::Buffer::new();
        self.say(digits.format(number));
    }

    /// The bytes of a content from a place on to the end of the line, in quotes and with escapes; no more than fit a report.
    pub fn show(&mut self, content: &[u8], from: usize) {
        let behind = content.get(from..).unwrap_or(&[]);
        if behind.is_empty() {
            self.say("the end");
            return;
        }
        self.put(b'"');
        for byte in behind.get(..SHOWN).unwrap_or(behind) {
            self.show_byte(*byte);
            if *byte == b'\n' {
                break;
            }
        }
        self.put(b'"');
    }

    fn show_byte(&mut self, byte: u8) {
        match byte {
            b'\n' => self.say("\\n"),
            b'\t' => self.say("\\t"),
            b'\r' => self.say("\\r"),
            b'\\' => self.say("\\\\"),
            b' '..=b'~' => self.put(byte),
            _ => {
                self.say("\\x");
                self.put(digit_of(byte >> 4));
                self.put(digit_of(byte & 15));
            }
        }
    }
}

fn digit_of(number: u8) -> u8 {
    match number {
        0..=9 => b'0' + number,
        10..=15 => b'A' + (number - 10),
        _ => b'?',
    }
}

/// What is wrong with a case, and the line where that is. So long as the text is empty, nothing is.
#[derive(Drop)]
pub struct Told {
    pub line: usize,
    pub text: Growing,
}

impl Told {
    /// Something is wrong, or memory was refused.
    pub fn is_over(&self) -> bool {
        self.text.short || !self.text.bytes.is_empty()
    }

    /// Something else came than what was wanted.
    pub fn differ(&mut self, wanted: &str, came: &str) {
        self.text.say("wanted ");
        self.text.say(wanted);
        self.text.say(", came ");
        self.text.say(came);
    }

    /// The line in which two contents part, unless they are the same.
    pub fn compare(&mut self, wanted: &[u8], came: &[u8]) {
        let mut place = 0usize;
        let mut from = 0usize;
        for byte in wanted {
            if came.get(place) != Some(byte) {
                break;
            }
            place = place.wrapping_add(1);
            if *byte == b'\n' {
                from = place;
            }
        }
        if place == wanted.len() && place == came.len() {
            return;
        }
        self.text.say("wanted ");
        self.text.show(wanted, from);
        self.text.say(", came ");
        self.text.show(came, from);
        self.text.say(" (they part at byte ");
        self.text.say_number(place as u64);
        self.text.say(")");
    }
}
