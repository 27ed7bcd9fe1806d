//! What half-words read as, remembered.

ghost use Rattle.std.specs.Prelude.{◌≡◌, MatchOption, false, true};
ghost use Rattle.thumb_isa.specs.ThumbRows.{IsUnread, ReadsThumb};

use thumb_isa::{ThumbInstr, ThumbShift, decode_thumb, thumb_reading_law};

/// A half-word with what it reads as.
#[derive(Clone, Copy)]
struct Entry {
    half: u16,
    found: ThumbInstr,
    ghost reads: { ∥ ReadsThumb half found ∥₁ },
}

impl Entry {
    /// The entry of half-word 0.
    fn first() -> Entry {
        Entry {
            half: 0,
            found: ThumbInstr::ShiftImmediate {
                shift: ThumbShift::Lsl,
                amount: 0,
                rs: 0,
                rd: 0,
            },
        }
    }

    /// Takes in a half-word; false, and nothing changes, where it reads as no instruction.
    #[inline(never)]
    fn learn(&mut self, word: u32) -> bool
        ensures half { result ≡ true → self.new.half ≡ word }
        ensures none { result ≡ false → IsUnread word }
    {
        thumb_reading_law();
        let Ok(half) = u16::try_from(word) else {
            return false;
        };
        match decode_thumb(half) {
            Some(found) => {
                *self = Entry { half, found };
                true
            }
            None => false,
        }
    }

    /// Whether the entry has the half-word now; else it reads as no instruction.
    #[inline(always)]
    fn holds(&mut self, word: u32) -> bool
        ensures half { result ≡ true → self.new.half ≡ word }
        ensures none { result ≡ false → IsUnread word }
    {
        if u32::from(self.half) == word {
            return true;
        }
        self.learn(word)
    }

    /// What a half-word reads as.
    #[inline(always)]
    fn reading(&mut self, word: u32) -> Option<&ThumbInstr>
        ensures { MatchOption result (IsUnread word) (λ i. ReadsThumb word i.now) }
    {
        if !self.holds(word) {
            return None;
        }
        Some(&self.found)
    }
}

/// The half-words that were read last, each at a place that its address tells. It decides nothing: it only saves reading
/// a half-word again.
#[derive(Drop)]
pub struct Halves {
    entries: [Entry; 256],
}

impl Halves {
    pub fn new() -> Halves {
        Halves {
            entries: [Entry::first(); 256],
        }
    }

    /// What the half-word at an address reads as.
    #[inline(always)]
    pub fn reading(&mut self, at: u32, word: u32) -> Option<&ThumbInstr>
        ensures { MatchOption result (IsUnread word) (λ i. ReadsThumb word i.now) }
    {
        self.entries[(at / 2 % 256) as usize].reading(word)
    }
}
