//! What words read as, remembered.

ghost use Rattle.std.specs.Prelude.{◌≡◌, MatchOption, false, true};
ghost use Rattle.arm_isa.specs.ArmRows.{IsUnread, ReadsArm};

use crate::halves::Halves;
use arm_isa::{ArmInstr, Operation, decode_arm};
use sdt_word::{Condition, ShiftKind};

/// A word with what it reads as.
#[derive(Clone, Copy)]
struct Entry {
    word: u32,
    found: ArmInstr,
    ghost reads: { ∥ ReadsArm word found ∥₁ },
}

impl Entry {
    /// The entry of word 0.
    fn first() -> Entry {
        Entry {
            word: 0,
            found: ArmInstr::DataShifted {
                condition: Condition::Eq,
                operation: Operation::And,
                set_flags: false,
                rn: 0,
                rd: 0,
                amount: 0,
                shift: ShiftKind::Lsl,
                rm: 0,
            },
        }
    }

    /// Takes in a word; false, and nothing changes, where it reads as no instruction.
    #[inline(never)]
    fn learn(&mut self, word: u32) -> bool
        ensures word { result ≡ true → self.new.word ≡ word }
        ensures none { result ≡ false → IsUnread word }
    {
        match decode_arm(word) {
            Some(found) => {
                *self = Entry { word, found };
                true
            }
            None => false,
        }
    }

    /// Whether the entry has the word now; else it reads as no instruction.
    #[inline(always)]
    fn holds(&mut self, word: u32) -> bool
        ensures word { result ≡ true → self.new.word ≡ word }
        ensures none { result ≡ false → IsUnread word }
    {
        if self.word == word {
            return true;
        }
        self.learn(word)
    }

    /// What a word reads as.
    #[inline(always)]
    fn reading(&mut self, word: u32) -> Option<&ArmInstr>
        ensures { MatchOption result (IsUnread word) (λ i. ReadsArm word i.now) }
    {
        if !self.holds(word) {
            return None;
        }
        Some(&self.found)
    }
}

/// The words that were read last, each at a place that its address tells, and the half-words. It decides nothing: it only
/// saves reading a word again.
#[derive(Drop)]
pub struct Known {
    entries: [Entry; 256],
    pub halves: Halves,
}

impl Known {
    pub fn new() -> Known {
        Known {
            entries: [Entry::first(); 256],
            halves: Halves::new(),
        }
    }

    /// What the word at an address reads as.
    #[inline(always)]
    pub fn reading(&mut self, at: u32, word: u32) -> Option<&ArmInstr>
        ensures { MatchOption result (IsUnread word) (λ i. ReadsArm word i.now) }
    {
        self.entries[(at / 4 % 256) as usize].reading(word)
    }
}
