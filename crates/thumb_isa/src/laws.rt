//! The law of the table. Its call does nothing; its contract is the law.

ghost use Rattle.std.specs.Prelude.{◌≡◌, ◌<◌, ◌^◌, ℕ};
ghost use Rattle.sdt_word.specs.Rows.{width_of};
ghost use Rattle.thumb_isa.specs.ThumbRows.{ReadsThumb, thumb_row};
ghost use Rattle.thumb_isa.specs.declared.instr.ThumbInstr.{ThumbInstr};

/// A half-word reads as at most one instruction, and an instruction is read from at most one
/// half-word. Each row has 16 bits, and what reads is a half-word.
pub fn thumb_reading_law()
    ensures one_instruction { (h : ℕ) (i j : ThumbInstr) → ReadsThumb h i → ReadsThumb h j → i ≡ j }
    ensures one_half { (g h : ℕ) (i : ThumbInstr) → ReadsThumb g i → ReadsThumb h i → g ≡ h }
    ensures row_width { (i : ThumbInstr) → width_of (thumb_row i) ≡ 16 }
    ensures half_width { (h : ℕ) (i : ThumbInstr) → ReadsThumb h i → h < 2 ^ 16 }
{}
