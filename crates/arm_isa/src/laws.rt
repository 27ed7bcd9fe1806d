//! The law of the table. Its call does nothing; its contract is the law.

ghost use Rattle.std.specs.Prelude.{◌≡◌, ◌<◌, ◌^◌, ℕ};
ghost use Rattle.sdt_word.specs.Rows.{width_of};
ghost use Rattle.arm_isa.specs.ArmRows.{ReadsArm, arm_row};
ghost use Rattle.arm_isa.specs.declared.instr.ArmInstr.{ArmInstr};

/// A word reads as at most one instruction, and an instruction is read from at most one word. Each row
/// has 32 bits, and what reads is a word of 32 bits.
pub fn arm_reading_law()
    ensures one_instruction { (w : ℕ) (i j : ArmInstr) → ReadsArm w i → ReadsArm w j → i ≡ j }
    ensures one_word { (v w : ℕ) (i : ArmInstr) → ReadsArm v i → ReadsArm w i → v ≡ w }
    ensures row_width { (i : ArmInstr) → width_of (arm_row i) ≡ 32 }
    ensures word_width { (w : ℕ) (i : ArmInstr) → ReadsArm w i → w < 2 ^ 32 }
{}
