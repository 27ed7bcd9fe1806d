//! Sums and displacements, counted without signs.

ghost use Rattle.std.specs.Prelude.{◌≡◌, ◌<◌, ◌^◌};
ghost use Rattle.patch_model.specs.Patched.{pc_offset as pc_offset_of, is_branch as reads_as_branch, bias as bias_of, biased_displacement as biased_displacement_of, total as total_of};
ghost use Rattle.link_apply.specs.PatchedBytes.{with_displacement as displaced};

/// The word of a number and what is added to it and taken from it.
pub fn total(old: u64, added: u64, subtracted: u64) -> u64
    ensures value { result ≡ total_of old added subtracted }
    ensures bound { result < 2 ^ 32 }
{
    (old % 0x1_0000_0000 + added % 0x1_0000_0000 + (0x1_0000_0000 - subtracted % 0x1_0000_0000))
        % 0x1_0000_0000
}

/// How far behind a branch its displacement counts from.
pub fn pc_offset(thumb: bool) -> u64
    ensures value { result ≡ pc_offset_of thumb }
    ensures bound { result < 9 }
{
    if thumb { 4 } else { 8 }
}

/// What stands for no displacement.
pub fn bias(thumb: bool) -> u64
    ensures value { result ≡ bias_of thumb }
    ensures bound { result < 2 ^ 26 }
{
    if thumb { 0x40_0000 } else { 0x200_0000 }
}

/// The displacement of a branch, counted from the least one.
pub fn biased_displacement(thumb: bool, word: u32) -> u64
    ensures value { result ≡ biased_displacement_of thumb word }
    ensures bound { result < 2 ^ 26 }
{
    if thumb {
        let low = (word % 0x800 * 0x800 + word / 0x1_0000 % 0x800 + 0x20_0000) % 0x40_0000;
        return (low * 2) as u64;
    }
    ((word % 0x100_0000 + 0x80_0000) % 0x100_0000 * 4) as u64
}

/// Whether the word is B or BL or, in Thumb state, the pair of BL.
pub fn is_branch_word(thumb: bool, word: u32) -> bool
    ensures { result ≡ reads_as_branch thumb word }
{
    if thumb {
        return word / 0x800 % 32 == 30 && word / 0x0800_0000 % 32 == 31;
    }
    word / 0x1000_0000 % 16 < 15 && word / 0x0200_0000 % 8 == 5
}

/// A branch with another displacement.
pub fn with_displacement(thumb: bool, word: u32, to: u64) -> u32
    ensures { result ≡ displaced thumb word to }
{
    if thumb {
        let half = ((to / 2 % 0x40_0000 + 0x20_0000) % 0x40_0000) as u32;
        let high = word / 0x800 % 32 * 0x800 + half / 0x800;
        return high + (word / 0x0800_0000 % 32 * 0x800 + half % 0x800) * 0x1_0000;
    }
    let quarter = ((to / 4 % 0x100_0000 + 0x80_0000) % 0x100_0000) as u32;
    word / 0x100_0000 * 0x100_0000 + quarter
}
