//! What an operation word says.

ghost use Rattle.std.specs.Prelude.{◌≡◌, ◌∷◌, [], map, take, drop};
ghost use Rattle.asm_model.specs.Directives as tables;
ghost use Rattle.asm_arm.specs.Stems as stems;
ghost use Rattle.asm_arm.specs.Mnemonics as words;

use crate::stems::{
    A_STEMS, B_STEMS, BYTE, C_STEMS, CONDITIONS, D_STEMS, E_STEMS, F_STEMS, FLAGS, FLOAT_MODES,
    HALF_LOADS, HALF_STORES, L_STEMS, LOAD_MODES, M_STEMS, N_STEMS, O_STEMS, P_STEMS, R_STEMS,
    S_STEMS, STORE_MODES, T_STEMS, U_STEMS, W_STEMS, WORD,
};
use arm_isa::{HalfKind, Operation};
use asm_expr::rows::row_of;
use asm_model::{BlockMode, is_called};
use sdt_word::Condition;

/// What an operation word of ARM state says, without its condition.
#[derive(Clone, Copy)]
pub enum Mnemonic {
    /// AND to MVN.
    Data {
        operation: Operation,
        set_flags: bool,
    },
    /// MUL, and MLA where `accumulate`.
    Multiply {
        accumulate: bool,
        set_flags: bool,
    },
    /// UMULL, UMLAL, SMULL and SMLAL.
    MultiplyLong {
        signed: bool,
        accumulate: bool,
        set_flags: bool,
    },
    Swap {
        byte: bool,
    },
    BranchExchange,
    /// MRS
    ReadStatus,
    /// MSR
    WriteStatus,
    /// LDR and STR, with B and T.
    Transfer {
        load: bool,
        byte: bool,
        translated: bool,
    },
    /// LDR with H, SB and SH.
    LoadHalf(HalfKind),
    /// STR with H.
    StoreHalf,
    /// LDM and STM.
    TransferBlock {
        load: bool,
        mode: BlockMode,
    },
    /// B, and BL where `link`.
    Branch {
        link: bool,
    },
    SoftwareInterrupt,
    /// ADR
    Address,
    /// ADRL
    LongAddress,
    /// NOP
    NoOperation,
    /// A word of the FPA.
    FloatingPoint,
}

/// Which registers data processing names besides its second operand.
#[derive(Clone, Copy)]
pub enum Shape {
    /// Rd
    Move,
    /// Rn
    Comparison,
    /// Rd and Rn
    Sum,
}

/// A stem: what its words say, but for their suffixes.
#[derive(Clone, Copy)]
pub enum Stem {
    /// AND to MVN; behind a comparison stands no suffix.
    Data(Operation),
    /// MUL, and MLA where it accumulates.
    Multiply(bool),
    /// The long multiplications: whether they are signed, and whether they accumulate.
    MultiplyLong(bool, bool),
    /// LDR, which loads, and STR.
    Transfer(bool),
    /// LDM, which loads, and STM.
    TransferBlock(bool),
    Swap,
    /// A word that takes no suffix.
    Bare(Mnemonic),
    /// A word that takes neither a condition nor a suffix.
    Alone(Mnemonic),
    /// A word of the FPA that takes a precision and a rounding.
    Float(Mnemonic),
    /// LFM and SFM.
    FloatBlock,
}

/// The first bytes of a word.
pub fn begin(word: &[u8], count: usize) -> &[u8]
    ensures { result.now ≡ take count word.now }
{
    let end = count.min(word.len());
    &word[..end]
}

/// What stands behind the first bytes of a word.
pub fn behind(word: &[u8], count: usize) -> &[u8]
    ensures { result.now ≡ drop count word.now }
{
    let start = count.min(word.len());
    &word[start..]
}

/// What stands behind a stem: a condition, AL where there is none, and a suffix.
#[tactic(auto, unfolding(crate::specs::Mnemonics::condition_named))]
fn ending(rest: &[u8]) -> (Condition, &[u8])
    ensures { (result.0, result.1.now) ≡ words.ending rest.now }
{
    // Most words end with their stem.
    if rest.is_empty() {
        return (Condition::Al, rest);
    }
    match row_of(begin(rest, 2), &CONDITIONS) {
        Some(condition) => (condition, behind(rest, 2)),
        None => (Condition::Al, rest),
    }
}

/// A word that takes no suffix.
fn bare_suffix(mnemonic: Mnemonic, suffix: &[u8]) -> Option<Mnemonic>
    ensures { result ≡ words.bare_suffix mnemonic suffix.now }
{
    if suffix.is_empty() {
        return Some(mnemonic);
    }
    None
}

/// Which registers an operation names.
pub fn shape_of(operation: Operation) -> Shape
    ensures { result ≡ words.shape_of operation }
{
    match operation {
        Operation::Tst => Shape::Comparison,
        Operation::Teq => Shape::Comparison,
        Operation::Cmp => Shape::Comparison,
        Operation::Cmn => Shape::Comparison,
        Operation::Mov => Shape::Move,
        Operation::Mvn => Shape::Move,
        _ => Shape::Sum,
    }
}

#[tactic(auto, unfolding(crate::specs::Mnemonics::flags_suffix))]
fn data_flags(operation: Operation, suffix: &[u8]) -> Option<Mnemonic>
    ensures { result ≡ words.data_flags operation (words.flags_suffix suffix.now) }
{
    match row_of(suffix, &FLAGS) {
        None => None,
        Some(set_flags) => Some(Mnemonic::Data {
            operation,
            set_flags,
        }),
    }
}

/// A comparison always sets the flags, and has no suffix.
fn data_suffix(operation: Operation, suffix: &[u8]) -> Option<Mnemonic>
    ensures { result ≡ words.data_suffix operation suffix.now }
{
    match shape_of(operation) {
        Shape::Comparison => {
            let mnemonic = Mnemonic::Data {
                operation,
                set_flags: true,
            };
            bare_suffix(mnemonic, suffix)
        }
        Shape::Move => data_flags(operation, suffix),
        Shape::Sum => data_flags(operation, suffix),
    }
}

#[tactic(auto, unfolding(crate::specs::Mnemonics::flags_suffix))]
fn multiply_suffix(accumulate: bool, suffix: &[u8]) -> Option<Mnemonic>
    ensures { result ≡ words.multiply_suffix accumulate suffix.now }
{
    match row_of(suffix, &FLAGS) {
        None => None,
        Some(set_flags) => Some(Mnemonic::Multiply {
            accumulate,
            set_flags,
        }),
    }
}

#[tactic(auto, unfolding(crate::specs::Mnemonics::flags_suffix))]
fn long_suffix(signs: (bool, bool), suffix: &[u8]) -> Option<Mnemonic>
    ensures { result ≡ words.long_suffix signs suffix.now }
{
    match row_of(suffix, &FLAGS) {
        None => None,
        Some(set_flags) => Some(Mnemonic::MultiplyLong {
            signed: signs.0,
            accumulate: signs.1,
            set_flags,
        }),
    }
}

/// What a transfer moves, but for a word and a plain byte.
#[tactic(auto, unfolding(crate::specs::Mnemonics::load_half, crate::specs::Mnemonics::store_half))]
fn half_suffix(load: bool, suffix: &[u8]) -> Option<HalfKind>
    ensures { result ≡ words.half_suffix load suffix.now }
{
    if load {
        return row_of(suffix, &HALF_LOADS);
    }
    row_of(suffix, &HALF_STORES)
}

fn half_of(load: bool, kind: Option<HalfKind>) -> Option<Mnemonic>
    ensures { result ≡ words.half_of load kind }
{
    match kind {
        None => None,
        Some(kind) => {
            if load {
                return Some(Mnemonic::LoadHalf(kind));
            }
            Some(Mnemonic::StoreHalf)
        }
    }
}

#[tactic(auto, unfolding(crate::specs::Mnemonics::word_suffix))]
fn transfer_suffix(load: bool, suffix: &[u8]) -> Option<Mnemonic>
    ensures { result ≡ words.transfer_suffix load suffix.now }
{
    match row_of(suffix, &WORD) {
        Some((byte, translated)) => Some(Mnemonic::Transfer {
            load,
            byte,
            translated,
        }),
        None => half_of(load, half_suffix(load, suffix)),
    }
}

#[tactic(auto, unfolding(crate::specs::Mnemonics::load_mode, crate::specs::Mnemonics::store_mode))]
fn mode_suffix(load: bool, suffix: &[u8]) -> Option<BlockMode>
    ensures { result ≡ words.mode_suffix load suffix.now }
{
    if load {
        return row_of(suffix, &LOAD_MODES);
    }
    row_of(suffix, &STORE_MODES)
}

fn block_suffix(load: bool, suffix: &[u8]) -> Option<Mnemonic>
    ensures { result ≡ words.block_suffix load suffix.now }
{
    match mode_suffix(load, suffix) {
        None => None,
        Some(mode) => Some(Mnemonic::TransferBlock { load, mode }),
    }
}

#[tactic(auto, unfolding(crate::specs::Mnemonics::byte_suffix))]
fn swap_suffix(suffix: &[u8]) -> Option<Mnemonic>
    ensures { result ≡ words.swap_of (words.byte_suffix suffix.now) }
{
    match row_of(suffix, &BYTE) {
        None => None,
        Some(byte) => Some(Mnemonic::Swap { byte }),
    }
}

/// Single, double, extended or packed.
fn is_precision(letter: u8) -> bool
    ensures { result ≡ words.is_precision letter }
{
    letter == b's' || letter == b'd' || letter == b'e' || letter == b'p'
}

/// To plus infinity, minus infinity or zero.
fn is_rounding(letter: u8) -> bool
    ensures { result ≡ words.is_rounding letter }
{
    letter == b'p' || letter == b'm' || letter == b'z'
}

/// Whether a suffix is one letter of floating point.
fn is_float_letter(letter: u8) -> bool
    ensures { result ≡ words.is_float_suffix (letter ∷ []) }
{
    let letter = letter.to_ascii_lowercase();
    is_precision(letter) || is_rounding(letter)
}

/// Whether a suffix is a precision and a rounding.
fn is_float_pair(first: u8, second: u8) -> bool
    ensures { result ≡ words.is_float_suffix (first ∷ second ∷ []) }
{
    let first = first.to_ascii_lowercase();
    let second = second.to_ascii_lowercase();
    is_precision(first) && is_rounding(second)
}

/// Whether a suffix is a precision and a rounding, each of which may be left out.
fn is_float_suffix(suffix: &[u8]) -> bool
    ensures { result ≡ words.is_float_suffix suffix.now }
{
    match suffix {
        [] => true,
        [letter] => is_float_letter(*letter),
        [first, second] => is_float_pair(*first, *second),
        [_, _, _, ..] => false,
    }
}

fn float_suffix(mnemonic: Mnemonic, suffix: &[u8]) -> Option<Mnemonic>
    ensures { result ≡ words.float_suffix mnemonic suffix.now }
{
    if is_float_suffix(suffix) {
        return Some(mnemonic);
    }
    None
}

/// A word with its condition.
fn conditioned(condition: Condition, mnemonic: Option<Mnemonic>) -> Option<(Mnemonic, Condition)>
    ensures { result ≡ words.conditioned condition mnemonic }
{
    match mnemonic {
        None => None,
        Some(mnemonic) => Some((mnemonic, condition)),
    }
}

/// A stem and what stands behind it.
#[tactic(auto, unfolding(crate::specs::Mnemonics::float_mode))]
fn stemmed(stem: Stem, rest: &[u8]) -> Option<(Mnemonic, Condition)>
    ensures { result ≡ stems.stemmed stem rest.now }
{
    let (condition, suffix) = ending(rest);
    match stem {
        Stem::Data(operation) => conditioned(condition, data_suffix(operation, suffix)),
        Stem::Multiply(accumulate) => conditioned(condition, multiply_suffix(accumulate, suffix)),
        Stem::MultiplyLong(signed, accumulate) => {
            conditioned(condition, long_suffix((signed, accumulate), suffix))
        }
        Stem::Transfer(load) => conditioned(condition, transfer_suffix(load, suffix)),
        Stem::TransferBlock(load) => conditioned(condition, block_suffix(load, suffix)),
        Stem::Swap => conditioned(condition, swap_suffix(suffix)),
        Stem::Bare(mnemonic) => conditioned(condition, bare_suffix(mnemonic, suffix)),
        Stem::Alone(mnemonic) => conditioned(Condition::Al, bare_suffix(mnemonic, rest)),
        Stem::Float(mnemonic) => conditioned(condition, float_suffix(mnemonic, suffix)),
        Stem::FloatBlock => conditioned(condition, row_of(suffix, &FLOAT_MODES)),
    }
}

/// What a word says that begins with the name of a stem; None where it doesn't.
fn begun(word: &[u8], name: &[u8], stem: Stem) -> Option<(Mnemonic, Condition)>
    ensures { result ≡ stems.begun word.now (name.now, stem) }
{
    if is_called(name, begin(word, name.len())) {
        return stemmed(stem, behind(word, name.len()));
    }
    None
}

/// What a word says by the first row that gives it a meaning.
fn by_rows(word: &[u8], rows: &[(&[u8], Stem)]) -> Option<(Mnemonic, Condition)>
    ensures { result ≡ stems.by_rows word.now (map (λ row. (row.0.now, row.1)) rows.now) }
{
    for (name, stem) in rows {
        if let Some(said) = begun(word, name, *stem) {
            return Some(said);
        }
    }
    None
}

/// What an operation word says in any case, with its condition, AL where there is none; None where no
/// operation has that word.
pub fn operation_named(word: &[u8]) -> Option<(Mnemonic, Condition)>
    ensures { result ≡ words.operation_named word.now }
{
    let Some((letter, _)) = word.split_first() else {
        return None;
    };
    match letter.to_ascii_lowercase() {
        b'a' => by_rows(word, &A_STEMS),
        b'b' => by_rows(word, &B_STEMS),
        b'c' => by_rows(word, &C_STEMS),
        b'd' => by_rows(word, &D_STEMS),
        b'e' => by_rows(word, &E_STEMS),
        b'f' => by_rows(word, &F_STEMS),
        b'l' => by_rows(word, &L_STEMS),
        b'm' => by_rows(word, &M_STEMS),
        b'n' => by_rows(word, &N_STEMS),
        b'o' => by_rows(word, &O_STEMS),
        b'p' => by_rows(word, &P_STEMS),
        b'r' => by_rows(word, &R_STEMS),
        b's' => by_rows(word, &S_STEMS),
        b't' => by_rows(word, &T_STEMS),
        b'u' => by_rows(word, &U_STEMS),
        b'w' => by_rows(word, &W_STEMS),
        _ => None,
    }
}
