//! Names in a string table.

ghost use Rattle.std.specs.Prelude.{◌≡◌, ◌≤◌, length, take, Some, MatchOption, None, IfOk};
ghost use Rattle.std.specs.Option.{option_copied};
ghost use Rattle.aof_object.specs.Names.{terminated, name_at};

use sdt_fault::{NoMemory, Text};
use std::alloc::Global;

/// The most bytes that the names of an object take up, which may share bytes of its string table.
pub const MOST_NAMED: usize = 1 << 30;

/// A copy of a name, and how many bytes are left for names behind it.
pub fn keep_name(alloc: Global, left: &mut usize, name: &[u8]) -> Result<Text, NoMemory>
    ensures { IfOk result (λ kept. kept ≡ name.now) }
{
    *left = left.checked_sub(name.len()).ok_or(NoMemory)?;
    Text::from_slice(alloc, name)
}

/// How many bytes stand before the first zero byte, where there is one.
fn end_of_name(bytes: &[u8]) -> Option<usize>
    ensures { MatchOption result (terminated bytes.now ≡ None) (λ n. (n ≤ length bytes.now) × (terminated bytes.now ≡ Some (take n bytes.now))) }
{
    for (i, byte) in bytes.iter().enumerate() {
        if *byte == 0 {
            return Some(i);
        }
    }
    None
}

/// The bytes before the first zero byte, where there is one.
pub fn terminated_name(bytes: &[u8]) -> Option<&[u8]>
    ensures { option_copied result ≡ terminated bytes.now }
{
    match end_of_name(bytes) {
        None => None,
        Some(end) => Some(&bytes[..end]),
    }
}

/// The name at an offset of a string table; `None` where the offset is below 4 or past the end, or where
/// no zero byte ends the name.
#[tactic(auto, unfolding(crate::specs::Names::name_at))]
pub fn read_name(strings: &[u8], at: u32) -> Option<&[u8]>
    ensures { option_copied result ≡ name_at strings.now at }
{
    if at < 4 {
        return None;
    }
    let start = (at as usize).min(strings.len());
    terminated_name(&strings[start..])
}
