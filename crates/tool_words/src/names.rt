//! Names that differ.

ghost use Rattle.std.specs.Prelude.{◌≡◌, ◌≢◌, ◌<◌, ◌||◌, ◌&&◌, ℕ, List, [], length, map, All, string_bytes, bytes_eq};
ghost use Rattle.std.specs.Prelude.{Option, None, Some, IfOk, OnOk, MatchOption};
ghost use Rattle.tool_words.specs.Items as items;
ghost use Rattle.tool_words.specs.Rules as rules;
ghost use Rattle.tool_words.specs.Seen.{has_seen};

use crate::items::Item;
use crate::rules::is_name;
use crate::table::{Names, must_differ};
use sdt_fault::{NoMemory, Text};
use std::alloc::Global;
use std::collections::BTreeSet;

/// Whether the word was seen before; from now on it was.
fn was_seen(alloc: Global, seen: &mut BTreeSet<Text>, word: &[u8]) -> Result<bool, NoMemory>
    ensures answer { IfOk result (λ before. before ≡ has_seen seen.old word.now) }
    ensures after { OnOk result ((q : List ℕ) → has_seen seen.new q ≡ (bytes_eq word.now q || has_seen seen.old q)) }
{
    let text = Text::from_slice(alloc, word)?;
    let fresh = seen.insert(text)?;
    Ok(!fresh)
}

/// The word at a place.
fn word_at(words: &[String], at: usize) -> &[u8]
    requires { at < length words.now }
    ensures { result.now ≡ items.word_at (map string_bytes words.now) at }
{
    words[at].as_bytes()
}

/// Whether the item is a name that was seen before; from now on it was.
fn repeats(
    alloc: Global,
    seen: &mut BTreeSet<Text>,
    words: &[String],
    item: Item,
) -> Result<bool, NoMemory>
    requires { item.at < length words.now }
    ensures answer { IfOk result (λ again. again
        ≡ (rules.is_name item.role && has_seen seen.old (items.word_at (map string_bytes words.now) item.at))) }
    ensures after { OnOk result ((q : List ℕ) → has_seen seen.new q
        ≡ ((rules.is_name item.role && bytes_eq (items.word_at (map string_bytes words.now) item.at) q) || has_seen seen.old q)) }
{
    if !is_name(item.role) {
        return Ok(false);
    }
    let again = was_seen(alloc, seen, word_at(words, item.at))?;
    Ok(again)
}

/// The first name that stands before too.
fn repeated(alloc: Global, words: &[String], items: &[Item]) -> Result<Option<usize>, NoMemory>
    requires { All (λ i. i.at < length words.now) items.now }
    ensures { IfOk result (λ place. place ≡ rules.repeated (map string_bytes words.now) [] items.now) }
{
    let mut seen = BTreeSet::new(alloc);
    for item in items {
        if repeats(alloc, &mut seen, words, *item)? {
            return Ok(Some(item.at));
        }
    }
    Ok(None)
}

/// The first name that stands before too, where names must differ.
pub fn names_fault(
    alloc: Global,
    names: Names,
    words: &[String],
    items: &[Item],
) -> Result<Option<usize>, NoMemory>
    requires { All (λ i. i.at < length words.now) items.now }
    ensures { IfOk result (λ place. place ≡ rules.names_fault names (map string_bytes words.now) items.now) }
{
    if !must_differ(names) {
        return Ok(None);
    }
    let place = repeated(alloc, words, items)?;
    Ok(place)
}
