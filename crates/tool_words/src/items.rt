//! The words behind a command, as items.

ghost use Rattle.std.specs.Prelude.{◌≡◌, ◌<◌, ◌≤◌, ◌+◌, ◌^◌, All, IfOk, length, map, string_bytes};
ghost use Rattle.tool_words.specs.Items as items;

use crate::table::{Entry, VERBS, Verb, flag_word, options, value_count, verb_word};
use sdt_fault::NoMemory;
use std::alloc::Global;

/// What a word is to a command.
#[derive(Clone, Copy)]
pub enum Role {
    Name,
    /// One of the command's options.
    Known(Entry),
    /// Another word that begins with `-`.
    Unknown,
}

/// The word at a place, counted from 0, and the number of its values, which follow it.
#[derive(Clone, Copy)]
pub struct Item {
    pub at: usize,
    pub role: Role,
    pub count: usize,
}

/// The command of a name.
pub fn verb_named(word: &[u8]) -> Option<Verb>
    ensures { result ≡ items.verb_named word.now }
{
    VERBS.iter().copied().find(|verb| verb_word(*verb) == word)
}

fn known(verb: Verb, word: &[u8]) -> Option<Entry>
    ensures { result ≡ find (λ e. bytes_eq (flag_word e.0) word.now) (options verb) }
{
    options(verb)
        .iter()
        .copied()
        .find(|entry| flag_word(entry.0) == word)
}

ghost use Rattle.std.specs.Prelude.{bytes_eq, find};
ghost use Rattle.tool_words.specs.Table.{flag_word, options};

fn role_of(verb: Verb, word: &[u8]) -> Role
    ensures { result ≡ items.role_of verb word.now }
{
    match word.first() {
        Some(b'-') => match known(verb, word) {
            Some(entry) => Role::Known(entry),
            None => Role::Unknown,
        },
        _ => Role::Name,
    }
}

fn count_of(role: Role) -> usize
    ensures { result ≡ items.count_of role }
{
    match role {
        Role::Known(entry) => value_count(entry.1),
        Role::Name => 0,
        Role::Unknown => 0,
    }
}

fn item_at(verb: Verb, words: &[String], at: usize) -> Item
    requires { at < length words.now }
    ensures { result ≡ items.item_at verb (map string_bytes words.now) at }
{
    let role = role_of(verb, words[at].as_bytes());
    let left = words.len() - (at + 1);
    Item {
        at,
        role,
        count: count_of(role).min(left),
    }
}

/// The items behind the command.
pub fn items_of(alloc: Global, verb: Verb, words: &[String]) -> Result<Vec<Item>, NoMemory>
    ensures value { IfOk result (λ found. found.items ≡ items.items_of verb (map string_bytes words.now)) }
    ensures within { IfOk result (λ found. All (λ i. i.at < length words.now) found.items) }
{
    let mut found = Vec::new(alloc);
    let mut at = 1;
    'words: while at < words.len() {
        let item = item_at(verb, words, at);
        at += 1 + item.count;
        found.push(item)?;
    }
    Ok(found)
}
