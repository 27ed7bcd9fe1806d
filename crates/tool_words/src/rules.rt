//! Which words break a rule.

ghost use Rattle.std.specs.Prelude.{◌≡◌, ◌==◌, ◌<◌, ◌≤◌, ◌+◌, ◌^◌, [], All, IfSome, find, length, map, string_bytes, filter, ℕ};
ghost use Rattle.std.specs.List.{list_any, list_all};
ghost use Rattle.tool_words.specs.Items as items;
ghost use Rattle.tool_words.specs.Rules as rules;

use crate::items::{Item, Role};
use crate::numerals::{decimal, number};
use crate::table::{
    Entry, Flag, Names, Standing, Value, Verb, flag_word, is_bank, is_counted, is_mode,
    least_names, most_names, options,
};

// ---- items of a kind

fn same_flag(flag: Flag, other: Flag) -> bool
    ensures { result ≡ rules.same_flag flag other }
{
    flag_word(flag) == flag_word(other)
}

pub fn is_flag(flag: Flag, role: Role) -> bool
    ensures { result ≡ rules.is_flag flag role }
{
    match role {
        Role::Known(entry) => same_flag(flag, entry.0),
        Role::Name => false,
        Role::Unknown => false,
    }
}

pub fn is_name(role: Role) -> bool
    ensures { result ≡ rules.is_name role }
{
    matches!(role, Role::Name)
}

/// Whether the option is one of the items.
pub fn has(flag: Flag, items: &[Item]) -> bool
    ensures { result ≡ rules.has flag items.now }
{
    items.iter().any(|item| is_flag(flag, item.role))
}

fn name_count(items: &[Item]) -> usize
    ensures { result ≡ rules.name_count items.now }
{
    let mut count = 0;
    for item in items {
        if is_name(item.role) {
            count += 1;
        }
    }
    count
}

fn is_bank_role(role: Role) -> bool
    ensures { result ≡ rules.is_bank_role role }
{
    match role {
        Role::Known(entry) => is_bank(entry.1),
        Role::Name => false,
        Role::Unknown => false,
    }
}

fn bank_count(items: &[Item]) -> usize
    ensures { result ≡ rules.bank_count items.now }
{
    let mut count = 0;
    for item in items {
        if is_bank_role(item.role) {
            count += 1;
        }
    }
    count
}

fn is_mode_role(role: Role) -> bool
    ensures { result ≡ rules.is_mode_role role }
{
    match role {
        Role::Known(entry) => is_mode(entry.2),
        Role::Name => false,
        Role::Unknown => false,
    }
}

fn flag_of(role: Role) -> Option<Flag>
    ensures { result ≡ rules.flag_of role }
{
    match role {
        Role::Known(entry) => Some(entry.0),
        Role::Name => None,
        Role::Unknown => None,
    }
}

fn mode_item(items: &[Item]) -> Option<Item>
    ensures { result ≡ find (λ i. rules.is_mode_role i.role) items.now }
{
    items.iter().copied().find(|item| is_mode_role(item.role))
}

/// The first of the options of which a command has one.
pub fn mode_of(items: &[Item]) -> Option<Flag>
    ensures { result ≡ rules.mode_of items.now }
{
    match mode_item(items) {
        None => None,
        Some(item) => flag_of(item.role),
    }
}

fn is_the_mode(flag: Flag, mode: Option<Flag>) -> bool
    ensures { result ≡ rules.is_the_mode flag mode }
{
    match mode {
        None => false,
        Some(mode) => same_flag(flag, mode),
    }
}

// ---- when an option stands

fn is_beside(flag: Flag, role: Role) -> bool
    ensures { result ≡ rules.is_beside flag role }
{
    is_flag(flag, role) && !is_mode_role(role)
}

fn has_beside(flag: Flag, items: &[Item]) -> bool
    ensures { result ≡ list_any (λ i. rules.is_beside flag i.role) items.now }
{
    items.iter().any(|item| is_beside(flag, item.role))
}

fn stands_as(items: &[Item], flag: Flag) -> bool
    ensures { result ≡ rules.stands_as items.now flag }
{
    is_the_mode(flag, mode_of(items)) || has_beside(flag, items)
}

fn may_stand(items: &[Item], standing: Standing) -> bool
    ensures { result ≡ rules.may_stand items.now standing }
{
    match standing {
        Standing::With(flag) => stands_as(items, flag),
        Standing::NeededWith(flag) => stands_as(items, flag),
        Standing::NeededOr(flag, other) => stands_as(items, flag) || stands_as(items, other),
        Standing::Without(flag) => !stands_as(items, flag),
        Standing::WithNeither(flag, other) => !(stands_as(items, flag) || stands_as(items, other)),
        _ => true,
    }
}

fn must_stand(items: &[Item], standing: Standing) -> bool
    ensures { result ≡ rules.must_stand items.now standing }
{
    match standing {
        Standing::Needed => true,
        Standing::NeededWith(flag) => stands_as(items, flag),
        Standing::NeededOr(flag, _) => stands_as(items, flag),
        _ => false,
    }
}

fn is_surplus(before: &[Item], entry: Entry) -> bool
    ensures { result ≡ rules.is_surplus before.now entry }
{
    let full = if is_bank(entry.1) {
        bank_count(before) >= 16
    } else {
        has(entry.0, before)
    };
    full || is_mode(entry.2) && mode_of(before).is_some()
}

// ---- values

fn is_plain(word: &[u8]) -> bool
    ensures { result ≡ rules.is_plain word.now }
{
    word.iter().all(|byte| *byte != 0)
}

fn is_aligned(number: Option<u32>) -> bool
    ensures { result ≡ rules.is_aligned number }
{
    match number {
        None => false,
        Some(n) => n % 4 == 0,
    }
}

fn is_at_most(most: u32, number: Option<u32>) -> bool
    ensures { result ≡ rules.is_at_most most number }
{
    match number {
        None => false,
        Some(n) => n <= most,
    }
}

fn is_size(base: Option<u32>, size: Option<u32>) -> bool
    ensures { result ≡ rules.is_size base size }
{
    match (base, size) {
        (Some(base), Some(size)) => {
            0 < size && size % 4 == 0 && u64::from(base) + u64::from(size) <= 1 << 32
        }
        (_, _) => false,
    }
}

/// The number that the word at a place writes.
pub fn number_at(words: &[String], at: usize) -> Option<u32>
    ensures { result ≡ rules.number_at (map string_bytes words.now) at }
{
    match words.get(at) {
        None => None,
        Some(word) => number(word.as_str()),
    }
}

fn plain_at(words: &[String], at: usize) -> bool
    ensures { result ≡ rules.is_plain (items.word_at (map string_bytes words.now) at) }
{
    match words.get(at) {
        None => true,
        Some(word) => is_plain(word.as_bytes()),
    }
}

fn first_is_good(value: Value, words: &[String], at: usize) -> bool
    requires { at < length words.now }
    ensures { result ≡ rules.first_is_good value (map string_bytes words.now) at }
{
    match value {
        Value::Nothing => true,
        Value::File => plain_at(words, at + 1),
        Value::StepCount => is_at_most(1_000_000_000, number_at(words, at + 1)),
        Value::Address => is_aligned(number_at(words, at + 1)),
        Value::Bank => is_aligned(number_at(words, at + 1)),
    }
}

fn value_fault(words: &[String], at: usize, good: bool) -> Option<usize>
    ensures { result ≡ rules.value_fault (map string_bytes words.now) at good }
{
    if at >= words.len() {
        return Some(words.len());
    }
    if good { None } else { Some(at) }
}

fn size_fault(words: &[String], at: usize) -> Option<usize>
    requires { at + 1 < length words.now }
    ensures { result ≡ rules.value_fault (map string_bytes words.now) (at + 2) (rules.second_is_good (map string_bytes words.now) at) }
{
    let good = is_size(number_at(words, at + 1), number_at(words, at + 2));
    value_fault(words, at + 2, good)
}

fn values_fault(value: Value, words: &[String], at: usize) -> Option<usize>
    requires { at < length words.now }
    ensures { result ≡ rules.values_fault value (map string_bytes words.now) at }
{
    if let Value::Nothing = value {
        return None;
    }
    let first = value_fault(words, at + 1, first_is_good(value, words, at));
    if first.is_some() {
        return first;
    }
    match value {
        Value::Bank => size_fault(words, at),
        _ => None,
    }
}

// ---- names

fn is_below(count: usize, most: Option<usize>) -> bool
    ensures { result ≡ rules.is_below count most }
{
    match most {
        None => true,
        Some(most) => count < most,
    }
}

/// The number that the word at a place writes in decimal digits alone.
pub fn decimal_at(words: &[String], at: usize) -> Option<u32>
    ensures { result ≡ rules.decimal_at (map string_bytes words.now) at }
{
    match words.get(at) {
        None => None,
        Some(word) => decimal(word.as_str()),
    }
}

fn is_count(number: Option<u32>) -> bool
    ensures { result ≡ rules.is_count number }
{
    match number {
        None => false,
        Some(n) => 1 <= n && n <= 50_000,
    }
}

fn is_met(needed: bool, there: bool) -> bool
    ensures { result ≡ rules.is_met needed there }
{
    !needed || there
}

fn name_is_good(names: Names, words: &[String], before: &[Item], at: usize) -> bool
    ensures { result ≡ rules.name_is_good names (map string_bytes words.now) before.now at }
{
    let must_count = is_counted(names) && name_count(before) == 0;
    plain_at(words, at) && is_met(must_count, is_count(decimal_at(words, at)))
}

// ---- all items

fn item_fault(
    names: Names,
    words: &[String],
    all: &[Item],
    before: &[Item],
    item: Item,
) -> Option<usize>
    requires { item.at < length words.now }
    ensures { result ≡ rules.role_fault names (map string_bytes words.now) all.now before.now item.at item.role }
{
    let fits = match item.role {
        Role::Name => {
            name_is_good(names, words, before, item.at)
                && is_below(name_count(before), most_names(names))
        }
        Role::Unknown => false,
        Role::Known(entry) => {
            if may_stand(all, entry.2) && !is_surplus(before, entry) {
                return values_fault(entry.1, words, item.at);
            }
            false
        }
    };
    if fits { None } else { Some(item.at) }
}

/// The first word of the items that breaks a rule.
pub fn items_fault(names: Names, words: &[String], items: &[Item]) -> Option<usize>
    requires { All (λ i. i.at < length words.now) items.now }
    ensures { result ≡ rules.items_fault names (map string_bytes words.now) items.now [] items.now }
{
    for (k, item) in items.iter().enumerate() {
        let fault = item_fault(names, words, items, &items[..k], *item);
        if fault.is_some() {
            return fault;
        }
    }
    None
}

fn is_there(items: &[Item], entry: Entry) -> bool
    ensures { result ≡ rules.is_there items.now entry }
{
    is_met(is_mode(entry.2), mode_of(items).is_some())
        && is_met(must_stand(items, entry.2), has(entry.0, items))
}

fn are_there(verb: Verb, items: &[Item]) -> bool
    ensures { result ≡ list_all (λ e. rules.is_there items.now e) (table.options verb) }
{
    options(verb).iter().all(|entry| is_there(items, *entry))
}

fn has_names(least: usize, items: &[Item]) -> bool
    ensures { result ≡ nat_le least (rules.name_count items.now) }
{
    least <= name_count(items)
}

ghost use Rattle.std.specs.Prelude.{nat_le};
ghost use Rattle.tool_words.specs.Table as table;

/// Whether all that the command needs is there.
pub fn is_complete(verb: Verb, names: Names, items: &[Item]) -> bool
    ensures { result ≡ rules.is_complete verb names items.now }
{
    has_names(least_names(names), items) && are_there(verb, items)
}
