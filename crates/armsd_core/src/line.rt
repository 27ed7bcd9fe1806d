//! A line of a script, as the command that it spells.

ghost use Rattle.std.specs.Prelude.{◌≡◌, ◌∷◌, [], ◌||◌, ◌==◌, bytes_eq, position, MatchOption, Ok};
ghost use Rattle.std.specs.List.{list_all};
ghost use Rattle.armsd_core.specs.Commands as commands;
ghost use Rattle.armsd_core.specs.Numerals.{number_of};

use crate::command::Command;
use crate::numerals::number_of;
use sdt_fault::kinds::CommandKind;
use sdt_word::Range32;

fn is(name: &[u8], other: &[u8]) -> bool
    ensures { result ≡ bytes_eq name.now other.now }
{
    name == other
}

/// Where the first space stands.
fn space(line: &[u8]) -> Option<usize>
    ensures { result ≡ position (λ b. b == 32) line.now }
{
    line.iter().position(|byte| *byte == b' ')
}

/// The first word and what follows the space behind it; None where there is no space.
fn cut(line: &[u8]) -> Option<(&[u8], &[u8])>
    ensures { MatchOption result (commands.words_of line.now ≡ line.now ∷ [])
        (λ p. commands.words_of line.now ≡ p.0.now ∷ commands.words_of p.1.now) }
{
    match space(line) {
        None => None,
        Some(at) => Some((&line[..at], &line[at + 1..])),
    }
}

/// The number, where it lies between these.
fn within(least: u32, most: u32, n: u64) -> Result<u32, CommandKind>
    ensures { result ≡ commands.within least most n }
{
    if n < u64::from(least) {
        return Err(CommandKind::Number);
    }
    if n > u64::from(most) {
        return Err(CommandKind::Number);
    }
    Ok(n as u32)
}

fn word(n: u64) -> Result<u32, CommandKind>
    ensures { result ≡ commands.word n }
{
    within(0, u32::MAX, n)
}

fn steps(n: u64) -> Result<u32, CommandKind>
    ensures { result ≡ commands.steps n }
{
    within(1, 1_000_000_000, n)
}

fn bytes(n: u64) -> Result<u32, CommandKind>
    ensures { result ≡ commands.bytes n }
{
    within(1, 256, n)
}

fn range(base: u32, size: u32) -> Result<Command, CommandKind>
    ensures { result ≡ commands.range base size }
{
    let size = u64::from(size);
    if u64::from(base) + size > 1 << 32 {
        return Err(CommandKind::Number);
    }
    Ok(Command::Watch(Range32 { base, size }))
}

fn bare(name: &[u8]) -> Result<Command, CommandKind>
    ensures { result ≡ commands.bare name.now }
{
    if is(name, b"unwatch") {
        return Ok(Command::Unwatch);
    }
    if is(name, b"regs") {
        return Ok(Command::Regs);
    }
    if is(name, b"quit") {
        return Ok(Command::Quit);
    }
    Err(CommandKind::Syntax)
}

/// The command of one number.
fn one(name: &[u8], n: u64) -> Result<Command, CommandKind>
    ensures { result ≡ commands.one name.now n }
{
    if is(name, b"break") {
        return Ok(Command::Break(word(n)?));
    }
    if is(name, b"unbreak") {
        return Ok(Command::Unbreak(word(n)?));
    }
    if is(name, b"step") {
        return Ok(Command::Step(steps(n)?));
    }
    if is(name, b"go") {
        return Ok(Command::Go(steps(n)?));
    }
    if is(name, b"detach") {
        return Ok(Command::Detach(word(n)?));
    }
    Err(CommandKind::Syntax)
}

/// The command of two numbers.
fn two(name: &[u8], a: u64, b: u64) -> Result<Command, CommandKind>
    ensures { result ≡ commands.two name.now a b }
{
    if is(name, b"watch") {
        return range(word(a)?, word(b)?);
    }
    if is(name, b"mem") {
        return Ok(Command::Mem(word(a)?, bytes(b)?));
    }
    Err(CommandKind::Syntax)
}

fn with_one(name: &[u8], a: &[u8]) -> Result<Command, CommandKind>
    ensures { result ≡ commands.with_one name.now (number_of a.now) }
{
    match number_of(a) {
        Some(n) => one(name, n),
        None => Err(CommandKind::Syntax),
    }
}

fn with_two(name: &[u8], a: &[u8], b: &[u8]) -> Result<Command, CommandKind>
    ensures { result ≡ commands.with_two name.now (number_of a.now) (number_of b.now) }
{
    let Some(x) = number_of(a) else {
        return Err(CommandKind::Syntax);
    };
    let Some(y) = number_of(b) else {
        return Err(CommandKind::Syntax);
    };
    two(name, x, y)
}

/// The command whose name is followed by two words or more.
fn with_more(name: &[u8], a: &[u8], rest: &[u8]) -> Result<Command, CommandKind>
    ensures { result ≡ commands.by_words (name.now ∷ a.now ∷ commands.words_of rest.now) }
{
    match space(rest) {
        None => with_two(name, a, rest),
        Some(_) => Err(CommandKind::Syntax),
    }
}

fn with_words(name: &[u8], rest: &[u8]) -> Result<Command, CommandKind>
    ensures { result ≡ commands.by_words (name.now ∷ commands.words_of rest.now) }
{
    match cut(rest) {
        None => with_one(name, rest),
        Some((a, more)) => with_more(name, a, more),
    }
}

/// The command that a line spells, or the first of what is wrong with it.
pub fn command_in(line: &[u8]) -> Result<Command, CommandKind>
    ensures { result ≡ commands.command_in line.now }
{
    match cut(line) {
        None => bare(line),
        Some((name, rest)) => with_words(name, rest),
    }
}

/// Whether the line has spaces and tabs alone.
pub fn is_blank(line: &[u8]) -> bool
    ensures { result ≡ commands.is_blank line.now }
{
    line.iter().all(|byte| *byte == b' ' || *byte == b'\t')
}
