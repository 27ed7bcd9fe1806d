//! A script, read line by line.

ghost use Rattle.std.specs.Prelude.{◌≡◌, ◌∷◌, ◌<◌, ◌==◌, [], length, position, OnOk, IfOk, Ok, ◌++◌};
ghost use Rattle.std.specs.Prelude.{List as Items};
ghost use Rattle.std.specs.Str.Lines.{lines, strip_carriage_return};
ghost use Rattle.sdt_fault.specs.declared.answer.Fault.TheVariants as fault;
ghost use Rattle.sdt_fault.specs.declared.refusal.Refusal.TheVariants.{BadCommand};
ghost use Rattle.armsd_core.specs.Scripts as scripts;
ghost use Rattle.armsd_core.specs.Scripts.{Gives, ReadsScript, script_of};

use crate::command::Command;
use crate::line::{command_in, is_blank};
use sdt_fault::answer::Fault;
use sdt_fault::kinds::CommandKind;
use sdt_fault::refusal::Refusal;
use sdt_fault::{List, NoMemory, Text};
use std::alloc::Global;

/// How many lines may be `break` or `watch`.
pub const POINTS: u32 = 64;

/// Where the first line feed stands.
fn line_feed(text: &[u8]) -> Option<usize>
    ensures { result ≡ position (λ b. b == 10) text.now }
{
    text.iter().position(|byte| *byte == b'\n')
}

/// The text without the carriage return at its end.
fn without_return(text: &[u8]) -> &[u8]
    ensures { result.now ≡ strip_carriage_return text.now }
{
    if text.is_empty() {
        return text;
    }
    let last = text.len() - 1;
    if text[last] == b'\r' {
        return &text[..last];
    }
    text
}

/// The first line of a text that isn't empty, and the text behind its end.
fn first_line(text: &[u8]) -> (&[u8], &[u8])
    requires { 0 < length text.now }
    ensures first { lines text.now ≡ result.0.now ∷ lines result.1.now }
    ensures shorter { length result.1.now < length text.now }
{
    match line_feed(text) {
        None => (text, &text[text.len()..]),
        Some(end) => (without_return(&text[..end]), &text[end + 1..]),
    }
}

/// What is read so far: the commands, how many more may be `break` or `watch`, and how many devices are left.
#[derive(Drop)]
pub struct Reader {
    commands: Vec<Command>,
    points: u32,
    devices: u32,
}

impl Reader {
    fn flaw(&self, command: &Command) -> Option<CommandKind>
        ensures { result ≡ scripts.flaw self.now.points self.now.devices command.now }
    {
        match command {
            Command::Break(_) | Command::Watch(_) if self.points == 0 => Some(CommandKind::Number),
            Command::Detach(i) if *i >= self.devices => Some(CommandKind::NoDevice),
            _ => None,
        }
    }

    /// The command of a line, if it has one, or the first of what is wrong with it.
    fn read(&self, line: &[u8]) -> Result<Option<Command>, CommandKind>
        ensures { result ≡ scripts.line_of self.now.points self.now.devices line.now }
    {
        if is_blank(line) {
            return Ok(None);
        }
        let command = command_in(line)?;
        match self.flaw(&command) {
            Some(kind) => Err(kind),
            None => Ok(Some(command)),
        }
    }

    fn add(&mut self, found: Option<Command>) -> Result<(), NoMemory>
        ensures commands { OnOk result (self.new.commands.items ≡ self.old.commands.items ++ scripts.listed found) }
        ensures points { OnOk result (self.new.points ≡ scripts.points_behind self.old.points found) }
        ensures devices { OnOk result (self.new.devices ≡ scripts.devices_behind self.old.devices found) }
    {
        let Some(command) = found else {
            return Ok(());
        };
        self.commands.push(command)?;
        match command {
            Command::Break(_) | Command::Watch(_) => self.points = self.points.saturating_sub(1),
            Command::Detach(_) => self.devices = self.devices.saturating_sub(1),
            _ => {}
        }
        Ok(())
    }
}

fn bad_line(alloc: Global, line: u64, kind: CommandKind) -> Fault
    ensures { result ≡ fault.Refused (BadCommand [] (scripts.told line) kind) }
{
    Fault::Refused(Refusal::BadCommand {
        file: Text::from_vec(Vec::new(alloc)),
        line: line.min(0xFFFF_FFFF) as u32,
        kind,
    })
}

fn script(alloc: Global, b: &[u8], devices: u32) -> Result<List<Command>, Fault>
    ensures { Gives result (script_of b.now devices) }
{
    let mut read = Reader {
        commands: Vec::new(alloc),
        points: POINTS,
        devices,
    };
    let mut number = 1;
    let mut rest = b;
    'lines: while !rest.is_empty() {
        let (line, after) = first_line(rest);
        let found = match read.read(line) {
            Ok(found) => found,
            Err(kind) => return Err(bad_line(alloc, number, kind)),
        };
        read.add(found)?;
        rest = after;
        number += 1;
    }
    Ok(List::from_vec(read.commands))
}

/// The commands of a script for a bus of so many devices. Gives `BadCommand`, with an empty file name, exactly where a
/// line is at fault, with the number of the first such line, from 1, and the first of what is wrong with it. Lines
/// behind `quit` are read too.
pub fn read_script(alloc: Global, b: &[u8], devices: u32) -> Result<List<Command>, Fault>
    // What is read is spelled so.
    ensures found { IfOk result (ReadsScript b.now devices) }
    // What is spelled so is read, unless memory was refused.
    ensures only { (commands : Items Command) → ReadsScript b.now devices commands → Gives result (Ok commands) }
    // The lines in order, up to the first at fault.
    ensures exact { Gives result (script_of b.now devices) }
{
    script(alloc, b, devices)
}
