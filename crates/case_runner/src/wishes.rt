//! Steps that say what is wanted of the last command, or of the store behind it.

use crate::bench::Bench;
use crate::contents::number_of;
use crate::devices::say_left;
use crate::forms::Verb;
use crate::settings::file_of;
use crate::steps::Step;
use crate::told::{Growing, Told};
use sdt_outside::MemoryStore;
use std::alloc::Global;

/// What is wanted of the last command.
pub fn want_of_run(alloc: Global, bench: &mut Bench, step: &Step<'_>, told: &mut Told) {
    if bench.line.is_none() {
        told.differ("a run in front of it", "none");
        return;
    }
    let wanted = step.content.bytes.as_slice();
    match step.verb {
        Verb::Status => {
            bench.is_answer_wanted = true;
            want_status(bench, step.number(1), told);
        }
        Verb::Answer => {
            bench.is_answer_wanted = true;
            told.compare(wanted, bench.answer.as_slice());
        }
        Verb::Printed => {
            bench.is_text_wanted = true;
            told.compare(wanted, bench.sink.bytes.as_slice());
        }
        _ => want_left(alloc, bench, step, told),
    }
}

fn want_status(bench: &Bench, wanted: u64, told: &mut Told) {
    let came = u64::from(bench.status);
    if came == wanted {
        return;
    }
    told.text.say("wanted status ");
    told.text.say_number(wanted);
    told.text.say(", came status ");
    told.text.say_number(came);
    told.text.say(" with the answer ");
    told.text.show(bench.answer.as_slice(), 0);
}

// What the last command left of the device at an address.
fn want_left(alloc: Global, bench: &Bench, step: &Step<'_>, told: &mut Told) {
    let is_gone = matches!(step.verb, Verb::Gone);
    let base = if is_gone {
        step.small(1)
    } else {
        step.small(2)
    };
    let mut wanted = Growing::new(alloc);
    if !is_gone {
        say_wanted(&mut wanted, step.words.as_slice());
    }
    for left in bench.left.iter() {
        if left.base == base {
            let mut came = Growing::new(alloc);
            say_left(&mut came, left);
            want_state(&wanted, &came, told);
            return;
        }
    }
    told.differ("a device at this address", "none");
}

// The state in the words of a step, without the address and with decimal numbers.
fn say_wanted(out: &mut Growing, words: &[&str]) {
    out.say(words.get(1).copied().unwrap_or(""));
    for word in words.get(3..).unwrap_or(&[]) {
        out.say(" ");
        match number_of(*word) {
            Some(number) => out.say_number(number),
            None => out.say(*word),
        }
    }
}

fn want_state(wanted: &Growing, came: &Growing, told: &mut Told) {
    let wanted = wanted.bytes.as_slice();
    let came = came.bytes.as_slice();
    if came == wanted {
        return;
    }
    if came.is_empty() {
        told.differ("a device at this address", "one that is gone");
        return;
    }
    told.text.say("wanted ");
    if wanted.is_empty() {
        told.text.say("a device that is gone");
    }
    told.text.put_all(wanted);
    told.text.say(", came ");
    told.text.put_all(came);
}

/// What is wanted of a file of the store.
pub fn want_of_file(alloc: Global, store: &MemoryStore, step: &Step<'_>, told: &mut Told) {
    let found = file_of(alloc, store, step.word(1), told);
    if let Verb::Absent = step.verb {
        if found.is_some() {
            told.differ("no file of this name", "one");
        }
        return;
    }
    let Some(content) = found else {
        told.differ("a file of this name", "none");
        return;
    };
    match step.verb {
        Verb::Length => want_length(step.number(2), content.len() as u64, told),
        Verb::Same => match file_of(alloc, store, step.word(2), told) {
            Some(wanted) => told.compare(wanted, content),
            None => told.differ("a file of this name", "none"),
        },
        _ => told.compare(step.content.bytes.as_slice(), content),
    }
}

fn want_length(wanted: u64, came: u64, told: &mut Told) {
    if came != wanted {
        told.text.say("wanted ");
        told.text.say_number(wanted);
        told.text.say(" bytes, came ");
        told.text.say_number(came);
        told.text.say(" bytes");
    }
}
