//! Steps that say what the next command finds.

use crate::bench::Bench;
use crate::contents::number_of;
use crate::devices::Seat;
use crate::forms::Verb;
use crate::steps::Step;
use crate::told::{Growing, Told};
use sdt_fault::{Bytes, NoMemory, Text};
use sdt_outside::MemoryStore;
use std::alloc::Global;

pub fn set(alloc: Global, bench: &mut Bench, step: &Step<'_>, told: &mut Told) {
    match step.verb {
        Verb::File => put_file(alloc, &mut bench.store, step.word(1), &step.content, told),
        Verb::Cut => change(
            alloc,
            &mut bench.store,
            step,
            "a file of so many bytes",
            told,
        ),
        Verb::Patch => {
            change(
                alloc,
                &mut bench.store,
                step,
                "a file with bytes at this place",
                told,
            )
        }
        Verb::Failing => set_failing(&mut bench.store, step.words.as_slice(), told),
        Verb::Device => set_device(bench, step, told),
        _ => bench.room = step.number(1),
    }
}

fn set_failing(store: &mut MemoryStore, words: &[&str], told: &mut Told) {
    store.calls = 0;
    store.failing.clear();
    for word in words {
        if let Some(call) = number_of(*word) {
            if store.failing.push(call).is_err() {
                told.text.short = true;
            }
        }
    }
}

fn set_device(bench: &mut Bench, step: &Step<'_>, told: &mut Told) {
    let base = step.small(2);
    if base % 4 != 0 || base > 0xFFFF_FFF0 {
        return;
    }
    let seat = Seat {
        base,
        is_timer: step.word(1) == "timer",
        period: step.small(3),
        control: step.small(4),
    };
    if bench.seats.push(seat).is_err() {
        told.text.short = true;
    }
}

// Cuts a file behind a place, or puts the step's bytes there in place of its own.
fn change(alloc: Global, store: &mut MemoryStore, step: &Step<'_>, wanted: &str, told: &mut Told) {
    let Some(content) = file_of(alloc, store, step.word(1), told) else {
        told.differ("a file of this name", "none");
        return;
    };
    let put = step.content.bytes.as_slice();
    let place = step.number(2) as usize;
    let Some(behind) = content.get(place.saturating_add(put.len())..) else {
        told.differ(wanted, "fewer");
        return;
    };
    let mut changed = Growing::new(alloc);
    changed.put_all(content.get(..place).unwrap_or(&[]));
    if let Verb::Patch = step.verb {
        changed.put_all(put);
        changed.put_all(behind);
    }
    put_file(alloc, store, step.word(1), &changed, told);
}

fn put_file(
    alloc: Global,
    store: &mut MemoryStore,
    name: &str,
    content: &Growing,
    told: &mut Told,
) {
    let put = insert(alloc, store, name, content.bytes.as_slice());
    if put.is_err() || content.short {
        told.text.short = true;
    }
}

fn insert(
    alloc: Global,
    store: &mut MemoryStore,
    name: &str,
    content: &[u8],
) -> Result<(), NoMemory> {
    let name = Text::from_slice(alloc, name.as_bytes())?;
    store
        .files
        .insert(name, Bytes::from_slice(alloc, content)?)?;
    Ok(())
}

/// The content of a file, if there is one.
pub fn file_of<'a>(
    alloc: Global,
    store: &'a MemoryStore,
    name: &str,
    told: &mut Told,
) -> Option<&'a [u8]> {
    let Ok(name) = Text::from_slice(alloc, name.as_bytes()) else {
        told.text.short = true;
        return None;
    };
    let found = store.files.get(&name);
    drop(name);
    Some(found?.as_slice())
}
