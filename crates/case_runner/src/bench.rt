//! The bench on which the steps of a case are carried out.

use crate::devices::{Left, Seat, put_left};
use crate::forms::Verb;
use crate::sections::Section;
use crate::settings::set;
use crate::steps::{Step, read_step};
use crate::told::Told;
use crate::wishes::{want_of_file, want_of_run};
use sdt_fault::answer::{Answer, status_of};
use sdt_fault::report::text_of;
use sdt_fault::{NoMemory, Text};
use sdt_outside::{Device, MemorySink, MemoryStore, Timer, Uart};
use std::alloc::Global;

/// The room of the sink where a case doesn't say.
const ROOM: u64 = 1 << 20;

/// What carries out a command.
pub trait Tool {
    fn run(
        &self,
        alloc: Global,
        words: &[String],
        store: &mut MemoryStore,
        sink: &mut MemorySink,
        devices: &mut Vec<Box<dyn Device>>,
    ) -> Answer;
}

/// What the next command finds, what came of the last one, and which of that the case asked for.
#[derive(Drop)]
pub struct Bench {
    pub store: MemoryStore,
    pub room: u64,
    pub seats: Vec<Seat>,
    /// The line of the last command; None where there was none.
    pub line: Option<usize>,
    pub status: u8,
    pub answer: Text,
    pub sink: MemorySink,
    pub left: Vec<Left>,
    pub is_answer_wanted: bool,
    pub is_text_wanted: bool,
}

impl Bench {
    pub fn new(alloc: Global) -> Bench {
        Bench {
            store: MemoryStore::new(alloc),
            room: ROOM,
            seats: Vec::new(alloc),
            line: None,
            status: 0,
            answer: Text::from_vec(Vec::new(alloc)),
            sink: MemorySink {
                bytes: Vec::new(alloc),
                room: 0,
                faults: 0,
            },
            left: Vec::new(alloc),
            is_answer_wanted: false,
            is_text_wanted: false,
        }
    }
}

/// Carries out the steps of these sections up to the next case. What is told is of the first that fails.
pub fn carry_all_out<'a, T: Tool>(
    alloc: Global,
    tool: &T,
    bench: &mut Bench,
    step: &mut Step<'a>,
    sections: &[Section<'a>],
    told: &mut Told,
) {
    for section in sections {
        if section.is_case {
            break;
        }
        read_step(alloc, step, section, told);
        carry_out(alloc, tool, bench, step, told);
        if told.is_over() {
            return;
        }
    }
    settle(bench, told);
}

fn carry_out<T: Tool>(
    alloc: Global,
    tool: &T,
    bench: &mut Bench,
    step: &Step<'_>,
    told: &mut Told,
) {
    match step.verb {
        Verb::Run => {
            let line = told.line;
            settle(bench, told);
            if !told.is_over() && run(alloc, tool, bench, line, step.command.as_slice()).is_err() {
                told.text.short = true;
            }
        }
        Verb::Holds | Verb::Length | Verb::Same | Verb::Absent => {
            want_of_file(alloc, &bench.store, step, told)
        }
        Verb::Status | Verb::Answer | Verb::Printed | Verb::Shows | Verb::Gone => {
            want_of_run(alloc, bench, step, told)
        }
        _ => set(alloc, bench, step, told),
    }
}

// Of a command its status or its answer was asked for, and its text where it printed one.
fn settle(bench: &Bench, told: &mut Told) {
    let Some(line) = bench.line else {
        return;
    };
    if !bench.is_answer_wanted {
        told.line = line;
        told.differ("a status or an answer behind it", "none");
    } else if !bench.is_text_wanted && !bench.sink.bytes.is_empty() {
        told.line = line;
        told.differ("no text", "");
        told.text.show(bench.sink.bytes.as_slice(), 0);
    }
}

fn run<T: Tool>(
    alloc: Global,
    tool: &T,
    bench: &mut Bench,
    line: usize,
    words: &[String],
) -> Result<(), NoMemory> {
    begin(alloc, bench, line)?;
    let mut devices: Vec<Box<dyn Device>> = Vec::new(alloc);
    for seat in bench.seats.iter() {
        let device: Box<dyn Device> = if seat.is_timer {
            Box::new(alloc, timer_on(seat))?
        } else {
            Box::new(alloc, Uart::new(seat.base))?
        };
        devices.push(device)?;
    }
    run_with(alloc, tool, bench, words, &mut devices)
}

fn begin(alloc: Global, bench: &mut Bench, line: usize) -> Result<(), NoMemory> {
    bench.line = Some(line);
    bench.is_answer_wanted = false;
    bench.is_text_wanted = false;
    bench.left.clear();
    bench.sink = MemorySink::with_room(alloc, bench.room)?;
    Ok(())
}

fn timer_on(seat: &Seat) -> Timer {
    let mut timer = Timer::new(seat.base);
    timer.period = seat.period;
    timer.control = seat.control;
    timer
}

// Runs a command with these devices, which stand on the seats.
fn run_with<T: Tool>(
    alloc: Global,
    tool: &T,
    bench: &mut Bench,
    words: &[String],
    devices: &mut Vec<Box<dyn Device>>,
) -> Result<(), NoMemory> {
    let answer = tool.run(alloc, words, &mut bench.store, &mut bench.sink, devices);
    bench.status = status_of(&answer);
    let text = text_of(alloc, &answer);
    drop(answer);
    bench.answer = text?;
    put_left(&mut bench.left, devices, bench.seats.as_slice())
}
