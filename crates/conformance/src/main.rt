//! Carries out the cases of the files that its words name, and tells which of them fail. The files behind a word `--` hold wrong
//! cases, each of which must fail; what is told of these is told last.
#![tactic(auto)]

use case_runner::{Report, Tool, check_files};
use sdt_fault::answer::Answer;
use sdt_outside::{Device, FileStore, MemorySink, MemoryStore};
use sdt_toolkit::run_tool;
use std::alloc::Global;
use std::io::Write;
use std::process::ExitCode;
use std::{env, io};

/// The top call.
struct Toolkit;

impl Tool for Toolkit {
    fn run(
        &self,
        alloc: Global,
        words: &[String],
        store: &mut MemoryStore,
        sink: &mut MemorySink,
        devices: &mut Vec<Box<dyn Device>>,
    ) -> Answer {
        run_tool(alloc, words, store, sink, devices)
    }
}

/// The status is 0 where all cases pass but for the wrong ones, 1 where one fails, and 2 where that can't be told.
fn main(rt: HostRuntime) -> ExitCode {
    match check(&rt) {
        Ok(0) => ExitCode::from(0),
        Ok(_) => ExitCode::from(1),
        Err(_) => ExitCode::from(2),
    }
}

// The number of cases that fail and are not meant to.
fn check(rt: &HostRuntime) -> io::Result<u64> {
    let mut names = Vec::new(rt.alloc());
    for name in env::args(rt)?.skip(1) {
        names.push(name)?;
    }
    let names = names.as_slice();
    match names.iter().position(|name| name.as_str() == "--") {
        None => report(rt, names),
        Some(end) => {
            let failed = report(rt, &names[..end])?;
            report(rt, &names[end + 1..])?;
            Ok(failed)
        }
    }
}

// Tells which cases of these files fail, and gives their number.
fn report(rt: &HostRuntime, names: &[String]) -> io::Result<u64> {
    let mut files = FileStore::new(rt.clone()?);
    let mut report = Report::new(rt.alloc());
    let checked = check_files(rt.alloc(), &Toolkit, &mut files, names, &mut report);
    drop(files);
    if checked.is_err() {
        return Err(io::ErrorKind::OutOfMemory.into());
    }
    rt.stdout().write_all(report.text())?;
    Ok(report.failed)
}
