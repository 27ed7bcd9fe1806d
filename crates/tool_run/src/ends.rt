//! Why there is no image, and the answers of a run.

ghost use Rattle.std.specs.Prelude.{◌≡◌};
ghost use Rattle.tool_run.specs.Ends as ends;

use sdt_fault::answer::{Answer, Fault, Stop};
use sdt_fault::refusal::Refusal;
use sdt_fault::{NoMemory, Text};
use std::alloc::Global;
use tool_answers::{InputEnd, named};

/// Why an image was not read.
#[derive(Drop)]
pub enum ImageEnd {
    /// A file is missing, or what it holds is wrong.
    Refused(Refusal),
    /// The read of this file failed.
    Failed(Text),
    NoMemory,
}

/// The end where an input was not read.
pub fn input_end(end: InputEnd) -> ImageEnd
    ensures { result ≡ ends.input_end end }
{
    match end {
        InputEnd::Missing(name) => ImageEnd::Refused(Refusal::Missing { name }),
        InputEnd::Failed(name) => ImageEnd::Failed(name),
        InputEnd::NoMemory => ImageEnd::NoMemory,
    }
}

/// The end where a file is refused.
pub fn fault_end(fault: Fault) -> ImageEnd
    ensures { result ≡ ends.fault_end fault }
{
    match fault {
        Fault::Refused(refusal) => ImageEnd::Refused(refusal),
        Fault::ReadFault(name) => ImageEnd::Failed(name),
        Fault::NoMemory => ImageEnd::NoMemory,
    }
}

/// The end where no file has the name.
pub fn missing(alloc: Global, name: &Text) -> ImageEnd
    ensures { ends.IsMissing name.now result }
{
    match name.try_clone(alloc) {
        Ok(name) => ImageEnd::Refused(Refusal::Missing { name }),
        Err(NoMemory) => ImageEnd::NoMemory,
    }
}

/// A reader's fault, with the name of the file.
pub fn named_fault(alloc: Global, name: &Text, fault: Fault) -> Fault
    ensures { ends.NamesFault name.now fault result }
{
    match fault {
        Fault::Refused(refusal) => match name.try_clone(alloc) {
            Ok(name) => Fault::Refused(named(name, refusal)),
            Err(NoMemory) => Fault::NoMemory,
        },
        other => other,
    }
}

/// The answer where there is no image.
pub fn image_answer(end: ImageEnd) -> Answer
    ensures { result ≡ ends.image_answer end }
{
    match end {
        ImageEnd::Refused(refusal) => Answer::Refused(refusal),
        ImageEnd::Failed(name) => Answer::ReadFault(name),
        ImageEnd::NoMemory => Answer::NoMemory,
    }
}

/// The answer where a run has stopped.
pub fn stop_answer(stop: Stop) -> Answer
    ensures { result ≡ ends.stop_answer stop }
{
    match stop {
        Stop::Exit => Answer::Done,
        Stop::Sink => Answer::SinkFault,
        other => Answer::Stopped(other),
    }
}
