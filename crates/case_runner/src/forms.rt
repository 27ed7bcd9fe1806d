//! The forms of steps.

use crate::contents::number_of;

/// What a step does.
#[derive(Clone, Copy)]
pub enum Verb {
    File,
    Cut,
    Patch,
    Failing,
    Room,
    Device,
    Run,
    Status,
    Answer,
    Printed,
    Holds,
    Length,
    Same,
    Absent,
    Shows,
    Gone,
}

/// What a word of a step is.
#[derive(Clone, Copy)]
pub enum Part {
    /// This word itself.
    Is(&'static str),
    Any,
    /// A number up to this one.
    Number(u64),
    /// Where a device can stand: a multiple of 4 with sixteen bytes from it on.
    Base,
    /// Whether a line is up: `up` or `down`.
    Line,
}

/// What is made of the words behind those of the form, and of the lines behind the step.
#[derive(Clone, Copy)]
pub enum Rest {
    /// There are no words, and the lines are blank.
    Nothing,
    /// Numbers.
    Numbers,
    /// The words of a command.
    Command,
    /// A text to the end of the line.
    Text,
    /// One word of hexadecimal digits.
    Bytes,
    /// The modes of the content in the lines.
    Modes,
}

#[derive(Clone, Copy)]
pub struct Form {
    pub verb: Verb,
    /// The step's first words, from the verb on.
    pub parts: &'static [Part],
    pub rest: Rest,
    /// As a report shows it.
    pub told: &'static str,
}

const NUMBER: Part = Part::Number(u64::MAX);

const SMALL: Part = Part::Number(0xFFFF_FFFF);

const DEVICE: &str = "device timer BASE [PERIOD CONTROL] or device uart BASE";

const SHOWS: &str = "shows timer BASE PERIOD CONTROL COUNT up|down or shows uart BASE LAST NUMBER";

/// Each form. Those of one verb have one text.
const FORMS: &[Form] = &[
    Form {
        verb: Verb::File,
        parts: &[Part::Is("file"), Part::Any],
        rest: Rest::Modes,
        told: "file NAME [MODES] with its content",
    },
    Form {
        verb: Verb::Cut,
        parts: &[Part::Is("cut"), Part::Any, NUMBER],
        rest: Rest::Nothing,
        told: "cut NAME LENGTH",
    },
    Form {
        verb: Verb::Patch,
        parts: &[Part::Is("patch"), Part::Any, NUMBER],
        rest: Rest::Bytes,
        told: "patch NAME PLACE HEX",
    },
    Form {
        verb: Verb::Failing,
        parts: &[Part::Is("failing")],
        rest: Rest::Numbers,
        told: "failing [NUMBERS]",
    },
    Form {
        verb: Verb::Room,
        parts: &[Part::Is("room"), NUMBER],
        rest: Rest::Nothing,
        told: "room BYTES",
    },
    Form {
        verb: Verb::Device,
        parts: &[Part::Is("device"), Part::Is("timer"), Part::Base],
        rest: Rest::Nothing,
        told: DEVICE,
    },
    Form {
        verb: Verb::Device,
        parts: &[
            Part::Is("device"),
            Part::Is("timer"),
            Part::Base,
            SMALL,
            SMALL,
        ],
        rest: Rest::Nothing,
        told: DEVICE,
    },
    Form {
        verb: Verb::Device,
        parts: &[Part::Is("device"), Part::Is("uart"), Part::Base],
        rest: Rest::Nothing,
        told: DEVICE,
    },
    Form {
        verb: Verb::Run,
        parts: &[Part::Is("run")],
        rest: Rest::Command,
        told: "run WORDS",
    },
    Form {
        verb: Verb::Status,
        parts: &[Part::Is("status"), Part::Number(255)],
        rest: Rest::Nothing,
        told: "status NUMBER",
    },
    Form {
        verb: Verb::Answer,
        parts: &[Part::Is("answer")],
        rest: Rest::Text,
        told: "answer TEXT",
    },
    Form {
        verb: Verb::Printed,
        parts: &[Part::Is("printed")],
        rest: Rest::Modes,
        told: "printed [MODES] with its text",
    },
    Form {
        verb: Verb::Holds,
        parts: &[Part::Is("holds"), Part::Any],
        rest: Rest::Modes,
        told: "holds NAME [MODES] with its content",
    },
    Form {
        verb: Verb::Length,
        parts: &[Part::Is("length"), Part::Any, NUMBER],
        rest: Rest::Nothing,
        told: "length NAME BYTES",
    },
    Form {
        verb: Verb::Same,
        parts: &[Part::Is("same"), Part::Any, Part::Any],
        rest: Rest::Nothing,
        told: "same NAME NAME",
    },
    Form {
        verb: Verb::Absent,
        parts: &[Part::Is("absent"), Part::Any],
        rest: Rest::Nothing,
        told: "absent NAME",
    },
    Form {
        verb: Verb::Shows,
        parts: &[
            Part::Is("shows"),
            Part::Is("timer"),
            SMALL,
            SMALL,
            SMALL,
            SMALL,
            Part::Line,
        ],
        rest: Rest::Nothing,
        told: SHOWS,
    },
    Form {
        verb: Verb::Shows,
        parts: &[Part::Is("shows"), Part::Is("uart"), SMALL, SMALL, SMALL],
        rest: Rest::Nothing,
        told: SHOWS,
    },
    Form {
        verb: Verb::Gone,
        parts: &[Part::Is("gone"), SMALL],
        rest: Rest::Nothing,
        told: "gone BASE",
    },
];

/// The form of a step's words; None where they have none.
pub fn form_of(words: &[&str]) -> Option<&'static Form> {
    for form in FORMS {
        let count = count_of(form, words);
        if count == form.parts.len() {
            if count == words.len() || !matches!(form.rest, Rest::Nothing) {
                return Some(form);
            }
        }
    }
    None
}

/// What is wanted of words that have no form: one of their verb, or any.
pub fn wanted_of(words: &[&str]) -> &'static str {
    for form in FORMS {
        if count_of(form, words) > 0 {
            return form.told;
        }
    }
    "a known step"
}

// How many of a form's parts these words begin with.
fn count_of(form: &Form, words: &[&str]) -> usize {
    let mut count = 0usize;
    for part in form.parts {
        match words.get(count) {
            Some(word) if is_part(*part, *word) => count = count.wrapping_add(1),
            _ => return count,
        }
    }
    count
}

fn is_part(part: Part, word: &str) -> bool {
    let number = number_of(word);
    match part {
        Part::Is(text) => word == text,
        Part::Any => true,
        Part::Number(most) => matches!(number, Some(number) if number <= most),
        Part::Base => matches!(number, Some(base) if base % 4 == 0 && base <= 0xFFFF_FFF0),
        Part::Line => word == "up" || word == "down",
    }
}
