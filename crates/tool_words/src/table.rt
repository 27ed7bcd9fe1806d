//! The table of the command line: how each command is called, which options it takes, and which names.

ghost use Rattle.std.specs.Prelude.{◌≡◌};
ghost use Rattle.tool_words.specs.Table as table;

/// A command.
#[derive(Clone, Copy)]
pub enum Verb {
    Assemble,
    Library,
    List,
    Run,
    Link,
    Build,
    InterruptKit,
    Burn,
    Report,
    MakeBig,
    Debug,
}

/// An option of some command.
#[derive(Clone, Copy)]
pub enum Flag {
    Create,
    Table,
    Extract,
    Output,
    Map,
    Bin,
    At,
    Memory,
    Rom,
    Steps,
    Scatter,
    Aif,
    Reloc,
    Base,
    Ram,
    Elf,
    Acknowledge,
    IntelHex,
    SRecords,
    Burned,
    Symbols,
    Script,
}

/// What follows an option.
#[derive(Clone, Copy)]
pub enum Value {
    Nothing,
    /// A word without a zero byte, as the name of a file is.
    File,
    /// A multiple of 4.
    Address,
    /// A number up to 1,000,000,000.
    StepCount,
    /// An address, and the size of the bank of memory that begins there. Sixteen banks may stand in all.
    Bank,
}

/// When an option stands. One that others speak of stands beside them as what it is there for: of the modes it is the
/// first.
#[derive(Clone, Copy)]
pub enum Standing {
    /// A command has one of these, which says what it does.
    Mode,
    /// It may stand.
    Free,
    /// It must stand.
    Needed,
    /// It may stand beside this one.
    With(Flag),
    /// It stands beside this one, and only there.
    NeededWith(Flag),
    /// It must stand beside the first of these, and may stand beside the second.
    NeededOr(Flag, Flag),
    /// It may stand where this one doesn't.
    Without(Flag),
    /// It may stand where neither of these does.
    WithNeither(Flag, Flag),
}

/// An option of a command, with its values.
#[derive(Clone, Copy)]
pub struct Entry(pub Flag, pub Value, pub Standing);

/// Which names a command takes.
#[derive(Clone, Copy)]
pub enum Names {
    Nameless,
    One,
    /// One or more.
    Many,
    /// One or more, no two of them the same.
    Different,
    /// A number from 1 to 50,000 in decimal digits, and one name.
    CountAndFile,
}

pub const VERBS: &[Verb] = &[
    Verb::Assemble,
    Verb::Library,
    Verb::List,
    Verb::Run,
    Verb::Link,
    Verb::Build,
    Verb::InterruptKit,
    Verb::Burn,
    Verb::Report,
    Verb::MakeBig,
    Verb::Debug,
];

/// How a command is called.
pub fn verb_word(verb: Verb) -> &'static [u8]
    ensures { result.now ≡ table.verb_word verb }
{
    match verb {
        Verb::Assemble => b"asm",
        Verb::Library => b"lib",
        Verb::List => b"list",
        Verb::Run => b"run",
        Verb::Link => b"link",
        Verb::Build => b"build",
        Verb::InterruptKit => b"irqkit",
        Verb::Burn => b"burn",
        Verb::Report => b"report",
        Verb::MakeBig => b"make-big",
        Verb::Debug => b"debug",
    }
}

/// How an option is spelled, by which options are told apart.
pub fn flag_word(flag: Flag) -> &'static [u8]
    ensures { result.now ≡ table.flag_word flag }
{
    match flag {
        Flag::Create => b"-c",
        Flag::Table => b"-t",
        Flag::Extract => b"-e",
        Flag::Output => b"-o",
        Flag::Map => b"-map",
        Flag::Bin => b"-bin",
        Flag::At => b"-at",
        Flag::Memory => b"-mem",
        Flag::Rom => b"-rom",
        Flag::Steps => b"-steps",
        Flag::Scatter => b"-scatter",
        Flag::Aif => b"-aif",
        Flag::Reloc => b"-reloc",
        Flag::Base => b"-base",
        Flag::Ram => b"-ram",
        Flag::Elf => b"-elf",
        Flag::Acknowledge => b"-ack",
        Flag::IntelHex => b"-ihex",
        Flag::SRecords => b"-srec",
        Flag::Burned => b"-burned",
        Flag::Symbols => b"-symbols",
        Flag::Script => b"-script",
    }
}

const LIBRARY: &[Entry] = &[
    Entry(Flag::Create, Value::File, Standing::Mode),
    Entry(Flag::Table, Value::File, Standing::Mode),
    Entry(Flag::Extract, Value::File, Standing::Mode),
    Entry(
        Flag::Output,
        Value::File,
        Standing::NeededWith(Flag::Extract),
    ),
];

const RUN: &[Entry] = &[
    Entry(Flag::Map, Value::File, Standing::Mode),
    Entry(Flag::Burned, Value::File, Standing::Mode),
    Entry(Flag::Elf, Value::File, Standing::Mode),
    Entry(Flag::Aif, Value::File, Standing::Mode),
    Entry(Flag::Bin, Value::File, Standing::Mode),
    Entry(
        Flag::At,
        Value::Address,
        Standing::NeededOr(Flag::Bin, Flag::Aif),
    ),
    Entry(Flag::Memory, Value::Bank, Standing::Free),
    Entry(Flag::Rom, Value::Bank, Standing::Free),
    Entry(Flag::Steps, Value::StepCount, Standing::Free),
];

const DEBUG: &[Entry] = &[
    Entry(Flag::Map, Value::File, Standing::Mode),
    Entry(Flag::Elf, Value::File, Standing::Mode),
    Entry(Flag::Aif, Value::File, Standing::Mode),
    Entry(Flag::Bin, Value::File, Standing::Mode),
    Entry(
        Flag::At,
        Value::Address,
        Standing::NeededOr(Flag::Bin, Flag::Aif),
    ),
    Entry(Flag::Memory, Value::Bank, Standing::Free),
    Entry(Flag::Rom, Value::Bank, Standing::Free),
    Entry(Flag::Script, Value::File, Standing::Needed),
];

const REPORT: &[Entry] = &[
    Entry(Flag::Scatter, Value::File, Standing::Mode),
    Entry(Flag::Aif, Value::Nothing, Standing::Mode),
    Entry(Flag::Bin, Value::Nothing, Standing::Mode),
    Entry(Flag::Reloc, Value::Nothing, Standing::With(Flag::Aif)),
    Entry(Flag::Base, Value::Address, Standing::Without(Flag::Scatter)),
    Entry(
        Flag::Ram,
        Value::Bank,
        Standing::WithNeither(Flag::Bin, Flag::Reloc),
    ),
];

const LINK: &[Entry] = &[
    Entry(Flag::Scatter, Value::File, Standing::Mode),
    Entry(Flag::Aif, Value::Nothing, Standing::Mode),
    Entry(Flag::Bin, Value::Nothing, Standing::Mode),
    Entry(Flag::Reloc, Value::Nothing, Standing::With(Flag::Aif)),
    Entry(Flag::Base, Value::Address, Standing::Without(Flag::Scatter)),
    Entry(
        Flag::Ram,
        Value::Bank,
        Standing::WithNeither(Flag::Bin, Flag::Reloc),
    ),
    Entry(Flag::Elf, Value::Nothing, Standing::With(Flag::Scatter)),
    Entry(Flag::Symbols, Value::Nothing, Standing::With(Flag::Elf)),
    Entry(Flag::Output, Value::File, Standing::Needed),
];

const INTERRUPT_KIT: &[Entry] = &[
    Entry(Flag::Output, Value::File, Standing::Needed),
    Entry(Flag::Acknowledge, Value::Address, Standing::Free),
];

const BURN: &[Entry] = &[
    Entry(Flag::IntelHex, Value::Nothing, Standing::Mode),
    Entry(Flag::SRecords, Value::Nothing, Standing::Mode),
    Entry(Flag::Map, Value::File, Standing::Needed),
    Entry(Flag::Output, Value::File, Standing::Needed),
];

/// The options of a command.
pub fn options(verb: Verb) -> &'static [Entry]
    ensures { result.now ≡ table.options verb }
{
    match verb {
        Verb::Assemble => &[Entry(Flag::Output, Value::File, Standing::Needed)],
        Verb::Library => LIBRARY,
        Verb::Run => RUN,
        Verb::Link => LINK,
        Verb::Build => LINK,
        Verb::InterruptKit => INTERRUPT_KIT,
        Verb::Burn => BURN,
        Verb::Report => REPORT,
        Verb::Debug => DEBUG,
        Verb::List => &[],
        Verb::MakeBig => &[],
    }
}

/// The names of a command, by the first of the options of which it has one.
pub fn names_for(verb: Verb, mode: Option<Flag>) -> Names
    ensures { result ≡ table.names_for verb mode }
{
    match (verb, mode) {
        (Verb::Library, Some(Flag::Create)) => Names::Different,
        (Verb::Library, Some(Flag::Table)) => Names::Nameless,
        (Verb::Library, Some(Flag::Extract)) => Names::One,
        (Verb::Library, _) => Names::Many,
        (Verb::Assemble, _) => Names::One,
        (Verb::List, _) => Names::One,
        (Verb::Link, _) => Names::Many,
        (Verb::Build, _) => Names::Many,
        (Verb::Report, _) => Names::Many,
        (Verb::MakeBig, _) => Names::CountAndFile,
        (Verb::Run, _) => Names::Nameless,
        (Verb::InterruptKit, _) => Names::Nameless,
        (Verb::Burn, _) => Names::Nameless,
        (Verb::Debug, _) => Names::Nameless,
    }
}

/// How many words follow an option.
pub fn value_count(value: Value) -> usize
    ensures { result ≡ table.value_count value }
{
    match value {
        Value::Nothing => 0,
        Value::Bank => 2,
        _ => 1,
    }
}

pub fn is_bank(value: Value) -> bool
    ensures { result ≡ table.is_bank value }
{
    matches!(value, Value::Bank)
}

pub fn is_mode(standing: Standing) -> bool
    ensures { result ≡ table.is_mode standing }
{
    matches!(standing, Standing::Mode)
}

pub fn least_names(names: Names) -> usize
    ensures { result ≡ table.least_names names }
{
    match names {
        Names::Nameless => 0,
        Names::CountAndFile => 2,
        _ => 1,
    }
}

/// The most names, where there is a limit.
pub fn most_names(names: Names) -> Option<usize>
    ensures { result ≡ table.most_names names }
{
    match names {
        Names::Nameless => Some(0),
        Names::One => Some(1),
        Names::Many => None,
        Names::Different => None,
        Names::CountAndFile => Some(2),
    }
}

pub fn must_differ(names: Names) -> bool
    ensures { result ≡ table.must_differ names }
{
    matches!(names, Names::Different)
}

pub fn is_counted(names: Names) -> bool
    ensures { result ≡ table.is_counted names }
{
    matches!(names, Names::CountAndFile)
}
