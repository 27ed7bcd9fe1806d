//! The command that words ask for.

ghost use Rattle.std.specs.Prelude.{◌≡◌, ◌<◌, ◌+◌, All, IfOk, IfSome, List as Items, length, map, string_bytes, unwrap_or};
ghost use Rattle.tool_words.specs.Items as items;
ghost use Rattle.tool_words.specs.Rules as rules;
ghost use Rattle.tool_words.specs.Commands as commands;

use crate::items::{Item, items_of, verb_named};
use crate::names::names_fault;
use crate::rules::{
    decimal_at, has, is_complete, is_flag, is_name, items_fault, mode_of, number_at,
};
use crate::table::{Flag, Verb, names_for};
use sdt_fault::{List, NoMemory, Text};
use std::alloc::{AllocError, AllocFailed, Global};

/// A bank of memory, with its base and size in bytes.
#[derive(Clone, Copy)]
pub struct Bank {
    pub base: u32,
    pub size: u32,
}

/// Where the image of a run stands.
#[derive(Drop)]
pub enum RunImage {
    /// In the load files of this map.
    Map { file: Text },
    /// In this text of Intel HEX or S-records, which tells its addresses and where it is entered.
    Burned { file: Text },
    /// In this ELF executable, which is loaded and entered at its own addresses.
    Elf { file: Text },
    /// In this ARM image file, which is loaded at an address or, with none, at its own, and entered there.
    Aif { file: Text, at: Option<u32> },
    /// In this file, which is loaded at an address and entered there.
    Binary { file: Text, at: u32 },
}

/// What to run: the image, the banks of memory and of read-only memory, and the most steps. With no bank
/// at all, a run has its default bank.
#[derive(Drop)]
pub struct RunWords {
    pub image: RunImage,
    pub memory: List<Bank>,
    pub rom: List<Bank>,
    pub steps: u32,
}

/// What to debug: the image, which is no text of Intel HEX or S-records, the banks of memory and of read-only memory, as
/// of a run, and the file of the script.
#[derive(Drop)]
pub struct DebugWords {
    pub image: RunImage,
    pub memory: List<Bank>,
    pub rom: List<Bank>,
    pub script: Text,
}

/// Where the areas of an image that is made are placed.
#[derive(Drop)]
pub enum LinkPlacement {
    /// As this scatter file says, with startup code.
    Scatter { file: Text },
    /// One behind the other from an address on that is a multiple of 4, without startup code.
    Plain { base: u32 },
    /// Behind the header of an ARM image file, from an address on that is a multiple of 4; whether the image can run
    /// elsewhere too.
    Aif { base: u32, relocatable: bool },
}

/// Which files are written of an image that is made.
#[derive(Clone, Copy)]
pub enum Container {
    /// A file for each load region, and a map.
    LoadFiles,
    /// One ELF executable, with its symbols or without.
    Elf { symbols: bool },
    /// The bytes alone.
    Binary,
    /// An ARM image file.
    ImageFile,
}

/// What to link: where the image is placed and what is written of it, the name of its file (of its load files, with
/// what is put behind it, and of their map), one name or more of objects, libraries or sources, and the banks of memory
/// that the image may use, where any is told (16 at most).
#[derive(Drop)]
pub struct LinkWords {
    pub placement: LinkPlacement,
    pub container: Container,
    pub output: Text,
    pub names: List<Text>,
    pub ram: Option<List<Bank>>,
}

/// What to report of: where the image is placed, one name or more of objects, libraries or sources, and the banks of
/// memory that the image may use, where any is told (16 at most).
#[derive(Drop)]
pub struct ReportWords {
    pub placement: LinkPlacement,
    pub names: List<Text>,
    pub ram: Option<List<Bank>>,
}

/// As which text an image is burned.
#[derive(Clone, Copy)]
pub enum BurnForm {
    /// Intel HEX.
    IntelHex,
    /// Motorola S-records.
    SRecords,
}

#[derive(Drop)]
pub enum Command {
    /// Writes the object of a source.
    Assemble {
        source: Text,
        output: Text,
    },
    /// Writes a library of these objects.
    CreateLibrary {
        library: Text,
        objects: List<Text>,
    },
    /// Prints the names of a library's members.
    ListMembers {
        library: Text,
    },
    /// Writes a member as an object.
    ExtractMember {
        library: Text,
        member: Text,
        output: Text,
    },
    /// Prints the listing of an object, a library, an ARM image file or an ELF executable.
    List {
        file: Text,
    },
    Run(RunWords),
    /// Links objects and libraries.
    Link(LinkWords),
    /// Assembles sources and links them with objects and libraries.
    Build(LinkWords),
    /// Writes the object of the interrupt kit, whose handler acknowledges an interrupt by a store to this address, a
    /// multiple of 4.
    InterruptKit {
        output: Text,
        acknowledge: u32,
    },
    /// Writes the load files of a map as one text, from which an image is burned into memory.
    Burn {
        form: BurnForm,
        map: Text,
        output: Text,
    },
    /// Links, or builds where names are of sources, and prints what the image is made of.
    Report(ReportWords),
    /// Writes a source of so many instructions and so many words of data (1 to 50,000), and runs what is built of it.
    MakeBig {
        count: u32,
        output: Text,
    },
    /// Runs an image as a script says, and prints what it asks for.
    Debug(DebugWords),
}

/// Why words ask for nothing.
#[derive(Clone, Copy)]
pub enum WordsFault {
    /// The place of the first word that breaks a rule, counted from 1; where something is missing, the
    /// number of words plus 1. A place that would be 2^32 or more is told as 2^32 - 1.
    Place(u32),
    NoMemory,
}

impl From<NoMemory> for WordsFault {
    ghost use Rattle.tool_words.specs.declared.command.WordsFault.TheVariants as fault;

    ghost from_gives = { λ _ e. e ≡ fault.NoMemory };

    fn from(_e: NoMemory) -> WordsFault {
        WordsFault::NoMemory
    }
}

/// The command that the words ask for, or the first word that breaks a rule.
pub fn read_words(alloc: Global, words: &[String]) -> Result<Command, WordsFault>
    ensures exact { commands.Reads result (commands.command_of (map string_bytes words.now)) }
    // Banks are whole words that end at 2^32 or below, the addresses of images and of the acknowledgement are
    // multiples of 4, who links or reports has names, a placement comes with its containers alone (a scatter file's with
    // load files or an ELF executable, each other one with its own), and the count of a source that is made is 1 to 50,000.
    ensures good { IfOk result (λ command. commands.IsGood command) }
{
    match verb_named(first_word(words)) {
        None => Err(WordsFault::Place(told(0))),
        Some(verb) => read_verb(alloc, verb, words),
    }
}

fn first_word(words: &[String]) -> &[u8]
    ensures { result.now ≡ items.word_at (map string_bytes words.now) 0 }
{
    match words.first() {
        None => b"",
        Some(word) => word.as_bytes(),
    }
}

fn told(place: usize) -> u32
    ensures { result ≡ commands.told place }
{
    if place >= 0xFFFF_FFFF {
        return 0xFFFF_FFFF;
    }
    (place + 1) as u32
}

fn lesser(a: Option<usize>, b: Option<usize>) -> Option<usize>
    ensures { result ≡ rules.lesser a b }
{
    match (a, b) {
        (None, other) => other,
        (Some(place), None) => Some(place),
        (Some(place), Some(other)) => Some(place.min(other)),
    }
}

fn verb_fault(
    alloc: Global,
    verb: Verb,
    words: &[String],
    items: &[Item],
) -> Result<Option<usize>, NoMemory>
    requires { All (λ i. i.at < length words.now) items.now }
    ensures { IfOk result (λ place. place ≡ rules.verb_fault verb (map string_bytes words.now) items.now) }
{
    let names = names_for(verb, mode_of(items));
    let repeated = names_fault(alloc, names, words, items)?;
    let place = lesser(items_fault(names, words, items), repeated);
    if place.is_some() {
        return Ok(place);
    }
    if is_complete(verb, names, items) {
        return Ok(None);
    }
    Ok(Some(words.len()))
}

#[tactic(auto, using(crate::proofs::GoodLemmas::good_words))]
fn read_verb(alloc: Global, verb: Verb, words: &[String]) -> Result<Command, WordsFault>
    ensures good { IfOk result (λ command. commands.IsGood command) }
    ensures exact { commands.Reads result (commands.verb_words (Some verb) (map string_bytes words.now)) }
{
    let items = items_of(alloc, verb, words)?;
    if let Some(place) = verb_fault(alloc, verb, words, items.as_slice())? {
        return Err(WordsFault::Place(told(place)));
    }
    let command = verb_command(alloc, verb, words, items.as_slice())?;
    Ok(command)
}

ghost use Rattle.std.specs.Prelude.{Some};

fn place_of(words: &[String], items: &[Item], flag: Flag) -> Option<usize>
    requires { All (λ i. i.at < length words.now) items.now }
    ensures value { result ≡ commands.place_of flag items.now }
    ensures within { IfSome result (λ at. at < length words.now) }
{
    for item in items {
        if is_flag(flag, item.role) {
            return Some(item.at);
        }
    }
    None
}

fn name_place(items: &[Item]) -> Option<usize>
    ensures { result ≡ commands.name_place items.now }
{
    for item in items {
        if is_name(item.role) {
            return Some(item.at);
        }
    }
    None
}

/// The word at a place; an empty one where there is none.
fn text_at(alloc: Global, words: &[String], at: usize) -> Result<Text, NoMemory>
    ensures { IfOk result (λ text. text ≡ items.word_at (map string_bytes words.now) at) }
{
    match words.get(at) {
        None => Text::from_slice(alloc, b""),
        Some(word) => Text::from_slice(alloc, word.as_bytes()),
    }
}

fn value_of(alloc: Global, words: &[String], items: &[Item], flag: Flag) -> Result<Text, NoMemory>
    requires { All (λ i. i.at < length words.now) items.now }
    ensures { IfOk result (λ text. text ≡ commands.value_of (map string_bytes words.now) items.now flag) }
{
    match place_of(words, items, flag) {
        None => Text::from_slice(alloc, b""),
        Some(at) => text_at(alloc, words, at + 1),
    }
}

fn number_of(words: &[String], items: &[Item], flag: Flag, usual: u32) -> u32
    requires { All (λ i. i.at < length words.now) items.now }
    ensures { result ≡ commands.number_of (map string_bytes words.now) items.now flag usual }
{
    match place_of(words, items, flag) {
        None => usual,
        Some(at) => number_at(words, at + 1).unwrap_or(0),
    }
}

/// The number of an option that may be left out.
fn number_told(words: &[String], items: &[Item], flag: Flag) -> Option<u32>
    requires { All (λ i. i.at < length words.now) items.now }
    ensures { result ≡ commands.number_told (map string_bytes words.now) items.now flag }
{
    match place_of(words, items, flag) {
        None => None,
        Some(at) => Some(number_at(words, at + 1).unwrap_or(0)),
    }
}

fn names_in(alloc: Global, words: &[String], items: &[Item]) -> Result<List<Text>, NoMemory>
    ensures { IfOk result (λ names. names ≡ commands.names_in (map string_bytes words.now) items.now) }
{
    let mut names = Vec::new(alloc);
    for item in items {
        if is_name(item.role) {
            names.push(text_at(alloc, words, item.at)?)?;
        }
    }
    Ok(List::from_vec(names))
}

fn first_name(alloc: Global, words: &[String], items: &[Item]) -> Result<Text, NoMemory>
    ensures { IfOk result (λ text. text ≡ commands.first_name (map string_bytes words.now) items.now) }
{
    match name_place(items) {
        None => Text::from_slice(alloc, b""),
        Some(at) => text_at(alloc, words, at),
    }
}

fn bank_at(words: &[String], at: usize) -> Bank
    requires { at < length words.now }
    ensures { result ≡ commands.bank_at (map string_bytes words.now) at }
{
    Bank {
        base: number_at(words, at + 1).unwrap_or(0),
        size: number_at(words, at + 2).unwrap_or(0),
    }
}

fn banks_in(
    alloc: Global,
    words: &[String],
    items: &[Item],
    flag: Flag,
) -> Result<List<Bank>, NoMemory>
    requires { All (λ i. i.at < length words.now) items.now }
    ensures { IfOk result (λ banks. banks ≡ commands.banks_in (map string_bytes words.now) items.now flag) }
{
    let mut banks = Vec::new(alloc);
    for item in items {
        if is_flag(flag, item.role) {
            banks.push(bank_at(words, item.at))?;
        }
    }
    Ok(List::from_vec(banks))
}

fn image_of(
    alloc: Global,
    mode: Option<Flag>,
    words: &[String],
    items: &[Item],
) -> Result<RunImage, NoMemory>
    requires { All (λ i. i.at < length words.now) items.now }
    ensures { IfOk result (λ image. image ≡ commands.image_of mode (map string_bytes words.now) items.now) }
{
    if let Some(Flag::Map) = mode {
        let file = value_of(alloc, words, items, Flag::Map)?;
        return Ok(RunImage::Map { file });
    }
    if let Some(Flag::Burned) = mode {
        let file = value_of(alloc, words, items, Flag::Burned)?;
        return Ok(RunImage::Burned { file });
    }
    if let Some(Flag::Elf) = mode {
        let file = value_of(alloc, words, items, Flag::Elf)?;
        return Ok(RunImage::Elf { file });
    }
    if let Some(Flag::Aif) = mode {
        let file = value_of(alloc, words, items, Flag::Aif)?;
        let at = number_told(words, items, Flag::At);
        return Ok(RunImage::Aif { file, at });
    }
    let file = value_of(alloc, words, items, Flag::Bin)?;
    let at = number_of(words, items, Flag::At, 0);
    Ok(RunImage::Binary { file, at })
}

fn placement_of(
    alloc: Global,
    mode: Option<Flag>,
    words: &[String],
    items: &[Item],
) -> Result<LinkPlacement, NoMemory>
    requires { All (λ i. i.at < length words.now) items.now }
    ensures { IfOk result (λ placement. placement ≡ commands.placement_of mode (map string_bytes words.now) items.now) }
{
    if let Some(Flag::Scatter) = mode {
        let file = value_of(alloc, words, items, Flag::Scatter)?;
        return Ok(LinkPlacement::Scatter { file });
    }
    let base = number_of(words, items, Flag::Base, 0x8000);
    if let Some(Flag::Aif) = mode {
        let relocatable = has(Flag::Reloc, items);
        return Ok(LinkPlacement::Aif { base, relocatable });
    }
    Ok(LinkPlacement::Plain { base })
}

fn container_of(mode: Option<Flag>, items: &[Item]) -> Container
    ensures { result ≡ commands.container_of mode items.now }
{
    match mode {
        Some(Flag::Scatter) => {
            if has(Flag::Elf, items) {
                let symbols = has(Flag::Symbols, items);
                return Container::Elf { symbols };
            }
            Container::LoadFiles
        }
        Some(Flag::Aif) => Container::ImageFile,
        _ => Container::Binary,
    }
}

fn ram_of(alloc: Global, words: &[String], items: &[Item]) -> Result<Option<List<Bank>>, NoMemory>
    requires { All (λ i. i.at < length words.now) items.now }
    ensures { IfOk result (λ ram. ram ≡ commands.ram_of (map string_bytes words.now) items.now) }
{
    if !has(Flag::Ram, items) {
        return Ok(None);
    }
    let banks = banks_in(alloc, words, items, Flag::Ram)?;
    Ok(Some(banks))
}

fn report_words(
    alloc: Global,
    mode: Option<Flag>,
    words: &[String],
    items: &[Item],
) -> Result<ReportWords, NoMemory>
    requires { All (λ i. i.at < length words.now) items.now }
    ensures { IfOk result (λ report. report ≡ commands.report_words mode (map string_bytes words.now) items.now) }
{
    let placement = placement_of(alloc, mode, words, items)?;
    let names = names_in(alloc, words, items)?;
    let ram = ram_of(alloc, words, items)?;
    Ok(ReportWords {
        placement,
        names,
        ram,
    })
}

fn link_words(
    alloc: Global,
    mode: Option<Flag>,
    words: &[String],
    items: &[Item],
) -> Result<LinkWords, NoMemory>
    requires { All (λ i. i.at < length words.now) items.now }
    ensures { IfOk result (λ link. link ≡ commands.link_words mode (map string_bytes words.now) items.now) }
{
    let ReportWords {
        placement,
        names,
        ram,
    } = report_words(alloc, mode, words, items)?;
    let container = container_of(mode, items);
    let output = value_of(alloc, words, items, Flag::Output)?;
    Ok(LinkWords {
        placement,
        container,
        output,
        names,
        ram,
    })
}

fn library_command(
    alloc: Global,
    mode: Option<Flag>,
    words: &[String],
    items: &[Item],
) -> Result<Command, NoMemory>
    requires { All (λ i. i.at < length words.now) items.now }
    ensures { IfOk result (λ command. command ≡ commands.library_command mode (map string_bytes words.now) items.now) }
{
    match mode {
        Some(Flag::Create) => {
            let library = value_of(alloc, words, items, Flag::Create)?;
            let objects = names_in(alloc, words, items)?;
            Ok(Command::CreateLibrary { library, objects })
        }
        Some(Flag::Extract) => {
            let library = value_of(alloc, words, items, Flag::Extract)?;
            let member = first_name(alloc, words, items)?;
            let output = value_of(alloc, words, items, Flag::Output)?;
            Ok(Command::ExtractMember {
                library,
                member,
                output,
            })
        }
        _ => {
            let library = value_of(alloc, words, items, Flag::Table)?;
            Ok(Command::ListMembers { library })
        }
    }
}

fn run_words(
    alloc: Global,
    mode: Option<Flag>,
    words: &[String],
    items: &[Item],
) -> Result<Command, NoMemory>
    requires { All (λ i. i.at < length words.now) items.now }
    ensures { IfOk result (λ command. command ≡ commands.verb_command Run mode (map string_bytes words.now) items.now) }
{
    let image = image_of(alloc, mode, words, items)?;
    let memory = banks_in(alloc, words, items, Flag::Memory)?;
    let rom = banks_in(alloc, words, items, Flag::Rom)?;
    let steps = number_of(words, items, Flag::Steps, 10_000_000);
    Ok(Command::Run(RunWords {
        image,
        memory,
        rom,
        steps,
    }))
}

fn debug_words(
    alloc: Global,
    mode: Option<Flag>,
    words: &[String],
    items: &[Item],
) -> Result<Command, NoMemory>
    requires { All (λ i. i.at < length words.now) items.now }
    ensures { IfOk result (λ command. command ≡ commands.verb_command Debug mode (map string_bytes words.now) items.now) }
{
    let image = image_of(alloc, mode, words, items)?;
    let memory = banks_in(alloc, words, items, Flag::Memory)?;
    let rom = banks_in(alloc, words, items, Flag::Rom)?;
    let script = value_of(alloc, words, items, Flag::Script)?;
    Ok(Command::Debug(DebugWords {
        image,
        memory,
        rom,
        script,
    }))
}

ghost use Rattle.tool_words.specs.declared.table.Verb.TheVariants.{Run, InterruptKit, Burn, MakeBig, Debug};

fn kit_command(alloc: Global, words: &[String], items: &[Item]) -> Result<Command, NoMemory>
    requires { All (λ i. i.at < length words.now) items.now }
    ensures { IfOk result (λ command. command ≡ commands.verb_command InterruptKit None (map string_bytes words.now) items.now) }
{
    let output = value_of(alloc, words, items, Flag::Output)?;
    let acknowledge = number_of(words, items, Flag::Acknowledge, 0xF000_000C);
    Ok(Command::InterruptKit {
        output,
        acknowledge,
    })
}

ghost use Rattle.std.specs.Prelude.{None};

fn form_of(mode: Option<Flag>) -> BurnForm
    ensures { result ≡ commands.form_of mode }
{
    match mode {
        Some(Flag::IntelHex) => BurnForm::IntelHex,
        _ => BurnForm::SRecords,
    }
}

fn burn_command(
    alloc: Global,
    mode: Option<Flag>,
    words: &[String],
    items: &[Item],
) -> Result<Command, NoMemory>
    requires { All (λ i. i.at < length words.now) items.now }
    ensures { IfOk result (λ command. command ≡ commands.verb_command Burn mode (map string_bytes words.now) items.now) }
{
    let form = form_of(mode);
    let map = value_of(alloc, words, items, Flag::Map)?;
    let output = value_of(alloc, words, items, Flag::Output)?;
    Ok(Command::Burn { form, map, output })
}

/// The number that the first name writes; 0 where it writes none.
fn count_of(words: &[String], items: &[Item]) -> u32
    ensures { result ≡ commands.count_of (map string_bytes words.now) items.now }
{
    match name_place(items) {
        None => 0,
        Some(at) => decimal_at(words, at).unwrap_or(0),
    }
}

fn second_name(alloc: Global, words: &[String], items: &[Item]) -> Result<Text, NoMemory>
    ensures { IfOk result (λ text. text ≡ commands.second_name (map string_bytes words.now) items.now) }
{
    let names = names_in(alloc, words, items)?;
    match names.as_slice().get(1) {
        None => Text::from_slice(alloc, b""),
        Some(name) => Text::from_slice(alloc, name.as_slice()),
    }
}

fn big_command(alloc: Global, words: &[String], items: &[Item]) -> Result<Command, NoMemory>
    ensures { IfOk result (λ command. command ≡ commands.verb_command MakeBig None (map string_bytes words.now) items.now) }
{
    let count = count_of(words, items);
    let output = second_name(alloc, words, items)?;
    Ok(Command::MakeBig { count, output })
}

fn verb_command(
    alloc: Global,
    verb: Verb,
    words: &[String],
    items: &[Item],
) -> Result<Command, NoMemory>
    requires { All (λ i. i.at < length words.now) items.now }
    ensures { IfOk result (λ command. command ≡ commands.chosen_command verb (map string_bytes words.now) items.now) }
{
    let mode = mode_of(items);
    match verb {
        Verb::Assemble => {
            let source = first_name(alloc, words, items)?;
            let output = value_of(alloc, words, items, Flag::Output)?;
            Ok(Command::Assemble { source, output })
        }
        Verb::Library => library_command(alloc, mode, words, items),
        Verb::List => {
            let file = first_name(alloc, words, items)?;
            Ok(Command::List { file })
        }
        Verb::Run => run_words(alloc, mode, words, items),
        Verb::Link => {
            let link = link_words(alloc, mode, words, items)?;
            Ok(Command::Link(link))
        }
        Verb::Build => {
            let link = link_words(alloc, mode, words, items)?;
            Ok(Command::Build(link))
        }
        Verb::InterruptKit => kit_command(alloc, words, items),
        Verb::Burn => burn_command(alloc, mode, words, items),
        Verb::Report => {
            let report = report_words(alloc, mode, words, items)?;
            Ok(Command::Report(report))
        }
        Verb::MakeBig => big_command(alloc, words, items),
        Verb::Debug => debug_words(alloc, mode, words, items),
    }
}
