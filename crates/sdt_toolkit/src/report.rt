//! The command `report`.

ghost use Rattle.std.specs.Prelude.{◌≡◌, ◌≤◌, ◌++◌, ℕ, List as Items, Ok, length, true};
ghost use Rattle.std.specs.List.{AllByRecursion};
ghost use Rattle.std.specs.Option.{option_copied};
ghost use Rattle.alf_archive.specs.Grammar.{IsValid as IsValidArchive};
ghost use Rattle.aof_object.specs.Validity.{IsValid};
ghost use Rattle.armlink_core.specs.Images.{Links};
ghost use Rattle.tool_words.specs.Commands.{AreBanks, IsBased, IsReported};
ghost use Rattle.sdt_toolkit.specs.Contents.{AllAgree, AreCounted};
ghost use Rattle.sdt_toolkit.specs.Inputs.{AreValid, IsGot, Tells};
ghost use Rattle.sdt_toolkit.specs.Links.{inputs_in};
ghost use Rattle.sdt_toolkit.specs.Reads.{Told, outside_of};
ghost use Rattle.sdt_toolkit.specs.Reports as reports;
ghost use Rattle.sdt_toolkit.specs.Reports.{InputsReport, IsReport, ReportAnswers, ReportIs, Reports};

use crate::contents::{LinkFiles, read_files, text_in};
use crate::images::{Parts, parts_of};
use crate::inputs::inputs_of;
use crate::laws::images_start;
use crate::sound::{archives_fit, objects_fit};
use armlink_core::{PlacedLink, place_link, place_scatter, report};
use link_model::Named;
use place_model::Kind;
use sdt_fault::answer::{Answer, Fault};
use sdt_fault::{List, Text};
use sdt_outside::{Sink, Store};
use sdt_word::Range32;
use std::alloc::Global;
use tool_answers::print;
use tool_library::Linkable;
use tool_library::ends::{end_answer, fault_answer};
use tool_run::ranges;
use tool_words::{Bank, LinkPlacement, ReportWords};

// ---- the text

/// The link of parts, placed. `text` is the scatter file's.
fn placed_as(
    alloc: Global,
    parts: Parts,
    placement: &LinkPlacement,
    text: &[u8],
    ram: Option<&[Range32]>,
) -> Result<PlacedLink, Fault>
    requires objects { AllByRecursion (λ o. IsValid o.value) parts.objects.items }
    requires archives { AllByRecursion (λ a. IsValidArchive a.value) parts.archives.items }
    ensures { Links parts.objects.items parts.archives.items (reports.placed_as placement.now text.now (option_copied ram.entry)) result }
{
    match placement {
        LinkPlacement::Aif { base, relocatable } => {
            let kind = Kind::Aif {
                base: *base,
                relocatable: *relocatable,
            };
            place_link(alloc, parts.objects, parts.archives, kind, ram)
        }
        LinkPlacement::Plain { base } => {
            let kind = Kind::Plain { base: *base };
            place_link(alloc, parts.objects, parts.archives, kind, None)
        }
        LinkPlacement::Scatter { .. } => {
            place_scatter(alloc, parts.objects, parts.archives, text, ram)
        }
    }
}

fn report_as(
    alloc: Global,
    parts: Parts,
    placement: &LinkPlacement,
    text: &[u8],
    ram: Option<&[Range32]>,
) -> Result<Text, Fault>
    requires objects { AllByRecursion (λ o. IsValid o.value) parts.objects.items }
    requires archives { AllByRecursion (λ a. IsValidArchive a.value) parts.archives.items }
    ensures { Links parts.objects.items parts.archives.items
        (reports.report_as placement.now text.now (option_copied ram.entry) (length parts.objects.items)) result }
{
    let given = parts.objects.len();
    match placed_as(alloc, parts, placement, text, ram) {
        Ok(placed) => {
            let text = report(alloc, &placed, given);
            drop(placed);
            text
        }
        Err(fault) => Err(fault),
    }
}

fn report_within(
    alloc: Global,
    parts: Parts,
    placement: &LinkPlacement,
    text: &[u8],
    ram: &Option<List<Bank>>,
) -> Result<Text, Fault>
    requires objects { AllByRecursion (λ o. IsValid o.value) parts.objects.items }
    requires archives { AllByRecursion (λ a. IsValidArchive a.value) parts.archives.items }
    requires banks { AreBanks ram.now }
    ensures { Tells result (IsReport parts.objects.items parts.archives.items placement.now text.now ram.now) }
{
    match ram {
        None => report_as(alloc, parts, placement, text, None),
        Some(banks) => {
            let Ok(ranges) = ranges(alloc, banks.as_slice()) else {
                drop(parts);
                return Err(Fault::NoMemory);
            };
            let text = report_as(alloc, parts, placement, text, Some(ranges.as_slice()));
            drop(ranges);
            text
        }
    }
}

/// The report of inputs by a placement. `text` is the scatter file's.
fn report_of(
    alloc: Global,
    placement: &LinkPlacement,
    text: &[u8],
    ram: &Option<List<Bank>>,
    inputs: Vec<Named<Linkable>>,
) -> Result<Text, Fault>
    requires based { IsBased placement.now }
    requires banks { AreBanks ram.now }
    requires inputs { AreValid inputs.items }
    ensures { Tells result (ReportIs placement.now text.now ram.now inputs.items) }
{
    let parts = parts_of(alloc, inputs)?;
    images_start();
    objects_fit(parts.objects.as_slice());
    archives_fit(parts.archives.as_slice());
    report_within(alloc, parts, placement, text, ram)
}

// ---- the command

fn inputs_report(
    alloc: Global,
    words: &ReportWords,
    text: &[u8],
    inputs: List<Named<Linkable>>,
) -> Result<Text, Fault>
    requires good { IsReported words.now }
    requires inputs { AreValid inputs }
    ensures { Tells result (InputsReport words.now text.now (Ok inputs)) }
{
    report_of(alloc, &words.placement, text, &words.ram, inputs.into_vec())
}

/// What these report of which this was read, whatever contents they have that agree with that.
fn contents_report<S: Store>(
    alloc: Global,
    store: &mut S,
    words: &ReportWords,
    read: &LinkFiles,
) -> Result<Text, Fault>
    requires good { IsReported words.now }
    requires counted { AreCounted words.now.placement words.now.names read.now }
    ensures reports { (inputs : Items (Items ℕ)) → AllAgree true words.now.names read.now.contents inputs
        → Told (S.files store.old) (S.read_faults store.old) (S.read_faults store.new)
        result (λ s. Reports s words.now (read.now.texts ++ inputs))
        (λ s. IsGot s.told true words.now.names (inputs_in words.now.placement (read.now.texts ++ inputs))) }
    ensures files { S.files store.new ≡ S.files store.old }
    ensures read_faults { S.read_faults store.old ≤ S.read_faults store.new }
    ensures write_faults { S.write_faults store.new ≡ S.write_faults store.old }
{
    let text = text_in(&words.placement, read.texts.as_slice());
    match inputs_of(
        alloc,
        store,
        true,
        words.names.as_slice(),
        read.contents.as_slice(),
    ) {
        Ok(inputs) => inputs_report(alloc, words, text, inputs),
        Err(fault) => Err(fault),
    }
}

/// Links objects, libraries and sources as `build` does, and prints where everything went.
pub fn print_report<S: Store, K: Sink>(
    alloc: Global,
    store: &mut S,
    sink: &mut K,
    words: &ReportWords,
) -> Answer
    requires { IsReported words.now }
    ensures { ReportAnswers words.now (outside_of (S.files store.old) (S.files store.new) (K.bytes sink.old) (K.bytes sink.new)
        (S.read_faults store.old) (S.read_faults store.new) (S.write_faults store.old) (S.write_faults store.new)
        (K.faults sink.old) (K.faults sink.new)) result }
{
    let read = match read_files(alloc, store, true, &words.placement, words.names.as_slice()) {
        Ok(read) => read,
        Err(end) => return end_answer(end),
    };
    match contents_report(alloc, store, words, &read) {
        Ok(text) => print(sink, text.as_slice()),
        Err(fault) => fault_answer(fault),
    }
}
