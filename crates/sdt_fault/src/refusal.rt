//! The refusals: each names a defect that is there, with its place.

use crate::contents::Text;
use crate::kinds::{CommandKind, FileKind, LineKind, Quantity, RecordKind, ScatterKind};

/// Why a command was refused. Its number, its word and the order of its fields are this project's; a
/// place or line that would be 2^32 is told as 2^32 - 1.
#[derive(Drop)]
pub enum Refusal {
    /// The word at `place`, counted from 1, breaks a rule, or is missing.
    BadWords {
        place: u32,
    },
    /// The line of the source, counted from 1, is at fault.
    BadLine {
        source: Text,
        line: u32,
        kind: LineKind,
    },
    BadChunk {
        file: Text,
        offset: u32,
        kind: FileKind,
    },
    BadObject {
        file: Text,
        offset: u32,
        kind: FileKind,
    },
    BadLibrary {
        file: Text,
        offset: u32,
        kind: FileKind,
    },
    /// Two linked objects export the symbol.
    Duplicate {
        symbol: Text,
        first: Text,
        second: Text,
    },
    /// Nothing gives the symbol a meaning that the object refers to.
    Undefined {
        symbol: Text,
        object: Text,
    },
    NoEntry,
    TwoEntries {
        first: Text,
        second: Text,
    },
    /// The line of the scatter description, counted from 1, is at fault.
    ScatterLine {
        line: u32,
        kind: ScatterKind,
    },
    /// No selection takes the area.
    Unassigned {
        object: Text,
        area: Text,
    },
    /// The selections on two lines take the area equally well.
    Ambiguous {
        object: Text,
        area: Text,
        first: u32,
        second: u32,
    },
    /// The address is the least in both regions.
    Overlap {
        first: Text,
        second: Text,
        address: u32,
    },
    /// The region's size in bytes is above the maximum.
    Overfull {
        region: Text,
        size: u64,
        maximum: u64,
    },
    /// The first execution region is loaded elsewhere than it runs.
    NoRoot {
        region: Text,
    },
    /// The address is the least in the first region and in what is still to be copied to the second.
    CopyConflict {
        first: Text,
        second: Text,
        address: u32,
    },
    TooLarge {
        quantity: Quantity,
        limit: u64,
    },
    /// A branch goes to a symbol of the other state whose area lacks the interworking attribute.
    NotInterworking {
        symbol: Text,
        area: Text,
    },
    /// The branch at the offset in the area is too far from its target.
    Unreachable {
        object: Text,
        area: Text,
        offset: u32,
        symbol: Text,
    },
    FieldOverflow {
        object: Text,
        area: Text,
        offset: u32,
    },
    BadRelocation {
        object: Text,
        area: Text,
        offset: u32,
    },
    NotRelocatable {
        object: Text,
        area: Text,
        offset: u32,
    },
    BadImage {
        file: Text,
        offset: u32,
        kind: FileKind,
    },
    /// The address is the least in two banks, two devices, or one of each.
    BankOverlap {
        address: u32,
    },
    /// The address is the least that is needed and that no bank has.
    NoRoom {
        address: u32,
    },
    /// A file, or a library's member, is not there.
    Missing {
        name: Text,
    },
    /// The address of the region is written to at startup or by the program, and is in no RAM.
    NotWritable {
        region: Text,
        address: u32,
    },
    BadCommand {
        file: Text,
        line: u32,
        kind: CommandKind,
    },
    BadRecord {
        file: Text,
        line: u32,
        kind: RecordKind,
    },
}
