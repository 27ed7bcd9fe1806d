//! Reading: the lines in their order.

ghost use Rattle.std.specs.Prelude.{◌≡◌, ◌^◌, ◌<◌, [], IfOk, IfErr, length, Ok, option_map};
ghost use Rattle.sdt_fault.specs.declared.answer.Fault.TheVariants.{Refused};
ghost use Rattle.sdt_fault.specs.declared.kinds.FileKind.TheVariants as kind;
ghost use Rattle.sdt_fault.specs.declared.refusal.Refusal.TheVariants.{BadImage};
ghost use Rattle.bin_image.specs.declared.reading.Stage.TheVariants as stage;
ghost use Rattle.bin_image.specs.Maps.{ReadsMap};
ghost use Rattle.bin_image.specs.Reading as lines;
ghost use Rattle.bin_image.specs.Reading.{Gives, IsFaultOf, map_of, shown};

use crate::fields::{cut, is};
use crate::lines::{bound_in, entry_in, load_in, region_in, start_in};
use crate::loads::Loads;
use crate::records::{MapFile, MapLoad, MapRegion};
use sdt_fault::answer::Fault;
use sdt_fault::kinds::FileKind;
use sdt_fault::refusal::Refusal;
use sdt_fault::{List, NoMemory, Text};
use std::alloc::Global;

/// Which lines may follow.
#[derive(Clone, Copy)]
pub enum Stage {
    /// The first line.
    Head,
    /// Load lines, and what may follow them.
    Loads,
    /// Execution lines, and the start.
    Regions,
    Entry,
    Bound,
    End,
    /// None.
    Done,
}

/// What is read so far.
#[derive(Drop)]
pub struct Reader {
    stage: Stage,
    loads: Loads,
    regions: Vec<MapRegion>,
    start: u32,
    entry: u32,
    thumb: bool,
    bound: u64,
}

impl Reader {
    fn new(alloc: Global) -> Reader
        ensures { shown result ≡ (stage.Head, lines.empty_map) }
    {
        Reader {
            stage: Stage::Head,
            loads: Loads::new(alloc),
            regions: Vec::new(alloc),
            start: 0,
            entry: 0,
            thumb: false,
            bound: 0,
        }
    }

    fn after_head(self, line: &[u8]) -> Option<Reader>
        ensures { option_map shown result ≡ lines.after_head (shown self).1 line.now }
    {
        if !is(line, b"armsdt map 1") {
            return None;
        }
        Some(Reader {
            stage: Stage::Loads,
            ..self
        })
    }

    fn add_load(self, load: MapLoad) -> Result<Option<Reader>, NoMemory>
        ensures { IfOk result (λ after. option_map shown after ≡ lines.add_load (shown self).1 load) }
    {
        let Some(loads) = self.loads.with(load)? else {
            return Ok(None);
        };
        Ok(Some(Reader {
            stage: Stage::Loads,
            loads,
            ..self
        }))
    }

    fn after_load(self, alloc: Global, line: &[u8]) -> Result<Option<Reader>, NoMemory>
        ensures { IfOk result (λ after. option_map shown after ≡ lines.after_load (shown self).1 line.now) }
    {
        match load_in(alloc, line)? {
            Some(load) => self.add_load(load),
            None => self.after_region(alloc, line),
        }
    }

    fn add_region(self, region: MapRegion) -> Result<Reader, NoMemory>
        ensures { IfOk result (λ after. shown after ≡ lines.add_region (shown self).1 region) }
    {
        let mut read = self;
        read.regions.push(region)?;
        read.stage = Stage::Regions;
        Ok(read)
    }

    fn after_region(self, alloc: Global, line: &[u8]) -> Result<Option<Reader>, NoMemory>
        ensures { IfOk result (λ after. option_map shown after ≡ lines.after_region (shown self).1 line.now) }
    {
        match region_in(alloc, line)? {
            Some(region) => Ok(Some(self.add_region(region)?)),
            None => Ok(self.after_start(line)),
        }
    }

    fn after_start(self, line: &[u8]) -> Option<Reader>
        ensures { option_map shown result ≡ lines.after_start (shown self).1 line.now }
    {
        let start = start_in(line)?;
        Some(Reader {
            stage: Stage::Entry,
            start,
            ..self
        })
    }

    fn after_entry(self, line: &[u8]) -> Option<Reader>
        ensures { option_map shown result ≡ lines.after_entry (shown self).1 line.now }
    {
        let (entry, thumb) = entry_in(line)?;
        Some(Reader {
            stage: Stage::Bound,
            entry,
            thumb,
            ..self
        })
    }

    fn after_bound(self, alloc: Global, line: &[u8]) -> Result<Option<Reader>, NoMemory>
        ensures { IfOk result (λ after. option_map shown after ≡ lines.after_bound (shown self).1 line.now) }
    {
        let Some(bound) = bound_in(alloc, line)? else {
            return Ok(None);
        };
        Ok(Some(Reader {
            stage: Stage::End,
            bound,
            ..self
        }))
    }

    fn after_end(self, line: &[u8]) -> Option<Reader>
        ensures { option_map shown result ≡ lines.after_end (shown self).1 line.now }
    {
        if !is(line, b"end") {
            return None;
        }
        Some(Reader {
            stage: Stage::Done,
            ..self
        })
    }

    // What is read with one more line; None where it can't stand there.
    #[tactic(auto, unfolding(crate::specs::Reading::next))]
    fn next(self, alloc: Global, line: &[u8]) -> Result<Option<Reader>, NoMemory>
        ensures { IfOk result (λ after. option_map shown after ≡ lines.next (shown self).0 (shown self).1 line.now) }
    {
        match self.stage {
            Stage::Head => Ok(self.after_head(line)),
            Stage::Loads => self.after_load(alloc, line),
            Stage::Regions => self.after_region(alloc, line),
            Stage::Entry => Ok(self.after_entry(line)),
            Stage::Bound => self.after_bound(alloc, line),
            Stage::End => Ok(self.after_end(line)),
            Stage::Done => Ok(None),
        }
    }

    fn into_map(self) -> MapFile
        ensures { result ≡ (shown self).1 }
    {
        MapFile {
            loads: List::from_vec(self.loads.into_lines()),
            regions: List::from_vec(self.regions),
            start: self.start,
            entry: self.entry,
            thumb: self.thumb,
            bound: self.bound,
        }
    }
}

fn is_done(stage: Stage) -> bool
    ensures { result ≡ lines.is_done stage }
{
    matches!(stage, Stage::Done)
}

fn bad_map(alloc: Global, at: usize) -> Fault
    requires { at < 2 ^ 32 }
    ensures { result ≡ Refused (BadImage [] at kind.Map) }
{
    Fault::Refused(Refusal::BadImage {
        file: Text::from_vec(Vec::new(alloc)),
        offset: at as u32,
        kind: FileKind::Map,
    })
}

// The map where its last line is read and nothing stands behind it.
fn last(alloc: Global, read: Reader, at: usize, piece: &[u8]) -> Result<MapFile, Fault>
    requires { at < 2 ^ 32 }
    ensures { Gives result (lines.told (lines.last at (shown read).0 (shown read).1 piece.now)) }
{
    if !is_done(read.stage) {
        return Err(bad_map(alloc, at));
    }
    if !piece.is_empty() {
        return Err(bad_map(alloc, at));
    }
    Ok(read.into_map())
}

fn map(alloc: Global, b: &[u8]) -> Result<MapFile, Fault>
    requires { length b.now < 2 ^ 32 }
    ensures { Gives result (map_of b.now) }
{
    let mut read = Reader::new(alloc);
    let mut at = 0;
    let mut rest = b;
    'lines: loop {
        let Some((line, after)) = cut(rest, b'\n') else {
            return last(alloc, read, at, rest);
        };
        let Some(longer) = read.next(alloc, line)? else {
            return Err(bad_map(alloc, at));
        };
        read = longer;
        at += line.len() + 1;
        rest = after;
    }
}

/// The map that the bytes spell. Gives `BadImage` of kind `Map`, with an empty file name, exactly where they
/// spell none, with the offset of the first byte of the first wrong line; what stands behind the last line feed
/// is a wrong line, and a missing line is told at the file's length. Takes time that is linear in the bytes, but for the
/// logarithm of an ordered index of the load ranges.
pub fn read_map(alloc: Global, b: &[u8]) -> Result<MapFile, Fault>
    requires { length b.now < 2 ^ 32 }
    // What is read is what the bytes say.
    ensures found { IfOk result (λ m. ReadsMap b.now m) }
    // What the bytes say is read, unless memory was refused.
    ensures only { (m : MapFile) → ReadsMap b.now m → Gives result (Ok m) }
    // The error tells the first wrong line, unless memory was refused.
    ensures first_wrong { IfErr result (IsFaultOf b.now) }
    // What each line adds, up to the first that can't follow.
    ensures exact { Gives result (map_of b.now) }
{
    map(alloc, b)
}
