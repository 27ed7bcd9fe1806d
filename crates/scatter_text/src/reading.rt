//! Reading: the parts in their order.

ghost use Rattle.std.specs.Prelude.{nat_lt, ◌≡◌, ◌<◌, ◌≤◌, ◌^◌, ◌+◌, ◌++◌, ◌∷◌, [], IfOk, IfErr, OnOk, Some, None, Ok, codes, length};
ghost use Rattle.std.specs.List.{list_any};
ghost use Rattle.std.specs.Str.{bytes_eq};
ghost use Rattle.sdt_fault.specs.declared.kinds.ScatterKind.TheVariants as kind;
ghost use Rattle.scatter_text.specs.Laws.{Describes, IsFaultOf};
ghost use Rattle.scatter_text.specs.Reading as steps;
ghost use Rattle.scatter_text.specs.Reading.{judged, step, Leaves, Gives, refusal, beginning, scatter_of};

use crate::cuts::{behind_gap, line_count, opened, part_len};
use crate::stops::Stop;
use crate::words::{base_in, choice_in, edge_in, is_region_name, module_in, number_in, told};
use place_model::{Choice, Edge, Scatter, ScatterBase, ScatterLoad, ScatterRegion, Selection};
use sdt_fault::answer::Fault;
use sdt_fault::kinds::ScatterKind;
use sdt_fault::refusal::Refusal;
use sdt_fault::{List, NoMemory, Text};
use std::alloc::Global;
use std::mem;

/// Which parts may follow.
#[derive(Clone, Copy)]
pub enum Stage {
    /// A load region's name.
    Loads,
    LoadBase,
    /// A load region's maximum, or its brace.
    LoadMax,
    LoadOpen,
    /// An execution region's name, or the end of the load region.
    Regions,
    RegionBase,
    RegionMax,
    RegionOpen,
    /// A module, or the end of the execution region.
    Groups,
    Paren,
    Selector,
    /// A comma, or the end of a module's selectors.
    Behind,
    /// An edge, or the next selector.
    Word,
    /// A comma, or the end of a module's selectors.
    BehindEdge,
}

/// What is read so far: load regions, and the load region, the execution region, the module and the selection that
/// are being read. What isn't is empty.
#[derive(Drop)]
pub struct Reader {
    stage: Stage,
    loads: List<ScatterLoad>,
    load: ScatterLoad,
    region: ScatterRegion,
    /// The names of all execution regions.
    names: List<Text>,
    module: Option<Text>,
    selection: Selection,
}

fn load_named(alloc: Global, name: Text) -> ScatterLoad
    ensures { result ≡ steps.load_named name }
{
    ScatterLoad {
        name,
        base: 0,
        max: None,
        regions: List::from_vec(Vec::new(alloc)),
    }
}

fn region_named(alloc: Global, name: Text) -> ScatterRegion
    ensures { result ≡ steps.region_named name }
{
    ScatterRegion {
        name,
        base: ScatterBase::At(0),
        max: None,
        selections: List::from_vec(Vec::new(alloc)),
    }
}

fn no_selection() -> Selection
    ensures { result ≡ steps.no_selection }
{
    Selection {
        line: 0,
        module: None,
        choice: Choice::Ro,
        edge: Edge::Plain,
    }
}

fn no_name(alloc: Global) -> Text
    ensures { result ≡ [] }
{
    Text::from_vec(Vec::new(alloc))
}

fn no_load(alloc: Global) -> ScatterLoad
    ensures { result ≡ steps.load_named [] }
{
    load_named(alloc, no_name(alloc))
}

fn no_region(alloc: Global) -> ScatterRegion
    ensures { result ≡ steps.region_named [] }
{
    region_named(alloc, no_name(alloc))
}

fn append<T: Drop>(alloc: Global, list: &mut List<T>, item: T) -> Result<(), NoMemory>
    ensures { OnOk result (list.new ≡ list.old ++ item ∷ []) }
{
    let mut items = mem::replace(list, List::from_vec(Vec::new(alloc))).into_vec();
    items.push(item)?;
    *list = List::from_vec(items);
    Ok(())
}

fn is_load_name(loads: &[ScatterLoad], name: &[u8]) -> bool
    ensures { result ≡ list_any (λ l. bytes_eq l.name name.now) loads.now }
{
    loads.iter().any(|load| load.name.as_slice() == name)
}

fn is_among(names: &[Text], name: &[u8]) -> bool
    ensures { result ≡ list_any (λ other. bytes_eq other name.now) names.now }
{
    names.iter().any(|other| other.as_slice() == name)
}

fn has_room(names: &[Text]) -> bool
    ensures { result ≡ nat_lt (length names.now) 64 }
{
    names.len() < 64
}

impl Reader {
    fn new(alloc: Global) -> Reader
        ensures { result ≡ beginning }
    {
        Reader {
            stage: Stage::Loads,
            loads: List::from_vec(Vec::new(alloc)),
            load: no_load(alloc),
            region: no_region(alloc),
            names: List::from_vec(Vec::new(alloc)),
            module: None,
            selection: no_selection(),
        }
    }

    // At the stage, behind the sign.
    fn expect(&mut self, sign: &[u8], part: &[u8], stage: Stage) -> Result<(), Stop>
        ensures { Leaves result self.new (steps.expected sign.now stage self.old part.now) }
    {
        if part != sign {
            return Err(Stop::At(ScatterKind::Syntax));
        }
        self.stage = stage;
        Ok(())
    }

    fn name_load(&mut self, alloc: Global, part: &[u8]) -> Result<(), Stop>
        ensures { Leaves result self.new (steps.load_name self.old part.now) }
    {
        if !is_region_name(part) {
            return Err(Stop::At(ScatterKind::Syntax));
        }
        if part == b"map".as_slice() {
            return Err(Stop::At(ScatterKind::DuplicateName));
        }
        if is_load_name(self.loads.as_slice(), part) {
            return Err(Stop::At(ScatterKind::DuplicateName));
        }
        self.load = load_named(alloc, Text::from_slice(alloc, part)?);
        self.stage = Stage::LoadBase;
        Ok(())
    }

    fn base_load(&mut self, part: &[u8]) -> Result<(), Stop>
        ensures { Leaves result self.new (steps.load_base self.old part.now) }
    {
        let base = match number_in(part) {
            Ok(base) => base,
            Err(stop) => return Err(stop),
        };
        self.load.base = base;
        self.stage = Stage::LoadMax;
        Ok(())
    }

    fn limit_load(&mut self, part: &[u8]) -> Result<(), Stop>
        ensures { Leaves result self.new (steps.load_limit self.old part.now) }
    {
        let max = match number_in(part) {
            Ok(max) => max,
            Err(stop) => return Err(stop),
        };
        self.load.max = Some(max);
        self.stage = Stage::LoadOpen;
        Ok(())
    }

    fn limit_or_open_load(&mut self, part: &[u8]) -> Result<(), Stop>
        ensures { Leaves result self.new (steps.load_max self.old part.now) }
    {
        if part == b"{".as_slice() {
            self.stage = Stage::Regions;
            return Ok(());
        }
        self.limit_load(part)
    }

    fn close_load(&mut self, alloc: Global) -> Result<(), NoMemory>
        ensures { OnOk result (self.new ≡ steps.close_load self.old) }
    {
        let load = mem::replace(&mut self.load, no_load(alloc));
        append(alloc, &mut self.loads, load)?;
        self.stage = Stage::Loads;
        Ok(())
    }

    fn end_load(&mut self, alloc: Global) -> Result<(), Stop>
        ensures { Leaves result self.new (steps.load_end self.old) }
    {
        if self.load.regions.as_slice().is_empty() {
            return Err(Stop::At(ScatterKind::Empty));
        }
        self.close_load(alloc)?;
        Ok(())
    }

    fn begin_region(&mut self, alloc: Global, part: &[u8]) -> Result<(), NoMemory>
        ensures { OnOk result (self.new ≡ steps.begin_region self.old part.now) }
    {
        self.region = region_named(alloc, Text::from_slice(alloc, part)?);
        let name = Text::from_slice(alloc, part)?;
        append(alloc, &mut self.names, name)?;
        self.stage = Stage::RegionBase;
        Ok(())
    }

    fn name_region(&mut self, alloc: Global, part: &[u8]) -> Result<(), Stop>
        ensures { Leaves result self.new (steps.region_name self.old part.now) }
    {
        if !is_region_name(part) {
            return Err(Stop::At(ScatterKind::Syntax));
        }
        if is_among(self.names.as_slice(), part) {
            return Err(Stop::At(ScatterKind::DuplicateName));
        }
        if !has_room(self.names.as_slice()) {
            return Err(Stop::At(ScatterKind::TooMany));
        }
        self.begin_region(alloc, part)?;
        Ok(())
    }

    fn region_or_end(&mut self, alloc: Global, part: &[u8]) -> Result<(), Stop>
        ensures { Leaves result self.new (steps.regions self.old part.now) }
    {
        if part == b"}".as_slice() {
            return self.end_load(alloc);
        }
        self.name_region(alloc, part)
    }

    fn base_region(&mut self, part: &[u8]) -> Result<(), Stop>
        ensures { Leaves result self.new (steps.region_base self.old part.now) }
    {
        let base = match base_in(part) {
            Ok(base) => base,
            Err(stop) => return Err(stop),
        };
        self.region.base = base;
        self.stage = Stage::RegionMax;
        Ok(())
    }

    fn limit_region(&mut self, part: &[u8]) -> Result<(), Stop>
        ensures { Leaves result self.new (steps.region_limit self.old part.now) }
    {
        let max = match number_in(part) {
            Ok(max) => max,
            Err(stop) => return Err(stop),
        };
        self.region.max = Some(max);
        self.stage = Stage::RegionOpen;
        Ok(())
    }

    fn limit_or_open_region(&mut self, part: &[u8]) -> Result<(), Stop>
        ensures { Leaves result self.new (steps.region_max self.old part.now) }
    {
        if part == b"{".as_slice() {
            self.stage = Stage::Groups;
            return Ok(());
        }
        self.limit_region(part)
    }

    fn close_region(&mut self, alloc: Global) -> Result<(), NoMemory>
        ensures { OnOk result (self.new ≡ steps.close_region self.old) }
    {
        let region = mem::replace(&mut self.region, no_region(alloc));
        append(alloc, &mut self.load.regions, region)?;
        self.stage = Stage::Regions;
        Ok(())
    }

    fn name_module(&mut self, alloc: Global, part: &[u8]) -> Result<(), Stop>
        ensures { Leaves result self.new (judged None (steps.name_module self.old part.now)) }
    {
        let Some(module) = module_in(alloc, part)? else {
            return Err(Stop::At(ScatterKind::Syntax));
        };
        self.module = module;
        self.stage = Stage::Paren;
        Ok(())
    }

    fn module_or_end(&mut self, alloc: Global, part: &[u8]) -> Result<(), Stop>
        ensures { Leaves result self.new (judged None (steps.shift_groups self.old part.now)) }
    {
        if part == b"}".as_slice() {
            self.close_region(alloc)?;
            return Ok(());
        }
        self.name_module(alloc, part)
    }

    fn select(&mut self, alloc: Global, line: usize, part: &[u8]) -> Result<(), Stop>
        ensures { Leaves result self.new (judged None (steps.select self.old line part.now)) }
    {
        let Some(choice) = choice_in(alloc, part)? else {
            return Err(Stop::At(ScatterKind::Syntax));
        };
        self.selection = Selection {
            line: told(line),
            module: copied(alloc, &self.module)?,
            choice,
            edge: Edge::Plain,
        };
        self.stage = Stage::Behind;
        Ok(())
    }

    fn keep(&mut self, alloc: Global, edge: Edge) -> Result<(), NoMemory>
        ensures { OnOk result (self.new ≡ steps.keep edge self.old) }
    {
        let mut whole = mem::replace(&mut self.selection, no_selection());
        whole.edge = edge;
        append(alloc, &mut self.region.selections, whole)
    }

    fn behind(&mut self, alloc: Global, part: &[u8]) -> Result<(), Stop>
        ensures { Leaves result self.new (judged None (steps.shift_behind self.old part.now)) }
    {
        if part == b",".as_slice() {
            self.stage = Stage::Word;
            return Ok(());
        }
        if part != b")".as_slice() {
            return Err(Stop::At(ScatterKind::Syntax));
        }
        self.keep(alloc, Edge::Plain)?;
        self.stage = Stage::Groups;
        Ok(())
    }

    fn word(&mut self, alloc: Global, line: usize, part: &[u8]) -> Result<(), Stop>
        ensures { Leaves result self.new (judged None (steps.shift_word self.old line part.now)) }
    {
        let Some(edge) = edge_in(part) else {
            self.keep(alloc, Edge::Plain)?;
            return self.select(alloc, line, part);
        };
        self.keep(alloc, edge)?;
        self.stage = Stage::BehindEdge;
        Ok(())
    }

    fn behind_edge(&mut self, part: &[u8]) -> Result<(), Stop>
        ensures { Leaves result self.new (judged None (steps.shift_behind_edge self.old part.now)) }
    {
        if part == b",".as_slice() {
            self.stage = Stage::Selector;
            return Ok(());
        }
        self.expect(b")", part, Stage::Groups)
    }

    // What is read with one more part.
    #[tactic(auto, unfolding(crate::specs::Reading::shift, crate::specs::Reading::flaw))]
    fn step(&mut self, alloc: Global, line: usize, part: &[u8]) -> Result<(), Stop>
        ensures { Leaves result self.new (step self.old (record { line = line; text = part.now })) }
    {
        match self.stage {
            Stage::Loads => self.name_load(alloc, part),
            Stage::LoadBase => self.base_load(part),
            Stage::LoadMax => self.limit_or_open_load(part),
            Stage::LoadOpen => self.expect(b"{", part, Stage::Regions),
            Stage::Regions => self.region_or_end(alloc, part),
            Stage::RegionBase => self.base_region(part),
            Stage::RegionMax => self.limit_or_open_region(part),
            Stage::RegionOpen => self.expect(b"{", part, Stage::Groups),
            Stage::Groups => self.module_or_end(alloc, part),
            Stage::Paren => self.expect(b"(", part, Stage::Selector),
            Stage::Selector => self.select(alloc, line, part),
            Stage::Behind => self.behind(alloc, part),
            Stage::Word => self.word(alloc, line, part),
            Stage::BehindEdge => self.behind_edge(part),
        }
    }

    // The load regions, where no parts follow.
    #[tactic(auto, unfolding(crate::specs::Reading::last))]
    fn last(self, line: usize) -> Result<Scatter, Fault>
        ensures { Gives result (refusal (steps.last line self)) }
    {
        if !is_between_loads(self.stage) {
            return Err(at_fault(line, ScatterKind::Syntax));
        }
        if self.loads.as_slice().is_empty() {
            return Err(at_fault(line, ScatterKind::Empty));
        }
        Ok(Scatter { loads: self.loads })
    }
}

fn copied(alloc: Global, name: &Option<Text>) -> Result<Option<Text>, NoMemory>
    ensures { IfOk result (λ copy. copy ≡ name.now) }
{
    match name {
        None => Ok(None),
        Some(name) => Ok(Some(name.try_clone(alloc)?)),
    }
}

fn is_between_loads(stage: Stage) -> bool
    ensures { result ≡ steps.is_between_loads stage }
{
    matches!(stage, Stage::Loads)
}

fn at_fault(line: usize, kind: ScatterKind) -> Fault
    ensures { result ≡ steps.at_fault line kind }
{
    Fault::Refused(Refusal::ScatterLine {
        line: told(line),
        kind,
    })
}

fn stopped(line: usize, stop: Stop) -> Fault
    ensures { result ≡ steps.stopped line stop }
{
    match stop {
        Stop::At(kind) => at_fault(line, kind),
        Stop::NoMemory => Fault::NoMemory,
    }
}

fn description(alloc: Global, text: &[u8]) -> Result<Scatter, Fault>
    ensures { Gives result (scatter_of text.now) }
{
    let mut reader = Reader::new(alloc);
    let mut line = 1;
    let mut depth = 0;
    let mut rest = text;
    'parts: loop {
        let (at, begun) = behind_gap(rest, line);
        let Some((first, _)) = begun.split_first() else {
            return reader.last(line_count(text) + 1);
        };
        let len = part_len(depth, begun);
        if let Err(stop) = reader.step(alloc, at, &begun[..len]) {
            return Err(stopped(at, stop));
        }
        line = at;
        depth = opened(depth, *first);
        rest = &begun[len..];
    }
}

/// The description that the text spells. Gives `ScatterLine` exactly where it spells none that is valid, with the
/// line and the kind of the first fault. Each region's name is compared with those before it, at most 64; the rest
/// takes time that is linear in the text and in the modules' names of the selections.
pub fn read_scatter(alloc: Global, text: &[u8]) -> Result<Scatter, Fault>
    // What is read is what the text spells, and its numbers, names and counts are as they may be.
    ensures found { IfOk result (Describes text.now) }
    // What the text spells is read, if it is valid, unless memory was refused.
    ensures only { (s : Scatter) → Describes text.now s → Gives result (Ok s) }
    // The error tells a fault that is there, unless memory was refused.
    ensures fault { IfErr result (IsFaultOf text.now) }
    // What each part adds, up to the first that can't follow.
    ensures exact { Gives result (scatter_of text.now) }
{
    description(alloc, text)
}
