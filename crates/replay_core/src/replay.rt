//! A replay under way.
ghost use Rattle.std.specs.Prelude.{◌≡◌, ◌≢◌, ◌<◌, ◌≤◌, ◌↔◌, ℕ, length, map, slice_index, true};
ghost use Rattle.std.specs.Prelude.{IfOk, OnOk, IsTrue, MatchResult};
ghost use Rattle.std.specs.List.{range_with_len};
ghost use Rattle.rtr_types.specs.declared.TheConstants.{CORES_MAX};
ghost use Rattle.rv_core.specs.States.{starting};
ghost use Rattle.race_log.specs.Validity.{Valid};
ghost use Rattle.replay_core.specs.Plans.{plan_of};
ghost use Rattle.replay_core.specs.Play.{AreRising, EachRising, core_at, given_by, given_next, instr, need_at, start};
ghost use Rattle.replay_core.specs.Play.{use_of, value_at};
ghost use Rattle.replay_core.specs.Orders.{counts_in, Full, is_ready, is_sourced};
ghost use Rattle.replay_core.specs.Answers.{TellsOrders, Advances, AdvancesGiven, Replays, ReplaysValued, Refuses};
ghost use Rattle.replay_core.specs.Runs.{GoesTo};
ghost use Rattle.replay_core.specs.Answers.{IsMet, RefusesValued, UsesWithin, cut_of};

use crate::answers::{Advanced, ReplayFault};
use crate::coming::PLACES;
use crate::low_order::LowOrder;
use crate::noted_memory::NotedMemory;
use crate::one_place::{access, found, heeded, leave, note, shared};
use crate::watch::Watch;
use core_runs::{Ran, run};
use image_mem::{Image, Memory};
use load_lists::LoadLists;
use race_log::Recording;
use rtr_types::{Cut, Instr, Items, Kind, Which};
use rv_core::{Core, Need, Outcome, Program};
use std::alloc::{AllocError, Global};
use std::marker::Model;

/// A recording that is played by one of its logs, and how far the play has come. Each place of the play
/// is a core, which retires its next instruction over one flat memory.
pub struct Replay<'a> {
    recording: &'a Recording,
    which: Which,
    program: Program,
    cores: Vec<Core>,
    noted: NotedMemory,
}

impl Drop for Replay<'_> {
    fn drop(self) {
        let Replay {
            recording: _recording,
            which: _which,
            program: _program,
            cores: _cores,
            noted: _noted,
        } = self;
    }
}

impl<'a> Model for Replay<'a> {
    ghost use Rattle.replay_core.specs.Plans.{plan_of};
    ghost use Rattle.replay_core.specs.Answers.{UnderWay, HoldsTogether, under_way};

    ghost Value = { UnderWay };

    ghost view = { λ a. under_way (plan_of a.which a.recording.now) a.cores.items a.noted.memory a.noted.loads };

    ghost invariant = { λ a. HoldsTogether a.recording.now a.program a.cores.items a.noted.memory a.noted.loads.lists };
}

impl<'a> Replay<'a> {
    /// The replay before its first place.
    pub fn new(alloc: Global, recording: &'a Recording, which: Which) -> Result<Self, AllocError>
        requires { Valid recording.now }
        ensures plan { IfOk result (λ replay. replay.plan ≡ plan_of which recording.now) }
        ensures state { IfOk result (λ replay. replay.state ≡ start (plan_of which recording.now)) }
    {
        let params = recording.params;
        let bytes = Vec::from_slice(alloc, recording.image.as_slice())?;
        let Ok(image) = Image::flat(bytes, params.words) else {
            unreachable!()
        };
        let cores = cores_of(alloc, params.cores, params.limit)?;
        let memory = Memory::new(alloc, &image)?;
        let loads = LoadLists::new(alloc, params.cores)?;
        let program = Program::new(alloc, image)?;
        Ok(Replay {
            recording,
            which,
            program,
            cores,
            noted: NotedMemory { memory, loads },
        })
    }

    /// Whether the core is below its total and each logged source of its next instruction was played:
    /// whether its place can be added to the replay order that was played.
    pub fn ready(&self, core: u8) -> bool
        requires { core < length self.now.plan.totals }
        ensures test { result ≡ is_ready self.now.plan (counts_in self.now.state) core }
        ensures order { TellsOrders self.now.plan self.now.state core result }
    {
        let count = self.count(core);
        count < self.total(core) && self.is_sourced(core, count + 1)
    }

    /// Makes room for what one more instruction of each core may read, so that `advance` takes no memory.
    /// After want of memory the replay is as it was.
    pub fn make_room(&mut self) -> Result<(), AllocError>
        ensures plan { self.new.plan ≡ self.old.plan }
        ensures state { self.new.state ≡ self.old.state }
        ensures room { OnOk result (IsTrue self.new.roomy) }
    {
        self.noted.loads.make_room()
    }

    /// One place of the play: the core, which is ready, retires its next instruction, unless its program
    /// is done.
    #[inline(always)]
    pub fn advance(&mut self, core: u8) -> Advanced
        requires ready { is_ready self.old.plan (counts_in self.old.state) core ≡ true }
        requires room { IsTrue self.old.roomy }
        ensures plan { self.new.plan ≡ self.old.plan }
        ensures place { Advances self.old.plan self.old.state core result self.new.state }
    {
        self.advance_given(core, None)
    }

    /// One place of the play, in which a load takes the given value in place of its word's, if one is given.
    /// It then makes no access. Any other instruction ignores the value.
    #[inline(always)]
    pub fn advance_given(&mut self, core: u8, given: Option<u32>) -> Advanced
        requires ready { is_ready self.old.plan (counts_in self.old.state) core ≡ true }
        requires room { IsTrue self.old.roomy }
        ensures plan { self.new.plan ≡ self.old.plan }
        ensures place { AdvancesGiven self.old.plan self.old.state core given result self.new.state }
    {
        let op = self.program.op(self.cores[core as usize].pc());
        let image = self.program.image();
        let need = self.cores[core as usize].need_by_op(image, op);
        if need.is_done() {
            return Advanced::Short;
        }
        let used = need.access();
        let given = heeded(given, used);
        let mine = shared(given, used);
        let old = found(given, &self.noted.memory, used);
        let value = self.cores[core as usize].finish_op(image, op, old);
        let count = self.cores[core as usize].count();
        note(&mut self.noted.loads, core, used, count, old);
        leave(&mut self.noted.memory, mine, value);
        let at = Instr { core, count };
        Advanced::Retired {
            access: access(mine, at, old, value),
        }
    }

    /// The core retires one instruction after the other, until it has retired so many, or its program is done before.
    /// The watch is told of each access before anything changes. If there is no memory for one, its instruction doesn't
    /// retire.
    #[inline(always)]
    pub fn go_on<W: Watch>(&mut self, core: u8, until: u32, watch: &mut W) -> Ran
        requires inside { core < length self.old.plan.totals }
        requires number { (core_at self.old.state core).id ≡ core }
        requires up { counts_in self.old.state core ≤ until }
        requires limit { until ≤ (core_at self.old.state core).limit }
        requires accepts { (n : ℕ) → counts_in self.old.state core < n → n ≤ until →
            W.accepts watch.old (instr core n) }
        ensures plan { self.new.plan ≡ self.old.plan }
        ensures run { GoesTo W.touched self.old.plan core until self.old.state watch.old result self.new.state
            watch.new }
    {
        run(
            &mut self.cores[core as usize],
            &self.program,
            until,
            &mut self.noted,
            watch,
        )
    }

    /// How many cores there are.
    pub fn cores(&self) -> u8
        ensures all { result ≡ length self.now.plan.totals }
        ensures few { result ≤ CORES_MAX }
    {
        self.recording.params.cores
    }

    /// How many instructions the core retired in the recording.
    pub fn total(&self, core: u8) -> u32
        requires { core < length self.now.plan.totals }
        ensures { result ≡ slice_index self.now.plan.totals core }
    {
        self.recording.totals.as_slice()[core as usize]
    }

    /// How many instructions the core has retired.
    pub fn count(&self, core: u8) -> u32
        requires { core < length self.now.plan.totals }
        ensures { result ≡ counts_in self.now.state core }
    {
        self.cores[core as usize].count()
    }

    /// The core, as it stands.
    pub fn core(&self, core: u8) -> &Core
        requires { core < length self.now.plan.totals }
        ensures { result.now ≡ core_at self.now.state core }
    {
        // What always holds of a replay: it has a place for each core of its recording.
        let _ = &self.recording;
        &self.cores[core as usize]
    }

    /// The word of the memory with this index.
    pub fn word(&self, word: u32) -> u32
        requires { word < self.now.plan.image.words }
        ensures { result ≡ slice_index self.now.state.words word }
    {
        self.noted.memory.get(word)
    }

    /// What the core's next instruction needs. The core may be ready or not: what it waits for changes what
    /// a load finds, and not which word it reads.
    pub fn next_need(&self, core: u8) -> Need
        requires { core < length self.now.plan.totals }
        ensures { result ≡ need_at self.now.plan self.now.state core }
    {
        let core = self.core(core);
        core.need_by_op(self.program.image(), self.program.op(core.pc()))
    }

    /// The access that the core's next instruction makes, and the index of its word, which is one of the
    /// memory's. None for a local instruction, and where the core's program is done.
    pub fn next_use(&self, core: u8) -> Option<(Kind, u32)>
        requires { core < length self.now.plan.totals }
        ensures used { result ≡ use_of (need_at self.now.plan self.now.state core) }
        ensures within { UsesWithin result self.now.plan.image.words }
    {
        self.next_need(core).access()
    }

    /// How far each core has come.
    pub fn cut(&self) -> Cut
        ensures { result ≡ cut_of self.now.plan (counts_in self.now.state) }
    {
        let cores = self.cores();
        let mut counts = [0; PLACES];
        for core in 0..cores {
            counts[core as usize] = self.count(core);
        }
        Cut { cores, counts }
    }

    /// Whether each core has retired its total.
    pub fn whole(&self) -> bool
        ensures { IsTrue result ↔ Full self.now.plan (counts_in self.now.state) }
    {
        for core in 0..self.cores() {
            if self.count(core) != self.total(core) {
                return false;
            }
        }
        true
    }

    /// Whether there is room for what one more instruction of each core may read.
    pub fn has_room(&self) -> bool
        ensures { result ≡ self.now.roomy }
    {
        self.noted.loads.has_room()
    }

    /// What the play has come to. The words of the memory are handed on as they are.
    pub fn into_outcome(self, _alloc: Global) -> Result<Outcome, AllocError>
        ensures { IfOk result (λ outcome. outcome ≡ self.entry.state) }
    {
        let Replay {
            recording: _recording,
            which: _which,
            program: _program,
            cores,
            noted,
        } = self;
        let (memory, loads) = noted.into_parts();
        Ok(Outcome {
            cores: Items::from_vec(cores),
            words: Items::from_vec(memory.into_words()),
            loads: loads.into_items(),
        })
    }

    /// Plays the low order: at each place the lowest-numbered core that is ready, until there is none.
    pub fn run(alloc: Global, recording: &Recording, which: Which) -> Result<Outcome, ReplayFault>
        requires { Valid recording.now }
        ensures { MatchResult result (Replays (plan_of which recording.now)) (Refuses (plan_of which recording.now)) }
    {
        Replay::run_given(alloc, recording, which, &[])
    }

    /// Plays the low order, in which a load takes the value that its core's list has at its count, if there
    /// is one, in place of its word's. `values` has for each core a list of counts, which rise, and values.
    pub fn run_given(
        alloc: Global,
        recording: &Recording,
        which: Which,
        values: &[Items<(u32, u32)>],
    ) -> Result<Outcome, ReplayFault>
        requires valid { Valid recording.now }
        requires values { EachRising values.now }
        ensures { MatchResult result (ReplaysValued (given_by values.now) (plan_of which recording.now))
            (RefusesValued (given_by values.now) (plan_of which recording.now)) }
    {
        let mut order = LowOrder::new(alloc, recording, which)?;
        let mut replay = Replay::new(alloc, recording, which)?;
        while let Some(core) = order.lowest() {
            replay.make_room()?;
            let given = replay.given(values, core);
            if let Advanced::Short = replay.advance_given(core, given) {
                let count = replay.count(core);
                return Err(ReplayFault::Short { core, count });
            }
            order.advance(core);
        }
        if !replay.whole() {
            return Err(ReplayFault::Stuck { cut: replay.cut() });
        }
        Ok(replay.into_outcome(alloc)?)
    }
}

// What the next instruction of a core is given, and its sources.
impl<'a> Replay<'a> {
    /// The value that the core's next instruction is given.
    fn given(&self, values: &[Items<(u32, u32)>], core: u8) -> Option<u32>
        requires core { core < length self.now.plan.totals }
        requires values { EachRising values.now }
        ensures { result ≡ given_next (given_by values.now) self.now.state core }
    {
        let list = values.get(core as usize)?;
        value_at(list.as_slice(), self.count(core) as u64 + 1)
    }

    /// Whether each logged source of the core's instruction with this count was played.
    fn is_sourced(&self, core: u8, count: u32) -> bool
        requires { core < length self.now.plan.totals }
        ensures { result ≡ is_sourced self.now.plan.edges (counts_in self.now.state) core count }
    {
        // What always holds of a replay: it has a place for each core of its recording.
        let _ = &self.recording;
        let at = Instr { core, count };
        for of in 0..self.cores() {
            if of != core && !self.is_met(of, at) {
                return false;
            }
        }
        true
    }

    /// Whether the instruction's source on another core was played, if it has one there.
    fn is_met(&self, of: u8, at: Instr) -> bool
        requires of { of < length self.now.plan.totals }
        requires at { at.core < length self.now.plan.totals }
        requires differ { of ≢ at.core }
        ensures { IsTrue result ↔ IsMet self.now.plan.edges (counts_in self.now.state) of at }
    {
        match self.recording.source(self.which, of, at) {
            Some(count) => count <= self.count(of),
            None => true,
        }
    }
}

/// The value at a count in a list of counts and values.
fn value_at(values: &[(u32, u32)], count: u64) -> Option<u32>
    requires { AreRising values.now }
    ensures { result ≡ value_at values.now count }
{
    match values.binary_search_by_key(&count, |&(at, _)| at as u64) {
        Ok(k) => Some(values[k].1),
        Err(_) => None,
    }
}

/// The cores before their first instruction.
fn cores_of(alloc: Global, cores: u8, limit: u32) -> Result<Vec<Core>, AllocError>
    ensures { IfOk result (λ list. list.items ≡ map (λ c. starting c limit) (range_with_len 0 cores)) }
{
    let mut list = Vec::new(alloc);
    for id in 0..cores {
        list.push(Core::new(id, limit))?;
    }
    Ok(list)
}
