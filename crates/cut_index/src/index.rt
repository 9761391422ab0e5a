//! The index of an audited recording.
ghost use Rattle.std.specs.Prelude.{◌≡◌, ◌<◌, ◌≤◌, IfOk, slice_index};
ghost use Rattle.race_log.specs.Validity.{Valid};
ghost use Rattle.replay_core.specs.Plans.{recorded_image};
ghost use Rattle.replay_core.specs.Play.{loads_at};
ghost use Rattle.cut_replay.specs.ClosedCuts.{IsClosed};
ghost use Rattle.race_queries.specs.Queries.{IsAudited};
ghost use Rattle.cut_index.specs.Indexes.{ArePcsOf, AreRuns, AreUsesOf, IsCoreAt, IsNextAt, IsRunOf, IsWordAt};

use crate::alone::{Alone, Next, next_of};
use crate::runs::Run;
use crate::touches::used_by;
use crate::writes::{Write, left_behind, writes_of};
use image_mem::Image;
use race_log::Recording;
use replay_audit::Audited;
use rtr_types::{Cut, Items};
use rv_core::{Core, LoadNote, Outcome, Program};
use std::alloc::{AllocError, Global};
use std::marker::Model;

/// What tells where each core and each word of an audited recording stand at a closed cut. Contracts see the audit.
pub struct Index<'a> {
    audited: &'a Audited,
    program: Program,
    runs: Vec<Run>,
    writes: Vec<Items<Write>>,
}

impl Drop for Index<'_> {
    fn drop(self) {
        let Index {
            audited: _audited,
            program: _program,
            runs: _runs,
            writes: _writes,
        } = self;
    }
}

impl<'a> Model for Index<'a> {
    ghost use Rattle.replay_audit.specs.Audits.{Findings};
    ghost use Rattle.cut_index.specs.Indexes.{Indexes};

    ghost Value = { Findings };

    ghost view = { λ a. a.audited.now };

    ghost invariant = { λ a. Indexes a.audited.now a.program a.runs.items a.writes.items };
}

impl<'a> Index<'a> {
    /// The index of an audited recording. Each core runs on its own, once. It takes 8 bytes for each instruction, a
    /// snapshot of a core for each 1,024 of them, and 12 bytes for each write. It is refused for want of memory alone.
    pub fn of(alloc: Global, audited: &'a Audited) -> Result<Index<'a>, AllocError>
        ensures { IfOk result (λ index. index ≡ audited.now) }
    {
        // The audit passed, so the accesses are of words of the memory.
        let _ = audited.outcome();
        let program = program_of(alloc, audited.recording())?;
        let runs = runs_of(alloc, audited, &program)?;
        let words = audited.recording().params.words;
        let writes = writes_of(alloc, words, audited.accesses())?;
        Ok(Index {
            audited,
            program,
            runs,
            writes,
        })
    }

    /// The audit.
    pub fn audited(&self) -> &'a Audited
        ensures audited { result.now ≡ self.now }
        ensures passed { IsAudited self.now }
    {
        // What always holds of an index: its recording was audited.
        let _ = &self.runs;
        self.audited
    }

    /// A core behind so many of its instructions, as it stands at each closed cut with so many. It goes on from a
    /// snapshot, by less than 1,024 instructions.
    pub fn core(&self, core: u8, count: u32) -> Core
        requires core { core < self.now.recording.params.cores }
        requires count { count ≤ slice_index self.now.recording.totals core }
        ensures { IsCoreAt self.now core count result }
    {
        // What always holds of an index: it has a run for each core of its recording.
        let recording = self.audited.recording();
        let total = recording.totals.as_slice()[core as usize];
        let first = Alone::first(core, recording.params.limit);
        let loads = loads_of(self.audited.outcome(), core);
        let run = &self.runs[core as usize];
        run.alone(&self.program, loads, first, total, count).core
    }

    /// What comes next at a core behind so many of its instructions, at each closed cut with so many. It is noted for
    /// each count but the total.
    pub fn next(&self, core: u8, count: u32) -> Next
        requires core { core < self.now.recording.params.cores }
        requires count { count ≤ slice_index self.now.recording.totals core }
        ensures { IsNextAt self.now core count result }
    {
        // What always holds of an index: it has a run for each core of its recording.
        let total = self.audited.recording().totals.as_slice()[core as usize];
        if count < total {
            self.noted(core, count)
        } else {
            next_of(&self.program, &self.core(core, count))
        }
    }

    /// The address of what comes next at a core behind each number of its instructions, but for all.
    pub fn pcs(&self, core: u8) -> &[u32]
        requires { core < self.now.recording.params.cores }
        ensures { ArePcsOf self.now core result.now }
    {
        // What always holds of an index: it has a run for each core of its recording.
        let _ = self.audited.recording();
        let run = &self.runs[core as usize];
        run.pcs.as_slice()
    }

    /// The numbers that stand for the accesses that come next there (`used_by`).
    pub fn uses(&self, core: u8) -> &[u32]
        requires { core < self.now.recording.params.cores }
        ensures { AreUsesOf self.now core result.now }
    {
        // What always holds of an index: it has a run for each core of its recording.
        let _ = self.audited.recording();
        let run = &self.runs[core as usize];
        run.uses.as_slice()
    }

    /// What comes next at a core, as it was noted.
    fn noted(&self, core: u8, count: u32) -> Next
        requires core { core < self.now.recording.params.cores }
        requires count { count < slice_index self.now.recording.totals core }
        ensures { IsNextAt self.now core count result }
    {
        // What always holds of an index: it has a run for each core of its recording.
        let _ = self.audited.recording();
        let run = &self.runs[core as usize];
        Next {
            pc: run.pcs.as_slice()[count as usize],
            used: used_by(run.uses.as_slice()[count as usize]),
        }
    }

    /// A word at a closed cut, by its index. Its last write in the cut is found by halving.
    pub fn word(&self, cut: &Cut, word: u32) -> u32
        requires closed { IsClosed self.now.which self.now.recording cut.now }
        requires word { word < self.now.recording.params.words }
        ensures { IsWordAt self.now cut.now word result }
    {
        // What always holds of an index: it has a list for each word of its recording.
        let _ = self.audited.recording();
        let held = self.program.image().word(word);
        left_behind(self.writes[word as usize].as_slice(), cut, held)
    }
}

/// The recording's image, with its instructions.
fn program_of(alloc: Global, recording: &Recording) -> Result<Program, AllocError>
    requires { Valid recording.now }
    ensures { IfOk result (λ program. program ≡ recorded_image recording.now) }
{
    let bytes = Vec::from_slice(alloc, recording.image.as_slice())?;
    let Ok(image) = Image::flat(bytes, recording.params.words) else {
        unreachable!()
    };
    Program::new(alloc, image)
}

/// What a core's loads read.
fn loads_of(outcome: &Outcome, core: u8) -> &[LoadNote]
    ensures { result.now ≡ loads_at outcome.now core }
{
    match outcome.loads.as_slice().get(core as usize) {
        Some(loads) => loads.as_slice(),
        None => &[],
    }
}

/// The run of each core on its own.
fn runs_of(alloc: Global, audited: &Audited, program: &Program) -> Result<Vec<Run>, AllocError>
    requires { program.now ≡ recorded_image audited.now.recording }
    ensures { IfOk result (λ runs. AreRuns audited.now audited.now.recording.params.cores runs.items) }
{
    let mut runs = Vec::new(alloc);
    for core in 0..audited.recording().params.cores {
        runs.push(run_of(alloc, audited, program, core)?)?;
    }
    Ok(runs)
}

/// The run of a core on its own.
fn run_of(alloc: Global, audited: &Audited, program: &Program, core: u8) -> Result<Run, AllocError>
    requires program { program.now ≡ recorded_image audited.now.recording }
    requires core { core < audited.now.recording.params.cores }
    ensures { IfOk result (IsRunOf audited.now core) }
{
    let recording = audited.recording();
    let total = recording.totals.as_slice()[core as usize];
    let first = Alone::first(core, recording.params.limit);
    Run::of(
        alloc,
        program,
        loads_of(audited.outcome(), core),
        first,
        total,
    )
}
