//! What a replay shows that has come to a closed cut, by an index.
ghost use Rattle.std.specs.Prelude.{◌≡◌, ◌<◌, ◌≤◌, length, slice_index};
ghost use Rattle.rtr_types.specs.declared.TheConstants.{CORES_MAX};
ghost use Rattle.replay_core.specs.Answers.{UsesWithin, cut_of};
ghost use Rattle.replay_core.specs.Orders.{counts_in};
ghost use Rattle.replay_core.specs.Play.{core_at, need_at, use_of};
ghost use Rattle.cut_replay.specs.ClosedCuts.{IsClosed};
ghost use Rattle.cut_index.specs.Standings.{standing_at};

use crate::alone::Next;
use crate::index::Index;
use rtr_types::{Cut, Kind};
use rv_core::Core;
use std::marker::Model;

/// A closed cut of an audited recording, as a replay shows it that has come there: the index tells each core and each
/// word, and nothing is replayed. Contracts see a replay under way.
#[derive(Drop)]
pub struct Standing<'i, 'a> {
    index: &'i Index<'a>,
    cut: Cut,
}

impl<'i, 'a> Model for Standing<'i, 'a> {
    ghost use Rattle.replay_core.specs.Answers.{UnderWay};
    ghost use Rattle.cut_replay.specs.ClosedCuts.{IsClosed};
    ghost use Rattle.cut_index.specs.Standings.{standing_at};

    ghost Value = { UnderWay };

    ghost view = { λ a. standing_at a.index.now.which a.index.now.recording a.cut };

    ghost invariant = { λ a. IsClosed a.index.now.which a.index.now.recording a.cut };
}

impl<'i, 'a> Standing<'i, 'a> {
    /// At a closed cut of the index's recording.
    pub fn at(index: &'i Index<'a>, cut: &Cut) -> Standing<'i, 'a>
        requires { IsClosed index.now.which index.now.recording cut.now }
        ensures { result ≡ standing_at index.now.which index.now.recording cut.now }
    {
        Standing { index, cut: *cut }
    }

    /// How far each core has come.
    pub fn cut(&self) -> Cut
        ensures { result ≡ cut_of self.now.plan (counts_in self.now.state) }
    {
        // What always holds of an index: its recording was audited.
        let _ = self.index.audited();
        self.cut
    }

    /// How many cores there are.
    pub fn cores(&self) -> u8
        ensures all { result ≡ length self.now.plan.totals }
        ensures few { result ≤ CORES_MAX }
    {
        self.index.audited().recording().params.cores
    }

    /// How many instructions the core retired in the recording.
    pub fn total(&self, core: u8) -> u32
        requires { core < length self.now.plan.totals }
        ensures { result ≡ slice_index self.now.plan.totals core }
    {
        self.index.audited().recording().totals.as_slice()[core as usize]
    }

    /// How many instructions the core has retired.
    pub fn count(&self, core: u8) -> u32
        requires { core < length self.now.plan.totals }
        ensures { result ≡ counts_in self.now.state core }
    {
        // What always holds of an index: its recording was audited.
        let _ = self.index.audited();
        self.cut.counts[core as usize]
    }

    /// The core, as it stands.
    pub fn core(&self, core: u8) -> Core
        requires { core < length self.now.plan.totals }
        ensures { result ≡ core_at self.now.state core }
    {
        // What always holds of an index: its recording was audited.
        let _ = self.index.audited();
        let count = self.count(core);
        self.index.core(core, count)
    }

    /// The address of the core's next instruction.
    pub fn pc(&self, core: u8) -> u32
        requires { core < length self.now.plan.totals }
        ensures { result ≡ (core_at self.now.state core).pc }
    {
        self.next(core).pc
    }

    /// The access that the core's next instruction makes, and the index of its word, which is one of the memory's. None
    /// for a local instruction, and where the core's program is done.
    pub fn next_use(&self, core: u8) -> Option<(Kind, u32)>
        requires { core < length self.now.plan.totals }
        ensures used { result ≡ use_of (need_at self.now.plan self.now.state core) }
        ensures within { UsesWithin result self.now.plan.image.words }
    {
        self.next(core).used
    }

    /// What comes next at the core.
    fn next(&self, core: u8) -> Next
        requires { core < length self.now.plan.totals }
        ensures pc { result.pc ≡ (core_at self.now.state core).pc }
        ensures used { result.used ≡ use_of (need_at self.now.plan self.now.state core) }
    {
        // What always holds of an index: its recording was audited.
        let _ = self.index.audited();
        let count = self.count(core);
        self.index.next(core, count)
    }

    /// The word of the memory with this index.
    pub fn word(&self, word: u32) -> u32
        requires { word < self.now.plan.image.words }
        ensures { result ≡ slice_index self.now.state.words word }
    {
        // What always holds of an index: its recording was audited.
        let _ = self.index.audited();
        self.index.word(&self.cut, word)
    }
}
