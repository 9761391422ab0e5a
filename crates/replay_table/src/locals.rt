//! Local instructions of a core in one go, without a step of the table.
ghost use Rattle.std.specs.Prelude.{◌≡◌, ◌<◌, ◌≤◌, ◌+◌, ℕ, IsTrue, false, slice_index};
ghost use Rattle.std.specs.Prelude.{None as NoneUsed};
ghost use Rattle.clock_core.specs.Counts.{no_counts};
ghost use Rattle.race_log.specs.Sources.{log_edges};
ghost use Rattle.replay_core.specs.Plans.{plan_of};
ghost use Rattle.replay_core.specs.Play.{instr};
ghost use Rattle.replay_core.specs.Sources.{AreSources};
ghost use Rattle.replay_table.specs.Aheads.{Ahead, Due};
ghost use Rattle.replay_table.specs.Rule.{seen_of};

use crate::gate::Gate;
use crate::job::Job;
use crate::seat::CoreSeat;
use crate::table::ReplayTable;
use core_runs::{Reach, Refused};
use rtr_types::Instr;
use rv_core::Need;
use rv_decode::AmoOp;

/// What local instructions reach: none of the words. Each access is refused. The gate is passed by each instruction.
#[derive(Drop)]
pub(crate) struct NoWord<'g, G: Gate> {
    pub(crate) words: u32,
    pub(crate) gate: &'g G,
}

impl<'g, G: Gate> Reach<()> for NoWord<'g, G> {
    ghost words = { λ r. r.words };

    ghost accepts = { λ r w at. Unit {0} };

    ghost told = { λ r w at used old new n v. (used ≡ NoneUsed) × (n.words ≡ r.words) };

    ghost refused = { λ r w at n v. Unit {0} };

    #[inline(always)]
    fn local(&mut self, _watch: &mut (), at: Instr) {
        self.gate.pass(at);
    }

    #[inline(always)]
    fn load(&mut self, _watch: &mut (), _at: Instr, _word: u32) -> Result<u32, Refused> {
        Err(Refused)
    }

    #[inline(always)]
    fn store(
        &mut self,
        _watch: &mut (),
        _at: Instr,
        _word: u32,
        _value: u32,
    ) -> Result<(), Refused> {
        Err(Refused)
    }

    #[inline(always)]
    fn store_part(
        &mut self,
        _watch: &mut (),
        _at: Instr,
        _address: u32,
        _size: u32,
        _value: u32,
    ) -> Result<(), Refused> {
        Err(Refused)
    }

    #[inline(always)]
    fn change(
        &mut self,
        _watch: &mut (),
        _at: Instr,
        _word: u32,
        _op: AmoOp,
        _value: u32,
    ) -> Result<u32, Refused> {
        Err(Refused)
    }

    ghost keeps_words = { λ r w at used old new s v told. told.1 };

    ghost keeps_accepting = { λ r w at used old new s v later told same below accepts. tt };
}

impl<J: Job> CoreSeat<J> {
    /// Up to which count the core may go on without a look at sources once its next instruction is ready: at most to
    /// this one, and to its limit.
    #[inline(always)]
    fn free_to(&self, until: u32) -> u32
        ensures within { result ≤ until }
        ensures limit { result ≤ self.now.core.limit }
        ensures free { (n : ℕ) → self.now.core.count + 1 < n → n ≤ result →
            AreSources (log_edges J.which J.recording) (instr self.now.core.id n) no_counts }
    {
        let core = self.past.core();
        let free = self.upcoming.free_to(core.count());
        let most = until.min(core.limit);
        most.min(free)
    }
}

impl<'a, J: Job> ReplayTable<'a, J> {
    /// Local instructions retire in the seat of a ready core, without a step of the table: the next one and those after
    /// it, up to this count, as long as they are local and no edge leads to them. The gate is passed before each.
    /// Answers whether the next instruction is still ready; if it isn't, one has retired.
    #[inline(always)]
    pub fn locals<G: Gate>(&self, seat: &mut CoreSeat<J>, until: u32, gate: &G) -> bool
        requires table { seat.old.table_id ≡ self.now }
        requires ready { Due (plan_of J.which J.recording) (seen_of seat.old.view) seat.old.core }
        requires within { until ≤ slice_index J.recording.totals seat.old.core.id }
        ensures table { seat.new.table_id ≡ seat.old.table_id }
        ensures ahead { (n : ℕ) × Ahead (plan_of J.which J.recording) (seen_of seat.old.view) n seat.old.core
            seat.new.core }
        ensures loads { seat.new.loads ≡ seat.old.loads }
        ensures touched { seat.new.touched ≡ seat.old.touched }
        ensures room { seat.new.roomy ≡ seat.old.roomy }
        ensures view { seat.new.view ≡ seat.old.view }
        ensures ready { IsTrue result → Due (plan_of J.which J.recording) (seen_of seat.new.view) seat.new.core }
        ensures more { result ≡ false → seat.old.core.count < seat.new.core.count }
    {
        let Need::Local = seat.need() else {
            return true;
        };
        let until = seat.free_to(until);
        let core = seat.past.core();
        if core.count() >= until {
            return true;
        }
        let ready = seat.past.run(&self.program, until, gate);
        seat.upcoming.advance(self.recording, self.which, &self.program, seat.past.core());
        ready
    }
}
