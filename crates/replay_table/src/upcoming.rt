//! What a seat keeps of its core's next instruction.
ghost use Rattle.std.specs.Prelude.{◌≡◌, ◌<◌, ◌≤◌, ◌+◌, ℕ, slice_index};
ghost use Rattle.rtr_types.specs.declared.pairs.Which.{Which};
ghost use Rattle.clock_core.specs.Counts.{no_counts};
ghost use Rattle.race_log.specs.declared.recording.Recording.{Recording};
ghost use Rattle.race_log.specs.Sources.{log_edges};
ghost use Rattle.race_log.specs.Validity.{Valid};
ghost use Rattle.replay_core.specs.Play.{instr};
ghost use Rattle.replay_core.specs.Coming.{IsComing};
ghost use Rattle.replay_core.specs.Sources.{AreSources};
ghost use Rattle.rv_core.specs.declared.core_state.Core.{Core};
ghost use Rattle.replay_table.specs.Seats.{CanBegin, CanLook, IsUpcoming, RunsOn};

use crate::gate::Gate;
use crate::past::Past;
use clock_core::Clock;
use race_log::Recording;
use replay_core::Coming;
use rtr_types::{Instr, Which};
use rv_core::{Core, Need, Program};
use rv_decode::Op;

/// The core's next instruction, what it needs, its logged sources, and the next edges into the core. They are
/// looked up once, when the instruction before has retired, and an instruction to which no edge leads has no
/// sources.
#[derive(Clone, Copy)]
pub(crate) struct Upcoming {
    pub(crate) op: Option<Op>,
    pub(crate) need: Need,
    pub(crate) sources: Option<Clock>,
    pub(crate) coming: Coming,
}

impl Upcoming {
    /// Looks up the core's next instruction.
    pub(crate) fn new(
        recording: &Recording,
        which: Which,
        program: &Program,
        core: &Core,
    ) -> Upcoming
        requires { CanBegin recording.now program.now core.now }
        ensures { IsUpcoming which recording.now core.now result }
    {
        let mut upcoming = Upcoming {
            op: None,
            need: Need::Local,
            sources: None,
            coming: Coming::new(),
        };
        upcoming.advance(recording, which, program, core);
        upcoming
    }

    /// Up to which count a core that has come to this one may go on beyond its next instruction without a look at
    /// sources.
    #[inline(always)]
    pub(crate) fn free_to(&self, count: u32) -> u32
        ensures { (which : Which) (r : Recording) (k : Core) (n : ℕ) → Valid r → IsUpcoming which r k self.now →
            count + 1 < n → n ≤ result → AreSources (log_edges which r) (instr k.id n) no_counts }
    {
        self.coming
            .free_to(count.saturating_add(2))
            .saturating_sub(1)
    }

    /// Up to which count a core that has come to this one may go on without a look at sources.
    #[inline(always)]
    fn free_after(&self, count: u32) -> u32
        ensures { (which : Which) (r : Recording) (k : Core) (n : ℕ) → Valid r →
            IsComing (log_edges which r) k.id r.params.cores self.now.coming → count < n → n ≤ result →
            AreSources (log_edges which r) (instr k.id n) no_counts }
    {
        let next = self.coming.free_to(count.saturating_add(1));
        next.saturating_sub(1)
    }

    /// The core retires local instructions in one go, up to this count, as long as no edge leads to them. The gate is
    /// passed before each. Then its next instruction is looked up.
    #[inline(always)]
    pub(crate) fn run_on<G: Gate>(
        &mut self,
        recording: &Recording,
        which: Which,
        program: &Program,
        past: &mut Past,
        until: u32,
        gate: &G,
    )
        requires look { CanLook which recording.now program.now past.old.core self.old }
        requires within { until ≤ slice_index recording.now.totals past.old.core.id }
        ensures upcoming { IsUpcoming which recording.now past.new.core self.new }
        ensures run { RunsOn which recording.now until past.old.core past.new.core }
        ensures loads { past.new.loads ≡ past.old.loads }
        ensures touched { past.new.touched ≡ past.old.touched }
        ensures room { past.new.roomy ≡ past.old.roomy }
    {
        let core = past.core();
        let free = self.free_after(core.count());
        let most = until.min(core.limit);
        let end = most.min(free);
        if core.count() < end {
            past.run(program, end, gate);
        }
        self.advance(recording, which, program, past.core());
    }

    /// Goes on to the core's next instruction.
    #[inline(always)]
    pub(crate) fn advance(
        &mut self,
        recording: &Recording,
        which: Which,
        program: &Program,
        core: &Core,
    )
        requires { CanLook which recording.now program.now core.now self.old }
        ensures { IsUpcoming which recording.now core.now self.new }
    {
        let op = program.op(core.pc());
        let at = Instr {
            core: core.id(),
            count: core.count() + 1,
        };
        self.op = op;
        self.need = core.need_by_op(program.image(), op);
        self.coming.find(recording, which, at, &mut self.sources);
    }
}
