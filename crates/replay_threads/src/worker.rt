//! Workers, which take turns.
ghost use Rattle.std.specs.Prelude.{◌≡◌, ◌↔◌, IfOk, IsTrue};
ghost use Rattle.race_log.specs.Validity.{Valid};
ghost use Rattle.replay_table.specs.Seats.{AtRest};
ghost use Rattle.replay_threads.specs.Turns.{Continues, EndsBy, HasEnded, IsReached};

use crate::turns::{Turn, run};
use crate::wanted::Wanted;
use race_log::Recording;
use replay_table::{CoreSeat, Gate, Job, ReplayTable};
use rtr_types::Which;
use std::alloc::AllocError;
use std::marker::Model;

/// The worker of one core: it runs the core by what the table gives, turn by turn.
#[derive(Drop)]
pub struct Worker<'a, J: Job> {
    recording: &'a Recording,
    which: Which,
    seat: CoreSeat<J>,
    wanted: Wanted,
}

impl<'a, J: Job> Model for Worker<'a, J> {
    ghost use Rattle.replay_table.specs.Seats.{Sitting};
    ghost use Rattle.replay_threads.specs.Turns.{WorksOn};

    ghost Value = { Sitting };

    ghost view = { λ w. w.seat };

    ghost invariant = { λ w. WorksOn J.which J.recording w.which w.recording.now };
}

impl<'a, J: Job> Worker<'a, J> {
    /// The worker of a seat's core.
    pub fn new(recording: &'a Recording, which: Which, seat: CoreSeat<J>) -> Worker<'a, J>
        requires valid { Valid J.recording }
        requires recording { recording.now ≡ J.recording }
        requires which { which ≡ J.which }
        ensures { result ≡ seat }
    {
        Worker {
            recording,
            which,
            seat,
            wanted: Wanted::new(),
        }
    }

    /// How many instructions the core has retired, and of how many of other cores it has seen.
    pub(crate) fn headway(&self) -> u64 {
        let mut sum = self.seat.core().count() as u64;
        for core in 0..self.recording.params.cores {
            sum = sum.wrapping_add(self.seat.seen(core) as u64);
        }
        sum
    }

    /// Whether the core is at its total.
    pub fn ended(&self) -> bool
        ensures { IsTrue result ↔ HasEnded J.recording self.now }
    {
        let core = self.seat.core();
        core.count() == self.recording.totals.as_slice()[core.id() as usize]
    }

    /// The seat.
    pub fn into_seat(self) -> CoreSeat<J>
        ensures { result ≡ self.entry }
    {
        let Worker { seat, .. } = self;
        seat
    }

    /// Runs the core until it has ended, or its next instruction waits for a source, or it can't go on. At
    /// each answer the core's count is published. After want of memory the instructions that have retired
    /// stay retired. It waits for nobody.
    pub fn turn<G: Gate>(&mut self, table: &ReplayTable<J>, gate: &G) -> Result<Turn, AllocError>
        requires { self.old.table_id ≡ table.now }
        ensures goes_on { Continues self.old self.new }
        ensures rest { IfOk result (λ turn. AtRest self.new) }
        ensures reached { IfOk result (λ turn. IsReached J.which J.recording self.new) }
        ensures ends { IfOk result (λ turn. EndsBy J.which J.recording self.old turn self.new) }
    {
        let core = self.seat.core().id();
        let total = self.recording.totals.as_slice()[core as usize];
        run(
            &mut self.seat,
            &mut self.wanted,
            self.recording,
            self.which,
            total,
            table,
            gate,
        )
    }
}
