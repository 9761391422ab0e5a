//! The machine whose riders record times: its step, for a clerk that notes with its clocks.
ghost use Rattle.std.specs.Prelude.{◌≡◌, ℕ, IsTrue, List, Some, [], false};
ghost use Rattle.access_times.specs.Times.{times_riding};
ghost use Rattle.image_mem.specs.Contents.{Contents};
ghost use Rattle.machine_times.specs.History.{NotedAccess};
ghost use Rattle.machine_times.specs.TimedSteps.{times_parts};
ghost use Rattle.tso_state.specs.Runs.{chosen};
ghost use Rattle.tso_state.specs.States.{all_done, state_start};
ghost use Rattle.tso_state.specs.Steps.{event};
ghost use Rattle.tso_state.specs.declared.moves.Move.{Move};
ghost use Rattle.tso_plain.specs.Plain.{plain};
ghost use Rattle.tso_times.specs.Absorbing.{MeetsAlike};
ghost use Rattle.tso_times.specs.Timed.{StandsAfter};
ghost use Rattle.tso_core.specs.Machineries.{heads_roomy};
ghost use Rattle.tso_core.specs.Moving.{AcceptsOf, TellsOf};
ghost use Rattle.tso_core.specs.Numbers.{IsTaken};
ghost use Rattle.tso_core.specs.Steppings.{HasMoved, KeepsPromises};
ghost use Rattle.tso_core.specs.TimedSteps.{StandsMoved, StepFinds};

use crate::machine::BufferedMachine;
use access_times::{Carry, Times, TimesClerk};
use tso_clerk::TsoClerk;
use tso_state::Move;

impl<K: Carry> BufferedMachine<Times, K> {
    /// At the start of an image the riders have the times of no access: a law for who has made a machine by `new`.
    pub fn a_new_machine_stands_for_no_access(&self)
        ensures { (image : Contents) (cores limit : ℕ)
            → self.now.state ≡ state_start times_riding K.carrying image cores limit
            → StandsAfter times_parts K.carrying [] self.now.state }
    {}

    /// One step of a machine whose riders record times: `step`, for a clerk that notes each access with the clock
    /// that it keeps for the core.
    ///
    /// For every list of ordered accesses for which the machine stands before, newest first: afterwards it stands
    /// for the list with the access that the step ordered, noted with the clock that the clerk had for its core once
    /// it was told of it, or for the same list where none was ordered. The rider that the clerk is handed with the
    /// access has the last write of its word in the list before and, for an access that writes, each core's last
    /// read since that write, each with its clock, and nothing else. Riders that meet have the same last writes.
    pub fn step_timed<C: TsoClerk<Times, K> + TimesClerk<K>>(
        &mut self,
        choice: u32,
        clerk: &mut C,
    ) -> Move
        requires more { all_done self.old.state ≡ false }
        requires roomy { IsTrue (heads_roomy self.old) }
        requires accepts { (m : Move) → chosen (plain self.old.state) choice ≡ Some m
            → AcceptsOf C.accepts C.accepts_alone C.told_local C.told_touch C.told_logged times_riding K.carrying
            self.old.state m clerk.old }
        ensures taken { IsTaken times_riding K.carrying self.old.state choice result }
        ensures moved { HasMoved times_riding K.carrying self.old self.new result }
        ensures told { TellsOf C.told_local C.told_touch C.told_logged times_riding K.carrying self.old.state
            self.new.state result clerk.old clerk.new }
        ensures keeps { KeepsPromises times_riding K.carrying self.old.state self.new.state
            (event times_riding K.carrying self.old.state result) }
        ensures stands { (h : List NotedAccess) → StandsAfter times_parts K.carrying h self.old.state
            → StandsMoved C.told_touch C.clock K.carrying self.old.state self.new.state result clerk.old h }
        ensures times { (h : List NotedAccess) → StandsAfter times_parts K.carrying h self.old.state
            → StepFinds K.carrying self.old.state result h }
        ensures alike { (h : List NotedAccess) → StandsAfter times_parts K.carrying h self.old.state
            → MeetsAlike times_parts K.carrying self.old.state result }
    {
        // What always holds of a machine says this.
        let _ = &self.parts;
        self.step(choice, clerk)
    }
}
