//! The machine whose riders record times: its step, for a clerk that notes with its clocks.
ghost use Rattle.std.specs.Prelude.{◌≡◌, ℕ, IsTrue, List, [], false};
ghost use Rattle.access_times.specs.Times.{times_riding};
ghost use Rattle.image_mem.specs.Contents.{Contents};
ghost use Rattle.msi_machine.specs.Steppings.{HasMoved, IsTaken, KeepsPromises};
ghost use Rattle.msi_state.specs.Events.{instr_of};
ghost use Rattle.msi_state.specs.Rests.{heads_roomy};
ghost use Rattle.msi_state.specs.States.{all_done, state_start};
ghost use Rattle.msi_state.specs.Steps.{AcceptsNext, TellsOf, event};
ghost use Rattle.machine_times.specs.Absorbing.{MeetsAlike};
ghost use Rattle.machine_times.specs.Retirements.{MachineStandsFor, Retirement};
ghost use Rattle.machine_times.specs.TimedSteps.{AreLastClocks, StepFinds, times_parts, with_step};

use crate::machine::{Machine, Stepped};
use access_times::{Carry, Times, TimesClerk};

impl<K: Carry> Machine<Times, K> {
    /// A machine at the start of an image stands for the empty list of retirements: a law for who has made
    /// one by `new`.
    pub fn a_new_machine_stands_for_nothing_retired(&self)
        ensures { (image : Contents) (cores limit : ℕ)
            → self.now.state ≡ state_start times_riding K.carrying image cores limit
            → MachineStandsFor times_parts K.carrying [] self.now.state }
    {}

    /// One step of a machine whose riders record times: `step`, for a clerk that notes each access with
    /// the clock that it keeps for the core.
    ///
    /// For every list of retirements for which the machine stands before: afterwards it stands for the
    /// list with what retired appended, with the clock that the clerk then holds for its core, or for the
    /// same list where none retired. The rider that an access finds has the last write of its word in the
    /// list before and, for an access that writes, each core's last read since that write, each with its
    /// clock, and nothing else. Riders that meet have the same last writes. A clerk that holds the clocks
    /// last noted still does.
    pub fn step_timed<C: TimesClerk<K>>(&mut self, choice: u32, clerk: &mut C) -> Stepped
        requires more { all_done self.old.state ≡ false }
        requires roomy { IsTrue (heads_roomy self.old) }
        requires accepts { AcceptsNext C.accepts clerk.old self.old.state }
        ensures taken { IsTaken times_riding K.carrying self.old.state choice result.taken }
        ensures moved { HasMoved times_riding K.carrying self.old self.new result.taken }
        ensures retired { result.retired ≡ instr_of (event times_riding K.carrying self.old.state result.taken) }
        ensures told { TellsOf C.told_local C.told_touch times_riding K.carrying self.old.state self.new.state
            result.taken clerk.old clerk.new }
        ensures keeps { KeepsPromises times_riding K.carrying self.old.state self.new.state
            (event times_riding K.carrying self.old.state result.taken) }
        ensures stands { (list : List Retirement) → MachineStandsFor times_parts K.carrying list self.old.state
            → let later = with_step K.carrying self.old.state result.taken (C.clock clerk.new) list in
            MachineStandsFor times_parts K.carrying later self.new.state }
        ensures times { (list : List Retirement) → MachineStandsFor times_parts K.carrying list self.old.state
            → StepFinds K.carrying self.old.state result.taken list }
        ensures alike { (list : List Retirement) → MachineStandsFor times_parts K.carrying list self.old.state
            → MeetsAlike times_parts K.carrying self.old.state result.taken }
        ensures clocks { (list : List Retirement) → AreLastClocks (C.clock clerk.old) list
            → let later = with_step K.carrying self.old.state result.taken (C.clock clerk.new) list in
            AreLastClocks (C.clock clerk.new) later }
    {
        // What always holds of a machine says this.
        let _ = &self.parts;
        self.step(choice, clerk)
    }
}
