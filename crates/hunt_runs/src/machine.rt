//! What who directs a run asks of the machine.
ghost use Rattle.std.specs.Prelude.{◌≡◌, ◌≤◌, ◌<◌, ℕ, Bool, List, IfOk, OnOk, false, length, slice_index_or, suc, true};
ghost use Rattle.image_mem.specs.Contents.{Contents};
ghost use Rattle.rtr_types.specs.Parameters.{Fits};
ghost use Rattle.rtr_types.specs.declared.params.Params.{Params};
ghost use Rattle.rv_core.specs.declared.outcome.Outcome.{Outcome};
ghost use Rattle.rv_core.specs.States.{starting};
ghost use Rattle.rv_core.specs.Steps.{need};
ghost use Rattle.run_steps.specs.Ways.{IsSetUp};
ghost use Rattle.schedule_pick.specs.Choices.{Choices, choice_at, choices_after};
ghost use Rattle.hunt_runs.specs.Ends.{EndsAs};
ghost use Rattle.hunt_runs.specs.Seen.{Seen};

use crate::decision::Enabled;
use machine_ports::SteppedMachine;
use rtr_types::Params;
use run_steps::Made;
use rv_core::{Need, Program};
use std::alloc::Global;

/// A machine whose runs can be directed step by step.
pub trait HuntedMachine: SteppedMachine + Drop {
    /// What is seen of it.
    ghost seen: { Self → Seen };

    /// What is seen so many choices into the run of an image with these parameters under a schedule.
    ghost seen_at: { Contents → Params → Choices → ℕ → Seen };

    /// Whether a word changes there by the choice of this number.
    ghost changes_at: { Contents → Params → Choices → ℕ → Bool };

    /// It stands so many choices into the run, and these choices are left.
    ghost stands: { Self → Contents → Params → Choices → ℕ → Choices → Type 0 };

    /// What the run comes to.
    ghost outcome: { Contents → Params → Choices → Outcome };

    /// No run with these parameters takes more steps.
    ghost most_steps: { Params → ℕ };

    /// Whether its cores have store buffers.
    ghost buffers: { Bool };

    /// The machine of a program before its first step. The only refusal is want of memory.
    fn start(alloc: Global, program: Program, params: Params) -> Made<Self>
        requires { IsSetUp program params }
        ensures stands { IfOk result (λ machine. (schedule : Choices)
            → stands machine program params schedule 0 schedule) }
        ensures cores { IfOk result (λ machine. length (Self.cores machine) ≡ params.cores) }
        ensures image { IfOk result (λ machine. Self.image machine ≡ program) }
        ensures few { IfOk result (λ machine. Self.left machine ≤ most_steps params) };

    /// The machine of the same program before its first step again, with the memory that this one has. The only
    /// refusal is want of memory.
    fn restart(self, alloc: Global, params: Params) -> Made<Self>
        requires { IsSetUp (Self.image self) params }
        ensures stands { IfOk result (λ machine. (schedule : Choices)
            → stands machine (Self.image self) params schedule 0 schedule) }
        ensures cores { IfOk result (λ machine. length (Self.cores machine) ≡ params.cores) }
        ensures image { IfOk result (λ machine. Self.image machine ≡ Self.image self) }
        ensures few { IfOk result (λ machine. Self.left machine ≤ most_steps params) };

    /// Whether its cores have store buffers.
    fn has_buffers() -> bool
        ensures { result ≡ buffers };

    /// Which steps are enabled.
    fn enabled(&self) -> Enabled
        ensures cores { result.cores ≡ length (Self.cores self.now) }
        ensures actors { result.actors ≡ (seen self.now).actors }
        ensures steps { result.steps ≡ (seen self.now).steps };

    /// What a core's next instruction needs.
    fn need_of(&self, core: u8) -> Need
        requires { core < length (Self.cores self.now) }
        ensures { result ≡ need (Self.image self.now) (slice_index_or (Self.cores self.now) core (starting 0 0)) };

    /// Whether the oldest of a core's pending accesses is a load.
    fn load_first(&self, core: u8) -> bool
        requires { core < length (Self.cores self.now) }
        ensures { result ≡ (seen self.now).load_first core };

    /// Whether no other core sees what a core's next instruction does.
    fn unseen(&self, core: u8) -> bool
        requires { core < length (Self.cores self.now) }
        ensures { result ≡ (seen self.now).unseen core };

    /// How many stores a core's buffer holds.
    fn stores(&self, core: u8) -> usize
        requires { core < length (Self.cores self.now) }
        ensures { result ≡ (seen self.now).stores core };

    /// Takes the enabled step of this number, counted around, and answers whether a word changed. The only refusal is
    /// want of memory.
    fn take(&mut self, number: u32) -> Made<bool>
        requires going { Self.ended self.old ≡ false }
        ensures stands { OnOk result ((image : Contents) (params : Params) (schedule : Choices) (t : ℕ)
            (rest : Choices) → number ≡ choice_at rest 0 → stands self.old image params schedule t rest
            → stands self.new image params schedule (suc t) (choices_after rest)) }
        ensures changes { IfOk result (λ changed. (image : Contents) (params : Params) (schedule : Choices) (t : ℕ)
            (rest : Choices) → number ≡ choice_at rest 0 → stands self.old image params schedule t rest
            → changed ≡ changes_at image params schedule t) }
        ensures some { OnOk result (0 < (seen self.old).steps) }
        ensures cores { OnOk result (length (Self.cores self.new) ≡ length (Self.cores self.old)) }
        ensures image { OnOk result (Self.image self.new ≡ Self.image self.old) }
        ensures nearer { OnOk result (Self.left self.new < Self.left self.old) };

    /// What is seen of it is what is seen at each moment at which it stands, and beside that its cores and whether it
    /// has ended: a law for who has a machine.
    fn is_seen(&self)
        ensures seen { (image : Contents) (params : Params) (schedule : Choices) (t : ℕ) (rest : Choices)
            → stands self.now image params schedule t rest → seen self.now ≡ seen_at image params schedule t }
        ensures cores { (seen self.now).cores ≡ Self.cores self.now }
        ensures ended { (seen self.now).ended ≡ Self.ended self.now };

    /// Where no step is left it has come to what the run comes to: a law for who has a machine.
    fn has_come_to(&self)
        requires { Self.ended self.now ≡ true }
        ensures { (image : Contents) (params : Params) (schedule : Choices) (t : ℕ) (rest : Choices)
            → Fits params → stands self.now image params schedule t rest
            → EndsAs (Self.cores self.now) (Self.words self.now) (Self.image self.now).words
            (outcome image params schedule) };
}
