//! The flat machine, as one whose runs can be directed.
ghost use Rattle.std.specs.Prelude.{◌≡◌, ◌||◌, ℕ, IfOk, false, map};
ghost use Rattle.std.specs.List.{list_all};
ghost use Rattle.rv_core.specs.Steps.{is_done};
ghost use Rattle.flat_laws.specs.StepsLeft.{left_kept};
ghost use Rattle.flat_machine.specs.Machines.{event_of, words_noted};
ghost use Rattle.hunt_runs.specs.PlainSeen.{changes_in};

use crate::decision::Enabled;
use crate::machine::HuntedMachine;
use flat_machine::{FlatMachine, Happened};
use machine_ports::SteppedMachine;
use move_marks::MoveKind;
use rtr_types::{BLOCK_WORDS, CoreSet, Params};
use run_steps::Made;
use rv_core::{Core, Need, Program};
use std::alloc::Global;
use std::marker::Model;
use turn_policies::ActorSet;

/// The flat machine in a run: it stands at some state of the definitions, and its marks are those of the moves that can
/// be made there.
pub struct FlatRun {
    machine: FlatMachine,
}

impl Drop for FlatRun {
    fn drop(self) {
        let FlatRun { machine: _machine } = self;
    }
}

impl Model for FlatRun {
    ghost use Rattle.flat_state.specs.Shows.{IsSomewhere};
    ghost use Rattle.flat_machine.specs.Machines.{IsKept};
    ghost use Rattle.flat_machine.specs.declared.machine.FlatMachine.{FlatMachine};

    ghost Value = { FlatMachine };

    ghost view = { λ r. r.machine };

    ghost invariant = { λ r. IsSomewhere r.machine.flat × IsKept r.machine };
}

impl SteppedMachine for FlatRun {
    ghost image = { λ m. m.flat.program };

    ghost cores = { λ m. map (λ n. n.core) m.flat.nodes.items };

    ghost words = { λ m block. words_noted m block };

    ghost ended = { λ m. list_all (λ n. is_done n.need) m.flat.nodes.items };

    ghost left = { λ m. left_kept m.flat.nodes.items };

    fn done(&self) -> bool {
        self.machine.done()
    }

    fn core(&self, core: u8) -> &Core {
        self.machine.core(core)
    }

    fn final_words(&self, block: u32) -> [u32; BLOCK_WORDS] {
        self.machine.final_words(block)
    }
}

impl HuntedMachine for FlatRun {
    ghost use Rattle.hunt_runs.specs.FlatSeen.{FlatRuns, seen_of};
    ghost use Rattle.hunt_runs.specs.PlainSeen.{changes_at, seen_at};
    ghost use Rattle.machine_bound.specs.Ends.{most_steps};
    ghost use Rattle.run_outcome.specs.Outcomes.{outcome_of};

    ghost seen = { λ m. seen_of m };

    ghost seen_at = { seen_at };

    ghost changes_at = { changes_at };

    ghost stands = { λ m image params schedule t rest. FlatRuns m.flat image params schedule t rest };

    ghost outcome = { outcome_of };

    ghost most_steps = { most_steps };

    ghost buffers = { false };

    fn start(alloc: Global, program: Program, params: Params) -> Made<Self> {
        let machine = FlatMachine::of_program(alloc, program, params)?;
        Ok(FlatRun { machine })
    }

    fn restart(self, _alloc: Global, params: Params) -> Made<Self> {
        let FlatRun { machine } = self;
        let machine = machine.restart(params)?;
        Ok(FlatRun { machine })
    }

    fn has_buffers() -> bool {
        false
    }

    fn enabled(&self) -> Enabled {
        let marks = self.machine.marks;
        Enabled {
            cores: self.machine.flat.nodes.len() as u8,
            actors: ActorSet {
                cores: marks.set_of(MoveKind::Own),
                buffers: CoreSet::empty(),
            },
            steps: marks.count(),
        }
    }

    fn need_of(&self, core: u8) -> Need {
        self.machine.flat.nodes[core as usize].need
    }

    fn load_first(&self, _core: u8) -> bool {
        false
    }

    fn unseen(&self, core: u8) -> bool {
        matches!(self.need_of(core), Need::Local)
    }

    fn stores(&self, _core: u8) -> usize {
        0
    }

    fn take(&mut self, number: u32) -> Made<bool> {
        let happened = self.machine.step(number)?;
        Ok(changes_word(happened))
    }

    fn is_seen(&self) {
        // What always holds of it says this.
        let _ = &self.machine;
    }

    fn has_come_to(&self) {
        // What always holds of it says this.
        let _ = &self.machine;
    }
}

/// Whether a word changed in a step in which this happened.
fn changes_word(happened: Happened) -> bool
    ensures { result ≡ changes_in (event_of happened) }
{
    match happened {
        Happened::Accessed(access) => access.before != access.after,
        _ => false,
    }
}
