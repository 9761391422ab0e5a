//! The flat machine.
ghost use Rattle.std.specs.Prelude.{◌≡◌, IfOk, OnErr, false};
ghost use Rattle.std.specs.List.{list_all};
ghost use Rattle.rv_core.specs.Steps.{is_done};
ghost use Rattle.flat_state.specs.Shows.{IsSomewhere};
ghost use Rattle.flat_machine.specs.Machines.{HasStepped, IsKept, StandsStill, event_of};

use flat_state::Flat;
use move_marks::MoveMarks;
use rtr_types::{Access, Instr};
use std::alloc::AllocError;

/// The flat state, the moves that can be made, and of each block the place of its entry and one, or 0 where it has
/// none.
#[derive(Drop)]
pub struct FlatMachine {
    pub flat: Flat,
    pub marks: MoveMarks,
    pub places: Vec<u32>,
}

/// What happened in a step: no instruction retired, or one did, which may have made an access.
#[derive(Clone, Copy)]
pub enum Happened {
    Moved,
    Retired(Instr),
    Accessed(Access),
}

impl FlatMachine {
    /// Makes the move that the choice numbers among those that can be made, counted around, and answers what happened.
    /// The only refusal is want of memory for the entry of a block, and then the machine stands where it stood.
    pub fn step(&mut self, choice: u32) -> Result<Happened, AllocError>
        requires stands { IsSomewhere self.old.flat }
        requires kept { IsKept self.old }
        requires going { list_all (λ n. is_done n.need) self.old.flat.nodes.items ≡ false }
        ensures stepped { IfOk result (λ happened. HasStepped self.old self.new choice (event_of happened)) }
        ensures err { OnErr result (StandsStill self.old self.new) }
    {
        let many = self.marks.count();
        let taken = self.marks.pick(choice % many);
        let happened = self.make(taken.kind, taken.core)?;
        Ok(happened)
    }
}
