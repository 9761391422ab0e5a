//! Each kind of move, with what is noted beside the state.
ghost use Rattle.std.specs.Prelude.{◌≡◌, IsTrue};
ghost use Rattle.rtr_types.specs.declared.TheConstants.{CORES_MAX};
ghost use Rattle.machine_invariant.specs.Holds.{MachineHolds};
ghost use Rattle.msi_machine.specs.Marks.{AllMarked, asker_of};
ghost use Rattle.msi_machine.specs.Standings.{AskerOpen, CanMove, MoveNoted, StandingsFit, standing_at};
ghost use Rattle.msi_machine.specs.Workings.{Makes};
ghost use Rattle.msi_state.specs.declared.moves.Move.{Move};
ghost use Rattle.msi_state.specs.Rests.{heads_roomy};
ghost use Rattle.msi_state.specs.Steps.{AcceptsNext, enabled};

use crate::marks::Marks;
use crate::parts::Parts;
use crate::standing::Standing;
use access_times::{Carry, Clerk, Rider};
use move_marks::{MoveKind, mark_port, take_request, take_response};
use msi_state::Move;
use rtr_types::{CORES_MAX, Instr};

impl<R: Rider, K: Carry> Parts<R, K> {
    /// Makes a move that can be made. What was kept of its core is renewed, and the marks of the moves that
    /// can be made become those of the moves that can be then, but for the request of the core that asked, which
    /// is noted.
    pub(crate) fn make_move<C: Clerk<R, K>>(
        &mut self,
        taken: Move,
        standings: &mut [Standing],
        marks: &mut Marks,
        asker: &mut u8,
        clerk: &mut C,
    ) -> Option<Instr>
        requires holds { MachineHolds R.riding K.carrying self.old.state }
        requires enabled { IsTrue (enabled R.riding K.carrying self.old.state taken) }
        requires stands { StandingsFit self.old.state standings.old }
        requires marked { AllMarked R.riding K.carrying self.old.state marks.old }
        requires roomy { IsTrue (heads_roomy self.old) }
        requires accepts { AcceptsNext C.accepts clerk.old self.old.state }
        ensures made { Makes C.told_local C.told_touch R.riding K.carrying self.old self.new taken result
            clerk.old clerk.new }
        ensures asker { asker.new ≡ asker_of taken result }
        ensures noted { MoveNoted R.riding K.carrying self.new.state standings.new marks.new asker.new }
    {
        *asker = CORES_MAX;
        match taken {
            Move::Core(c) => self.move_core(c, &mut standings[c as usize], marks, asker, clerk),
            Move::Request(c) => {
                take_request(&mut self.memory, c, marks.cores, &mut marks.moves);
                None
            }
            Move::Response(c) => {
                take_response(&mut self.memory, c, marks.cores, &mut marks.moves);
                None
            }
            Move::FromHome(c) => self.take_message(c, &mut standings[c as usize], marks, clerk),
        }
    }

    /// Core `c` moves, and is noted where it asks.
    fn move_core<C: Clerk<R, K>>(
        &mut self,
        c: u8,
        standing: &mut Standing,
        marks: &mut Marks,
        asker: &mut u8,
        clerk: &mut C,
    ) -> Option<Instr>
        requires can { CanMove R.riding K.carrying self.old.state (Move.Core c) }
        requires marked { AllMarked R.riding K.carrying self.old.state marks.old }
        requires none { asker.old ≡ CORES_MAX }
        requires stands { standing.old ≡ standing_at K.carrying self.old.state c }
        requires accepts { AcceptsNext C.accepts clerk.old self.old.state }
        ensures made { Makes C.told_local C.told_touch R.riding K.carrying self.old self.new (Move.Core c) result
            clerk.old clerk.new }
        ensures renewed { standing.new ≡ standing_at K.carrying self.new.state c }
        ensures asker { asker.new ≡ asker_of (Move.Core c) result }
        ensures open { AskerOpen R.riding K.carrying self.new.state marks.new asker.new }
    {
        let retired = self.work(c, standing, clerk);
        marks.moves.set(MoveKind::Own, c, standing.may_move());
        if retired.is_none() {
            *asker = c;
        }
        retired
    }

    /// Core `c` takes the oldest message from home.
    fn take_message<C: Clerk<R, K>>(
        &mut self,
        c: u8,
        standing: &mut Standing,
        marks: &mut Marks,
        clerk: &mut C,
    ) -> Option<Instr>
        requires can { CanMove R.riding K.carrying self.old.state (Move.FromHome c) }
        requires stands { standing.old ≡ standing_at K.carrying self.old.state c }
        requires marked { AllMarked R.riding K.carrying self.old.state marks.old }
        requires accepts { AcceptsNext C.accepts clerk.old self.old.state }
        ensures made { Makes C.told_local C.told_touch R.riding K.carrying self.old self.new (Move.FromHome c) result
            clerk.old clerk.new }
        ensures renewed { standing.new ≡ standing_at K.carrying self.new.state c }
        ensures marked { AllMarked R.riding K.carrying self.new.state marks.new }
    {
        let retired = self.receive(c, standing, clerk);
        marks.moves.set(MoveKind::Own, c, standing.may_move());
        mark_port(&self.memory, c, &mut marks.moves);
        retired
    }
}
