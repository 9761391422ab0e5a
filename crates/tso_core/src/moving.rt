//! Each kind of move, with what is noted beside the state.
ghost use Rattle.std.specs.Prelude.{◌≡◌, ◌<◌, IsTrue, length};
ghost use Rattle.msi_memory.specs.Memories.{port_at};
ghost use Rattle.tso_invariant.specs.Holds.{TsoHolds};
ghost use Rattle.tso_state.specs.declared.moves.Move.{Move};
ghost use Rattle.tso_state.specs.Moves.{core_of};
ghost use Rattle.tso_state.specs.States.{core_at};
ghost use Rattle.tso_state.specs.Steps.{enabled};
ghost use Rattle.tso_core.specs.Machineries.{heads_roomy};
ghost use Rattle.tso_core.specs.Marks.{AllMarked, OthersMarked};
ghost use Rattle.tso_core.specs.Moving.{AcceptsOf, Makes};
ghost use Rattle.tso_core.specs.Standings.{IsAtPort, OwnMarked, StandingsFit, standing_at};

use crate::marking::mark_own;
use crate::marks::Marks;
use crate::parts::Parts;
use crate::standing::Standing;
use access_times::{Carry, Rider};
use move_marks::{mark_port, take_request, take_response};
use tso_clerk::TsoClerk;
use tso_state::Move;

impl<R: Rider, K: Carry> Parts<R, K> {
    /// Makes a move that can be made. What was kept of its core is renewed, and the marks of the moves that
    /// can be made become those of the moves that can be then, but perhaps for the core's own request.
    pub(crate) fn make_move<C: TsoClerk<R, K>>(
        &mut self,
        taken: Move,
        standings: &mut [Standing],
        marks: &mut Marks,
        clerk: &mut C,
    )
        requires holds { TsoHolds R.riding K.carrying self.old.state }
        requires enabled { IsTrue (enabled R.riding K.carrying self.old.state taken) }
        requires stands { StandingsFit self.old.state standings.old }
        requires marked { AllMarked R.riding K.carrying self.old.state marks.old }
        requires roomy { IsTrue (heads_roomy self.old) }
        requires accepts { AcceptsOf C.accepts C.accepts_alone C.told_local C.told_touch C.told_logged R.riding
            K.carrying self.old.state taken clerk.old }
        ensures made { Makes C.told_local C.told_touch C.told_logged R.riding K.carrying self.old self.new
            taken clerk.old clerk.new }
        ensures stands { StandingsFit self.new.state standings.new }
        ensures marked { OthersMarked R.riding K.carrying self.new.state marks.new (core_of taken) }
    {
        match taken {
            Move::Core(c) => {
                let standing = &mut standings[c as usize];
                self.work(c, standing, clerk);
                self.mark_core(c, *standing, marks);
            }
            Move::Order(c) => self.move_order(c, standings[c as usize], marks, clerk),
            Move::Request(c) => take_request(&mut self.memory, c, marks.cores, &mut marks.moves),
            Move::Response(c) => take_response(&mut self.memory, c, marks.cores, &mut marks.moves),
            Move::FromHome(c) => {
                let standing = &mut standings[c as usize];
                self.receive(c, standing, clerk);
                self.mark_core(c, *standing, marks);
                mark_port(&self.memory, c, &mut marks.moves);
            }
        }
    }

    /// The oldest pending access of core `c` is ordered, or asks. What the core stands at stays.
    fn move_order<C: TsoClerk<R, K>>(
        &mut self,
        c: u8,
        standing: Standing,
        marks: &mut Marks,
        clerk: &mut C,
    )
        requires holds { TsoHolds R.riding K.carrying self.old.state }
        requires enabled { IsTrue (enabled R.riding K.carrying self.old.state (Move.Order c)) }
        requires stands { standing ≡ standing_at self.old.state c }
        requires marked { AllMarked R.riding K.carrying self.old.state marks.old }
        requires accepts { AcceptsOf C.accepts C.accepts_alone C.told_local C.told_touch C.told_logged R.riding
            K.carrying self.old.state (Move.Order c) clerk.old }
        ensures made { Makes C.told_local C.told_touch C.told_logged R.riding K.carrying self.old self.new
            (Move.Order c) clerk.old clerk.new }
        ensures marked { OthersMarked R.riding K.carrying self.new.state marks.new c }
    {
        self.order(c, clerk);
        self.mark_core(c, standing, marks);
    }

    /// Marks what core `c`, which stands so, can do by itself.
    #[inline(always)]
    fn mark_core(&self, c: u8, standing: Standing, marks: &mut Marks)
        requires here { c < length self.now.state.cores }
        requires port { IsAtPort K.carrying self.now.state.memory (core_at self.now.state.cores c) c }
        ensures { OwnMarked R.riding (port_at K.carrying self.now.state.memory.ports c)
            (core_at self.now.state.cores c) standing c marks.old marks.new }
    {
        mark_own(&self.memory, c, &self.cores[c as usize], standing, marks);
    }
}
