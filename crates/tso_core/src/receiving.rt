//! A core's port takes a message from home.
ghost use Rattle.std.specs.Prelude.{◌≡◌, ◌<◌, IsTrue, length, true};
ghost use Rattle.rv_core.specs.Steps.{need};
ghost use Rattle.msi_cache.specs.Lines.{waits};
ghost use Rattle.msi_memory.specs.Acts.{TakeMessage};
ghost use Rattle.msi_memory.specs.Memories.{port_at};
ghost use Rattle.msi_memory.specs.Rests.{HasRoomFor as HasActRoom};
ghost use Rattle.msi_state.specs.Rests.{may_access};
ghost use Rattle.tso_invariant.specs.Holds.{is_asking, may_ask, wish_by};
ghost use Rattle.tso_invariant.specs.Rests.{has_row_for};
ghost use Rattle.tso_state.specs.declared.moves.Move.{Move};
ghost use Rattle.tso_state.specs.States.{core_at};
ghost use Rattle.tso_core.specs.Machineries.{IsThere};
ghost use Rattle.tso_core.specs.Moving.{AcceptsOf, Makes};
ghost use Rattle.tso_core.specs.Standings.{standing_at};
ghost use Rattle.tso_core.specs.Workings.{AcceptsDoing, Does, asked_by, granting};

use crate::parts::Parts;
use crate::standing::Standing;
use crate::station::is_asking;
use access_times::{Carry, Rider};
use tso_clerk::TsoClerk;
use tso_state::Asker;

impl<R: Rider, K: Carry> Parts<R, K> {
    /// Core `c` takes the oldest message from home. A block's data end the access that asked for them. What was
    /// kept of the core is renewed.
    pub(crate) fn receive<C: TsoClerk<R, K>>(
        &mut self,
        c: u8,
        standing: &mut Standing,
        clerk: &mut C,
    )
        requires asked { waits (port_at K.carrying self.old.state.memory.ports c).cache
            ≡ is_asking (core_at self.old.state.cores c).asker }
        requires there { IsThere self.old.state c }
        requires stands { standing.old ≡ standing_at self.old.state c }
        requires asks { may_ask (core_at self.old.state.cores c).asker
            (need self.old.state.image (core_at self.old.state.cores c).core)
            (core_at self.old.state.cores c).queue ≡ true }
        requires row { IsTrue (has_row_for R.riding K.carrying self.old.state (Move.FromHome c)) }
        requires room { HasActRoom R.riding K.carrying self.old.state.memory (TakeMessage c) }
        requires accepts { AcceptsOf C.accepts C.accepts_alone C.told_local C.told_touch C.told_logged R.riding
            K.carrying self.old.state (Move.FromHome c) clerk.old }
        ensures made { Makes C.told_local C.told_touch C.told_logged R.riding K.carrying self.old self.new
            (Move.FromHome c) clerk.old clerk.new }
        ensures renewed { standing.new ≡ standing_at self.new.state c }
    {
        let mut waiting = is_asking(self.cores[c as usize].asker);
        if self.memory.take_message(c, &mut waiting) {
            self.grant(c, standing, clerk);
        }
        self.keep_asker(c, waiting);
    }

    /// Nobody asks at core `c`'s port any more where that doesn't wait.
    fn keep_asker(&mut self, c: u8, waiting: bool)
        requires { c < length self.old.state.cores }
        ensures state { self.new.state ≡ asked_by self.old.state c waiting }
        ensures rooms { self.new.rooms ≡ self.old.rooms }
    {
        if !waiting {
            self.cores[c as usize].asker = Asker::Nobody;
        }
    }

    /// The access is made for which core `c` asked, and which the port allows now.
    fn grant<C: TsoClerk<R, K>>(&mut self, c: u8, standing: &mut Standing, clerk: &mut C)
        requires there { IsThere self.old.state c }
        requires stands { standing.old ≡ standing_at self.old.state c }
        requires asks { may_ask (core_at self.old.state.cores c).asker
            (need self.old.state.image (core_at self.old.state.cores c).core)
            (core_at self.old.state.cores c).queue ≡ true }
        requires ready { let t = core_at self.old.state.cores c in
            IsTrue (may_access (wish_by t.asker (need self.old.state.image t.core) t.queue) R.riding
            (port_at K.carrying self.old.state.memory.ports c)) }
        requires accepts { AcceptsDoing C.accepts C.accepts_alone C.told_local C.told_touch C.told_logged R.riding
            K.carrying self.old.state c (granting R.riding K.carrying self.old.state c) clerk.old }
        ensures done { Does C.told_local C.told_touch C.told_logged R.riding K.carrying self.old self.new c
            (granting R.riding K.carrying self.old.state c) clerk.old clerk.new }
        ensures renewed { standing.new ≡ standing_at self.new.state c }
    {
        match self.cores[c as usize].asker {
            Asker::Nobody => {}
            Asker::Next => self.execute_granted(c, standing, clerk),
            Asker::Head => self.order_granted(c, clerk),
        }
    }
}
