//! What a core does as it executes its next instruction.
ghost use Rattle.std.specs.Prelude.{◌≡◌, ◌<◌, ◌/◌, IsTrue, false, length, true};
ghost use Rattle.rtr_types.specs.declared.TheConstants.{BLOCK_WORDS};
ghost use Rattle.rv_core.specs.Steps.{access_of as need_access, is_done, need};
ghost use Rattle.rv_core.specs.StoreMask.{is_store};
ghost use Rattle.rtr_types.specs.declared.access.Kind.TheVariants.{Load as Loading};
ghost use Rattle.msi_cache.specs.Lines.{waits};
ghost use Rattle.msi_memory.specs.Acts.{allows};
ghost use Rattle.msi_memory.specs.Memories.{port_at};
ghost use Rattle.msi_state.specs.Rests.{may_access};
ghost use Rattle.tso_invariant.specs.Holds.{next_may_ask};
ghost use Rattle.tso_state.specs.declared.moves.Move.{Move};
ghost use Rattle.tso_state.specs.Events.{pending_store};
ghost use Rattle.tso_state.specs.States.{core_at};
ghost use Rattle.tso_state.specs.Steps.{can_execute, has_room};
ghost use Rattle.tso_core.specs.Machineries.{IsThere};
ghost use Rattle.tso_core.specs.Moving.{AcceptsOf, Makes};
ghost use Rattle.tso_core.specs.Standings.{standing_at};
ghost use Rattle.tso_core.specs.Workings.{AcceptsDoing, Does, HasAsked, HasDone, MayAsk, buffering};
ghost use Rattle.tso_core.specs.Workings.{executing, executing_local, loading, performing};

use crate::marking::allows;
use crate::parts::Parts;
use crate::queue::value_of;
use crate::standing::Standing;
use access_times::{Carry, Rider};
use rtr_types::{Access, BLOCK_WORDS, Kind};
use rv_core::Need;
use tso_clerk::TsoClerk;
use tso_state::{Asker, Pending};

impl<R: Rider, K: Carry> Parts<R, K> {
    /// Core `c` moves: its next instruction executes, or the block is asked for that this needs. What was kept of
    /// the core is renewed.
    pub(crate) fn work<C: TsoClerk<R, K>>(&mut self, c: u8, standing: &mut Standing, clerk: &mut C)
        requires there { IsThere self.old.state c }
        requires stands { standing.old ≡ standing_at self.old.state c }
        requires able { IsTrue (can_execute self.old.state.image R.riding (core_at self.old.state.cores c)
            (port_at K.carrying self.old.state.memory.ports c)) }
        requires room { MayAsk K.carrying self.old.state c }
        requires accepts { AcceptsOf C.accepts C.accepts_alone C.told_local C.told_touch C.told_logged R.riding
            K.carrying self.old.state (Move.Core c) clerk.old }
        ensures made { Makes C.told_local C.told_touch C.told_logged R.riding K.carrying self.old self.new
            (Move.Core c) clerk.old clerk.new }
        ensures renewed { standing.new ≡ standing_at self.new.state c }
    {
        match standing.need {
            Need::Local => self.execute_local(c, standing, clerk),
            Need::Store { word, .. } => self.buffer_store(c, word, standing),
            Need::Load { word } => {
                if allows(&self.memory, c, word, Kind::Load) {
                    self.load(c, word, standing, clerk);
                } else {
                    self.ask(c, word, Kind::Load, Asker::Next);
                }
            }
            Need::Amo { word } => {
                if allows(&self.memory, c, word, Kind::Amo) {
                    self.perform(c, word, Kind::Amo, standing, clerk);
                } else {
                    self.ask(c, word, Kind::Amo, Asker::Next);
                }
            }
            Need::Done(_) => {}
        }
    }

    /// Core `c` asks for what an access of this kind to a word needs, for its next instruction or for the oldest
    /// of its pending accesses.
    #[inline(always)]
    pub(crate) fn ask(&mut self, c: u8, word: u32, kind: Kind, asker: Asker)
        requires there { IsThere self.old.state c }
        requires still { waits (port_at K.carrying self.old.state.memory.ports c).cache ≡ false }
        requires needed { allows R.riding (port_at K.carrying self.old.state.memory.ports c) (word / BLOCK_WORDS) kind
            ≡ false }
        requires room { MayAsk K.carrying self.old.state c }
        ensures state { HasAsked R.riding K.carrying self.old.state self.new.state c word kind asker }
        ensures rooms { self.new.rooms ≡ self.old.rooms }
    {
        self.memory.want(c, word / BLOCK_WORDS as u32, kind);
        self.cores[c as usize].asker = asker;
    }

    /// An instruction executes that touches no data. It is told where no access is pending.
    #[tactic(auto, using(rv_core::proofs::LawLemmas::room_law))]
    fn execute_local<C: TsoClerk<R, K>>(&mut self, c: u8, standing: &mut Standing, clerk: &mut C)
        requires there { IsThere self.old.state c }
        requires stands { standing.old ≡ standing_at self.old.state c }
        requires more { is_done (need self.old.state.image (core_at self.old.state.cores c).core) ≡ false }
        requires accepts { AcceptsDoing C.accepts C.accepts_alone C.told_local C.told_touch C.told_logged R.riding
            K.carrying self.old.state c (executing_local self.old.state c) clerk.old }
        ensures done { Does C.told_local C.told_touch C.told_logged R.riding K.carrying self.old self.new c
            (executing_local self.old.state c) clerk.old clerk.new }
        ensures renewed { standing.new ≡ standing_at self.new.state c }
    {
        let station = &mut self.cores[c as usize];
        let at = station.next_instr();
        let quiet = station.queue.is_empty();
        let _value = station.core.finish_op(self.program.image(), standing.op, 0);
        *standing = Standing::of(&self.program, station.core());
        if quiet {
            self.memory.retire(c, at);
            clerk.alone(at, self.memory.carry(c));
        }
    }

    /// A store executes, and joins the pending accesses.
    #[tactic(auto, using(rv_core::proofs::LawLemmas::room_law))]
    fn buffer_store(&mut self, c: u8, word: u32, standing: &mut Standing)
        requires here { c < length self.old.state.cores }
        requires stands { standing.old ≡ standing_at self.old.state c }
        requires more { is_done (need self.old.state.image (core_at self.old.state.cores c).core) ≡ false }
        requires store { is_store (need self.old.state.image (core_at self.old.state.cores c).core) ≡ true }
        requires room { IsTrue (has_room (core_at self.old.state.cores c).queue) }
        ensures state { HasDone R.riding K.carrying self.old.state self.new.state c (buffering self.old.state c
            (pending_store self.old.state.image (core_at self.old.state.cores c).core word)) }
        ensures rooms { self.new.rooms ≡ self.old.rooms }
        ensures renewed { standing.new ≡ standing_at self.new.state c }
    {
        let station = &self.cores[c as usize];
        let count = station.next_instr().count;
        let (mask, bits) = station
            .core
            .store_mask_by_op(self.program.image(), standing.op);
        let pending = Pending::Store {
            count,
            word,
            mask,
            bits,
        };
        self.buffer(c, pending, standing);
    }

    /// An instruction executes and joins the pending accesses.
    fn buffer(&mut self, c: u8, pending: Pending, standing: &mut Standing)
        requires here { c < length self.old.state.cores }
        requires stands { standing.old ≡ standing_at self.old.state c }
        requires more { is_done (need self.old.state.image (core_at self.old.state.cores c).core) ≡ false }
        requires room { IsTrue (has_room (core_at self.old.state.cores c).queue) }
        ensures state { HasDone R.riding K.carrying self.old.state self.new.state c
            (buffering self.old.state c pending) }
        ensures rooms { self.new.rooms ≡ self.old.rooms }
        ensures renewed { standing.new ≡ standing_at self.new.state c }
    {
        let station = &mut self.cores[c as usize];
        let _value = station
            .core
            .finish_op(self.program.image(), standing.op, value_of(pending));
        station.queue.push(pending);
        *standing = Standing::of(&self.program, station.core());
    }

    /// A load executes that its port allows: with pending accesses it joins them, with the value that it sees.
    #[tactic(auto, using(rv_core::proofs::LawLemmas::room_law))]
    fn load<C: TsoClerk<R, K>>(&mut self, c: u8, word: u32, standing: &mut Standing, clerk: &mut C)
        requires there { IsThere self.old.state c }
        requires stands { standing.old ≡ standing_at self.old.state c }
        requires more { is_done (need self.old.state.image (core_at self.old.state.cores c).core) ≡ false }
        requires room { IsTrue (has_room (core_at self.old.state.cores c).queue) }
        requires allowed { IsTrue (allows R.riding (port_at K.carrying self.old.state.memory.ports c)
            (word / BLOCK_WORDS) Loading) }
        requires accepts { AcceptsDoing C.accepts C.accepts_alone C.told_local C.told_touch C.told_logged R.riding
            K.carrying self.old.state c (loading R.riding K.carrying self.old.state c word) clerk.old }
        ensures done { Does C.told_local C.told_touch C.told_logged R.riding K.carrying self.old self.new c
            (loading R.riding K.carrying self.old.state c word) clerk.old clerk.new }
        ensures renewed { standing.new ≡ standing_at self.new.state c }
    {
        let station = &self.cores[c as usize];
        if station.queue.is_empty() {
            self.perform(c, word, Kind::Load, standing, clerk);
            return;
        }
        let count = station.next_instr().count;
        let value = station.queue.seen(word, self.memory.word(c, word));
        let pending = Pending::Load { count, word, value };
        self.buffer(c, pending, standing);
    }

    /// An instruction executes with an access that its port allows, and is ordered at once.
    #[tactic(auto, using(rv_core::proofs::LawLemmas::room_law))]
    fn perform<C: TsoClerk<R, K>>(
        &mut self,
        c: u8,
        word: u32,
        kind: Kind,
        standing: &mut Standing,
        clerk: &mut C,
    )
        requires there { IsThere self.old.state c }
        requires stands { standing.old ≡ standing_at self.old.state c }
        requires more { is_done (need self.old.state.image (core_at self.old.state.cores c).core) ≡ false }
        requires allowed { IsTrue (allows R.riding (port_at K.carrying self.old.state.memory.ports c)
            (word / BLOCK_WORDS) kind) }
        requires accepts { AcceptsDoing C.accepts C.accepts_alone C.told_local C.told_touch C.told_logged R.riding
            K.carrying self.old.state c (performing R.riding K.carrying self.old.state c word kind) clerk.old }
        ensures done { Does C.told_local C.told_touch C.told_logged R.riding K.carrying self.old self.new c
            (performing R.riding K.carrying self.old.state c word kind) clerk.old clerk.new }
        ensures renewed { standing.new ≡ standing_at self.new.state c }
    {
        let before = self.memory.word(c, word);
        let station = &mut self.cores[c as usize];
        let at = station.next_instr();
        let after = station
            .core
            .finish_op(self.program.image(), standing.op, before);
        *standing = Standing::of(&self.program, station.core());
        let access = Access {
            at,
            word,
            kind,
            before,
            after,
        };
        self.tell_access(c, access, clerk);
    }

    /// The next instruction of core `c` executes, which waited for its access. The port allows this now.
    pub(crate) fn execute_granted<C: TsoClerk<R, K>>(
        &mut self,
        c: u8,
        standing: &mut Standing,
        clerk: &mut C,
    )
        requires there { IsThere self.old.state c }
        requires stands { standing.old ≡ standing_at self.old.state c }
        requires ready { IsTrue (may_access
            (need_access (need self.old.state.image (core_at self.old.state.cores c).core)) R.riding
            (port_at K.carrying self.old.state.memory.ports c)) }
        requires asks { IsTrue (next_may_ask (need self.old.state.image (core_at self.old.state.cores c).core)
            (core_at self.old.state.cores c).queue) }
        requires accepts { AcceptsDoing C.accepts C.accepts_alone C.told_local C.told_touch C.told_logged R.riding
            K.carrying self.old.state c (executing R.riding K.carrying self.old.state c) clerk.old }
        ensures done { Does C.told_local C.told_touch C.told_logged R.riding K.carrying self.old self.new c
            (executing R.riding K.carrying self.old.state c) clerk.old clerk.new }
        ensures renewed { standing.new ≡ standing_at self.new.state c }
    {
        match standing.need {
            Need::Load { word } => self.load(c, word, standing, clerk),
            Need::Amo { word } => self.perform(c, word, Kind::Amo, standing, clerk),
            Need::Local | Need::Store { .. } | Need::Done(_) => {}
        }
    }
}
