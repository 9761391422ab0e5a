//! The ordering of a core's oldest pending access.
ghost use Rattle.std.specs.Prelude.{◌≡◌, ◌<◌, ◌/◌, ◌&&◌, ◌==◌, [], ◌∷◌, IsTrue, Some, false, length, true};
ghost use Rattle.rtr_types.specs.declared.TheConstants.{BLOCK_WORDS};
ghost use Rattle.rtr_types.specs.declared.access.Kind.TheVariants.{Store as Storing};
ghost use Rattle.rtr_types.specs.declared.instr.Instr.{Instr};
ghost use Rattle.msi_state.specs.Rests.{may_access};
ghost use Rattle.msi_memory.specs.Acts.{allows};
ghost use Rattle.msi_memory.specs.Memories.{port_at, rider_at};
ghost use Rattle.tso_clerk.specs.Telling.{AcceptsAll, TellsAll};
ghost use Rattle.tso_state.specs.declared.moves.Move.{Move};
ghost use Rattle.tso_state.specs.declared.pending.Pending.TheVariants.{Load as PendingLoad, Store as PendingStore};
ghost use Rattle.tso_state.specs.Events.{Drains, Logged, Logs, Ordered, locals_behind, still_there};
ghost use Rattle.tso_state.specs.States.{core_at};
ghost use Rattle.tso_state.specs.Steps.{can_order, head_access};
ghost use Rattle.tso_core.specs.Machineries.{IsThere};
ghost use Rattle.tso_core.specs.Moving.{AcceptsOf, Makes};
ghost use Rattle.tso_core.specs.Queues.{oldest};
ghost use Rattle.tso_core.specs.Workings.{AcceptsDoing, Does, HasLeft, HasTold, MayAsk, ordering};

use crate::marking::allows;
use crate::parts::Parts;
use crate::queue::left_by;
use access_times::{Carry, Rider};
use rtr_types::{Access, Instr, Kind};
use tso_clerk::TsoClerk;
use tso_state::{Asker, Pending};

impl<R: Rider, K: Carry> Parts<R, K> {
    /// The oldest pending access of core `c` is ordered or logged, or the block is asked for that it needs.
    pub(crate) fn order<C: TsoClerk<R, K>>(&mut self, c: u8, clerk: &mut C)
        requires there { IsThere self.old.state c }
        requires room { MayAsk K.carrying self.old.state c }
        requires able { IsTrue (can_order (core_at self.old.state.cores c).queue R.riding
            (port_at K.carrying self.old.state.memory.ports c)) }
        requires accepts { AcceptsOf C.accepts C.accepts_alone C.told_local C.told_touch C.told_logged R.riding
            K.carrying self.old.state (Move.Order c) clerk.old }
        ensures made { Makes C.told_local C.told_touch C.told_logged R.riding K.carrying self.old self.new
            (Move.Order c) clerk.old clerk.new }
    {
        match self.cores[c as usize].queue.oldest() {
            None => {}
            Some(Pending::Load { count, word, value }) => {
                self.order_load(c, count, word, value, clerk);
            }
            Some(
                Pending::Store {
                    count,
                    word,
                    mask,
                    bits,
                },
            ) => {
                if allows(&self.memory, c, word, Kind::Store) {
                    self.order_store(c, count, word, mask, bits, clerk);
                } else {
                    self.ask(c, word, Kind::Store, Asker::Head);
                }
            }
        }
    }

    /// The oldest pending access of core `c` is ordered, a store that waited for its block. The port allows it now.
    pub(crate) fn order_granted<C: TsoClerk<R, K>>(&mut self, c: u8, clerk: &mut C)
        requires there { IsThere self.old.state c }
        requires ready { IsTrue (may_access (head_access (core_at self.old.state.cores c).queue) R.riding
            (port_at K.carrying self.old.state.memory.ports c)) }
        requires accepts { AcceptsDoing C.accepts C.accepts_alone C.told_local C.told_touch C.told_logged R.riding
            K.carrying self.old.state c (ordering R.riding K.carrying self.old.state c) clerk.old }
        ensures done { Does C.told_local C.told_touch C.told_logged R.riding K.carrying self.old self.new c
            (ordering R.riding K.carrying self.old.state c) clerk.old clerk.new }
    {
        if let Some(
            Pending::Store {
                count,
                word,
                mask,
                bits,
            },
        ) = self.cores[c as usize].queue.oldest()
        {
            self.order_store(c, count, word, mask, bits, clerk);
        }
    }

    /// The oldest pending access of core `c`, a store that its port allows, is ordered: its lanes are written.
    fn order_store<C: TsoClerk<R, K>>(
        &mut self,
        c: u8,
        count: u32,
        word: u32,
        mask: u32,
        bits: u32,
        clerk: &mut C,
    )
        requires there { IsThere self.old.state c }
        requires oldest { oldest (core_at self.old.state.cores c).queue ≡ Some (PendingStore count word mask bits) }
        requires allowed { IsTrue (allows R.riding (port_at K.carrying self.old.state.memory.ports c)
            (word / BLOCK_WORDS) Storing) }
        requires accepts { AcceptsDoing C.accepts C.accepts_alone C.told_local C.told_touch C.told_logged R.riding
            K.carrying self.old.state c (ordering R.riding K.carrying self.old.state c) clerk.old }
        ensures done { Does C.told_local C.told_touch C.told_logged R.riding K.carrying self.old self.new c
            (ordering R.riding K.carrying self.old.state c) clerk.old clerk.new }
    {
        let before = self.memory.word(c, word);
        let pending = Pending::Store {
            count,
            word,
            mask,
            bits,
        };
        let at = self.instr(c, count);
        let access = Access {
            at,
            word,
            kind: Kind::Store,
            before,
            after: left_by(pending, before),
        };
        self.drain(c, access, clerk);
    }

    /// The oldest pending access of core `c`, a load, is ordered where its word still has the value that it got,
    /// and is logged with that value elsewhere.
    fn order_load<C: TsoClerk<R, K>>(
        &mut self,
        c: u8,
        count: u32,
        word: u32,
        value: u32,
        clerk: &mut C,
    )
        requires there { IsThere self.old.state c }
        requires oldest { oldest (core_at self.old.state.cores c).queue ≡ Some (PendingLoad count word value) }
        requires accepts { AcceptsDoing C.accepts C.accepts_alone C.told_local C.told_touch C.told_logged R.riding
            K.carrying self.old.state c (ordering R.riding K.carrying self.old.state c) clerk.old }
        ensures done { Does C.told_local C.told_touch C.told_logged R.riding K.carrying self.old self.new c
            (ordering R.riding K.carrying self.old.state c) clerk.old clerk.new }
    {
        let at = self.instr(c, count);
        if self.finds(c, word, value) {
            let access = Access {
                at,
                word,
                kind: Kind::Load,
                before: value,
                after: value,
            };
            self.drain(c, access, clerk);
        } else {
            self.log(c, at, word, value, clerk);
        }
    }

    /// An instruction of core `c`, by its count.
    fn instr(&self, c: u8, count: u32) -> Instr
        requires { c < length self.now.state.cores }
        ensures { let at : Instr = record { core = (core_at self.now.state.cores c).core.id; count = count } in
            result ≡ at }
    {
        Instr {
            core: self.cores[c as usize].core.id(),
            count,
        }
    }

    /// Whether core `c` can read the word, and it has this value.
    fn finds(&self, c: u8, word: u32, value: u32) -> bool
        requires { c < length self.now.state.memory.ports }
        ensures { result ≡ still_there R.riding (port_at K.carrying self.now.state.memory.ports c) word value }
    {
        if allows(&self.memory, c, word, Kind::Load) {
            self.memory.word(c, word) == value
        } else {
            false
        }
    }

    /// The oldest pending access of core `c` leaves the queue with this access, which its port allows.
    #[inline(always)]
    fn drain<C: TsoClerk<R, K>>(&mut self, c: u8, access: Access, clerk: &mut C)
        requires there { IsThere self.old.state c }
        requires allowed { IsTrue (allows R.riding (port_at K.carrying self.old.state.memory.ports c)
            (access.word / BLOCK_WORDS) access.kind) }
        requires accepts { AcceptsDoing C.accepts C.accepts_alone C.told_local C.told_touch C.told_logged R.riding
            K.carrying self.old.state c (Drains access) clerk.old }
        ensures done { Does C.told_local C.told_touch C.told_logged R.riding K.carrying self.old self.new c
            (Drains access) clerk.old clerk.new }
    {
        self.leave(c);
        self.tell_access(c, access, clerk);
        self.tell_behind(c, access.at.count, clerk);
    }

    /// The oldest pending access of core `c`, a load, leaves the queue and is logged with the value that it got.
    fn log<C: TsoClerk<R, K>>(&mut self, c: u8, at: Instr, word: u32, value: u32, clerk: &mut C)
        requires there { IsThere self.old.state c }
        requires accepts { AcceptsDoing C.accepts C.accepts_alone C.told_local C.told_touch C.told_logged R.riding
            K.carrying self.old.state c (Logs at word value) clerk.old }
        ensures done { Does C.told_local C.told_touch C.told_logged R.riding K.carrying self.old self.new c
            (Logs at word value) clerk.old clerk.new }
    {
        self.leave(c);
        self.tell_logged(c, at, word, value, clerk);
        self.tell_behind(c, at.count, clerk);
    }

    /// The oldest pending access of core `c` leaves the queue.
    fn leave(&mut self, c: u8)
        requires { c < length self.old.state.cores }
        ensures state { HasLeft self.old.state self.new.state c }
        ensures rooms { self.new.rooms ≡ self.old.rooms }
    {
        self.cores[c as usize].queue.drop_oldest();
    }

    /// An access of core `c` that its port allows is made and told.
    pub(crate) fn tell_access<C: TsoClerk<R, K>>(&mut self, c: u8, access: Access, clerk: &mut C)
        requires port { c < length self.old.state.memory.ports }
        requires allowed { IsTrue (allows R.riding (port_at K.carrying self.old.state.memory.ports c)
            (access.word / BLOCK_WORDS) access.kind) }
        requires accepts { C.accepts clerk.old access.at }
        ensures state { HasTold R.riding K.carrying self.old.state self.new.state c
            (rider_at R.riding (port_at K.carrying self.new.state.memory.ports c) access.word) (Ordered access ∷ []) }
        ensures rooms { self.new.rooms ≡ self.old.rooms }
        ensures told { C.told_touch clerk.old
            (rider_at R.riding (port_at K.carrying self.old.state.memory.ports c) access.word) access
            (K.carrying.retired (port_at K.carrying self.old.state.memory.ports c).carry access.at) clerk.new
            (rider_at R.riding (port_at K.carrying self.new.state.memory.ports c) access.word) }
    {
        self.memory.retire(c, access.at);
        self.memory.touch(c, access, clerk);
    }

    /// A load of core `c` that isn't ordered is told.
    fn tell_logged<C: TsoClerk<R, K>>(
        &mut self,
        c: u8,
        at: Instr,
        word: u32,
        value: u32,
        clerk: &mut C,
    )
        requires port { c < length self.old.state.memory.ports }
        requires accepts { C.accepts clerk.old at }
        ensures state { (rider : R) →
            HasTold R.riding K.carrying self.old.state self.new.state c rider (Logged at word value ∷ []) }
        ensures rooms { self.new.rooms ≡ self.old.rooms }
        ensures told { C.told_logged clerk.old at word value
            (K.carrying.retired (port_at K.carrying self.old.state.memory.ports c).carry at) clerk.new }
    {
        self.memory.retire(c, at);
        clerk.logged(at, word, value, self.memory.carry(c));
    }

    /// The instructions of core `c` behind this count and before its oldest pending access are told: none of them
    /// touches data.
    fn tell_behind<C: TsoClerk<R, K>>(&mut self, c: u8, count: u32, clerk: &mut C)
        requires there { IsThere self.old.state c }
        requires accepts { let t = core_at self.old.state.cores c in
            (found : R) × AcceptsAll C.accepts C.accepts_alone C.told_local C.told_touch C.told_logged K.carrying
            (locals_behind t.core count t.queue) (port_at K.carrying self.old.state.memory.ports c).carry
            clerk.old found }
        ensures state { let t = core_at self.old.state.cores c in (rider : R) →
            HasTold R.riding K.carrying self.old.state self.new.state c rider (locals_behind t.core count t.queue) }
        ensures rooms { self.new.rooms ≡ self.old.rooms }
        ensures told { let t = core_at self.old.state.cores c in (found left : R) →
            TellsAll C.told_local C.told_touch C.told_logged K.carrying (locals_behind t.core count t.queue)
            (port_at K.carrying self.old.state.memory.ports c).carry clerk.old found clerk.new left }
    {
        let until = self.cores[c as usize].count_before();
        for last in count..until {
            let at = self.instr(c, last + 1);
            self.memory.retire(c, at);
            clerk.alone(at, self.memory.carry(c));
        }
    }
}
