//! A clerk that keeps the accesses of a run, whichever the machine is.
ghost use Rattle.std.specs.Prelude.{◌≡◌, [], IsTrue, OnOk};

use access_times::{Carry, Clerk, Rider};
use rtr_types::{Access, Instr, Items};
use std::alloc::{AllocError, Global};
use std::marker::Model;
use tso_clerk::TsoClerk;

/// Keeps each access, and nothing else. It accepts every instruction while there is room for one more access.
#[derive(Drop)]
pub struct AccessClerk {
    kept: Vec<Access>,
}

impl Model for AccessClerk {
    ghost use Rattle.std.specs.Prelude.{nat_lt, vec_capacity, vec_len};
    ghost use Rattle.roomy_lists.specs.Lists.{Listed};
    ghost use Rattle.rtr_types.specs.declared.access.Access.{Access};

    ghost Value = { Listed Access };

    ghost view = { λ a. record { items = a.kept.items; ready = nat_lt (vec_len a.kept) (vec_capacity a.kept) } };
}

impl AccessClerk {
    /// A clerk that was told nothing yet. It takes no memory.
    pub fn new(alloc: Global) -> AccessClerk
        ensures { result.items ≡ [] }
    {
        AccessClerk {
            kept: Vec::new(alloc),
        }
    }

    /// Makes room for one more access. The only refusal is want of memory.
    pub fn make_room(&mut self) -> Result<(), AllocError>
        ensures kept { self.new.items ≡ self.old.items }
        ensures roomy { OnOk result (IsTrue self.new.ready) }
    {
        self.kept.reserve(1)
    }

    /// The accesses that it was told of. It takes no memory.
    pub fn into_accesses(self) -> Items<Access>
        ensures { result ≡ self.items }
    {
        let AccessClerk { kept } = self;
        Items::from_vec(kept)
    }
}

impl<R: Rider, K: Carry> Clerk<R, K> for AccessClerk {
    ghost use Rattle.std.specs.Prelude.{IsTrue};
    ghost use Rattle.run_accesses.specs.Clerks.{ToldNothing, ToldTouch};

    ghost accepts = { λ c i. IsTrue c.ready };

    ghost told_local = { λ c i k d. ToldNothing c d };

    ghost told_touch = { λ c r a k d q. ToldTouch c r a d q };

    fn local(&mut self, _at: Instr, _carry: &K) {}

    fn touched(&mut self, access: Access, _rider: &mut R, _carry: &K) {
        self.kept.push_reserved(access);
    }
}

impl<R: Rider, K: Carry> TsoClerk<R, K> for AccessClerk {
    ghost use Rattle.run_accesses.specs.Clerks.{ToldNothing};

    ghost accepts_alone = { λ c i. Unit {0} };

    ghost told_logged = { λ c i w v k d. ToldNothing c d };

    fn alone(&mut self, _at: Instr, _carry: &K) {}

    fn logged(&mut self, _at: Instr, _word: u32, _value: u32, _carry: &K) {}
}
