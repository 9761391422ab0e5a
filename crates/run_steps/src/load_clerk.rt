//! A clerk that keeps what each core's loads got, for a run that keeps no log, whichever the machine is.
ghost use Rattle.std.specs.Prelude.{◌≡◌, ◌<◌, [], IfOk, IsTrue, OnOk, length, replicate};
ghost use Rattle.run_steps.specs.Clerks.{with_load, with_read};

use access_times::{Carry, Clerk, Rider};
use load_lists::LoadLists;
use rtr_types::{Access, Instr, Items};
use rv_core::LoadNote;
use std::alloc::{AllocError, Global};
use std::marker::Model;
use tso_clerk::TsoClerk;

/// Keeps each core's loads, and nothing else. It accepts every instruction of its cores while there is room
/// for one more load of each.
#[derive(Drop)]
pub struct LoadClerk {
    loads: LoadLists,
}

impl Model for LoadClerk {
    ghost use Rattle.load_lists.specs.Lists.{LoadRooms};

    ghost Value = { LoadRooms };

    ghost view = { λ a. a.loads };
}

impl LoadClerk {
    /// A clerk for so many cores that was told nothing yet. The only refusal is want of memory.
    pub fn new(alloc: Global, cores: u8) -> Result<LoadClerk, AllocError>
        ensures { IfOk result (λ clerk. clerk.lists ≡ replicate cores []) }
    {
        let loads = LoadLists::new(alloc, cores)?;
        Ok(LoadClerk { loads })
    }

    /// Makes room for one more load of each core. The only refusal is want of memory.
    pub fn make_room(&mut self) -> Result<(), AllocError>
        ensures lists { self.new.lists ≡ self.old.lists }
        ensures roomy { OnOk result (IsTrue self.new.roomy) }
    {
        self.loads.make_room()
    }

    /// Notes what the access got with its core, where it reads: a load or an atomic memory operation.
    fn note_read(&mut self, access: &Access)
        requires core { access.now.at.core < length self.old.lists }
        requires room { IsTrue self.old.roomy }
        ensures { self.new.lists ≡ with_read self.old.lists access.now }
    {
        if access.kind.is_read() {
            self.note_load(access.at, access.word, access.before);
        }
    }

    /// Notes what a load or an atomic memory operation got with its core.
    fn note_load(&mut self, at: Instr, word: u32, value: u32)
        requires core { at.core < length self.old.lists }
        requires room { IsTrue self.old.roomy }
        ensures { self.new.lists ≡ with_load self.old.lists at word value }
    {
        let note = LoadNote {
            count: at.count,
            word,
            value,
        };
        self.loads.note(at.core, note);
    }

    /// Each core's loads. It takes no memory.
    pub fn into_loads(self) -> Items<Items<LoadNote>>
        ensures { result ≡ self.lists }
    {
        let LoadClerk { loads } = self;
        loads.into_items()
    }
}

impl<R: Rider, K: Carry> Clerk<R, K> for LoadClerk {
    ghost use Rattle.run_steps.specs.Clerks.{Accepts, ToldLocal, ToldTouch};

    ghost accepts = { λ c i. Accepts c i };

    ghost told_local = { λ c i k d. ToldLocal c d };

    ghost told_touch = { λ c r a k d q. ToldTouch c r a d q };

    fn local(&mut self, _at: Instr, _carry: &K) {}

    fn touched(&mut self, access: Access, _rider: &mut R, _carry: &K) {
        self.note_read(&access);
    }
}

impl<R: Rider, K: Carry> TsoClerk<R, K> for LoadClerk {
    ghost use Rattle.run_steps.specs.Clerks.{ToldLogged};

    ghost accepts_alone = { λ c i. Unit {0} };

    ghost told_logged = { λ c i w v k d. ToldLogged c i w v d };

    fn alone(&mut self, _at: Instr, _carry: &K) {}

    fn logged(&mut self, at: Instr, word: u32, value: u32, _carry: &K) {
        self.note_load(at, word, value);
    }
}
