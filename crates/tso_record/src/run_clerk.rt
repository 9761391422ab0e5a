//! Who is told of the run's instructions.
ghost use Rattle.std.specs.Prelude.{◌≡◌, ◌≤◌, [], IfOk, IsTrue, OnOk, replicate};
ghost use Rattle.rtr_types.specs.declared.TheConstants.{CORES_MAX};
ghost use Rattle.online_reduce.specs.Reduced.{clock_of, unreduced};
ghost use Rattle.run_steps.proofs.Clocks.{local_kept, touch_kept};

use crate::uncarried::Uncarried;
use access_times::{Clerk, Times, TimesClerk};
use online_reduce::{EdgePlaces, Reducer};
use roomy_lists::RoomyLists;
use rtr_types::{Access, Instr, Items};
use std::alloc::{AllocError, Global};
use std::marker::Model;
use tso_clerk::TsoClerk;

/// Makes the reduced log of the run, and keeps the words of the loads that are logged. It keeps no access. It accepts
/// the next instruction of each core while one more ordered access and one more logged load need no memory.
pub(crate) struct RunClerk {
    reducer: Reducer,
    /// Of each core the logged loads, each with its count and its word.
    values: RoomyLists<(u32, u32)>,
    /// The edges of the last ordered access. Nothing reads them.
    edges: EdgePlaces,
}

// One call lets the whole clerk go, at each way out of the functions that own one.
impl Drop for RunClerk {
    fn drop(self) {
        let RunClerk {
            reducer: _reducer,
            values: _values,
            edges: _edges,
        } = self;
    }
}

/// The reduced log of a run by pair of cores, and its logged loads by core.
#[derive(Drop)]
pub(crate) struct RunLogs {
    pub(crate) reduced: Items<Items<(u32, u32)>>,
    pub(crate) values: Items<Items<(u32, u32)>>,
}

impl Model for RunClerk {
    ghost use Rattle.roomy_lists.specs.Lists.{are_ready, items_in};
    ghost use Rattle.tso_record.specs.Clerks.{Noted};

    ghost Value = { Noted };

    ghost view = { λ a. record {
      reduction = a.reducer;
      values = items_in a.values;
      roomy = are_ready a.values;
    } };
}

impl RunClerk {
    /// A clerk for so many cores that was told nothing yet.
    pub(crate) fn new(alloc: Global, cores: u8) -> Result<RunClerk, AllocError>
        requires { cores ≤ CORES_MAX }
        ensures reduction { IfOk result (λ clerk. clerk.reduction.state ≡ unreduced cores) }
        ensures values { IfOk result (λ clerk. clerk.values ≡ replicate cores []) }
    {
        let reducer = Reducer::new(alloc, cores)?;
        let values = RoomyLists::new(alloc, cores as usize)?;
        Ok(RunClerk {
            reducer,
            values,
            edges: EdgePlaces::new(),
        })
    }

    /// Makes room for one more ordered access and for one more logged load of each core.
    pub(crate) fn make_room(&mut self) -> Result<(), AllocError>
        ensures reduction { self.new.reduction.state ≡ self.old.reduction.state }
        ensures values { self.new.values ≡ self.old.values }
        ensures ready { OnOk result (IsTrue self.new.reduction.ready) }
        ensures roomy { OnOk result (IsTrue self.new.roomy) }
    {
        self.reducer.ready()?;
        self.values.make_room()
    }

    /// The log and the logged loads. It takes no memory.
    pub(crate) fn finish(self) -> RunLogs
        ensures reduced { result.reduced ≡ self.reduction.state.lists }
        ensures values { result.values ≡ self.values }
    {
        let RunClerk {
            reducer,
            values,
            edges: _edges,
        } = self;
        RunLogs {
            reduced: reducer.finish(),
            values: values.into_items(),
        }
    }
}

impl TimesClerk<Uncarried> for RunClerk {
    ghost clock = { λ c core. clock_of c.reduction.state core };

    ghost local_keeps = { λ c d at k told. local_kept c.reduction.state d.reduction.state at told.reduction };

    ghost touch_keeps = { λ c d r q a k told. touch_kept c.reduction.state d.reduction.state a r told.reduction };

    ghost touch_notes = { λ c d r q a k told. told.times };
}

impl Clerk<Times, Uncarried> for RunClerk {
    ghost use Rattle.tso_record.specs.Clerks.{Accepts, ToldLocal, ToldTouch};

    ghost accepts = { λ c i. Accepts c i };

    ghost told_local = { λ c i k d. ToldLocal c i d };

    ghost told_touch = { λ c r a k d q. ToldTouch c r a d q };

    fn local(&mut self, at: Instr, _carry: &Uncarried) {
        self.reducer.local(at);
    }

    fn touched(&mut self, access: Access, rider: &mut Times, _carry: &Uncarried) {
        self.reducer.retire_into(&access, rider, &mut self.edges);
    }
}

impl TsoClerk<Times, Uncarried> for RunClerk {
    ghost use Rattle.online_reduce.specs.Reduced.{IsNext};
    ghost use Rattle.tso_record.specs.Clerks.{ToldLogged};

    ghost accepts_alone = { λ c i. IsNext c.reduction.state i };

    ghost told_logged = { λ c i w v k d. ToldLogged c i w v d };

    fn alone(&mut self, at: Instr, _carry: &Uncarried) {
        self.reducer.local(at);
    }

    fn logged(&mut self, at: Instr, _word: u32, value: u32, _carry: &Uncarried) {
        self.reducer.local(at);
        self.values.push(at.core as usize, (at.count, value));
    }
}
