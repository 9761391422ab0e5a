//! Who is told of the run's retirements.
ghost use Rattle.std.specs.Prelude.{◌≡◌, ℕ, ◌≤◌, List, [], IfOk, IsTrue, OnOk, replicate};
ghost use Rattle.rtr_types.specs.Pairs.{pair_count};
ghost use Rattle.rtr_types.specs.declared.TheConstants.{CORES_MAX};
ghost use Rattle.know_history.specs.Notes.{Notes, known_at, no_notes};
ghost use Rattle.edge_regulate.specs.Regulated.{AreReady, IsRegulation, regulated};
ghost use Rattle.edge_regulate.specs.Seats.{Follows};
ghost use Rattle.online_reduce.specs.Reduced.{clock_of, unreduced};
ghost use Rattle.run_records.specs.Clerks.{CanTell, IsTold};
ghost use Rattle.run_steps.proofs.Clocks.{local_kept, touch_kept};

use access_times::{Clerk, Times, TimesClerk};
use edge_regulate::Regulator;
use know_history::Known;
use online_reduce::{EdgePlaces, Reducer};
use rtr_types::{Access, Instr, Items};
use std::alloc::{AllocError, Global};
use std::marker::Model;
use stride_vector::StrideVector;

/// Makes both logs of the run. It keeps no access. It accepts the next instruction of each core while one
/// more retirement needs no memory.
///
/// The regulated log is made from what is known at the instructions up to an edge's target. So the regulator
/// is told of a retirement first, and of its edges by `tell`, after the step in which it retired.
pub(crate) struct RunClerk {
    reducer: Reducer,
    /// The edges of the last retirement, until the regulator is told of them.
    untold: EdgePlaces,
    regulator: Regulator,
}

// One call lets the whole clerk go, at each way out of the functions that own one.
impl Drop for RunClerk {
    fn drop(self) {
        let RunClerk {
            reducer: _reducer,
            untold: _untold,
            regulator: _regulator,
        } = self;
    }
}

/// Both logs of a run, by pair of cores.
#[derive(Drop)]
pub(crate) struct RunLogs {
    pub(crate) reduced: Items<Items<(u32, u32)>>,
    pub(crate) regulated: Items<Items<StrideVector>>,
}

impl Model for RunClerk {
    ghost use Rattle.run_records.specs.Clerks.{Noted};

    ghost Value = { Noted };

    ghost view = { λ a. record {
      reduction = a.reducer;
      untold = a.untold;
      regulation = a.regulator;
    } };
}

impl RunClerk {
    /// A clerk for so many cores that was told nothing yet.
    pub(crate) fn new(alloc: Global, cores: u8) -> Result<RunClerk, AllocError>
        requires { cores ≤ CORES_MAX }
        ensures reduction { IfOk result (λ clerk. clerk.reduction.state ≡ unreduced cores) }
        ensures untold { IfOk result (λ clerk. clerk.untold ≡ []) }
        ensures cores { IfOk result (λ clerk. clerk.regulation.regulation.cores ≡ cores) }
        ensures follows { IfOk result (λ clerk.
            Follows (no_notes cores) (replicate (pair_count cores) []) clerk.regulation) }
    {
        let reducer = Reducer::new(alloc, cores)?;
        let regulator = Regulator::new(alloc, cores)?;
        Ok(RunClerk {
            reducer,
            untold: EdgePlaces::new(),
            regulator,
        })
    }

    /// Makes room for one more retirement.
    pub(crate) fn ready(&mut self) -> Result<(), AllocError>
        ensures reduction { self.new.reduction.state ≡ self.old.reduction.state }
        ensures untold { self.new.untold ≡ self.old.untold }
        ensures cores { self.new.regulation.regulation.cores ≡ self.old.regulation.regulation.cores }
        ensures follows { (notes : Notes) (edges : List (List (ℕ × ℕ))) →
            Follows notes edges self.old.regulation → Follows notes edges self.new.regulation }
        ensures ready { OnOk result (IsTrue self.new.reduction.ready) }
        ensures regulation_ready { OnOk result (AreReady self.new.regulation.regulation) }
    {
        self.reducer.ready()?;
        self.regulator.ready()
    }

    /// Tells the regulator the edges of the last retirement. Most steps leave none, so that is asked first.
    pub(crate) fn tell(&mut self)
        requires { CanTell self.old }
        ensures { IsTold self.old self.new }
    {
        if self.untold.as_slice().is_empty() {
            return;
        }
        self.regulator.edges(self.untold.as_slice());
        self.untold.clear();
    }

    /// Both logs. It takes no memory.
    pub(crate) fn finish(self) -> RunLogs
        ensures reduced { result.reduced ≡ self.reduction.state.lists }
        ensures regulated { (known : Notes) (edges : List (List (ℕ × ℕ))) →
            IsRegulation known edges self.regulation.regulation →
            result.regulated ≡ regulated self.regulation.regulation.cores (known_at known) edges }
        ensures vectors { result.regulated ≡ self.regulation.regulation.vectors }
    {
        let RunClerk {
            reducer,
            untold: _untold,
            regulator,
        } = self;
        RunLogs {
            reduced: reducer.finish(),
            regulated: regulator.finish(),
        }
    }
}

impl Clerk<Times, Known> for RunClerk {
    ghost use Rattle.run_records.specs.Clerks.{Accepts, ToldLocal, ToldTouch};

    ghost accepts = { λ c i. Accepts c i };

    ghost told_local = { λ c i k d. ToldLocal c i k d };

    ghost told_touch = { λ c r a k d q. ToldTouch c r a k d q };

    fn local(&mut self, at: Instr, carry: &Known) {
        self.regulator.retired(at, carry);
        self.reducer.local(at);
    }

    fn touched(&mut self, access: Access, rider: &mut Times, carry: &Known) {
        self.regulator.retired(access.at, carry);
        self.reducer.retire_into(&access, rider, &mut self.untold);
    }
}

impl TimesClerk<Known> for RunClerk {
    ghost clock = { λ c core. clock_of c.reduction.state core };

    ghost local_keeps = { λ c d at k told. local_kept c.reduction.state d.reduction.state at told.reduction };

    ghost touch_keeps = { λ c d r q a k told. touch_kept c.reduction.state d.reduction.state a r told.reduction };

    ghost touch_notes = { λ c d r q a k told. told.times };
}
