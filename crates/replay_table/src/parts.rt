//! What the seats leave when the table is closed.
ghost use Rattle.std.specs.Prelude.{◌≡◌, ◌<◌, ◌≤◌, ◌++◌, [], ◌∷◌, IfOk, length, reverse};

use crate::past::Past;
use rtr_types::Items;
use rv_core::{Core, LoadNote};
use std::alloc::{AllocError, Global};
use std::marker::Model;
use touch_judge::TouchNote;

/// The cores, loads and accesses of seats that were taken apart, in lists that took their room
/// beforehand.
pub(crate) struct Parts {
    cores: Vec<Core>,
    loads: Vec<Items<LoadNote>>,
    touched: Vec<Items<TouchNote>>,
}

impl Model for Parts {
    ghost use Rattle.std.specs.Prelude.{◌≡◌, length, min, vec_capacity};
    ghost use Rattle.replay_table.specs.Seats.{Taken};

    ghost Value = { Taken };

    ghost view = { λ a. record {
      cores = a.cores.items;
      loads = a.loads.items;
      touched = a.touched.items;
      room = min (vec_capacity a.cores) (min (vec_capacity a.loads) (vec_capacity a.touched));
    } };

    ghost invariant = { λ a. (length a.loads.items ≡ length a.cores.items)
        × (length a.touched.items ≡ length a.cores.items) };
}

impl Drop for Parts {
    fn drop(self) {
        let Parts {
            cores: _cores,
            loads: _loads,
            touched: _touched,
        } = self;
    }
}

impl Parts {
    /// Room for so many.
    pub(crate) fn new(alloc: Global, count: usize) -> Result<Parts, AllocError>
        ensures cores { IfOk result (λ a. a.cores ≡ []) }
        ensures loads { IfOk result (λ a. a.loads ≡ []) }
        ensures touched { IfOk result (λ a. a.touched ≡ []) }
        ensures room { IfOk result (λ a. count ≤ a.room) }
    {
        Ok(Parts {
            cores: Vec::with_capacity(alloc, count)?,
            loads: Vec::with_capacity(alloc, count)?,
            touched: Vec::with_capacity(alloc, count)?,
        })
    }

    /// Puts what a core has done at the end.
    pub(crate) fn put(&mut self, past: Past)
        requires { length self.old.cores < self.old.room }
        ensures cores { self.new.cores ≡ self.old.cores ++ past.core ∷ [] }
        ensures loads { self.new.loads ≡ self.old.loads ++ past.loads ∷ [] }
        ensures touched { self.new.touched ≡ self.old.touched ++ past.touched ∷ [] }
        ensures room { self.old.room ≤ self.new.room }
    {
        let (core, loads, touched) = past.into_parts();
        self.cores.push_reserved(core);
        self.loads.push_reserved(Items::from_vec(loads));
        self.touched.push_reserved(Items::from_vec(touched));
    }

    /// The lists, the last part first.
    pub(crate) fn into_items(self) -> (Items<Core>, Items<Items<LoadNote>>, Items<Items<TouchNote>>)
        ensures cores { result.0 ≡ reverse self.cores }
        ensures loads { result.1 ≡ reverse self.loads }
        ensures touched { result.2 ≡ reverse self.touched }
    {
        let Parts {
            mut cores,
            mut loads,
            mut touched,
        } = self;
        cores.reverse();
        loads.reverse();
        touched.reverse();
        (
            Items::from_vec(cores),
            Items::from_vec(loads),
            Items::from_vec(touched),
        )
    }
}
