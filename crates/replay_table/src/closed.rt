//! A table that was brought to its end.
ghost use Rattle.std.specs.Prelude.{◌≡◌};

use rtr_types::Items;
use rv_core::Outcome;
use std::marker::Model;
use touch_judge::TouchNote;

/// The play of a whole replay order: what it leaves, and by core its accesses. Only closing a table
/// makes one.
pub struct Closed {
    pub(crate) outcome: Outcome,
    pub(crate) touched: Items<Items<TouchNote>>,
}

impl Model for Closed {
    ghost use Rattle.replay_table.specs.Seats.{Ended};

    ghost Value = { Ended };

    ghost view = { λ a. record { outcome = a.outcome; touched = a.touched } };
}

impl Drop for Closed {
    fn drop(self) {
        let Closed {
            outcome: _outcome,
            touched: _touched,
        } = self;
    }
}

impl Closed {
    /// What the play leaves.
    pub fn outcome(&self) -> &Outcome
        ensures { result.now ≡ self.now.outcome }
    {
        &self.outcome
    }

    /// The accesses of each core, core 0 first.
    pub fn touched(&self) -> &[Items<TouchNote>]
        ensures { result.now ≡ self.now.touched }
    {
        self.touched.as_slice()
    }
}
