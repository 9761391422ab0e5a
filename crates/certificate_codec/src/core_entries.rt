//! The clocks of one core's edge ends.
ghost use Rattle.std.specs.Prelude.{◌≡◌, ◌*◌, [], length, slice_index_or};
ghost use Rattle.certificate_codec.specs.Rows.{rows};

use rtr_types::Items;
use std::marker::Model;

/// A clock for each edge end of a core, by rising count, each with a count of each core. The counts of all
/// lie in one list, so that no clock takes memory of its own. Contracts see a list of counts for each.
#[derive(Drop)]
pub struct CoreEntries {
    number: usize,
    width: usize,
    counts: Items<u32>,
}

impl Model for CoreEntries {
    ghost use Rattle.std.specs.Prelude.{◌≡◌, ◌*◌, ℕ, List, length};
    ghost use Rattle.certificate_codec.specs.Rows.{rows};

    ghost Value = { List (List ℕ) };

    ghost view = { λ a. rows a.width a.number a.counts };

    ghost invariant = { λ a. length a.counts ≡ a.number * a.width };
}

impl CoreEntries {
    /// So many clocks of so many counts each, from the counts of all.
    pub fn new(number: usize, width: usize, counts: Items<u32>) -> CoreEntries
        requires { length counts ≡ number * width }
        ensures { result ≡ rows width number counts }
    {
        CoreEntries {
            number,
            width,
            counts,
        }
    }

    /// How many clocks there are.
    pub fn len(&self) -> usize
        ensures { result ≡ length self.now }
    {
        self.number
    }

    /// The clock at this place, from 0; empty past the last.
    pub fn entry(&self, place: usize) -> &[u32]
        ensures { result.now ≡ slice_index_or self.now place [] }
    {
        if place >= self.number {
            return &[];
        }
        &self.counts.as_slice()[place * self.width..][..self.width]
    }
}
