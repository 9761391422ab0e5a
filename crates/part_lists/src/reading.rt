//! Reading items one after the other.
ghost use Rattle.std.specs.Prelude.{◌≡◌, ◌<◌, ℕ, List, Result};
ghost use Rattle.rtr_types.specs.Turns.{count_up};
ghost use Rattle.log_codec.specs.Faults.{Gives};
ghost use Rattle.log_codec.specs.Turns.{read_in_turn};

use log_codec::Reading;
use rtr_types::Items;
use std::alloc::Global;

/// What the items of a list are read by, each at its place: the parts before the list say what may stand there.
pub trait ReadsItems<T: Drop> {
    /// The item that stands at a place, read from the front of the bytes, and the bytes after it.
    ghost item_at: { Self → ℕ → List ℕ → Result (T × List ℕ) ℕ };

    /// There may be an item at the place.
    ghost fits: { Self → ℕ → Type 0 };

    /// The item that stands at a place, read from the front of the bytes, and the bytes after it.
    fn item<'a>(&self, alloc: Global, place: usize, bytes: &'a [u8]) -> Reading<'a, T>
        requires { fits self.now place }
        ensures { Gives (λ x. (x.0, x.1.now)) result (item_at self.now place bytes.now) };
}

/// So many items, and the bytes after them.
pub fn read_items<'a, R: ReadsItems<T>, T: Drop>(
    alloc: Global,
    reader: &R,
    count: usize,
    bytes: &'a [u8],
) -> Reading<'a, Items<T>>
    requires { (place : ℕ) → place < count → R.fits reader.now place }
    ensures { Gives (λ x. (x.0, x.1.now)) result
        (read_in_turn (R.item_at reader.now) count_up count 0 bytes.now) }
{
    let mut found = Items::new(alloc);
    let mut rest = bytes;
    for place in 0..count {
        let (next, after) = reader.item(alloc, place, rest)?;
        found.push(next)?;
        rest = after;
    }
    Ok((found, rest))
}
