//! Passes over turns that break the claim: each makes them fewer or shorter where it can.
ghost use Rattle.std.specs.Prelude.{◌≡◌, ◌<◌, IfOk, false, true};
ghost use Rattle.small_turns.specs.Passes.{EachIsNeeded, IsPass, NoneIsShorter};

use crate::halving::short_count;
use crate::tries::Tries;
use rtr_types::Items;
use std::alloc::{AllocError, Global};
use turn_lists::{Turn, left_out, with_count};

/// Turns that break the claim.
pub(crate) struct Progress<B> {
    /// The turns.
    pub turns: Items<Turn>,
    /// Whether this round has made them smaller.
    pub changed: bool,
    /// What the next run is made on.
    pub bench: B,
}

impl<B> Progress<B> {
    /// The turns, and what the next run is made on.
    pub(crate) fn into_parts(self) -> (Items<Turn>, B)
        ensures turns { result.0 ≡ self.turns }
        ensures bench { result.1 ≡ self.bench }
    {
        let Progress {
            turns,
            changed: _changed,
            bench,
        } = self;
        (turns, bench)
    }
}

impl<B: Drop> Drop for Progress<B> {
    fn drop(self) {
        let Progress {
            turns: _turns,
            changed: _changed,
            bench: _bench,
        } = self;
    }
}

/// Leaves out runs of so many turns, where the rest still breaks the claim.
fn leave_out<T: Tries>(
    alloc: Global,
    tries: &T,
    before: Progress<T::Bench>,
    size: usize,
) -> Result<Progress<T::Bench>, AllocError>
    requires size { 0 < size }
    requires bench { T.serves tries.now before.bench }
    requires breaks { T.breaks tries.now before.turns ≡ true }
    ensures pass { IfOk result
        (λ after. IsPass (T.breaks tries.now) before.turns before.changed after.turns after.changed) }
    ensures needed { IfOk result
        (λ after. size ≡ 1 → after.changed ≡ false → EachIsNeeded (T.breaks tries.now) after.turns) }
    ensures bench { IfOk result (λ after. T.serves tries.now after.bench) }
{
    let mut changed = before.changed;
    let (mut turns, mut bench) = before.into_parts();
    let mut from = 0;
    while from < turns.len() {
        let to = from + size.min(turns.len() - from);
        let fewer = left_out(alloc, turns.as_slice(), from, to)?;
        let asked = tries.ask(bench, fewer.as_slice())?;
        if asked.breaks {
            turns = fewer;
            changed = true;
        } else {
            from = to;
        }
        bench = asked.into_bench();
    }
    Ok(Progress {
        turns,
        changed,
        bench,
    })
}

/// Leaves out runs of turns by halves, down to single ones, where the rest still breaks the claim.
fn leave_out_by_halves<T: Tries>(
    alloc: Global,
    tries: &T,
    before: Progress<T::Bench>,
) -> Result<Progress<T::Bench>, AllocError>
    requires bench { T.serves tries.now before.bench }
    requires breaks { T.breaks tries.now before.turns ≡ true }
    ensures pass { IfOk result
        (λ after. IsPass (T.breaks tries.now) before.turns before.changed after.turns after.changed) }
    ensures needed { IfOk result
        (λ after. after.changed ≡ false → EachIsNeeded (T.breaks tries.now) after.turns) }
    ensures bench { IfOk result (λ after. T.serves tries.now after.bench) }
{
    let mut now = before;
    let mut size = now.turns.len() / 2;
    while size > 1 {
        now = leave_out(alloc, tries, now, size)?;
        size = size / 2 + size % 2;
    }
    leave_out(alloc, tries, now, 1)
}

/// Lowers the count of each turn as far as halving finds, where the turns still break the claim.
fn shorten<T: Tries>(
    alloc: Global,
    tries: &T,
    before: Progress<T::Bench>,
) -> Result<Progress<T::Bench>, AllocError>
    requires bench { T.serves tries.now before.bench }
    requires breaks { T.breaks tries.now before.turns ≡ true }
    ensures pass { IfOk result
        (λ after. IsPass (T.breaks tries.now) before.turns before.changed after.turns after.changed) }
    ensures shortest { IfOk result
        (λ after. after.changed ≡ false → NoneIsShorter (T.breaks tries.now) after.turns) }
    ensures bench { IfOk result (λ after. T.serves tries.now after.bench) }
{
    let many = before.turns.len();
    let mut changed = before.changed;
    let (mut turns, mut bench) = before.into_parts();
    for place in 0..many {
        let (count, next) = short_count(alloc, tries, bench, turns.as_slice(), place)?;
        bench = next;
        if count < turns.as_slice()[place].count {
            turns = with_count(alloc, turns.as_slice(), place, count)?;
            changed = true;
        }
    }
    Ok(Progress {
        turns,
        changed,
        bench,
    })
}

/// Makes the turns fewer, and then shorter, where they still break the claim.
pub(crate) fn make_smaller<T: Tries>(
    alloc: Global,
    tries: &T,
    before: Progress<T::Bench>,
) -> Result<Progress<T::Bench>, AllocError>
    requires bench { T.serves tries.now before.bench }
    requires breaks { T.breaks tries.now before.turns ≡ true }
    ensures pass { IfOk result
        (λ after. IsPass (T.breaks tries.now) before.turns before.changed after.turns after.changed) }
    ensures needed { IfOk result
        (λ after. after.changed ≡ false → EachIsNeeded (T.breaks tries.now) after.turns) }
    ensures shortest { IfOk result
        (λ after. after.changed ≡ false → NoneIsShorter (T.breaks tries.now) after.turns) }
    ensures bench { IfOk result (λ after. T.serves tries.now after.bench) }
{
    let fewer = leave_out_by_halves(alloc, tries, before)?;
    shorten(alloc, tries, fewer)
}
