//! Turns cut short by halving.
ghost use Rattle.std.specs.Prelude.{◌≡◌, ◌<◌, ◌≤◌, ◌-◌, IfOk, false, length, take, true};
ghost use Rattle.turn_lists.specs.Turns.{count_at, with_count};

use crate::tries::Tries;
use std::alloc::{AllocError, Global};
use turn_lists::{Turn, with_count};

/// How many of the first turns break the claim, as few as halving finds, and what the next run is made on.
pub(crate) fn front_length<T: Tries>(
    tries: &T,
    bench: T::Bench,
    turns: &[Turn],
) -> Result<(usize, T::Bench), AllocError>
    requires bench { T.serves tries.now bench }
    requires breaks { T.breaks tries.now turns.now ≡ true }
    ensures within { IfOk result (λ front. front.0 ≤ length turns.now) }
    ensures breaks { IfOk result (λ front. T.breaks tries.now (take front.0 turns.now) ≡ true) }
    ensures bench { IfOk result (λ front. T.serves tries.now front.1) }
{
    let mut bench = bench;
    let mut low = 0;
    let mut high = turns.len();
    while low < high {
        let middle = low + (high - low) / 2;
        let asked = tries.ask(bench, &turns[..middle])?;
        if asked.breaks {
            high = middle;
        } else {
            low = middle + 1;
        }
        bench = asked.into_bench();
    }
    Ok((high, bench))
}

/// The count of the turn at a place with which the turns break the claim and with one less don't, as halving finds it,
/// and what the next run is made on.
pub(crate) fn short_count<T: Tries>(
    alloc: Global,
    tries: &T,
    bench: T::Bench,
    turns: &[Turn],
    place: usize,
) -> Result<(u32, T::Bench), AllocError>
    requires within { place < length turns.now }
    requires bench { T.serves tries.now bench }
    requires breaks { T.breaks tries.now turns.now ≡ true }
    ensures most { IfOk result (λ short. short.0 ≤ count_at place turns.now) }
    ensures breaks { IfOk result (λ short. T.breaks tries.now (with_count place short.0 turns.now) ≡ true) }
    ensures least { IfOk result
        (λ short. 1 < short.0 → T.breaks tries.now (with_count place (short.0 - 1) turns.now) ≡ false) }
    ensures bench { IfOk result (λ short. T.serves tries.now short.1) }
{
    let mut bench = bench;
    let mut low = 1;
    let mut high = turns[place].count;
    while low < high {
        let middle = low + (high - low) / 2;
        let shorter = with_count(alloc, turns, place, middle)?;
        let asked = tries.ask(bench, shorter.as_slice())?;
        if asked.breaks {
            high = middle;
        } else {
            low = middle + 1;
        }
        bench = asked.into_bench();
    }
    Ok((high, bench))
}
