//! Turns made least in steps.
ghost use Rattle.std.specs.Prelude.{◌≡◌, IfOk, true};
ghost use Rattle.turn_lists.specs.Turns.{IsLeastInSteps};
ghost use Rattle.small_turns.specs.Passes.{IsNoLarger};
ghost use Rattle.small_turns.specs.Small.{IsSmall, IsSmallOfRun};

use crate::acts::{Act, turns_made};
use crate::halving::front_length;
use crate::orders::by_conflicts;
use crate::passes::{Progress, make_smaller};
use crate::tries::Tries;
use rtr_types::Items;
use std::alloc::{AllocError, Global};
use turn_lists::{Turn, joined};

/// Turns that break the claim and are least in steps, no more and with no more accesses than the given turns, where
/// those break it; `None` where they don't. The only refusal is want of memory.
pub fn small<T: Tries>(
    alloc: Global,
    tries: &T,
    bench: T::Bench,
    turns: &[Turn],
) -> Result<Option<Items<Turn>>, AllocError>
    requires { T.serves tries.now bench }
    ensures { IfOk result (λ found. IsSmall (T.breaks tries.now) turns.now found) }
{
    let asked = tries.ask(bench, turns)?;
    if !asked.breaks {
        return Ok(None);
    }
    let least = least_from(alloc, tries, asked.into_bench(), turns)?;
    Ok(Some(least))
}

/// Turns that are least in steps, made of turns that break the claim.
fn least_from<T: Tries>(
    alloc: Global,
    tries: &T,
    bench: T::Bench,
    turns: &[Turn],
) -> Result<Items<Turn>, AllocError>
    requires bench { T.serves tries.now bench }
    requires breaks { T.breaks tries.now turns.now ≡ true }
    ensures least { IfOk result (λ least. IsLeastInSteps (T.breaks tries.now) least) }
    ensures no_larger { IfOk result (λ least. IsNoLarger turns.now least) }
{
    let (many, bench) = front_length(tries, bench, turns)?;
    let turns = Items::from_vec(turns[..many].to_vec(alloc)?);
    let now = Progress {
        turns,
        changed: false,
        bench,
    };
    least_of(alloc, tries, now)
}

/// Turns that are least in steps: passes are made until one changes nothing.
fn least_of<T: Tries>(
    alloc: Global,
    tries: &T,
    first: Progress<T::Bench>,
) -> Result<Items<Turn>, AllocError>
    requires bench { T.serves tries.now first.bench }
    requires breaks { T.breaks tries.now first.turns ≡ true }
    ensures least { IfOk result (λ least. IsLeastInSteps (T.breaks tries.now) least) }
    ensures no_larger { IfOk result (λ least. IsNoLarger first.turns least) }
{
    let mut now = first;
    loop {
        now.changed = false;
        now = make_smaller(alloc, tries, now)?;
        if !now.changed {
            let (turns, _bench) = now.into_parts();
            return Ok(turns);
        }
    }
}

/// Turns that break the claim and are least in steps, made of the acts of a run: of their order by conflicts, where its
/// turns break the claim, else of the turns in which they were made. `None` only where the latter don't break it. The
/// only refusal is want of memory.
pub fn small_of_run<T: Tries>(
    alloc: Global,
    tries: &T,
    bench: T::Bench,
    acts: &[Act],
) -> Result<Option<Items<Turn>>, AllocError>
    requires { T.serves tries.now bench }
    ensures { IfOk result (λ found. IsSmallOfRun (T.breaks tries.now) acts.now found) }
{
    let few = few_turns(alloc, acts)?;
    let asked = tries.ask(bench, few.as_slice())?;
    if asked.breaks {
        let least = least_from(alloc, tries, asked.into_bench(), few.as_slice())?;
        return Ok(Some(least));
    }
    let turns = turns_made(alloc, acts)?;
    small(alloc, tries, asked.into_bench(), turns.as_slice())
}

/// The turns of the order by conflicts.
fn few_turns(alloc: Global, acts: &[Act]) -> Result<Items<Turn>, AllocError> {
    let order = by_conflicts(alloc, acts)?;
    joined(alloc, order.as_slice())
}
