//! The turns in which actors were picked.
ghost use Rattle.std.specs.Prelude.{◌≡◌, IfOk};
ghost use Rattle.turn_policies.specs.PickedTurns.{one_pick, takes_in, turns_behind, turns_of_picks};

use rtr_types::Items;
use std::alloc::{AllocError, Global};
use turn_lists::{Actor, COUNT_MAX, Turn};

/// The turns in which these actors were picked, one after the other: whom they have picked is these again. Each turn is
/// as long as it can be, and none is longer than `COUNT_MAX`. The only refusal is want of memory.
pub fn turns_of_picks(alloc: Global, picks: &[Actor]) -> Result<Items<Turn>, AllocError>
    ensures { IfOk result (λ turns. turns ≡ turns_of_picks picks.now) }
{
    match picks.split_first() {
        Some((first, rest)) => turns_behind(alloc, one_pick(*first), rest),
        None => Ok(Items::new(alloc)),
    }
}

/// This turn, going on as long as it can, and then the turns of the other picks.
fn turns_behind(alloc: Global, first: Turn, rest: &[Actor]) -> Result<Items<Turn>, AllocError>
    ensures { IfOk result (λ turns. turns ≡ turns_behind first rest.now) }
{
    let mut turns = Items::new(alloc);
    let mut last = first;
    for actor in rest {
        if takes_in(last, *actor) {
            last.count += 1;
        } else {
            turns.push(last)?;
            last = one_pick(*actor);
        }
    }
    turns.push(last)?;
    Ok(turns)
}

/// A turn of one pick.
fn one_pick(actor: Actor) -> Turn
    ensures { result ≡ one_pick actor }
{
    Turn { actor, count: 1 }
}

/// Whether the turn goes on with this pick.
fn takes_in(turn: Turn, actor: Actor) -> bool
    ensures { result ≡ takes_in turn actor }
{
    turn.actor.is(actor) && turn.count < COUNT_MAX
}
