//! Turns joined, left out and changed.
ghost use Rattle.std.specs.Prelude.{◌≡◌, ◌≤◌, ◌<◌, ◌∷◌, IfOk, OnOk, length};
ghost use Rattle.turn_lists.specs.Turns.{joined, joined_from, left_out, together, with_count};

use crate::actor::{COUNT_MAX, Turn};
use rtr_types::Items;
use std::alloc::{AllocError, Global};

/// The turns with neighbours of one actor joined. Counts that together pass `COUNT_MAX` count as that.
#[tactic(auto, unfolding(crate::specs::Turns::joined))]
pub fn joined(alloc: Global, turns: &[Turn]) -> Result<Items<Turn>, AllocError>
    ensures { IfOk result (λ list. list ≡ joined turns.now) }
{
    match turns.split_first() {
        Some((first, rest)) => joined_from(alloc, *first, rest),
        None => Ok(Items::new(alloc)),
    }
}

/// The turns with neighbours of one actor joined, the first one apart.
fn joined_from(alloc: Global, first: Turn, rest: &[Turn]) -> Result<Items<Turn>, AllocError>
    ensures { IfOk result (λ list. list ≡ joined_from first rest.now) }
{
    let mut list = Items::new(alloc);
    let mut last = first;
    for turn in rest {
        if last.actor.is(turn.actor) {
            last.count = together(last.count, turn.count);
        } else {
            list.push(last)?;
            last = *turn;
        }
    }
    list.push(last)?;
    Ok(list)
}

/// The count of two turns of one actor that come together.
fn together(one: u32, other: u32) -> u32
    ensures { result ≡ together one other }
{
    let sum = one as u64 + other as u64;
    if sum < COUNT_MAX as u64 {
        sum as u32
    } else {
        COUNT_MAX
    }
}

/// The turns without those from one place up to another, neighbours of one actor joined.
pub fn left_out(
    alloc: Global,
    turns: &[Turn],
    from: usize,
    to: usize,
) -> Result<Items<Turn>, AllocError>
    requires order { from ≤ to }
    requires within { to ≤ length turns.now }
    ensures { IfOk result (λ list. list ≡ left_out from to turns.now) }
{
    let mut kept = Vec::new(alloc);
    kept.extend_from_slice(&turns[..from])?;
    kept.extend_from_slice(&turns[to..])?;
    joined(alloc, kept.as_slice())
}

/// The turns with this count in the turn at a place.
#[tactic(auto, using(crate::proofs::TurnChanges::with_count_set))]
pub fn with_count(
    alloc: Global,
    turns: &[Turn],
    place: usize,
    count: u32,
) -> Result<Items<Turn>, AllocError>
    requires { place < length turns.now }
    ensures { IfOk result (λ list. list ≡ with_count place count turns.now) }
{
    let mut list = turns.to_vec(alloc)?;
    list[place].count = count;
    Ok(Items::from_vec(list))
}
