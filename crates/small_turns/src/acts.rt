//! The acts of a run, and the turns that they make.
ghost use Rattle.std.specs.Prelude.{◌≡◌, IfOk};
ghost use Rattle.small_turns.specs.Acts.{single_turn, single_turns, turns_made};

use rtr_types::Items;
use std::alloc::{AllocError, Global};
use turn_lists::{Actor, Turn, joined};

/// An access of a run: who made it, on which word, and whether it may have changed the word.
#[derive(Clone, Copy, Debug, PartialEq, Eq)]
pub struct Act {
    pub actor: Actor,
    /// The word's index, its address / 4.
    pub word: u32,
    pub writes: bool,
}

/// The turns in which the acts of a run were made: a turn for each act, neighbours of one actor joined. The only
/// refusal is want of memory.
pub fn turns_made(alloc: Global, acts: &[Act]) -> Result<Items<Turn>, AllocError>
    ensures { IfOk result (λ turns. turns ≡ turns_made acts.now) }
{
    let singles = single_turns(alloc, acts)?;
    joined(alloc, singles.as_slice())
}

/// A turn of one access.
pub(crate) fn single_turn(actor: Actor) -> Turn
    ensures { result ≡ single_turn actor }
{
    Turn { actor, count: 1 }
}

/// A turn for each act, of one access.
pub(crate) fn single_turns(alloc: Global, acts: &[Act]) -> Result<Items<Turn>, AllocError>
    ensures { IfOk result (λ turns. turns ≡ single_turns acts.now) }
{
    let mut turns = Items::new(alloc);
    for act in acts {
        turns.push(single_turn(act.actor))?;
    }
    Ok(turns)
}
