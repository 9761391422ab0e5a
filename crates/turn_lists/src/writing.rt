//! Turns written.
ghost use Rattle.std.specs.Prelude.{◌≡◌, ◌++◌, IfOk, OnOk, string_bytes};
ghost use Rattle.turn_lists.specs.Texts.{spelled_more, spelled_turn, spelled_turns};

use crate::actor::{Actor, Turn};
use std::alloc::{AllocError, Global};

/// The text of the turns: `-` for none, else each as `C*N` or, of the buffer of core C, `wC*N`, with commas between
/// them. Numbers are decimal.
#[tactic(auto, unfolding(crate::specs::Texts::spelled_turns))]
pub fn spelled_turns(alloc: Global, turns: &[Turn]) -> Result<String, AllocError>
    ensures { IfOk result (λ text. string_bytes text ≡ spelled_turns turns.now) }
{
    let mut text = String::new(alloc);
    match turns.split_first() {
        Some((first, rest)) => {
            put_turn(alloc, &mut text, *first)?;
            put_more(alloc, &mut text, rest)?;
        }
        None => text.push_str("-")?,
    }
    Ok(text)
}

/// Writes further turns behind a text, each after a comma.
#[tactic(auto, using(std::proofs::lemmas::List::flat_map_more, std::proofs::lemmas::List::take_more))]
fn put_more(alloc: Global, text: &mut String, turns: &[Turn]) -> Result<(), AllocError>
    ensures { OnOk result (string_bytes text.new ≡ string_bytes text.old ++ spelled_more turns.now) }
{
    for turn in turns {
        text.push_str(",")?;
        put_turn(alloc, text, *turn)?;
    }
    Ok(())
}

/// Writes a turn behind a text.
fn put_turn(alloc: Global, text: &mut String, turn: Turn) -> Result<(), AllocError>
    ensures { OnOk result (string_bytes text.new ≡ string_bytes text.old ++ spelled_turn turn) }
{
    let count = turn.count;
    let spelled = match turn.actor {
        Actor::Core(core) => format!(in alloc; "{core}*{count}")?,
        Actor::Buffer(core) => format!(in alloc; "w{core}*{count}")?,
    };
    text.push_str(spelled.as_str())
}
