//! Turns read.
ghost use Rattle.std.specs.Prelude.{◌≡◌, ◌≢◌, ◌<◌, ◌≤◌, ℕ, List, IfOk, MatchOption, decimal, true};
ghost use Rattle.std.specs.Char.{is_ascii_digit};
ghost use Rattle.std.specs.List.{list_all};
ghost use Rattle.rtr_types.specs.declared.TheConstants.{CORES_MAX};
ghost use Rattle.turn_lists.specs.Actors.{is_actor};
ghost use Rattle.turn_lists.specs.Texts.{SpelledOnce, are_turns, is_numeral, is_padded, is_turn};
ghost use Rattle.turn_lists.specs.Texts.{spelled_actor, spelled_turn, spelled_turns};
ghost use Rattle.turn_lists.specs.declared.actor.Actor.{Actor};
ghost use Rattle.turn_lists.specs.declared.actor.Turn.{Turn};

use crate::actor::{Actor, COUNT_MAX, Turn};
use rtr_types::{CORES_MAX, Items};
use std::alloc::{AllocError, Global};

/// The turns that the text is: those whose cores and counts are in their ranges, 0 to 15 and 1 to `COUNT_MAX`, and
/// whose text, as `spelled_turns` writes it, this is. `None` where there are no such turns.
pub fn turns_of(alloc: Global, text: &str) -> Result<Option<Items<Turn>>, AllocError>
    ensures { IfOk result (λ read. MatchOption read
        ((ts : List Turn) → are_turns ts ≡ true → text.now ≢ spelled_turns ts)
        (λ ts. (are_turns ts ≡ true) × (text.now ≡ spelled_turns ts))) }
{
    if text == "-" {
        return Ok(Some(Items::new(alloc)));
    }
    let mut turns = Items::new(alloc);
    let mut left = text;
    while let Some((front, more)) = left.split_once(',') {
        match turn_of(front) {
            Some(turn) => turns.push(turn)?,
            None => return Ok(None),
        }
        left = more;
    }
    match turn_of(left) {
        Some(turn) => {
            turns.push(turn)?;
            Ok(Some(turns))
        }
        None => Ok(None),
    }
}

/// The turn that the text is.
fn turn_of(text: &str) -> Option<Turn>
    ensures { MatchOption result ((t : Turn) → is_turn t ≡ true → text.now ≢ spelled_turn t)
        (λ t. (is_turn t ≡ true) × (text.now ≡ spelled_turn t)) }
{
    match text.split_once('*') {
        Some((actor, count)) => turn_from(actor, count),
        None => None,
    }
}

/// The turn whose actor and count the two texts are.
fn turn_from(actor: &str, count: &str) -> Option<Turn>
    ensures { MatchOption result
        ((t : Turn) → is_turn t ≡ true → actor.now ≡ spelled_actor t.actor → count.now ≢ decimal t.count)
        (λ t. (is_turn t ≡ true) × (actor.now ≡ spelled_actor t.actor) × (count.now ≡ decimal t.count)) }
{
    let Some(actor) = actor_of(actor) else {
        return None;
    };
    match number_of(count, COUNT_MAX) {
        Some(count) if count > 0 => Some(Turn { actor, count }),
        _ => None,
    }
}

/// The actor that the text is.
fn actor_of(text: &str) -> Option<Actor>
    ensures { MatchOption result ((a : Actor) → is_actor a ≡ true → text.now ≢ spelled_actor a)
        (λ a. (is_actor a ≡ true) × (text.now ≡ spelled_actor a)) }
{
    match text.strip_prefix('w') {
        Some(core) => match core_of(core) {
            Some(core) => Some(Actor::Buffer(core)),
            None => None,
        },
        None => match core_of(text) {
            Some(core) => Some(Actor::Core(core)),
            None => None,
        },
    }
}

/// The number of a core that the text is.
fn core_of(text: &str) -> Option<u8>
    ensures { MatchOption result ((c : ℕ) → c < CORES_MAX → text.now ≢ decimal c)
        (λ c. (c < CORES_MAX) × (text.now ≡ decimal c)) }
{
    match number_of(text, CORES_MAX as u32 - 1) {
        Some(core) => Some(core as u8),
        None => None,
    }
}

/// The number up to the greatest one that the text is, in decimal digits without a sign or a leading zero.
fn number_of(text: &str, most: u32) -> Option<u32>
    ensures { MatchOption result ((n : ℕ) → n ≤ most → text.now ≢ decimal n)
        (λ n. (n ≤ most) × (text.now ≡ decimal n)) }
{
    if !is_numeral(text.as_bytes()) {
        return None;
    }
    match text.parse::<u32>() {
        Ok(n) if n <= most => Some(n),
        _ => None,
    }
}

/// Whether there are decimal digits alone, at least one, and no leading zero but for `0` itself.
fn is_numeral(digits: &[u8]) -> bool
    ensures { result ≡ is_numeral digits.now }
{
    !digits.is_empty() && !is_padded(digits) && are_digits(digits)
}

/// Whether there are several bytes and the first is `0`.
fn is_padded(digits: &[u8]) -> bool
    ensures { result ≡ is_padded digits.now }
{
    digits.len() > 1 && digits[0] == b'0'
}

/// Whether each byte is a decimal digit.
fn are_digits(bytes: &[u8]) -> bool
    ensures { result ≡ list_all is_ascii_digit bytes.now }
{
    bytes.iter().all(|b| b.is_ascii_digit())
}

/// No two lists of turns have one text, so what is written is read as the turns that were written.
pub fn turns_are_spelled_once()
    ensures { SpelledOnce }
{}
