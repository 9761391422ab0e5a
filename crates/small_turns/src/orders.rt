//! The acts of a run in an order with few turns.
ghost use Rattle.std.specs.Prelude.{◌≡◌, ◌<◌, ◌≤◌, ◌++◌, ℕ, IfOk, IfSome, OnOk, length, replicate, true};
ghost use Rattle.turn_lists.specs.declared.actor.Actor.{Actor};
ghost use Rattle.small_turns.specs.Acts.{IsReordered, made_by, single_turn};
ghost use Rattle.small_turns.specs.Orders.{held, reached};

use crate::acts::{Act, single_turn, single_turns};
use crate::lines::{Line, Spot, lines_of};
use rtr_types::Items;
use std::alloc::{AllocError, Global};
use turn_lists::{Actor, Turn, joined};

/// The acts of a run in another order, as turns of one access each: each actor makes as many of them. The only refusal
/// is want of memory.
///
/// No clause says which order it is, since its turns are tried before they are taken. It is meant to keep each two acts
/// that conflict in order, and to change the actor seldom. From each first actor, a turn goes on as long as it can, and
/// the next one is of the actor that can go on longest; the order of fewest turns is taken.
pub fn by_conflicts(alloc: Global, acts: &[Act]) -> Result<Items<Turn>, AllocError>
    ensures { IfOk result (λ turns. IsReordered acts.now turns) }
{
    let lines = lines_of(alloc, acts)?;
    match best_order(alloc, lines.as_slice(), acts.len())? {
        Some(order) => Ok(order),
        None => single_turns(alloc, acts),
    }
}

/// The order of fewest turns of those that begin with each line, where one of them has all acts.
fn best_order(alloc: Global, lines: &[Line], acts: usize) -> Result<Option<Items<Turn>>, AllocError>
    ensures { IfOk result (λ found. IfSome found
        (λ order. (a : Actor) → made_by a order ≡ held a lines.now)) }
{
    let mut best = None;
    let mut fewest = (usize::MAX, 0);
    for first in 0..lines.len() {
        if let Some(order) = order_from(alloc, lines, acts, first)? {
            let turns = joined(alloc, order.as_slice())?;
            let found = (turns.len(), rank(lines[first].actor));
            if found < fewest {
                fewest = found;
                best = Some(order);
            }
        }
    }
    Ok(best)
}

/// The order that begins with this line, where it has all acts.
fn order_from(
    alloc: Global,
    lines: &[Line],
    acts: usize,
    first: usize,
) -> Result<Option<Items<Turn>>, AllocError>
    requires { first < length lines.now }
    ensures { IfOk result (λ found. IfSome found
        (λ order. (a : Actor) → made_by a order ≡ held a lines.now)) }
{
    let mut places = vec![in alloc; 0usize; lines.len()]?;
    let mut order = Items::new(alloc);
    let mut now = first;
    for _turn in 0..acts {
        let from = places[now];
        let to = reach(&lines[now], now, places.as_slice(), from);
        if to == from {
            break;
        }
        put_acts(&mut order, lines[now].actor, to - from)?;
        places[now] = to;
        now = next_line(lines, places.as_slice());
    }
    if is_whole(lines, places.as_slice()) {
        Ok(Some(order))
    } else {
        Ok(None)
    }
}

/// Puts so many acts of an actor behind an order.
fn put_acts(order: &mut Items<Turn>, actor: Actor, many: usize) -> Result<(), AllocError>
    ensures { OnOk result (order.new ≡ order.old ++ replicate many (single_turn actor)) }
{
    for _act in 0..many {
        order.push(single_turn(actor))?;
    }
    Ok(())
}

/// The line whose actor can go on longest; of several the last actor's.
fn next_line(lines: &[Line], places: &[usize]) -> usize
    requires some { 0 < length lines.now }
    requires places { length places.now ≡ length lines.now }
    ensures { result < length lines.now }
{
    let mut best = 0;
    let mut most = (0, 0);
    for k in 0..lines.len() {
        let from = places[k];
        let found = (
            reach(&lines[k], k, places, from) - from,
            rank(lines[k].actor),
        );
        if found > most {
            most = found;
            best = k;
        }
    }
    best
}

/// The place in a line, given by its number, that its actor reaches from a place if it goes on as long as it can.
fn reach(line: &Line, number: usize, places: &[usize], from: usize) -> usize
    ensures { from ≤ result }
{
    let waits = line.waits.as_slice();
    let mut to = from;
    while to < waits.len() && is_free(waits[to].as_slice(), number, places) {
        to += 1;
    }
    to
}

/// Whether all acts that an act of a line waits for are done, once those before it in the line are.
fn is_free(waits: &[Spot], number: usize, places: &[usize]) -> bool {
    for spot in waits {
        if spot.line != number {
            match places.get(spot.line) {
                Some(place) if spot.place < *place => {}
                _ => return false,
            }
        }
    }
    true
}

/// Whether the places are the ends of all lines.
fn is_whole(lines: &[Line], places: &[usize]) -> bool
    requires { length places.now ≡ length lines.now }
    ensures { result ≡ true → (a : Actor) → reached a lines.now places.now ≡ held a lines.now }
{
    for k in 0..lines.len() {
        if places[k] != lines[k].waits.len() {
            return false;
        }
    }
    true
}

/// The actor's place among all actors: cores by number, then buffers by number.
fn rank(actor: Actor) -> u16 {
    match actor {
        Actor::Core(core) => core as u16,
        Actor::Buffer(core) => 256 + core as u16,
    }
}
