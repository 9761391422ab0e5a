//! Asking a claim of the end of a run.
ghost use Rattle.std.specs.Prelude.{◌≡◌, ◌<◌, IfOk, length, true};
ghost use Rattle.std.specs.List.{list_all, range_with_len};
ghost use Rattle.end_claims.specs.Ends.{have_values, stop_number, value_at, values_at};
ghost use Rattle.end_claims.specs.Meaning.{atom_holds, compares, ends_by, holds_at, right_at};
ghost use Rattle.end_claims.specs.Named.{are_named_within, are_within, is_within, right_within, within};

use crate::claim::{Atom, Claim, Comparison, Place, Right};
use crate::views::EndView;
use rtr_types::Items;
use rv_core::Stop;
use std::alloc::{AllocError, Global};

/// The number of a stop, from 0, in the order of `Stop`.
pub fn stop_number(stop: Stop) -> u32
    ensures { result ≡ stop_number stop }
{
    match stop {
        Stop::Exit => 0,
        Stop::Break => 1,
        Stop::Limit => 2,
        Stop::Fetch => 3,
        Stop::Illegal => 4,
        Stop::Jump => 5,
        Stop::Align => 6,
        Stop::Address => 7,
        Stop::Total => 8,
    }
}

/// The value of a place at the end.
pub fn value_at<E: EndView>(end: &E, place: Place) -> u32
    requires { is_within (length (E.end end.now).cores) (E.end end.now).image.words place ≡ true }
    ensures { result ≡ value_at (E.end end.now) place }
{
    match place {
        Place::Word(word) => end.final_word(word),
        Place::Register { core, number } => end.core(core).reg(number),
        Place::Ended(core) => stop_number(end.stop(core)),
    }
}

/// The values of the places at the end, in their order. The only refusal is want of memory.
pub fn values_at<E: EndView>(
    alloc: Global,
    end: &E,
    places: &[Place],
) -> Result<Items<u32>, AllocError>
    requires { are_within (length (E.end end.now).cores) (E.end end.now).image.words places.now ≡ true }
    ensures { IfOk result (λ values. values ≡ values_at (E.end end.now) places.now) }
{
    let mut values = Items::new(alloc);
    for k in 0..places.len() {
        values.push(value_at(end, places[k]))?;
    }
    Ok(values)
}

/// Whether the places have these values at the end, of which there are as many.
pub fn has_values<E: EndView>(end: &E, places: &[Place], values: &[u32]) -> bool
    requires { are_within (length (E.end end.now).cores) (E.end end.now).image.words places.now ≡ true }
    ensures { result ≡ have_values (E.end end.now) places.now values.now }
{
    if places.len() != values.len() {
        return false;
    }
    for k in 0..places.len() {
        if value_at(end, places[k]) != values[k] {
            return false;
        }
    }
    true
}

/// Whether the claim holds at the end: all atoms of some alternative do.
pub fn holds_at<E: EndView>(end: &E, claim: &Claim) -> bool
    requires { are_named_within (length (E.end end.now).cores) (E.end end.now).image.words claim.now ≡ true }
    ensures { result ≡ holds_at (E.end end.now) claim.now }
{
    let alternatives = claim.as_slice();
    for k in 0..alternatives.len() {
        if all_hold(end, alternatives[k].as_slice()) {
            return true;
        }
    }
    false
}

/// Whether all of the atoms hold.
fn all_hold<E: EndView>(end: &E, atoms: &[Atom]) -> bool
    requires { list_all (within (length (E.end end.now).cores) (E.end end.now).image.words) atoms.now ≡ true }
    ensures { result ≡ list_all (atom_holds (E.end end.now)) atoms.now }
{
    for k in 0..atoms.len() {
        if !atom_holds(end, atoms[k]) {
            return false;
        }
    }
    true
}

/// Whether the atom holds.
fn atom_holds<E: EndView>(end: &E, atom: Atom) -> bool
    requires { within (length (E.end end.now).cores) (E.end end.now).image.words atom ≡ true }
    ensures { result ≡ atom_holds (E.end end.now) atom }
{
    match atom {
        Atom::Compares { left, by, right } => {
            compares(by, value_at(end, left), right_at(end, right))
        }
        Atom::Ends { core, stop } => ends_by(end, stop, core),
        Atom::AllEnd(stop) => all_end_by(end, stop),
    }
}

/// The value of a right side.
fn right_at<E: EndView>(end: &E, right: Right) -> u32
    requires { right_within (length (E.end end.now).cores) (E.end end.now).image.words right ≡ true }
    ensures { result ≡ right_at (E.end end.now) right }
{
    match right {
        Right::Number(number) => number,
        Right::At(place) => value_at(end, place),
    }
}

/// Whether the left word compares so with the right one.
pub fn compares(by: Comparison, left: u32, right: u32) -> bool
    ensures { result ≡ compares by left right }
{
    match by {
        Comparison::Equal => left == right,
        Comparison::Unequal => left != right,
        Comparison::Less => left.cast_signed() < right.cast_signed(),
        Comparison::AtMost => left.cast_signed() <= right.cast_signed(),
        Comparison::More => left.cast_signed() > right.cast_signed(),
        Comparison::AtLeast => left.cast_signed() >= right.cast_signed(),
    }
}

/// Whether the core ended by the stop.
fn ends_by<E: EndView>(end: &E, stop: Stop, core: u8) -> bool
    requires { core < length (E.end end.now).cores }
    ensures { result ≡ ends_by (E.end end.now) stop core }
{
    stop_number(end.stop(core)) == stop_number(stop)
}

/// Whether each core ended by the stop.
#[tactic(auto, using(crate::proofs::Ranges::range_front, crate::proofs::Ranges::range_end))]
fn all_end_by<E: EndView>(end: &E, stop: Stop) -> bool
    ensures { result ≡ list_all (ends_by (E.end end.now) stop) (range_with_len 0 (length (E.end end.now).cores)) }
{
    let cores = end.cores();
    for core in 0..cores {
        if !ends_by(end, stop, core) {
            return false;
        }
    }
    true
}
