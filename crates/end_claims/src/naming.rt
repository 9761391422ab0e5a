//! The places that a claim names.
ghost use Rattle.std.specs.Prelude.{◌≡◌, IfOk, OnOk};
ghost use Rattle.std.specs.List.{flat_map, fold, list_all, list_any};
ghost use Rattle.end_claims.specs.Named.{all_ended, are_named_within, are_within, is_within, named_by, named_in};
ghost use Rattle.end_claims.specs.Named.{named_right, right_within, with_place, within};
ghost use Rattle.end_claims.specs.Places.{same_place};

use crate::claim::{Alternative, Atom, Claim, Place, Right};
use rtr_types::{Items, Params};
use std::alloc::{AllocError, Global};

/// The places that the claim names in a run with so many cores, each once, in the order in which they are first named.
/// `all` names how each core ended. The only refusal is want of memory.
#[tactic(auto, unfolding(crate::specs::Named::each_once))]
pub fn named_by(alloc: Global, cores: u8, claim: &Claim) -> Result<Items<Place>, AllocError>
    ensures { IfOk result (λ places. places ≡ named_by cores claim.now) }
{
    let mut places = Items::new(alloc);
    let alternatives = claim.as_slice();
    for k in 0..alternatives.len() {
        put_alternative(&mut places, cores, alternatives[k].as_slice())?;
    }
    Ok(places)
}

/// Puts the places that the atoms name.
fn put_alternative(places: &mut Items<Place>, cores: u8, atoms: &[Atom]) -> Result<(), AllocError>
    ensures { OnOk result (places.new ≡ fold with_place places.old (flat_map (named_in cores) atoms.now)) }
{
    for k in 0..atoms.len() {
        put_atom(places, cores, atoms[k])?;
    }
    Ok(())
}

/// Puts the places that an atom names.
fn put_atom(places: &mut Items<Place>, cores: u8, atom: Atom) -> Result<(), AllocError>
    ensures { OnOk result (places.new ≡ fold with_place places.old (named_in cores atom)) }
{
    match atom {
        Atom::Compares { left, right, .. } => {
            put_place(places, left)?;
            put_right(places, right)
        }
        Atom::Ends { core, .. } => put_place(places, Place::Ended(core)),
        Atom::AllEnd(_) => put_all_ended(places, cores),
    }
}

/// Puts the place of a right side, where it is one.
fn put_right(places: &mut Items<Place>, right: Right) -> Result<(), AllocError>
    ensures { OnOk result (places.new ≡ fold with_place places.old (named_right right)) }
{
    match right {
        Right::Number(_) => Ok(()),
        Right::At(place) => put_place(places, place),
    }
}

/// Puts how each of so many cores ended.
#[tactic(auto, using(rtr_types::proofs::Ranges::map_range_more, std::proofs::lemmas::List::Sums::fold_push))]
pub(crate) fn put_all_ended(places: &mut Items<Place>, cores: u8) -> Result<(), AllocError>
    ensures { OnOk result (places.new ≡ fold with_place places.old (all_ended cores)) }
{
    for core in 0..cores {
        put_place(places, Place::Ended(core))?;
    }
    Ok(())
}

/// Puts a place at the end, where it isn't there already.
pub(crate) fn put_place(places: &mut Items<Place>, place: Place) -> Result<(), AllocError>
    ensures { OnOk result (places.new ≡ with_place places.old place) }
{
    if has_place(places.as_slice(), place) {
        return Ok(());
    }
    places.push(place)
}

/// Whether the place is one of them.
fn has_place(places: &[Place], place: Place) -> bool
    ensures { result ≡ list_any (same_place place) places.now }
{
    places.iter().any(|other| place.is_same(*other))
}

/// Whether a run with these parameters has each core and word that the claim names.
pub fn names_within(params: Params, claim: &Claim) -> bool
    ensures { result ≡ are_named_within params.cores params.words claim.now }
{
    claim
        .as_slice()
        .iter()
        .all(|atoms| are_within(params, atoms.as_slice()))
}

/// Whether a run with these parameters has each core and word that the atoms name.
fn are_within(params: Params, atoms: &[Atom]) -> bool
    ensures { result ≡ list_all (within params.cores params.words) atoms.now }
{
    atoms.iter().all(|atom| is_named_within(params, *atom))
}

/// Whether a run with these parameters has each core and word that the atom names.
fn is_named_within(params: Params, atom: Atom) -> bool
    ensures { result ≡ within params.cores params.words atom }
{
    match atom {
        Atom::Compares { left, right, .. } => {
            is_within(params, left) && is_right_within(params, right)
        }
        Atom::Ends { core, .. } => core < params.cores,
        Atom::AllEnd(_) => true,
    }
}

/// Whether a run with these parameters has what the right side names.
fn is_right_within(params: Params, right: Right) -> bool
    ensures { result ≡ right_within params.cores params.words right }
{
    match right {
        Right::Number(_) => true,
        Right::At(place) => is_within(params, place),
    }
}

/// Whether a run with these parameters has the place.
fn is_within(params: Params, place: Place) -> bool
    ensures { result ≡ is_within params.cores params.words place }
{
    match place {
        Place::Word(word) => word < params.words,
        Place::Register { core, .. } | Place::Ended(core) => core < params.cores,
    }
}

/// Whether a run with these parameters has each of the places.
pub fn places_within(params: Params, places: &[Place]) -> bool
    ensures { result ≡ are_within params.cores params.words places.now }
{
    places.iter().all(|place| is_within(params, *place))
}
