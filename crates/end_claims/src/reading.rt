//! What a text claims.
ghost use Rattle.std.specs.Prelude.{◌≡◌, ◌==◌, ◌<◌, IfOk, map};
ghost use Rattle.std.specs.List.{slice_split};
ghost use Rattle.std.specs.Option.{option_map};
ghost use Rattle.end_claims.specs.Reading.{alternative_of, atom_of, claim_of, comparison_of, ending_of, right_of};
ghost use Rattle.end_claims.specs.Reading.{sides_at_equals, sides_of};
ghost use Rattle.end_claims.specs.Views.{sides_seen};

use crate::claim::{Alternative, Atom, Claim, Comparison, Right};
use crate::numbers::{before_last, parted, word_of};
use crate::places::{core_of, stop_named, value_place};
use rtr_types::Items;
use std::alloc::{AllocError, Global};

/// The texts of a comparison's two sides.
#[derive(Clone, Copy)]
pub(crate) struct Sides<'a> {
    pub(crate) left: &'a str,
    pub(crate) by: Comparison,
    pub(crate) right: &'a str,
}

/// The claim that the text is, or `None`: alternatives joined by `|`, each of them atoms joined by `,`. An atom
/// compares a word `[10ac]` or a register `1:x7` by `=`, `!=`, `<`, `<=`, `>` or `>=` with a number, a word or a
/// register, or it says how a core or `all` ended, as `1:exit`. Nothing else is a claim. The only refusal is want of
/// memory.
#[tactic(auto, unfolding(crate::specs::Reading::claim_of))]
pub fn read_claim(alloc: Global, text: &str) -> Result<Option<Claim>, AllocError>
    ensures { IfOk result (λ claim. claim ≡ claim_of text.now) }
{
    let pieces = pieces(alloc, '|', text)?;
    let mut claim = Items::new(alloc);
    for k in 0..pieces.len() {
        match alternative_of(alloc, pieces[k])? {
            Some(alternative) => claim.push(alternative)?,
            None => return Ok(None),
        }
    }
    Ok(Some(claim))
}

/// The atoms that a text joins by `,`.
#[tactic(auto, unfolding(crate::specs::Reading::alternative_of))]
fn alternative_of(alloc: Global, text: &str) -> Result<Option<Alternative>, AllocError>
    ensures { IfOk result (λ atoms. atoms ≡ alternative_of text.now) }
{
    let pieces = pieces(alloc, ',', text)?;
    let mut atoms = Items::new(alloc);
    for k in 0..pieces.len() {
        match atom_of(pieces[k]) {
            Some(atom) => atoms.push(atom)?,
            None => return Ok(None),
        }
    }
    Ok(Some(atoms))
}

/// The pieces of a text between the characters of this kind.
pub(crate) fn pieces(alloc: Global, at: char, text: &str) -> Result<Vec<&str>, AllocError>
    requires { at < 128 }
    ensures { IfOk result (λ pieces. map (λ piece. piece.now) pieces.items ≡ slice_split (λ b. b == at) text.now) }
{
    text.split(at).collect(alloc)
}

/// The atom that a text is.
#[tactic(auto, unfolding(crate::specs::Reading::atom_of))]
fn atom_of(text: &str) -> Option<Atom>
    ensures { result ≡ atom_of text.now }
{
    match sides_of(text) {
        Some(sides) => comparison_of(sides),
        None => ending_of(text),
    }
}

/// The sides of a comparison, where there is a sign of one.
#[tactic(auto, unfolding(crate::specs::Reading::sides_of))]
fn sides_of(text: &str) -> Option<Sides<'_>>
    ensures { option_map sides_seen result ≡ sides_of text.now }
{
    if let Some((left, right)) = parted('=', text) {
        return Some(sides_at_equals(left, right));
    }
    if let Some((left, right)) = parted('<', text) {
        let by = Comparison::Less;
        return Some(Sides { left, by, right });
    }
    let (left, right) = parted('>', text)?;
    let by = Comparison::More;
    Some(Sides { left, by, right })
}

/// The sides around `!=`, `<=`, `>=` or `=`.
#[tactic(auto, unfolding(crate::specs::Reading::sides_at_equals))]
fn sides_at_equals<'a>(left: &'a str, right: &'a str) -> Sides<'a>
    ensures { sides_seen result ≡ sides_at_equals left.now right.now }
{
    if let Some(left) = before_last('!', left) {
        let by = Comparison::Unequal;
        return Sides { left, by, right };
    }
    if let Some(left) = before_last('<', left) {
        let by = Comparison::AtMost;
        return Sides { left, by, right };
    }
    if let Some(left) = before_last('>', left) {
        let by = Comparison::AtLeast;
        return Sides { left, by, right };
    }
    let by = Comparison::Equal;
    Sides { left, by, right }
}

/// The comparison of two sides.
#[tactic(auto, unfolding(crate::specs::Reading::comparison_of))]
fn comparison_of(sides: Sides<'_>) -> Option<Atom>
    ensures { result ≡ comparison_of (sides_seen sides.entry) }
{
    let left = value_place(sides.left)?;
    let right = right_of(sides.right)?;
    let by = sides.by;
    Some(Atom::Compares { left, by, right })
}

/// The number or place that a text is.
#[tactic(auto, unfolding(crate::specs::Reading::right_of))]
fn right_of(text: &str) -> Option<Right>
    ensures { result ≡ right_of text.now }
{
    if let Some(word) = word_of(text) {
        return Some(Right::Number(word));
    }
    Some(Right::At(value_place(text)?))
}

/// What a text says of how a core ended, or all cores.
#[tactic(auto, unfolding(crate::specs::Reading::ending_of))]
fn ending_of(text: &str) -> Option<Atom>
    ensures { result ≡ ending_of text.now }
{
    let (who, stop) = parted(':', text)?;
    let stop = stop_named(stop)?;
    if who == "all" {
        return Some(Atom::AllEnd(stop));
    }
    let core = core_of(who)?;
    Some(Atom::Ends { core, stop })
}
