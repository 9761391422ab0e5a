//! Leaving out whole vectors.
ghost use Rattle.std.specs.Prelude.{◌≡◌, length, Err, IfOk, IsOkUnless, MatchOption, MatchResult};
ghost use Rattle.rtr_types.specs.declared.pairs.Which.TheVariants.{Regulated};
ghost use Rattle.race_log.specs.Validity.{Valid};
ghost use Rattle.vector_reduce.specs.Answers.{AreFew, AreTooMany, IsRefusedFor, IsThinningOf, ThinRefuses, too_many_of};
ghost use Rattle.vector_reduce.specs.Kept.{IsLeftOf, IsShownLeft, kept};
ghost use Rattle.vector_reduce.specs.Showing.{AreFormed, AreLeastShown};
ghost use Rattle.vector_reduce.specs.Thinning.{EachNeeded, IsThinned};
ghost use Rattle.vector_reduce.specs.Vectors.{vectors_of};

use crate::answers::{POSITIONS_MAX, ThinFault, VECTORS_MAX};
use crate::arrivals::Arrivals;
use crate::copies::kept_of;
use crate::pair_vector::vectors_of;
use crate::thinned::{Shown, Thinned};
use race_log::{Recording, item_count};
use replay_audit::Audited;
use rtr_types::{Items, Which};
use std::alloc::{AllocError, Global};

/// Why a recording with too many vectors, or with too many positions, is refused; none where it has few.
fn refused(recording: &Recording) -> Option<ThinFault>
    requires { Valid recording.now }
    ensures { MatchOption result (AreFew recording.now) (IsRefusedFor recording.now) }
{
    let vectors = item_count(recording.regulated.as_slice());
    let edges = recording.edge_count(Which::Regulated);
    if vectors > VECTORS_MAX || edges > POSITIONS_MAX {
        return Some(ThinFault::TooMany { vectors, edges });
    }
    None
}

/// Which vectors stay: each is tried once, in order, against those that aren't left out so far.
fn stays(alloc: Global, arrivals: &Arrivals) -> Result<Vec<bool>, AllocError>
    ensures all { IfOk result (λ stays. length stays.items ≡ length arrivals.now.vectors) }
    ensures thinned { IfOk result (λ stays. IsThinned arrivals.now.vectors (kept arrivals.now.vectors stays.items)) }
{
    let vectors = arrivals.vectors();
    let mut stays = Vec::new(alloc);
    for number in 0..vectors.len() {
        let trial = arrivals.trial(stays.as_slice());
        stays.push(trial.edge < vectors[number].vector.n)?;
    }
    Ok(stays)
}

/// What shows that each vector is needed, where each is: all stay.
fn shown(alloc: Global, arrivals: &Arrivals) -> Result<Items<Shown>, AllocError>
    requires { EachNeeded arrivals.now.vectors }
    ensures least { IfOk result (AreLeastShown arrivals.now.vectors) }
    ensures formed { IfOk result (AreFormed (length arrivals.now.lists)) }
{
    let mut stays = Vec::new(alloc);
    let mut shown = Items::new(alloc);
    for number in 0..arrivals.vectors().len() {
        shown.push(arrivals.trial(stays.as_slice()))?;
        stays.push(true)?;
    }
    Ok(shown)
}

/// The vectors of a valid recording with their edges by target.
fn arrivals_of(alloc: Global, recording: &Recording) -> Result<Arrivals, AllocError>
    requires { Valid recording.now }
    ensures vectors { IfOk result (λ a. a.vectors ≡ vectors_of recording.now) }
    ensures cores { IfOk result (λ a. length a.lists ≡ recording.now.params.cores) }
{
    let vectors = vectors_of(alloc, recording)?;
    Arrivals::new(alloc, recording.params.cores, vectors)
}

/// The recording without the vectors that the others imply.
fn without_implied(alloc: Global, recording: &Recording) -> Result<Recording, AllocError>
    requires { Valid recording.now }
    ensures { IfOk result (IsLeftOf recording.now) }
{
    let arrivals = arrivals_of(alloc, recording)?;
    let stays = stays(alloc, &arrivals)?;
    kept_of(alloc, recording, stays.as_slice())
}

/// What shows that each vector of a valid recording is needed, where each is.
fn shown_of(alloc: Global, recording: &Recording) -> Result<Items<Shown>, AllocError>
    requires valid { Valid recording.now }
    requires needed { EachNeeded (vectors_of recording.now) }
    ensures least { IfOk result (AreLeastShown (vectors_of recording.now)) }
    ensures formed { IfOk result (AreFormed (length recording.now.totals)) }
{
    let arrivals = arrivals_of(alloc, recording)?;
    shown(alloc, &arrivals)
}

/// The recording without the vectors that the others imply, and what shows that those which are left are needed.
fn left_of(alloc: Global, recording: &Recording) -> Result<Thinned, AllocError>
    requires { Valid recording.now }
    ensures { IfOk result (IsShownLeft recording.now) }
{
    let left = without_implied(alloc, recording)?;
    let shown = shown_of(alloc, &left)?;
    Ok(Thinned {
        recording: left,
        shown,
    })
}

/// The recording without the vectors that others imply, and what shows that those which are left are needed.
/// Each vector is tried once, by pair and within a pair in their order: it is left out where each of its edges
/// is before by the edges of the other vectors that aren't left out so far. The audit was by the regulated
/// log.
///
/// `TooMany` comes exactly where there are more than `VECTORS_MAX` vectors, or where they have more than
/// `POSITIONS_MAX` positions in all. Within these limits two passes are made, and for each vector a pass looks
/// up each edge at most once.
pub fn thin(alloc: Global, audited: &Audited) -> Result<Thinned, ThinFault>
    requires { audited.now.which ≡ Regulated }
    ensures answer { MatchResult result (IsThinningOf audited.now.recording) (ThinRefuses audited.now.recording) }
    // Few vectors are thinned, unless memory runs out.
    ensures complete { AreFew audited.now.recording → IsOkUnless result ThinFault.OutOfMemory }
    // Too many never are, and take no memory.
    ensures refused { AreTooMany audited.now.recording → result ≡ Err (too_many_of audited.now.recording) }
{
    // The accesses come with the fact that the recording is determinate.
    let _ = audited.accesses();
    let recording = audited.recording();
    if let Some(fault) = refused(recording) {
        return Err(fault);
    }
    Ok(left_of(alloc, recording)?)
}
