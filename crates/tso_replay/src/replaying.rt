//! Replaying by the low order.
ghost use Rattle.std.specs.Prelude.{◌≡◌, [], IfOk, MatchResult, replicate};
ghost use Rattle.tso_codec.specs.Validity.{IsTso, plain_of};
ghost use Rattle.tso_replay.specs.Replays.{TsoReplays, TsoRefuses};

use race_log::Recording;
use replay_core::{Replay, ReplayFault};
use rtr_types::{Items, Which, pair_count};
use rv_core::Outcome;
use std::alloc::{AllocError, Global};
use stride_vector::StrideVector;
use tso_codec::TsoRecording;

/// The lists once more.
fn copied(
    alloc: Global,
    lists: &[Items<(u32, u32)>],
) -> Result<Items<Items<(u32, u32)>>, AllocError>
    ensures { IfOk result (λ copy. copy ≡ lists.now) }
{
    let mut copy = Items::new(alloc);
    for list in lists {
        copy.push(Items::from_vec(Vec::from_slice(alloc, list.as_slice())?))?;
    }
    Ok(copy)
}

/// A list without a vector for each pair.
fn no_vectors(alloc: Global, pairs: usize) -> Result<Items<Items<StrideVector>>, AllocError>
    ensures { IfOk result (λ lists. lists ≡ replicate pairs []) }
{
    let mut lists = Items::new(alloc);
    for _ in 0..pairs {
        lists.push(Items::new(alloc))?;
    }
    Ok(lists)
}

/// The recording without its logged loads.
fn plain(alloc: Global, recording: &TsoRecording) -> Result<Recording, AllocError>
    ensures { IfOk result (λ plain. plain ≡ plain_of recording.now) }
{
    let params = recording.params;
    Ok(Recording {
        params,
        image: Items::from_vec(Vec::from_slice(alloc, recording.image.as_slice())?),
        totals: Items::from_vec(Vec::from_slice(alloc, recording.totals.as_slice())?),
        reduced: copied(alloc, recording.reduced.as_slice())?,
        regulated: no_vectors(alloc, pair_count(params.cores))?,
    })
}

/// Plays the low order of the reduced log. Each logged load takes its recorded word in place of the
/// memory's; a word that is recorded at any other instruction is ignored.
///
/// `Stuck` comes exactly where the low order ends before it is whole and its play doesn't fall short, and
/// `Short` exactly where its play falls short. `OutOfMemory` comes for want of memory alone.
pub fn tso_replay(alloc: Global, recording: &TsoRecording) -> Result<Outcome, ReplayFault>
    requires { IsTso recording.now }
    ensures { MatchResult result (TsoReplays recording.now) (TsoRefuses recording.now) }
{
    let plain = plain(alloc, recording)?;
    Replay::run_given(alloc, &plain, Which::Reduced, recording.values.as_slice())
}
