//! Reading thinned recordings, with the first part that has no reading where there is one.
ghost use Rattle.std.specs.Prelude.{◌≡◌, ◌≤◌, length, IfOk, Ok};
ghost use Rattle.rtr_types.specs.declared.TheConstants.{CORES_MAX};
ghost use Rattle.log_codec.specs.Faults.{Gives};
ghost use Rattle.race_log.specs.Validity.{Valid};
ghost use Rattle.vector_reduce.specs.Reading.{front_two_at, one_at, parts_at, shown_in, thinned_at};
ghost use Rattle.vector_reduce.specs.Spelling.{Spells};
ghost use Rattle.vector_reduce.specs.Validity.{IsThin, cut_of};
ghost use Rattle.vector_reduce.specs.declared.thinned.Thinned.{Thinned as SomeThinned};

use crate::closing::PLACES;
use crate::pair_vector::vectors_of;
use crate::thinned::{END, SHOWN, Shown, Thinned};
use log_codec::{CodecFault, HEADER, Reading, counts, number, read_all, read_front};
use part_lists::{ReadsItems, read_items};
use race_log::Recording;
use rtr_types::{Cut, Items};
use std::alloc::Global;

/// The letters RTR, and version 2.
const MAGIC: [u8; 4] = [0x52, 0x54, 0x52, 2];

/// The cut with these counts.
fn cut_of(counts: &[u32]) -> Cut
    requires { length counts.now ≤ CORES_MAX }
    ensures { result ≡ cut_of counts.now }
{
    let mut places = [0; PLACES];
    for core in 0..counts.len() {
        places[core] = counts[core];
    }
    Cut {
        cores: counts.len() as u8,
        counts: places,
    }
}

/// The number of an edge, and a cut.
#[tactic(auto, unfolding(crate::specs::Reading::one_at))]
fn one<'a>(alloc: Global, totals: &[u32], bytes: &'a [u8]) -> Reading<'a, Shown>
    requires { length totals.now ≤ CORES_MAX }
    ensures { Gives (λ x. (x.0, x.1.now)) result (one_at totals.now tt bytes.now) }
{
    let (edge, rest) = number(SHOWN, bytes)?;
    let (counts, rest) = counts(alloc, SHOWN, totals, rest)?;
    let cut = cut_of(counts.as_slice());
    Ok((Shown { edge, cut }, rest))
}

impl ReadsItems<Shown> for Recording {
    ghost item_at = { λ r place. one_at r.totals tt };

    ghost fits = { λ r place. length r.totals ≤ CORES_MAX };

    /// The number of an edge, and a cut, at whichever place.
    fn item<'a>(&self, alloc: Global, _place: usize, bytes: &'a [u8]) -> Reading<'a, Shown> {
        one(alloc, self.totals.as_slice(), bytes)
    }
}

/// The sixth part: one for each vector.
fn shown<'a>(alloc: Global, recording: &Recording, bytes: &'a [u8]) -> Reading<'a, Items<Shown>>
    requires { Valid recording.now }
    ensures { Gives (λ x. (x.0, x.1.now)) result (shown_in recording.now bytes.now) }
{
    let vectors = vectors_of(alloc, recording)?.len();
    read_items(alloc, recording, vectors, bytes)
}

/// The first five parts, which are a recording's in version 2, and the bytes after them.
#[tactic(auto, unfolding(crate::specs::Reading::front_two_at))]
fn front(alloc: Global, bytes: &[u8]) -> Reading<Recording>
    ensures read { Gives (λ x. (x.0, x.1.now)) result (front_two_at bytes.now) }
    ensures valid { IfOk result (λ x. Valid x.0) }
{
    if !bytes.starts_with(&MAGIC) {
        return Err(CodecFault::Bad { part: HEADER });
    }
    let (recording, len) = read_front(alloc, bytes)?;
    Ok((recording, &bytes[len..]))
}

/// The parts but for the end, and the bytes after them.
#[tactic(auto, unfolding(crate::specs::Reading::parts_at))]
fn parts(alloc: Global, bytes: &[u8]) -> Reading<Thinned>
    ensures { Gives (λ x. (x.0, x.1.now)) result (parts_at bytes.now) }
{
    let (recording, rest) = front(alloc, bytes)?;
    let (shown, rest) = shown(alloc, &recording, rest)?;
    Ok((Thinned { recording, shown }, rest))
}

/// The thinned recording that the bytes spell, all of the bytes. Its form is right; whether it shows what it
/// says is for a check. A fault names the first part that has no reading: bytes that don't begin as version 2
/// does have no first part.
pub fn read_thin(alloc: Global, bytes: &[u8]) -> Result<Thinned, CodecFault>
    // What is read is spelled so.
    ensures found { IfOk result (λ t. IsThin t × Spells bytes.now t) }
    // What is spelled so is read, unless memory runs out.
    ensures only { (t : SomeThinned) → IsThin t → Spells bytes.now t → Gives (λ x. x) result (Ok t) }
    // Which part it is that has no reading.
    ensures exact { Gives (λ x. x) result (thinned_at bytes.now) }
{
    read_all(parts(alloc, bytes), END)
}
