//! Reading, with the first part that has no reading where there is one.
ghost use Rattle.std.specs.Prelude.{◌≡◌, ◌≤◌, ◌++◌, length, drop, take, IfOk, Ok, List, Result, ℕ};
ghost use Rattle.log_codec.specs.Faults.{Gives, read_all};
ghost use Rattle.log_codec.specs.Reading.{front_at, reduced_at, whole_at};
ghost use Rattle.log_codec.specs.Spelling.{Spells, spelling_in};
ghost use Rattle.race_log.specs.Validity.{Valid};
ghost use Rattle.log_codec.specs.Versions.{FitsIn};
ghost use Rattle.race_log.specs.declared.recording.Recording.{Recording};
ghost use Rattle.log_codec.specs.declared.version.Version.{Version};

use crate::codec_fault::{CodecFault, END, PairEdges, REDUCED, Reading};
use crate::fields::{header, image, totals};
use crate::pairs::by_pairs;
use crate::targets::by_targets;
use crate::vectors::regulated;
use crate::version::Version;
use race_log::Recording;
use rtr_types::CORES_MAX;
use std::alloc::Global;

/// The fourth part, in which the versions differ.
#[tactic(auto, unfolding(crate::specs::Reading::edges_at))]
fn reduced<'a>(
    alloc: Global,
    version: Version,
    totals: &[u32],
    bytes: &'a [u8],
) -> Reading<'a, PairEdges>
    requires { length totals.now ≤ CORES_MAX }
    ensures { Gives (λ x. (x.0, x.1.now)) result (reduced_at version totals.now bytes.now) }
{
    match version {
        Version::One => by_pairs(alloc, REDUCED, totals, bytes),
        Version::Two => by_targets(alloc, totals, bytes),
    }
}

/// The parts but for the end, and the bytes after them.
#[tactic(auto, unfolding(crate::specs::Reading::front_at))]
fn front(alloc: Global, bytes: &[u8]) -> Reading<Recording>
    ensures { Gives (λ x. (x.0, x.1.now)) result (front_at bytes.now) }
{
    let (version, params, len, rest) = header(bytes)?;
    let (image, rest) = image(alloc, len, rest)?;
    let (totals, rest) = totals(alloc, params.limit, params.cores, rest)?;
    let (reduced, rest) = reduced(alloc, version, totals.as_slice(), rest)?;
    let (regulated, rest) = regulated(alloc, totals.as_slice(), rest)?;
    let recording = Recording {
        params,
        image,
        totals,
        reduced,
        regulated,
    };
    Ok((recording, rest))
}

/// The recording that the bytes begin with in either version, and the length of its spelling. Other
/// bytes may follow, as they do in a certificate.
pub fn read_front(alloc: Global, bytes: &[u8]) -> Result<(Recording, usize), CodecFault>
    // What is read is spelled so.
    ensures found { IfOk result (λ x. Valid x.0 × Spells (take x.1 bytes.now) x.0) }
    ensures within { IfOk result (λ x. x.1 ≤ length bytes.now) }
    // What begins with a spelling is read, unless memory runs out.
    ensures only { (v : Version) (r : Recording) (rest : List ℕ) → Valid r → FitsIn v r.params →
        bytes.now ≡ spelling_in v r ++ rest →
        Gives {Y = Recording × List ℕ} (λ x. (x.0, drop x.1 bytes.now)) result (Ok (r, rest)) }
    // Which part it is that has no reading.
    ensures exact { Gives (λ x. (x.0, drop x.1 bytes.now)) result (front_at bytes.now) }
{
    let (recording, rest) = front(alloc, bytes)?;
    Ok((recording, bytes.len() - rest.len()))
}

/// What was read of all bytes: of a front of them, where no byte stands after it. Else this part fails.
pub fn read_all<T: Drop>(front: Reading<'_, T>, last: u8) -> Result<T, CodecFault>
    ensures { (front_at : List ℕ → Result (T × List ℕ) ℕ) (bytes : List ℕ) →
        Gives (λ x. (x.0, x.1.now)) front.entry (front_at bytes) →
        Gives (λ x. x) result (read_all front_at last bytes) }
{
    let (value, rest) = front?;
    if !rest.is_empty() {
        return Err(CodecFault::Bad { part: last });
    }
    Ok(value)
}

/// The recording that the bytes spell in either version, all of the bytes. The numbers in them are
/// LEB128. Each recording that is read is valid. A fault names the first part that has no reading.
pub fn read(alloc: Global, bytes: &[u8]) -> Result<Recording, CodecFault>
    // What is read is spelled so.
    ensures found { IfOk result (λ r. Valid r × Spells bytes.now r) }
    // What is spelled so is read, unless memory runs out.
    ensures only { (r : Recording) → Valid r → Spells bytes.now r → Gives (λ x. x) result (Ok r) }
    // Which part it is that has no reading.
    ensures exact { Gives (λ x. x) result (whole_at bytes.now) }
{
    read_all(front(alloc, bytes), END)
}
