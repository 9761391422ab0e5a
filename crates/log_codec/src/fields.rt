//! Reading numbers, the header, the image and the totals.
ghost use Rattle.std.specs.Prelude.{◌≡◌, ◌≤◌, length, IfOk};
ghost use Rattle.log_codec.specs.Faults.{Gives};
ghost use Rattle.log_codec.specs.Reading.{number_at, version_at, params_of, header_at, image_at, sizes_at, total_at};
ghost use Rattle.log_codec.specs.Reading.{totals_at};

use crate::codec_fault::{CodecFault, HEADER, IMAGE, Reading, TOTALS};
use crate::version::Version;
use rtr_types::{CORES_MAX, Items, Params};
use std::alloc::Global;
use varint_core::take_u32;

/// The number that the bytes begin with, and the bytes after it.
#[tactic(auto, unfolding(crate::specs::Reading::number_at))]
pub fn number(part: u8, bytes: &[u8]) -> Reading<u32>
    ensures { Gives (λ x. (x.0, x.1.now)) result (number_at part bytes.now) }
{
    match take_u32(bytes) {
        Ok((n, len)) => Ok((n, &bytes[len..])),
        Err(_) => Err(CodecFault::Bad { part }),
    }
}

/// The version that the bytes name, and the bytes after its name.
#[tactic(auto, unfolding(crate::specs::Reading::version_at))]
fn version(bytes: &[u8]) -> Reading<Version>
    ensures { Gives (λ x. (x.0, x.1.now)) result (version_at bytes.now) }
{
    if bytes.starts_with(&Version::One.magic()) {
        Ok((Version::One, &bytes[4..]))
    } else if bytes.starts_with(&Version::Two.magic()) {
        Ok((Version::Two, &bytes[4..]))
    } else {
        Err(CodecFault::Bad { part: HEADER })
    }
}

/// The parameters, where they lie within the version's limits, and the image within the memory.
#[tactic(auto, unfolding(crate::specs::Reading::params_of))]
fn params(
    version: Version,
    cores: u32,
    limit: u32,
    words: u32,
    len: u32,
) -> Result<Params, CodecFault>
    ensures read { Gives (λ x. x) result (params_of version cores limit words len) }
    ensures few { IfOk result (λ p. p.cores ≤ CORES_MAX) }
{
    if cores > CORES_MAX as u32 {
        return Err(CodecFault::Bad { part: HEADER });
    }
    let params = Params {
        cores: cores as u8,
        limit,
        words,
    };
    if version.takes(&params) && len as u64 <= 4 * words as u64 {
        Ok(params)
    } else {
        Err(CodecFault::Bad { part: HEADER })
    }
}

/// The parameters, which lie within the version's limits, the length of the image, and the bytes after
/// them.
#[tactic(auto, unfolding(crate::specs::Reading::sizes_at))]
pub fn sizes(version: Version, bytes: &[u8]) -> Result<(Params, u32, &[u8]), CodecFault>
    ensures read { Gives (λ x. (x.0, x.1, x.2.now)) result (sizes_at version bytes.now) }
    ensures few { IfOk result (λ x. x.0.cores ≤ CORES_MAX) }
{
    let (cores, rest) = number(HEADER, bytes)?;
    let (limit, rest) = number(HEADER, rest)?;
    let (words, rest) = number(HEADER, rest)?;
    let (len, rest) = number(HEADER, rest)?;
    let params = params(version, cores, limit, words, len)?;
    Ok((params, len, rest))
}

/// The version, the parameters, the length of the image, and the bytes after them.
#[tactic(auto, unfolding(crate::specs::Reading::header_at))]
pub(crate) fn header(bytes: &[u8]) -> Result<(Version, Params, u32, &[u8]), CodecFault>
    ensures read { Gives (λ x. (x.0, x.1, x.2, x.3.now)) result (header_at bytes.now) }
    ensures few { IfOk result (λ x. x.1.cores ≤ CORES_MAX) }
{
    let (version, rest) = version(bytes)?;
    let (params, len, rest) = sizes(version, rest)?;
    Ok((version, params, len, rest))
}

/// The image, which has the length that the header says.
#[tactic(auto, unfolding(crate::specs::Reading::image_at))]
pub fn image(alloc: Global, len: u32, bytes: &[u8]) -> Reading<Items<u8>>
    ensures { Gives (λ x. (x.0, x.1.now)) result (image_at len bytes.now) }
{
    let len = len as usize;
    if bytes.len() < len {
        return Err(CodecFault::Bad { part: IMAGE });
    }
    let (front, rest) = bytes.split_at(len);
    Ok((Items::from_vec(Vec::from_slice(alloc, front)?), rest))
}

/// The total of one core.
#[tactic(auto, unfolding(crate::specs::Reading::total_at))]
fn total(limit: u32, bytes: &[u8]) -> Reading<u32>
    ensures { Gives (λ x. (x.0, x.1.now)) result (total_at limit bytes.now) }
{
    let (total, rest) = number(TOTALS, bytes)?;
    if total > limit {
        return Err(CodecFault::Bad { part: TOTALS });
    }
    Ok((total, rest))
}

/// The totals of all cores.
pub fn totals(alloc: Global, limit: u32, cores: u8, bytes: &[u8]) -> Reading<Items<u32>>
    ensures read { Gives (λ x. (x.0, x.1.now)) result (totals_at limit cores bytes.now) }
    ensures each { IfOk result (λ x. length x.0 ≡ cores) }
{
    let mut found = Items::new(alloc);
    let mut rest = bytes;
    for _ in 0..cores {
        let (next, after) = total(limit, rest)?;
        found.push(next)?;
        rest = after;
    }
    Ok((found, rest))
}
