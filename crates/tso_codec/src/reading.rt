//! Reading, with the first part that has no reading where there is one.
ghost use Rattle.std.specs.Prelude.{◌≡◌, ◌<◌, ◌≤◌, length, slice_index, IfOk, Ok};
ghost use Rattle.rtr_types.specs.Turns.{count_up};
ghost use Rattle.log_codec.specs.Faults.{Gives};
ghost use Rattle.log_codec.specs.Turns.{read_in_turn};
ghost use Rattle.tso_codec.specs.Reading.{magic_at, value_at, values_at, all_values_at, parts_at, tso_at};
ghost use Rattle.tso_codec.specs.Spelling.{tso_magic, tso_spelling};
ghost use Rattle.tso_codec.specs.Validity.{IsTso, count_of};
ghost use Rattle.tso_codec.specs.declared.recording.TsoRecording.{TsoRecording as SomeRecording};

use crate::recording::{END, TsoRecording, VALUES};
use log_codec::{
    CodecFault, HEADER, Reading, Version, by_targets, image, number, read_all, sizes, totals,
};
use rtr_types::Items;
use std::alloc::Global;

/// The letters RTR, and 3.
pub(crate) fn tso_magic() -> [u8; 4]
    ensures { result ≡ tso_magic }
{
    [0x52, 0x54, 0x52, 3]
}

/// The bytes after the letters RTR and 3.
#[tactic(auto, unfolding(crate::specs::Reading::magic_at))]
fn magic(bytes: &[u8]) -> Result<&[u8], CodecFault>
    ensures { Gives (λ x. x.now) result (magic_at bytes.now) }
{
    if bytes.starts_with(&tso_magic()) {
        Ok(&bytes[4..])
    } else {
        Err(CodecFault::Bad { part: HEADER })
    }
}

/// The next logged load after the one with the last count: its own count is above that one, and at most the
/// total. The bytes have the rise of the count, and the word.
#[tactic(auto, unfolding(crate::specs::Reading::value_at))]
fn value(total: u32, last: u32, bytes: &[u8]) -> Reading<(u32, u32)>
    requires { last ≤ total }
    ensures read { Gives (λ x. (x.0, x.1.now)) result (value_at total last bytes.now) }
    ensures most { IfOk result (λ x. x.0.0 ≤ total) }
{
    let (rise, rest) = number(VALUES, bytes)?;
    let (word, rest) = number(VALUES, rest)?;
    if rise == 0 || rise > total - last {
        return Err(CodecFault::Bad { part: VALUES });
    }
    Ok(((last + rise, word), rest))
}

/// As many logged loads as the count says.
fn values_from(alloc: Global, total: u32, count: u32, bytes: &[u8]) -> Reading<Items<(u32, u32)>>
    ensures { Gives (λ x. (x.0, x.1.now)) result (read_in_turn (value_at total) count_of count 0 bytes.now) }
{
    let mut found = Items::new(alloc);
    let mut last = 0;
    let mut rest = bytes;
    for _ in 0..count {
        let (next, after) = value(total, last, rest)?;
        found.push(next)?;
        last = next.0;
        rest = after;
    }
    Ok((found, rest))
}

/// The logged loads of a core.
#[tactic(auto, unfolding(crate::specs::Reading::values_at))]
fn values(alloc: Global, total: u32, bytes: &[u8]) -> Reading<Items<(u32, u32)>>
    ensures { Gives (λ x. (x.0, x.1.now)) result (values_at total bytes.now) }
{
    let (count, rest) = number(VALUES, bytes)?;
    values_from(alloc, total, count, rest)
}

/// The logged loads of each core.
fn all_values<'a>(
    alloc: Global,
    cores: u8,
    totals: &[u32],
    bytes: &'a [u8],
) -> Reading<'a, Items<Items<(u32, u32)>>>
    requires { cores ≤ length totals.now }
    ensures { Gives (λ x. (x.0, x.1.now)) result (all_values_at cores totals.now bytes.now) }
{
    let mut found = Items::new(alloc);
    let mut rest = bytes;
    for core in 0..cores {
        let (next, after) = values(alloc, totals[core as usize], rest)?;
        found.push(next)?;
        rest = after;
    }
    Ok((found, rest))
}

/// The parts but for the end, and the bytes after them.
#[tactic(auto, unfolding(crate::specs::Reading::parts_at))]
fn parts(alloc: Global, bytes: &[u8]) -> Reading<TsoRecording>
    ensures { Gives (λ x. (x.0, x.1.now)) result (parts_at bytes.now) }
{
    let rest = magic(bytes)?;
    let (params, len, rest) = sizes(Version::Two, rest)?;
    let (image, rest) = image(alloc, len, rest)?;
    let (totals, rest) = totals(alloc, params.limit, params.cores, rest)?;
    let (reduced, rest) = by_targets(alloc, totals.as_slice(), rest)?;
    let (values, rest) = all_values(alloc, params.cores, totals.as_slice(), rest)?;
    let recording = TsoRecording {
        params,
        image,
        totals,
        reduced,
        values,
    };
    Ok((recording, rest))
}

/// The recording of a run with store buffers that the bytes spell, all of the bytes. A fault names the first
/// part that has no reading: 1 for the header and the parameters, 2 for the image, 3 for the totals, 4 for the
/// reduced log, `VALUES` for the logged loads, and `END` where bytes are left. Or memory ran out.
pub fn tso_read(alloc: Global, bytes: &[u8]) -> Result<TsoRecording, CodecFault>
    // What is read is spelled so.
    ensures found { IfOk result (λ r. IsTso r × (bytes.now ≡ tso_spelling r)) }
    // What is spelled so is read, unless memory runs out.
    ensures only { (r : SomeRecording) → IsTso r → bytes.now ≡ tso_spelling r → Gives (λ x. x) result (Ok r) }
    // Which part it is that has no reading.
    ensures exact { Gives (λ x. x) result (tso_at bytes.now) }
{
    read_all(parts(alloc, bytes), END)
}
