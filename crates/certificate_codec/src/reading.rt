//! Reading certificates, with the first part that has no reading where there is one.
ghost use Rattle.std.specs.Prelude.{◌≡◌, ◌<◌, IfOk, Ok};
ghost use Rattle.log_codec.specs.Faults.{Gives};
ghost use Rattle.rtr_types.specs.Turns.{stay};
ghost use Rattle.log_codec.specs.Turns.{read_in_turn};
ghost use Rattle.race_log.specs.Validity.{Valid};
ghost use Rattle.certificate_codec.specs.Reading.{entry_at, entries_at, clocks_at, parts_at, certificate_at};
ghost use Rattle.certificate_codec.specs.Spelling.{Spells};
ghost use Rattle.certificate_codec.specs.Validity.{IsCertificate};
ghost use Rattle.certificate_codec.specs.declared.certificate.Certificate.{Certificate as SomeCertificate};

use crate::certificate::{CLOCKS, Certificate, END};
use crate::core_entries::CoreEntries;
use crate::edge_ends::EdgeEnds;
use log_codec::{CodecFault, Reading, counts_into, number, read_all, read_front};
use part_lists::{ReadsItems, read_items};
use race_log::Recording;
use rtr_types::Items;
use std::alloc::Global;

/// As many entries as the number says.
fn entries_from<'a>(
    alloc: Global,
    totals: &[u32],
    number: usize,
    bytes: &'a [u8],
) -> Reading<'a, CoreEntries>
    ensures { Gives (λ x. (x.0, x.1.now)) result (read_in_turn (entry_at totals.now) stay number tt bytes.now) }
{
    let room = number.saturating_mul(totals.len());
    let mut found = Items::from_vec(Vec::with_capacity(alloc, room)?);
    let mut rest = bytes;
    for _ in 0..number {
        rest = counts_into(&mut found, CLOCKS, totals, rest)?;
    }
    Ok((CoreEntries::new(number, totals.len(), found), rest))
}

/// The entries of a core: as many as it has edge ends.
#[tactic(auto, unfolding(crate::specs::Reading::entries_at))]
fn entries<'a>(
    alloc: Global,
    ends: &EdgeEnds,
    core: u8,
    bytes: &'a [u8],
) -> Reading<'a, CoreEntries>
    requires { core < ends.now.params.cores }
    ensures { Gives (λ x. (x.0, x.1.now)) result (entries_at ends.now core bytes.now) }
{
    let (n, rest) = number(CLOCKS, bytes)?;
    if n as usize != ends.of_core(core).len() {
        return Err(CodecFault::Bad { part: CLOCKS });
    }
    entries_from(alloc, ends.recording().totals.as_slice(), n as usize, rest)
}

impl<'r> ReadsItems<CoreEntries> for EdgeEnds<'r> {
    ghost item_at = { entries_at };

    ghost fits = { λ r core. core < r.params.cores };

    /// The entries of the core with this number.
    fn item<'a>(&self, alloc: Global, place: usize, bytes: &'a [u8]) -> Reading<'a, CoreEntries> {
        // What always holds of the edge ends: their recording is valid.
        let _ = self.recording();
        entries(alloc, self, place as u8, bytes)
    }
}

/// The sixth part: the entries of each core.
fn clocks<'a>(
    alloc: Global,
    recording: &Recording,
    bytes: &'a [u8],
) -> Reading<'a, Items<CoreEntries>>
    requires { Valid recording.now }
    ensures { Gives (λ x. (x.0, x.1.now)) result (clocks_at recording.now bytes.now) }
{
    let ends = EdgeEnds::new(alloc, recording)?;
    read_items(alloc, &ends, recording.params.cores as usize, bytes)
}

/// The parts but for the end, and the bytes after them.
#[tactic(auto, unfolding(crate::specs::Reading::parts_at))]
fn parts(alloc: Global, bytes: &[u8]) -> Reading<Certificate>
    ensures { Gives (λ x. (x.0, x.1.now)) result (parts_at bytes.now) }
{
    let (recording, len) = read_front(alloc, bytes)?;
    let (clocks, rest) = clocks(alloc, &recording, &bytes[len..])?;
    Ok((Certificate { recording, clocks }, rest))
}

/// The certificate that the bytes spell, all of the bytes. Each certificate that is read is valid by its
/// form; whether it shows what it says is for a check. A fault names the first part that has no reading.
pub fn read_certificate(alloc: Global, bytes: &[u8]) -> Result<Certificate, CodecFault>
    // What is read is spelled so.
    ensures found { IfOk result (λ c. IsCertificate c × Spells bytes.now c) }
    // What is spelled so is read, unless memory runs out.
    ensures only { (c : SomeCertificate) → IsCertificate c → Spells bytes.now c → Gives (λ x. x) result (Ok c) }
    // Which part it is that has no reading.
    ensures exact { Gives (λ x. x) result (certificate_at bytes.now) }
{
    read_all(parts(alloc, bytes), END)
}
