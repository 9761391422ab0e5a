//! The next edges of the lists that are merged, by source core, and which of them comes first.
ghost use Rattle.std.specs.Prelude.{◌≡◌, ℕ, ◌<◌, ◌≤◌, ◌+◌, ◌*◌, ◌%◌, ◌⊎◌, IfNone, IfSome, replicate, slice_index};
ghost use Rattle.std.specs.Prelude.{slice_set};
ghost use Rattle.rtr_types.specs.declared.TheConstants.{CORES_MAX};
ghost use Rattle.log_codec.specs.Fronts.{AreKeys, IsGroupLeast, IsLeast};

use crate::incoming::PLACES;
use rtr_types::CORES_MAX;
use std::marker::Model;

/// Above each key.
pub(crate) const PAST: u64 = (1 << 32) * PLACES as u64;

/// How many cores are in a group.
pub(crate) const GROUP: usize = 4;

/// How many groups there are.
pub(crate) const GROUPS: usize = PLACES / GROUP;

/// The target's count of an edge and its source core as one number: the least key is that of the edge which comes
/// first.
pub(crate) fn key(count: u32, source: u8) -> u64
    ensures { result ≡ count * CORES_MAX + source }
{
    count as u64 * PLACES as u64 + source as u64
}

/// The key of each source core's next edge, `PAST` where it has none, and the least one in each group of cores, so
/// that the least of all is found among few. Contracts see the keys.
#[derive(Drop)]
pub(crate) struct Fronts {
    keys: [u64; PLACES],
    least: [u64; GROUPS],
}

impl Model for Fronts {
    ghost use Rattle.std.specs.Prelude.{◌≡◌, ℕ, ◌<◌, List, length, slice_index};
    ghost use Rattle.log_codec.specs.Fronts.{AreKeys, IsGroupLeast};
    ghost use Rattle.log_codec.specs.declared.fronts.TheConstants.{GROUPS};

    ghost Value = { List ℕ };

    ghost view = { λ a. a.keys };

    ghost invariant = { λ a. AreKeys a.keys × (length a.least ≡ GROUPS)
        × ((group : ℕ) → group < GROUPS → IsGroupLeast a.keys group (slice_index a.least group)) };
}

/// The lesser of two keys.
fn lesser(a: u64, b: u64) -> u64
    ensures first { result ≤ a }
    ensures second { result ≤ b }
    ensures one { (result ≡ a) ⊎ (result ≡ b) }
{
    if b < a { b } else { a }
}

/// The least key in a group.
fn least_in(keys: &[u64; PLACES], group: u8) -> u64
    requires group { group < GROUPS }
    requires keys { AreKeys keys.now }
    ensures { IsGroupLeast keys.now group result }
{
    let at = group as usize * GROUP;
    let low = lesser(keys[at], keys[at + 1]);
    let high = lesser(keys[at + 2], keys[at + 3]);
    lesser(low, high)
}

impl Fronts {
    /// No core has an edge.
    pub(crate) fn new() -> Fronts
        ensures { result ≡ replicate CORES_MAX PAST }
    {
        Fronts {
            keys: [PAST; PLACES],
            least: [PAST; GROUPS],
        }
    }

    /// Puts the key of a core's next edge down.
    pub(crate) fn put(&mut self, source: u8, key: u64)
        requires source { source < CORES_MAX }
        requires most { key ≤ PAST }
        requires own { key < PAST → key % CORES_MAX ≡ source }
        ensures { self.new ≡ slice_set self.old source key }
    {
        self.keys[source as usize] = key;
        let group = source / GROUP as u8;
        self.least[group as usize] = least_in(&self.keys, group);
    }

    /// The core whose next edge comes first; none where no core has one.
    pub(crate) fn least(&self) -> Option<u8>
        ensures least { IfSome result (λ source. IsLeast self.now source) }
        ensures none { IfNone result ((source : ℕ) → source < CORES_MAX → PAST ≤ slice_index self.now source) }
    {
        let low = lesser(self.least[0], self.least[1]);
        let high = lesser(self.least[2], self.least[3]);
        let least = lesser(low, high);
        if least < PAST {
            Some((least % PLACES as u64) as u8)
        } else {
            None
        }
    }
}
