//! The two logs, and the order in which the pairs of cores stand in them.
ghost use Rattle.std.specs.Prelude.{◌≡◌, ◌<◌, ◌≤◌};
ghost use Rattle.rtr_types.specs.Pairs.{IsPair, pair_count, pair_place, source_at, target_at, PairsPlaced};
ghost use Rattle.rtr_types.specs.Pairs.{PlacesPaired, SourcesRise, TargetsRise};

/// One of the two order logs of a recording.
#[derive(Clone, Copy, Debug, PartialEq, Eq)]
pub enum Which {
    /// The edges that no others imply.
    Reduced,
    /// The edges as strided vectors, which may be stronger.
    Regulated,
}

/// How many ordered pairs of different cores there are.
pub fn pair_count(cores: u8) -> usize
    ensures { result ≡ pair_count cores }
{
    let cores = cores as usize;
    cores * cores.saturating_sub(1)
}

/// The place of the ordered pair of two different cores. Pairs are ordered by `from`, then by `to`,
/// and their places are the numbers from 0 up to `pair_count`.
pub fn pair_at(cores: u8, from: u8, to: u8) -> usize
    requires { IsPair cores from to }
    ensures place { result ≡ pair_place cores from to }
    ensures within { result < pair_count cores }
{
    let before = from as usize * (cores as usize - 1);
    let own = if to < from { to } else { to - 1 };
    before + own as usize
}

/// The pair at a place, the source first.
pub fn pair_of(cores: u8, place: usize) -> (u8, u8)
    requires { place < pair_count cores }
    ensures pair { result ≡ (source_at cores place, target_at cores place) }
    ensures different { IsPair cores result.0 result.1 }
{
    let others = cores as usize - 1;
    let from = place / others;
    let own = place % others;
    let to = if own < from { own } else { own + 1 };
    (from as u8, to as u8)
}

/// The pairs are numbered without gap, by source and then by target: each pair has one place and each
/// place below the number of pairs has one pair.
pub fn pair_laws()
    ensures placed { PairsPlaced }
    ensures paired { PlacesPaired }
    ensures by_source { SourcesRise }
    ensures then_by_target { TargetsRise }
{}
