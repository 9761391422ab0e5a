//! The edges of each pair of cores.
ghost use Rattle.std.specs.Prelude.{◌≡◌, ◌≢◌, ◌<◌, ◌≤◌, ◌++◌, ◌∷◌, [], ℕ, All, IsTrue, length, slice_index_or};
ghost use Rattle.std.specs.List.{fold};
ghost use Rattle.roomy_lists.specs.Lists.{are_ready, is_ready_at, items_in};
ghost use Rattle.rtr_types.specs.Pairs.{IsPair, pair_count, pair_place};
ghost use Rattle.rtr_types.specs.declared.TheConstants.{CORES_MAX};
ghost use Rattle.rtr_types.specs.PairEdges.{with_edge, with_edges};
ghost use Rattle.online_reduce.specs.Rule.{edges_into, merged_with};
ghost use Rattle.online_reduce.specs.declared.TheConstants.{EDGES_MAX};
ghost use Rattle.online_reduce.specs.declared.source.Source.{Source};

use crate::edge_places::EdgePlaces;
use crate::live_reads::LiveReads;
use crate::rule::is_kept;
use clock_core::Clock;
use roomy_lists::RoomyLists;
use rtr_types::{Edge, Instr, pair_at};

/// Each pair's edges, as the counts of their two instructions, in the order of the pairs.
pub(crate) type PairLists = RoomyLists<(u32, u32)>;

/// Puts the edges into an instruction, those from the reads that are kept, at the ends of their pairs'
/// lists and into the places that are lent, and takes the clocks of all these reads over. Each list gets
/// at most one, as the reads are of different cores, so that room for one more is enough.
pub(crate) fn add_reads(
    pairs: &mut PairLists,
    clock: &mut Clock,
    cores: u8,
    at: Instr,
    found: &LiveReads,
    edges: &mut EdgePlaces,
)
    requires none { edges.old ≡ [] }
    requires cores { cores ≤ CORES_MAX }
    requires room { IsTrue (are_ready pairs.old) }
    requires few { length found.now ≤ EDGES_MAX }
    requires each { All (λ s. IsPair cores s.at.core at.core) found.now }
    requires apart { (i j : ℕ) (d : Source) → i < j → j < length found.now →
        (slice_index_or found.now i d).at.core < (slice_index_or found.now j d).at.core }
    requires lists { length pairs.old ≡ pair_count cores }
    ensures lists { items_in pairs.new ≡ with_edges cores (items_in pairs.old) (edges_into at found.now) }
    ensures edges { edges.new ≡ edges_into at found.now }
    ensures clock { clock.new ≡ fold merged_with clock.old found.now }
{
    let mut left = found.copied();
    while let Some((from, other)) = left.pop() {
        if is_kept(found, from) {
            add_edge(pairs, cores, from, at, edges);
        }
        clock.join(other);
    }
}

/// Puts an edge at the end of its pair's list and into the places that are lent.
pub(crate) fn add_edge(
    pairs: &mut PairLists,
    cores: u8,
    from: Instr,
    to: Instr,
    edges: &mut EdgePlaces,
)
    requires pair { IsPair cores from.core to.core }
    requires room { IsTrue (is_ready_at pairs.old (pair_place cores from.core to.core)) }
    requires few { length edges.old < EDGES_MAX }
    requires lists { length pairs.old ≡ pair_count cores }
    ensures lists { items_in pairs.new ≡ with_edge cores (items_in pairs.old) (record { from = from; to = to }) }
    ensures edges { edges.new ≡ edges.old ++ record { from = from; to = to } ∷ [] }
    ensures others { (other : ℕ) → other ≢ pair_place cores from.core to.core →
        is_ready_at pairs.new other ≡ is_ready_at pairs.old other }
{
    edges.push(Edge { from, to });
    let place = pair_at(cores, from.core, to.core);
    pairs.push(place, (from.count, to.count));
}
