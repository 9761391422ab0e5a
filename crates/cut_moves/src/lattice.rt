//! The union and the intersection of two cuts.
ghost use Rattle.std.specs.Prelude.{◌≡◌};
ghost use Rattle.cut_moves.specs.Unions.{chosen, intersection_of, merged_by, union_of};

use rtr_types::{CORES_MAX, Cut};

/// A place for each core, as the length of an array.
pub(crate) const PLACES: usize = CORES_MAX as usize;

/// The cut that has what either has: of each core the greater of the two counts. Where both are closed it is
/// closed, and it is the least cut that contains both.
pub fn union(cut: &Cut, other: &Cut) -> Cut
    ensures { result ≡ union_of cut.now other.now }
{
    merged(cut, other, true)
}

/// The cut that has what both have: of each core the lesser of the two counts. Where both are closed it is
/// closed, and it is the greatest cut that both contain.
pub fn intersection(cut: &Cut, other: &Cut) -> Cut
    ensures { result ≡ intersection_of cut.now other.now }
{
    merged(cut, other, false)
}

/// The cut that has of each core the greater of the two counts, or else the lesser.
fn merged(cut: &Cut, other: &Cut, greater: bool) -> Cut
    ensures { result ≡ merged_by (chosen greater) cut.now other.now }
{
    let mut counts = [0; PLACES];
    for core in 0..PLACES {
        counts[core] = chosen(greater, cut.counts[core], other.counts[core]);
    }
    Cut {
        cores: cut.cores,
        counts,
    }
}

/// The greater of two counts, or else the lesser.
fn chosen(greater: bool, one: u32, other: u32) -> u32
    ensures { result ≡ chosen greater one other }
{
    if greater {
        one.max(other)
    } else {
        one.min(other)
    }
}
