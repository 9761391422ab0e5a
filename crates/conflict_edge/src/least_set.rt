//! The least set of a list of accesses, by the plain definition.
ghost use Rattle.std.specs.Prelude.{ℕ, ◌≡◌, ◌++◌, ◌∷◌, [], length, IsTrue, IfOk, OnOk};
ghost use Rattle.rtr_types.specs.declared.instr.Instr.{Instr};
ghost use Rattle.clock_core.specs.Order.{Among};
ghost use Rattle.conflict_edge.specs.Conflicts.{AreCores, CountsRise, is_short_history};
ghost use Rattle.conflict_edge.specs.Least.{AreOnce, IsLeast, IsOrdered};
ghost use Rattle.conflict_edge.specs.Scan.{AddsCoveringInto, AreCovering, AreExactClocks};
ghost use Rattle.conflict_edge.specs.Times.{IsExactClock};

use crate::pairs::conflicts;
use clock_core::Clock;
use rtr_types::{Access, Edge, Instr};
use std::alloc::{AllocError, Global};

/// The least set of the list, which is in the order of retirement: the fewest edges, each from an
/// access to a later one that conflicts with it, by which every two accesses that conflict are in
/// order (Netzer 1993). Edges go by the source's core, then the target's core, then the target's
/// count. The list has at most `ACCESSES_MAX` accesses, of cores in range, whose counts rise from 1
/// for each core; the only error is want of memory.
pub fn least_of(alloc: Global, list: &[Access]) -> Result<Vec<Edge>, AllocError>
    requires { IsTrue (is_short_history list.now) }
    ensures least { IfOk result (λ edges. IsLeast list.now edges.items) }
    ensures once { IfOk result (λ edges. AreOnce edges.items) }
    ensures order { IfOk result (λ edges. IsOrdered edges.items) }
{
    let mut edges = covering_pairs(alloc, list)?;
    edges.sort_by_key(|edge| (edge.from.core, edge.to.core, edge.to.count))?;
    Ok(edges)
}

/// The covering pairs of the list, by target in the list's order.
fn covering_pairs(alloc: Global, list: &[Access]) -> Result<Vec<Edge>, AllocError>
    requires rise { CountsRise list.now }
    requires cores { AreCores list.now }
    ensures covering { IfOk result (λ edges. AreCovering list.now edges.items) }
    ensures once { IfOk result (λ edges. AreOnce edges.items) }
{
    let mut clocks = Vec::new(alloc);
    let mut edges = Vec::new(alloc);
    for (place, access) in list.iter().enumerate() {
        let clock = push_covering(&list[..place], &clocks, access, &mut edges)?;
        clocks.push(clock)?;
    }
    Ok(edges)
}

/// Adds the covering pairs into an access, which comes after the earlier ones, and answers its clock.
/// From the newest access to the oldest, one that conflicts is a covering source exactly where none
/// of the newer ones that lead to the access knows of it.
fn push_covering(
    earlier: &[Access],
    clocks: &[Clock],
    access: &Access,
    edges: &mut Vec<Edge>,
) -> Result<Clock, AllocError>
    requires len { length clocks.now ≡ length earlier.now }
    requires exact { AreExactClocks earlier.now clocks.now }
    requires rise { CountsRise (earlier.now ++ access.now ∷ []) }
    requires cores { AreCores (earlier.now ++ access.now ∷ []) }
    requires once { AreOnce edges.old.items }
    requires apart { (x : Instr) → Among edges.old.items x access.now.at → ⊥ }
    ensures once { OnOk result (AreOnce edges.new.items) }
    ensures clock { IfOk result (λ clock.
        IsExactClock (earlier.now ++ access.now ∷ []) access.now.at clock) }
    ensures edges { OnOk result
        (AddsCoveringInto (earlier.now ++ access.now ∷ []) access.now edges.old.items edges.new.items) }
{
    let mut known = Clock::zero();
    for place in (0..earlier.len()).rev() {
        let source = &earlier[place];
        let conflict = conflicts(source, access);
        if conflict && !known.covers(source.at) {
            edges.push(Edge {
                from: source.at,
                to: access.at,
            })?;
        }
        if conflict || source.at.core == access.at.core {
            known = known.merge(clocks[place]);
        }
    }
    known.set(access.at.core, access.at.count);
    Ok(known)
}
