//! The edges of a log, with the accesses at their ends.
ghost use Rattle.std.specs.Prelude.{◌≡◌, None, Some, IfOk, OnOk, map};
ghost use Rattle.race_queries.specs.Ends.{HasAccess, HasAccesses, HasPlaces, ends_by, log_ends, ends_of};
ghost use Rattle.race_queries.specs.Ends.{found_in, kept_of};
ghost use Rattle.rtr_types.specs.declared.instr.Instr.{Instr};

use crate::log_edges::edges_of;
use indexmap::IndexMap;
use replay_audit::Audited;
use rtr_types::{Access, Edge, Instr, Items};
use std::alloc::{AllocError, Global};

/// An edge of a log, with the access of each of its two instructions, if it has one.
#[derive(Clone, Copy)]
pub struct Ends {
    /// The edge.
    pub edge: Edge,
    /// The access of the instruction from which it leads.
    pub from: Option<Access>,
    /// The access of the instruction to which it leads.
    pub to: Option<Access>,
}

/// The accesses of some instructions, each by its core and its count.
type Kept = IndexMap<(u8, u32), Option<Access>>;

/// All edges of the log, pair of cores by pair, with the accesses at their ends. It takes time by the edges and by the
/// accesses of the run, and memory by the edges.
pub fn log_ends(alloc: Global, audited: &Audited) -> Result<Items<Ends>, AllocError>
    ensures { IfOk result (λ list. list ≡ log_ends audited.now) }
{
    let edges = edges_of(alloc, audited.recording(), audited.which())?;
    let kept = kept_of(alloc, edges.as_slice(), audited.accesses())?;
    ends_by(alloc, &kept, edges.as_slice())
}

/// The accesses of the instructions at the ends of some edges.
fn kept_of(alloc: Global, edges: &[Edge], accesses: &[Access]) -> Result<Kept, AllocError>
    ensures { IfOk result (λ kept. map (ends_by kept) edges.now ≡ map (ends_of accesses.now) edges.now) }
{
    let mut kept = IndexMap::new(alloc);
    put_places(&mut kept, edges)?;
    put_accesses(&mut kept, accesses)?;
    Ok(kept)
}

/// Gives each end of the edges a place, without an access as yet.
fn put_places(kept: &mut Kept, edges: &[Edge]) -> Result<(), AllocError>
    ensures { OnOk result (HasPlaces kept.new edges.now) }
{
    for edge in edges {
        put_place(kept, edge.from)?;
        put_place(kept, edge.to)?;
    }
    Ok(())
}

/// Gives an instruction a place, without an access.
fn put_place(kept: &mut Kept, at: Instr) -> Result<(), AllocError>
    ensures place { OnOk result (kept_of kept.new at ≡ Some None) }
    ensures others { OnOk result ((other : Instr) → kept_of kept.old other ≡ Some None →
        kept_of kept.new other ≡ Some None) }
{
    kept.insert((at.core, at.count), None)?;
    Ok(())
}

/// Puts each instruction's access in its place, if it has a place. Of two accesses the first in the list is kept.
fn put_accesses(kept: &mut Kept, accesses: &[Access]) -> Result<(), AllocError>
    ensures { OnOk result (HasAccesses kept.old kept.new accesses.now) }
{
    let mut k = accesses.len();
    while k > 0 {
        k -= 1;
        put_access(kept, accesses[k])?;
    }
    Ok(())
}

/// Puts an access in its instruction's place, if it has a place.
fn put_access(kept: &mut Kept, access: Access) -> Result<(), AllocError>
    ensures { OnOk result (HasAccess kept.old kept.new access) }
{
    let key = (access.at.core, access.at.count);
    if kept.contains_key(&key) {
        kept.insert(key, Some(access))?;
    }
    Ok(())
}

/// The edges, each with the accesses that are kept of its ends.
fn ends_by(alloc: Global, kept: &Kept, edges: &[Edge]) -> Result<Items<Ends>, AllocError>
    ensures { IfOk result (λ list. list ≡ map (ends_by kept.now) edges.now) }
{
    let mut list = Items::new(alloc);
    for edge in edges {
        list.push(Ends {
            edge: *edge,
            from: found_in(kept, edge.from),
            to: found_in(kept, edge.to),
        })?;
    }
    Ok(list)
}

/// The access that is kept of an instruction.
fn found_in(kept: &Kept, at: Instr) -> Option<Access>
    ensures { result ≡ found_in kept.now at }
{
    match kept.get(&(at.core, at.count)) {
        Some(found) => *found,
        None => None,
    }
}
