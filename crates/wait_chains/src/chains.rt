//! The last wait up to an instruction, and the chain of them.
ghost use Rattle.std.specs.Prelude.{◌≡◌, Some, None, IfOk};
ghost use Rattle.wait_chains.specs.Chains.{chain_of, last_wait, later, leads_up_to};

use race_queries::Ends;
use rtr_types::{Instr, Items};
use std::alloc::{AllocError, Global};

/// The chain of edges by which an instruction waited, the nearest first: its last wait, then the last wait of that
/// edge's source, and so on, at most so many. It takes time by the edges of the log, for each edge of the chain, and is
/// refused for want of memory alone.
pub fn chain_of(
    alloc: Global,
    all: &[Ends],
    at: Instr,
    most: usize,
) -> Result<Items<Ends>, AllocError>
    ensures { IfOk result (λ list. list ≡ chain_of all.now at most) }
{
    let mut list = Items::new(alloc);
    let mut from = at;
    while list.len() < most {
        let Some(wait) = last_wait(all, from) else {
            return Ok(list);
        };
        list.push(wait)?;
        from = wait.edge.from;
    }
    Ok(list)
}

/// The last wait of a core up to an instruction: of the edges that lead to the instruction, or to one before it on its
/// core, the one that leads to the latest instruction. Of several to one instruction it is the first in the list.
pub fn last_wait(all: &[Ends], at: Instr) -> Option<Ends>
    ensures { result ≡ last_wait at all.now }
{
    let mut found = None;
    let mut k = all.len();
    while k > 0 {
        k -= 1;
        if leads_up_to(at, all[k]) {
            found = Some(later(all[k], found));
        }
    }
    found
}

/// Whether an edge leads to the instruction, or to one before it on its core.
fn leads_up_to(at: Instr, ends: Ends) -> bool
    ensures { result ≡ leads_up_to at ends }
{
    ends.edge.to.core == at.core && ends.edge.to.count <= at.count
}

/// Of two edges into one core the one that leads to the later instruction, or the first, if it is one instruction.
fn later(ends: Ends, found: Option<Ends>) -> Ends
    ensures { result ≡ later ends found }
{
    match found {
        Some(other) if other.edge.to.count > ends.edge.to.count => other,
        _ => ends,
    }
}
