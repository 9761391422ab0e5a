//! The edges of a log by the instructions of the program between which they lead.
ghost use Rattle.std.specs.Prelude.{◌≡◌, ◌+◌, ◌<◌, ◌^◌, IfOk, OnOk, Some};
ghost use Rattle.indexmap.specs.IndexMap.{Updates};
ghost use Rattle.roomy_lists.specs.Lists.{items_in};
ghost use Rattle.race_answers.specs.Decisions.{AreDecisions, AreListed, CountsEdges, decision_by, times_in, turned_in};
ghost use Rattle.race_answers.specs.Sites.{is_same_pair, pair_of};

use crate::sites::{Pair, pair_of};
use indexmap::IndexMap;
use race_queries::Ends;
use roomy_lists::RoomyLists;
use std::alloc::{AllocError, Global};

/// How many edges lead between two sites, and the last of them.
#[derive(Clone, Copy)]
pub(crate) struct Tally {
    /// How many there are, at least 1.
    pub times: usize,
    /// The last one in the order of the log.
    pub last: Ends,
}

/// An order of two sites that was seen in the run.
#[derive(Clone, Copy)]
pub(crate) struct Decision {
    /// How many edges lead from the one site to the other.
    pub times: usize,
    /// How many lead the other way; 0 where the two sites are one.
    pub turned: usize,
    /// The last edge of those that lead this way.
    pub last: Ends,
}

/// Counts of edges, by their sites.
type Table = IndexMap<Pair, Tally>;

/// One decision for each two sites between which an edge leads. Those that were seen both ways come first, and among
/// them, and among the others, the rarer first.
pub(crate) fn decisions_of(
    alloc: Global,
    pcs: &RoomyLists<u32>,
    all: &[Ends],
) -> Result<Vec<Decision>, AllocError>
    ensures { IfOk result (λ list. AreDecisions (items_in pcs.now) all.now list.items) }
{
    let table = table_of(alloc, pcs, all)?;
    let mut list = listed(alloc, &table)?;
    list.sort_by_key(|decision| (decision.turned == 0, decision.times))?;
    Ok(list)
}

/// The counts of some edges.
fn table_of(alloc: Global, pcs: &RoomyLists<u32>, all: &[Ends]) -> Result<Table, AllocError>
    ensures { IfOk result (λ table. CountsEdges (items_in pcs.now) all.now table) }
{
    let mut table = IndexMap::new(alloc);
    for ends in all {
        count(&mut table, pair_of(pcs, *ends), *ends)?;
    }
    Ok(table)
}

/// CountsEdges an edge between two sites.
fn count(table: &mut Table, pair: Pair, ends: Ends) -> Result<(), AllocError>
    requires { times_in table.old pair + 1 < 2 ^ 64 }
    ensures { OnOk result (Updates is_same_pair table.old table.new pair
        (Some (record { times = times_in table.old pair + 1; last = ends }))) }
{
    let times = times_in(table, pair) + 1;
    table.insert(pair, Tally { times, last: ends })?;
    Ok(())
}

/// How many edges were counted between two sites.
fn times_in(table: &Table, pair: Pair) -> usize
    ensures { result ≡ times_in table.now pair }
{
    match table.get(&pair) {
        Some(tally) => tally.times,
        None => 0,
    }
}

/// How many edges were counted the other way round.
fn turned_in(table: &Table, pair: Pair) -> usize
    ensures { result ≡ turned_in table.now pair }
{
    let turned = pair.turned();
    if pair == turned {
        0
    } else {
        times_in(table, turned)
    }
}

/// The decisions that a table says, in its order.
fn listed(alloc: Global, table: &Table) -> Result<Vec<Decision>, AllocError>
    ensures { IfOk result (λ list. AreListed table.now list.items) }
{
    let mut list = Vec::new(alloc);
    for place in 0..table.len() {
        let (pair, tally) = table.get_index(place).unwrap();
        list.push(decision_by(table, *pair, *tally))?;
    }
    Ok(list)
}

/// What the table says of two sites.
fn decision_by(table: &Table, pair: Pair, tally: Tally) -> Decision
    ensures { result ≡ decision_by table.now (pair, tally) }
{
    Decision {
        times: tally.times,
        turned: turned_in(table, pair),
        last: tally.last,
    }
}
