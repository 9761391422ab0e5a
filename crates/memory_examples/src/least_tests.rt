//! Least sets of short lists, worked out by hand.
ghost use Rattle.std.specs.Prelude.{IsTrue};
ghost use Rattle.conflict_edge.specs.Conflicts.{is_short_history};

use crate::accesses::{access, accesses};
use conflict_edge::{conflicts, least_of};
use rtr_types::{Access, Edge, Instr, Kind};
use std::alloc::Global;
use std::process::Abort;
use std::test::Fail;

/// Edges, each from an instruction to one of another core.
macro_rules! edges {
    ($($from:literal : $before:literal => $to:literal : $after:literal),+) => {
        [$(Edge {
            from: Instr { core: $from, count: $before },
            to: Instr { core: $to, count: $after },
        }),+]
    };
}

/// The least set of the list has these edges, in this order, and no other.
fn least_is(rt: &impl Abort, alloc: Global, list: &[Access], edges: &[Edge]) -> Result<(), Fail>
    requires { IsTrue (is_short_history list.now) }
{
    let least = least_of(alloc, list)?;
    assert!(rt; least.as_slice() == edges);
    Ok(())
}

#[test]
fn no_access_gives_no_edge(rt: HostRuntime) -> Result<(), Fail> {
    least_is(&rt, rt.alloc(), &[], &[])
}

// The writer of word 16 comes after the reader 1:3 by way of word 32, so one edge into it is enough.
#[test]
fn readers_ordered_through_another_word(rt: HostRuntime) -> Result<(), Fail> {
    let list = accesses![1: 3 Load 16, 1: 4 Store 32, 2: 4 Load 32, 2: 5 Load 16, 0: 4 Store 16];
    least_is(&rt, rt.alloc(), &list, &edges![1: 4 => 2: 4, 2: 5 => 0: 4])
}

// Word 16 goes from core 0 to core 1 and on to core 2, by way of word 20; word 24 closes the ring.
// Seven pairs conflict, and three edges imply them all.
#[test]
fn chain_over_three_words(rt: HostRuntime) -> Result<(), Fail> {
    let list = accesses![
        0: 1 Store 16, 1: 1 Load 16, 1: 2 Store 20, 2: 1 Load 20,
        2: 2 Store 16, 2: 3 Store 24, 0: 2 Load 24, 0: 3 Store 20
    ];
    let edges = edges![0: 1 => 1: 1, 1: 2 => 2: 1, 2: 3 => 0: 2];
    least_is(&rt, rt.alloc(), &list, &edges)
}

// Each reader is ordered after the first write and before the second; that orders the writes.
#[test]
fn two_readers_between_two_writes(rt: HostRuntime) -> Result<(), Fail> {
    let list = accesses![3: 1 Store 16, 2: 1 Load 16, 1: 1 Load 16, 0: 1 Store 16];
    let edges = edges![1: 1 => 0: 1, 2: 1 => 0: 1, 3: 1 => 1: 1, 3: 1 => 2: 1];
    least_is(&rt, rt.alloc(), &list, &edges)
}

// Two cores add to word 8, and a third loads it: the second add is ordered after the first, and the
// load after both.
#[test]
fn two_adds_and_a_load(rt: HostRuntime) -> Result<(), Fail> {
    let list = accesses![0: 3 Amo 8, 1: 3 Amo 8, 2: 1 Load 8, 0: 4 Amo 8];
    let edges = edges![0: 3 => 1: 3, 1: 3 => 2: 1, 2: 1 => 0: 4];
    least_is(&rt, rt.alloc(), &list, &edges)
}

// Words 8 and 9 stand in one block of the cache, and the cores share no word.
#[test]
fn false_sharing_gives_no_edge(rt: HostRuntime) -> Result<(), Fail> {
    let list = accesses![0: 2 Store 8, 1: 2 Store 9, 0: 3 Load 8, 1: 3 Load 9];
    least_is(&rt, rt.alloc(), &list, &[])
}

// Core 0 stores to the word's lowest byte and core 1 to the next one.
#[test]
fn bytes_of_one_word_conflict(rt: HostRuntime) -> Result<(), Fail> {
    let low = Access {
        before: 0,
        after: 0x05,
        ..access!(0: 2 Store 8)
    };
    let high = Access {
        before: 0x05,
        after: 0x0605,
        ..access!(1: 2 Store 8)
    };
    assert!(rt; conflicts(&low, &high));
    Ok(())
}
