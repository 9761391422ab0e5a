//! Short runs, with the times that one block's words have in them.
use crate::accesses::{access, accesses};
use access_times::{Rider, Times};
use conflict_edge::least_of;
use online_reduce::{EDGES_ROOM, EdgePlaces, Reducer};
use rtr_types::{Access, CORES_MAX, Edge, Instr, Items, Kind};
use std::alloc::Global;
use std::process::Abort;
use std::test::Fail;

// Core 0's store of word 0 comes after the read 1:1 by way of word 1, so one edge into it is enough.
static READERS: [Access; 5] =
    accesses![1: 1 Load 0, 1: 2 Store 1, 2: 1 Load 1, 2: 2 Load 0, 0: 1 Store 0];

// Cores 0 and 1 add to word 0 before core 2 loads it, and core 0 adds once more.
static ADDS: [Access; 4] = accesses![0: 1 Amo 0, 1: 1 Amo 0, 2: 1 Load 0, 0: 2 Amo 0];

// The edges that the list gets, in order, and the reducer after it.
fn reduced(rt: &impl Abort, alloc: Global, list: &[Access]) -> Result<(Vec<Edge>, Reducer), Fail> {
    let mut reducer = Reducer::new(alloc, 3)?;
    let mut times = Times::fresh();
    let mut edges = Vec::new(alloc);
    let mut new = EdgePlaces::new();
    for access in list {
        let core = access.at.core;
        assert!(rt; core < 3);
        assert!(rt; reducer.clock(core).get(core) as u64 + 1 == access.at.count as u64);
        reducer.ready()?;
        reducer.retire_into(access, &mut times, &mut new);
        for edge in new.as_slice() {
            edges.push(*edge)?;
        }
    }
    Ok((edges, reducer))
}

#[test]
fn an_add_reads_and_writes(rt: HostRuntime) -> Result<(), Fail> {
    let (edges, _) = reduced(&rt, rt.alloc(), &ADDS)?;
    let least = least_of(rt.alloc(), &ADDS)?;
    assert!(rt; edges.len() == 3);
    assert!(rt; edges.as_slice() == least.as_slice());
    Ok(())
}

#[test]
fn readers_ordered_through_another_word(rt: HostRuntime) -> Result<(), Fail> {
    let (edges, reducer) = reduced(&rt, rt.alloc(), &READERS)?;
    let least = least_of(rt.alloc(), &READERS)?;
    assert!(rt; edges.as_slice() == least.as_slice());
    let lists = reducer.finish();
    are_two(&rt, lists.as_slice());
    Ok(())
}

// Of the pairs of three cores two have an edge.
fn are_two(rt: &impl Abort, lists: &[Items<(u32, u32)>]) {
    assert!(rt; lists.len() == 6);
    assert!(rt;
        (
            lists[0].len(),
            lists[1].len(),
            lists[2].len(),
            lists[5].len()
        ) == (0, 0, 0, 0)
    );
    assert!(rt; lists[3].as_slice() == [(2, 1)].as_slice());
    assert!(rt; lists[4].as_slice() == [(2, 1)].as_slice());
}

#[test]
fn a_local_instruction_counts(rt: HostRuntime) -> Result<(), Fail> {
    let mut reducer = Reducer::new(rt.alloc(), 2)?;
    reducer.local(Instr { core: 1, count: 1 });
    reducer.ready()?;
    assert!(rt; reducer.is_ready());
    let mut times = Times::fresh();
    let mut edges = EdgePlaces::new();
    reducer.retire_into(&access!(1: 2 Store 0), &mut times, &mut edges);
    assert!(rt; edges.as_slice().len() == 0);
    assert!(rt; reducer.clock(1).get(1) == 2);
    assert!(rt; reducer.clock(0).get(1) == 0);
    Ok(())
}

// Core 1 reads what core 0 stored.
#[test]
fn the_answered_list_has_the_edges(rt: HostRuntime) -> Result<(), Fail> {
    let mut reducer = Reducer::new(rt.alloc(), 2)?;
    let mut times = Times::fresh();
    reducer.ready()?;
    let edges = reducer.retire(&access!(0: 1 Store 0), &mut times);
    assert!(rt; edges.len() == 0);
    assert!(rt; reducer.clock(1).get(1) == 0);
    reducer.ready()?;
    let edges = reducer.retire(&access!(1: 1 Load 0), &mut times);
    let into_the_load = [Edge {
        from: Instr { core: 0, count: 1 },
        to: Instr { core: 1, count: 1 },
    }];
    assert!(rt; edges.as_slice() == into_the_load.as_slice());
    assert!(rt; edges.capacity() == EDGES_ROOM);
    Ok(())
}

// Each other core reads word 0 and knows nothing of the rest, so core 0's store needs an edge from each.
#[test]
fn a_store_follows_a_read_of_each_other_core(rt: HostRuntime) -> Result<(), Fail> {
    let mut reducer = Reducer::new(rt.alloc(), CORES_MAX)?;
    let mut times = Times::fresh();
    let mut edges = EdgePlaces::new();
    for core in 1..CORES_MAX {
        assert!(rt; reducer.clock(core).get(core) == 0);
        reducer.ready()?;
        let at = Instr { core, count: 1 };
        let access = Access {
            at,
            ..access!(0: 1 Load 0)
        };
        reducer.retire_into(&access, &mut times, &mut edges);
        assert!(rt; edges.as_slice().len() == 0);
    }
    assert!(rt; reducer.clock(0).get(0) == 0);
    reducer.ready()?;
    reducer.retire_into(&access!(0: 1 Store 0), &mut times, &mut edges);
    assert!(rt; edges.as_slice().len() == CORES_MAX as usize - 1);
    Ok(())
}
