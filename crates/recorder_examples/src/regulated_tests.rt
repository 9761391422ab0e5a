//! Runs of all cores, whose recorded vectors are those of a slow program, which is written from the
//! definition over what is known at each retirement.
use crate::keeper::Told;
use crate::least_tests::{PARAMS, SEEDS, image, told_under};
use race_log::Recording;
use recorder::record_run;
use rtr_types::{CORES_MAX, pair_count, pair_of};
use schedule_pick::Schedule;
use std::alloc::{AllocError, Global};
use std::process::Abort;
use std::test::Fail;
use stride_vector::StrideVector;

/// Whether the source's instruction is known at the target's.
fn is_known(rows: &[Told], source: (u8, u64), target: (u8, u64)) -> bool {
    for Told { at, known, .. } in rows {
        if at.core == target.0 && at.count as u64 == target.1 && source.0 < CORES_MAX {
            return source.1 <= known.count(source.0) as u64;
        }
    }
    false
}

/// The position that would come next, at the distance of the last two.
fn next_position(positions: &[(u64, u64)]) -> Option<(u64, u64)> {
    let (last, before) = positions.split_last()?;
    let previous = before.last()?;
    let source = last.0.saturating_add(last.0.saturating_sub(previous.0));
    let target = last.1.saturating_add(last.1.saturating_sub(previous.1));
    Some((source, target))
}

/// What the open vector, with these positions, does with the next edge: it takes it with a further position
/// or with none, or does not take it.
enum Answer {
    Adds((u64, u64)),
    Covers,
    Ends,
}

fn taking(rows: &[Told], pair: (u8, u8), positions: &[(u64, u64)], edge: (u64, u64)) -> Answer {
    for position in positions {
        if position.0 >= edge.0 {
            return Answer::Covers;
        }
    }
    let Some(next) = next_position(positions) else {
        return if positions.is_empty() {
            Answer::Ends
        } else {
            Answer::Adds(edge)
        };
    };
    let implies = next.0 >= edge.0 && next.1 <= edge.1;
    if implies && is_known(rows, (pair.0, next.0), (pair.1, next.1)) {
        Answer::Adds(next)
    } else {
        Answer::Ends
    }
}

/// The positions of each vector of one pair's edges, one after the other, and how many vectors there are.
fn slow(
    alloc: Global,
    rows: &[Told],
    pair: (u8, u8),
    edges: &[(u32, u32)],
) -> Result<(Vec<(u64, u64)>, u64), AllocError> {
    let mut all = Vec::new(alloc);
    let mut open = Vec::new(alloc);
    let mut vectors = 0u64;
    for (from, to) in edges {
        let edge = (*from as u64, *to as u64);
        match taking(rows, pair, &open, edge) {
            Answer::Adds(position) => {
                open.push(position)?;
                all.push(position)?;
            }
            Answer::Covers => {}
            Answer::Ends => {
                open.clear();
                open.push(edge)?;
                all.push(edge)?;
                vectors = vectors.saturating_add(1);
            }
        }
    }
    Ok((all, vectors))
}

/// The positions of the vectors, by their numbers.
fn positions_of(alloc: Global, vectors: &[StrideVector]) -> Result<Vec<(u64, u64)>, AllocError> {
    let mut all = Vec::new(alloc);
    for vector in vectors {
        let mut position = (vector.a0 as u64, vector.b0 as u64);
        for _ in 0..vector.n {
            all.push(position)?;
            position.0 = position.0.saturating_add(vector.sa as u64);
            position.1 = position.1.saturating_add(vector.sb as u64);
        }
    }
    Ok(all)
}

/// The vectors of the pair of cores are the slow program's; how many fewer they are than the edges.
fn saved_by(
    rt: &impl Abort,
    alloc: Global,
    rows: &[Told],
    pair: (u8, u8),
    edges: &[(u32, u32)],
    vectors: &[StrideVector],
) -> Result<u64, Fail> {
    let (wanted, count) = slow(alloc, rows, pair, edges)?;
    let found = positions_of(alloc, vectors)?;
    assert!(rt; found.as_slice() == wanted.as_slice(), "pair {pair:?}");
    assert!(rt; vectors.len() as u64 == count, "pair {pair:?}");
    Ok((edges.len() as u64).saturating_sub(count))
}

/// The edges and the vectors of the pair of cores at a place.
fn lists_at(recording: &Recording, place: usize) -> (&[(u32, u32)], &[StrideVector]) {
    let reduced = recording.reduced.as_slice();
    let regulated = recording.regulated.as_slice();
    match (reduced.get(place), regulated.get(place)) {
        (Some(edges), Some(vectors)) => (edges.as_slice(), vectors.as_slice()),
        _ => (&[], &[]),
    }
}

/// The same of all pairs of a run with this seed.
fn saved_in_run(rt: &impl Abort, alloc: Global, seed: u64) -> Result<u64, Fail> {
    let rows = told_under(alloc, seed)?;
    let schedule = Schedule::new(Vec::new(alloc), seed);
    let run = record_run(alloc, image(alloc)?, PARAMS, schedule)?;
    let mut saved = 0u64;
    for place in 0..pair_count(CORES_MAX) {
        let (edges, vectors) = lists_at(&run.recording, place);
        let pair = pair_of(CORES_MAX, place);
        saved = saved.saturating_add(saved_by(rt, alloc, &rows, pair, edges, vectors)?);
    }
    Ok(saved)
}

#[test]
fn the_vectors_are_those_of_the_definition(rt: HostRuntime) -> Result<(), Fail> {
    let mut saved = 0u64;
    for seed in &SEEDS {
        saved = saved.saturating_add(saved_in_run(&rt, rt.alloc(), *seed)?);
    }
    assert!(rt; saved > 0);
    Ok(())
}
