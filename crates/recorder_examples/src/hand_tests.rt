//! Runs whose accesses were worked out by hand, with the least set of each.
ghost use Rattle.std.specs.Prelude.{◌≤◌};

use crate::keeper::image_of;
use crate::settings::{HANDED_OVER, IN_TURN, leaves, load, params_of, schedule_of};
use race_log::Recording;
use recorder::{Recorded, record_run};
use rv_core::LoadNote;
use std::alloc::Global;
use std::process::Abort;
use std::test::Fail;
use stride_vector::StrideVector;

/// Records a run of the code on so many cores over 64 words. The generator's choices come after these.
fn recorded(alloc: Global, code: &[u32], cores: u8, choices: &[u8]) -> Result<Recorded, Fail>
    requires some { 1 ≤ cores }
    requires few { cores ≤ 3 }
{
    let image = image_of(alloc, code, 64)?;
    let params = params_of(cores, 64);
    Ok(record_run(alloc, image, params, schedule_of(alloc, choices)?)?)
}

/// The edges of the pair of cores at a place.
fn edges_at(recording: &Recording, place: usize) -> &[(u32, u32)] {
    match recording.reduced.as_slice().get(place) {
        Some(edges) => edges.as_slice(),
        None => &[],
    }
}

/// The vectors of the pair of cores at a place.
fn vectors_at(recording: &Recording, place: usize) -> &[StrideVector] {
    match recording.regulated.as_slice().get(place) {
        Some(vectors) => vectors.as_slice(),
        None => &[],
    }
}

/// The vector of one edge.
fn one_edge(from: u32, to: u32) -> StrideVector {
    StrideVector {
        n: 1,
        a0: from,
        b0: to,
        sa: 0,
        sb: 0,
    }
}

/// The recording has these edges and vectors of the pair of cores at the place.
fn orders(
    rt: &impl Abort,
    recording: &Recording,
    place: usize,
    edges: &[(u32, u32)],
    vectors: &[StrideVector],
) {
    assert!(rt; edges_at(recording, place) == edges);
    assert!(rt; vectors_at(recording, place) == vectors);
}

/// Each of two cores did this one load.
fn loads_are(rt: &impl Abort, run: &Recorded, first: LoadNote, second: LoadNote) {
    let loads = run.outcome.loads.as_slice();
    assert!(rt; loads.len() == 2);
    assert!(rt; loads[0].as_slice() == [first].as_slice());
    assert!(rt; loads[1].as_slice() == [second].as_slice());
}

/// The recorded instructions of each core.
fn totals_are(rt: &impl Abort, run: &Recorded, totals: &[u32]) {
    assert!(rt; run.recording.totals.as_slice() == totals);
}

// Core 0 stores 7 to word 16 as its third instruction and loads it as its fourth; core 1 loads the word
// as its second and stores its number, 1, there as its third. The choices let core 1's load come after
// the first store, and its store before core 0's load. Three pairs conflict, and two edges imply them.
#[test]
fn both_cores_conflict(rt: HostRuntime) -> Result<(), Fail> {
    let run = recorded(rt.alloc(), &HANDED_OVER, 2, &IN_TURN)?;
    totals_are(&rt, &run, &[5, 4]);
    orders(&rt, &run.recording, 0, &[(3, 2)], &[one_edge(3, 2)]);
    orders(&rt, &run.recording, 1, &[(3, 4)], &[one_edge(3, 4)]);
    leaves(&rt, &run.outcome, 16, 1);
    assert!(rt; run.recording.image.len() == 32);
    loads_are(&rt, &run, load(4, 16, 1), load(2, 16, 7));
    Ok(())
}

// Core 0's store of word 16 comes after core 1's load of it by way of word 32, which core 1 then stores
// and core 2 loads before it loads word 16. So one edge into the store is enough, that from core 2.
#[test]
fn readers_ordered_through_another_word(rt: HostRuntime) -> Result<(), Fail> {
    let code = [
        0x0010_0293u32,
        0x00550863,
        0x00051c63,
        0x04502023,
        0x00000073,
        0x04002303,
        0x08502023,
        0x00000073,
        0x08002383,
        0x04002303,
        0x00000073,
    ];
    let choices = [
        1u8, 1, 1, 2, 2, 1, 2, 2, 1, 1, 1, 1, 1, 1, 1, 1, 1, 1, 1, 1, 1,
    ];
    let run = recorded(rt.alloc(), &code, 3, &choices)?;
    totals_are(&rt, &run, &[5, 5, 6]);
    edges_are(&rt, &run.recording);
    Ok(())
}

/// Two pairs of cores have an edge each, and the others have none.
fn edges_are(rt: &impl Abort, recording: &Recording) {
    for place in 0..6 {
        let edges = edges_at(recording, place);
        match place {
            3 => assert!(rt; edges == [(4u32, 4u32)].as_slice()),
            4 => assert!(rt; edges == [(5u32, 4u32)].as_slice()),
            _ => assert!(rt; edges.len() == 0),
        }
    }
}

/// Two cores that store 5 and their number to word 8 as their second instruction.
const LAST_STORE: [u32; 3] = [0x00550293, 0x02502023, 0x00000073];

// The fifth choice decides whose store comes last: here that of core 1.
#[test]
fn one_choice_decides(rt: HostRuntime) -> Result<(), Fail> {
    let run = recorded(rt.alloc(), &LAST_STORE, 2, &[0, 0, 0, 0, 0])?;
    orders(&rt, &run.recording, 0, &[(2, 2)], &[one_edge(2, 2)]);
    orders(&rt, &run.recording, 1, &[], &[]);
    leaves(&rt, &run.outcome, 8, 6);
    Ok(())
}

// And here that of core 0.
#[test]
fn the_other_choice_decides(rt: HostRuntime) -> Result<(), Fail> {
    let run = recorded(rt.alloc(), &LAST_STORE, 2, &[0, 0, 0, 0, 1])?;
    orders(&rt, &run.recording, 0, &[], &[]);
    orders(&rt, &run.recording, 1, &[(2, 2)], &[one_edge(2, 2)]);
    leaves(&rt, &run.outcome, 8, 5);
    Ok(())
}

/// Core 0 stores to words 16, 17 and 18 as its third, fourth and fifth instruction; core 1 loads them as its
/// third, fourth and seventh.
const STRIDES: [u32; 12] = [
    0x00950293, 0x00051a63, 0x04502023, 0x04502223, 0x04502423, 0x00000073, 0x04002303, 0x04402383,
    0x00000013, 0x00000013, 0x04802403, 0x00000073,
];

/// The vector of so many positions whose first is the third instruction of either core.
fn from_the_third(n: u32) -> StrideVector {
    StrideVector {
        n,
        a0: 3,
        b0: 3,
        sa: 1,
        sb: 1,
    }
}

// By the strides of the first two edges the third store comes before core 1's fifth instruction. It is known
// there, so that one vector has three positions.
#[test]
fn strides_stand_for_edges_that_are_known(rt: HostRuntime) -> Result<(), Fail> {
    let run = recorded(rt.alloc(), &STRIDES, 2, &[0, 0, 0, 1, 1, 0, 0])?;
    orders(
        &rt,
        &run.recording,
        0,
        &[(3, 3), (4, 4), (5, 7)],
        &[from_the_third(3)],
    );
    orders(&rt, &run.recording, 1, &[], &[]);
    Ok(())
}

// Here it is not known there, and the third edge opens a vector.
#[test]
fn an_edge_that_is_not_known_opens_a_vector(rt: HostRuntime) -> Result<(), Fail> {
    let choices = [
        0u8, 0, 0, 1, 1, 0, 1, 1, 1, 1, 1, 1, 1, 1, 1, 1, 0, 1, 1, 1, 1,
    ];
    let run = recorded(rt.alloc(), &STRIDES, 2, &choices)?;
    let vectors = [from_the_third(2), one_edge(5, 7)];
    orders(&rt, &run.recording, 0, &[(3, 3), (4, 4), (5, 7)], &vectors);
    Ok(())
}
