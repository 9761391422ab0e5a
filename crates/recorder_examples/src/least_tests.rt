//! Runs of all cores, whose recorded edges are the least set of the run's accesses by the plain definition.
ghost use Rattle.std.specs.Prelude.{◌≡◌, IfOk};
ghost use Rattle.conflict_edge.specs.Conflicts.{are_after, do_counts_rise};

use crate::keeper::{Told, image_of, told_in_run};
use conflict_edge::{ACCESSES_MAX, least_of};
use image_mem::Image;
use race_log::Recording;
use recorder::record_run;
use rtr_types::{Access, CORES_MAX, Edge, Instr, Params, pair_count, pair_of};
use schedule_pick::Schedule;
use std::alloc::{AllocError, Global};
use std::test::Fail;

/// Each core makes three rounds of six accesses:
///
/// - addi x13,x0,3; slli x5,x10,2;
/// - lw x6,64(x5); addi x6,x6,1; sw x6,68(x5): a core reads its word and writes the next core's;
/// - lw x7,128(x0); sw x6,128(x0): all cores read and write one word;
/// - lw x8,320(x5); sb x10,321(x10): words whose blocks have the lines of the first ones, so that copies
///   go back, and bytes of words that others read;
/// - addi x13,x13,-1; bne x13,x0,-32; ecall.
const CODE: [u32; 12] = [
    0x00300693, 0x00251293, 0x0402a303, 0x00130313, 0x0462a223, 0x08002383, 0x08602023, 0x1402a403,
    0x14a500a3, 0xfff68693, 0xfe0690e3, 0x00000073,
];

/// How many accesses a run has: three rounds of six accesses for each core.
const ACCESSES: usize = 18 * CORES_MAX as usize;

/// The most steps of a run: (2 P + 4) for each of the 30 instructions of each core, P the number of cores.
const STEPS: u32 = (2 * CORES_MAX as u32 + 4) * 30 * CORES_MAX as u32;

/// All cores, few instructions, and 128 words.
pub const PARAMS: Params = Params {
    cores: CORES_MAX,
    limit: 100,
    words: 128,
};

/// The generator's states at the beginning of the runs.
pub static SEEDS: [u64; 3] = [1, 20_261_127, u64::MAX];

/// The image of the code.
pub fn image(alloc: Global) -> Result<Image, Fail>
    ensures { IfOk result (λ image. image.words ≡ 128) }
{
    image_of(alloc, &CODE, PARAMS.words)
}

/// The retirements of a run under the seed, in their order, by a machine that records no times.
pub fn told_under(alloc: Global, seed: u64) -> Result<Vec<Told>, Fail> {
    told_in_run(
        alloc,
        image(alloc)?,
        PARAMS,
        Schedule::new(Vec::new(alloc), seed),
        STEPS,
    )
}

/// The accesses of a run under the seed, in the order of retirement.
fn accesses_of(alloc: Global, seed: u64) -> Result<Vec<Access>, Fail> {
    let mut accesses = Vec::new(alloc);
    for told in &told_under(alloc, seed)? {
        accesses.extend(told.access)?;
    }
    Ok(accesses)
}

/// Whether counts begin at 1 and rise for each core, and each core is in range.
fn counts_rise(list: &[Access]) -> bool
    ensures { result ≡ do_counts_rise list.now }
{
    match list.split_first() {
        None => true,
        Some((first, later)) => {
            let fits = 1 <= first.at.count && first.at.core < CORES_MAX;
            fits && is_before(first, later) && counts_rise(later)
        }
    }
}

/// Whether the access has a smaller count than each of the others that is of its core.
fn is_before(access: &Access, others: &[Access]) -> bool
    ensures { result ≡ are_after access.now others.now }
{
    match others.split_first() {
        None => true,
        Some((other, rest)) => {
            let apart = access.at.core != other.at.core;
            (apart || access.at.count < other.at.count) && is_before(access, rest)
        }
    }
}

/// The edges of the recording, by pair of cores.
fn edges_of(alloc: Global, recording: &Recording) -> Result<Vec<Edge>, AllocError> {
    let mut edges = Vec::new(alloc);
    for place in 0..pair_count(CORES_MAX) {
        if let Some(list) = recording.reduced.as_slice().get(place) {
            push_edges(&mut edges, pair_of(CORES_MAX, place), list.as_slice())?;
        }
    }
    Ok(edges)
}

/// Adds the edges of one pair of cores, the source first.
fn push_edges(
    edges: &mut Vec<Edge>,
    pair: (u8, u8),
    list: &[(u32, u32)],
) -> Result<(), AllocError> {
    let (source, target) = pair;
    for (before, after) in list {
        edges.push(Edge {
            from: Instr {
                core: source,
                count: *before,
            },
            to: Instr {
                core: target,
                count: *after,
            },
        })?;
    }
    Ok(())
}

#[test]
fn the_edges_are_the_least_set_of_the_accesses(rt: HostRuntime) -> Result<(), Fail> {
    let alloc = rt.alloc();
    for seed in &SEEDS {
        let accesses = accesses_of(alloc, *seed)?;
        assert!(rt; accesses.len() == ACCESSES);
        assert!(rt; accesses.len() <= ACCESSES_MAX && counts_rise(&accesses));
        let least = least_of(alloc, &accesses)?;
        let schedule = Schedule::new(Vec::new(alloc), *seed);
        let run = record_run(alloc, image(alloc)?, PARAMS, schedule)?;
        let edges = edges_of(alloc, &run.recording)?;
        assert!(rt; edges.as_slice() == least.as_slice(), "seed {seed}");
        assert!(rt; !least.is_empty());
    }
    Ok(())
}
