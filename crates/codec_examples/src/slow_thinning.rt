//! Thinning by its definition alone: each vector is tried once, against the others that aren't left out so far, by what
//! is reached from an edge's source along their edges.
use race_log::Recording;
use rtr_types::{CORES_MAX, Edge, Instr, pair_count, pair_of};
use std::alloc::{AllocError, Global};
use stride_vector::StrideVector;

/// A place for each core.
const PLACES: usize = CORES_MAX as usize;

/// A vector of the regulated log, with its two cores.
#[derive(Clone, Copy, PartialEq)]
pub struct Placed {
    from: u8,
    to: u8,
    vector: StrideVector,
}

impl Placed {
    /// The edge at a position, counted from 0.
    fn edge(&self, position: u32) -> Edge {
        let v = &self.vector;
        Edge {
            from: Instr {
                core: self.from,
                count: v.a0.saturating_add(position.saturating_mul(v.sa)),
            },
            to: Instr {
                core: self.to,
                count: v.b0.saturating_add(position.saturating_mul(v.sb)),
            },
        }
    }
}

/// The recording's vectors, by pair and within a pair in their order.
pub fn placed_of(alloc: Global, recording: &Recording) -> Result<Vec<Placed>, AllocError> {
    let cores = recording.params.cores;
    let mut placed = Vec::new(alloc);
    for (place, vectors) in recording.regulated.as_slice().iter().enumerate() {
        if place < pair_count(cores) {
            let (from, to) = pair_of(cores, place);
            for vector in vectors.as_slice() {
                placed.push(Placed {
                    from,
                    to,
                    vector: *vector,
                })?;
            }
        }
    }
    Ok(placed)
}

/// From which count on a core's instructions are reached, for each core; `NEVER` where none is.
#[derive(Clone, Copy)]
struct Reached {
    from: [u64; PLACES],
}

/// Above each count.
const NEVER: u64 = u64::MAX;

impl Reached {
    /// The instruction, and all after it on its core.
    fn only(at: Instr) -> Reached {
        let mut reached = Reached {
            from: [NEVER; PLACES],
        };
        reached.add(at);
        reached
    }

    fn has(&self, at: Instr) -> bool {
        match self.from.get(at.core as usize) {
            Some(from) => *from <= at.count as u64,
            None => false,
        }
    }

    fn add(&mut self, at: Instr) {
        if let Some(from) = self.from.get_mut(at.core as usize) {
            *from = (*from).min(at.count as u64);
        }
    }
}

/// The vectors, of which some are left out so far, and one is tried against the others.
#[derive(Clone, Copy)]
pub struct Trial<'a> {
    pub vectors: &'a [Placed],
    pub left_out: &'a [bool],
    pub tried: usize,
}

impl<'a> Trial<'a> {
    /// Whether the vector with this number is one of the others.
    fn is_other(&self, number: usize) -> bool {
        number != self.tried && self.left_out.get(number) != Some(&true)
    }

    /// What the edges of a vector reach at once.
    fn follow(&self, reached: &mut Reached, placed: &Placed) {
        for position in 0..placed.vector.n {
            let edge = placed.edge(position);
            if reached.has(edge.from) {
                reached.add(edge.to);
            }
        }
    }

    /// What the edges of all others reach at once.
    fn follow_all(&self, reached: &mut Reached) {
        for (number, placed) in self.vectors.iter().enumerate() {
            if self.is_other(number) {
                self.follow(reached, placed);
            }
        }
    }

    /// Whether the one instruction is the other or reaches it along the edges of the others. A shortest way goes
    /// into each core at most once.
    pub fn reaches(&self, from: Instr, to: Instr) -> bool {
        let mut reached = Reached::only(from);
        for _ in 0..PLACES {
            self.follow_all(&mut reached);
        }
        reached.has(to)
    }

    /// The first edge of the vector that is tried, by its position from 0, that the others don't imply.
    pub fn first_needed(&self) -> Option<u32> {
        if let Some(placed) = self.vectors.get(self.tried) {
            for position in 0..placed.vector.n {
                let edge = placed.edge(position);
                if !self.reaches(edge.from, edge.to) {
                    return Some(position);
                }
            }
        }
        None
    }

    /// How many of a core's instructions, of so many, are the edge's target or reach it along the others.
    pub fn before_target(&self, position: u32, core: u8, total: u32) -> u32 {
        let mut count = 0;
        if let Some(placed) = self.vectors.get(self.tried) {
            let target = placed.edge(position).to;
            for before in 0..total {
                if self.reaches(
                    Instr {
                        core,
                        count: before + 1,
                    },
                    target,
                ) {
                    count = before + 1;
                }
            }
        }
        count
    }
}

/// For each vector whether it is left out.
pub fn left_out(alloc: Global, vectors: &[Placed]) -> Result<Vec<bool>, AllocError> {
    let mut out = Vec::new(alloc);
    for tried in 0..vectors.len() {
        let trial = Trial {
            vectors,
            left_out: out.as_slice(),
            tried,
        };
        let implied = trial.first_needed().is_none();
        out.push(implied)?;
    }
    Ok(out)
}
