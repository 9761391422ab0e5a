//! Which of a core's counts other cores wait for.
ghost use Rattle.std.specs.Prelude.{◌<◌, ◌≤◌};
ghost use Rattle.race_log.specs.Validity.{Valid};

use race_log::Recording;
use rtr_types::{CORES_MAX, Which, pair_at};
use stride_vector::StrideVector;

/// A place for each core, as the length of an array.
const PLACES: usize = CORES_MAX as usize;

/// After how many instructions at most others see how far a core has come, though none waits for it.
const PUBLISHED_AFTER: u32 = 1024;

/// The next count at which a core is to be published: that of the next edge from it to another core, or one not
/// too far on. For each other core `next` has the count of the next edge to it that was looked up, and `places` where
/// that edge stands in the pair's list, or its vector. When a core is published changes no result.
#[derive(Clone, Copy)]
pub(crate) struct Wanted {
    due: u32,
    next: [u32; PLACES],
    places: [usize; PLACES],
}

impl Wanted {
    /// Before anything was looked up.
    pub(crate) fn new() -> Wanted {
        Wanted {
            due: 0,
            next: [0; PLACES],
            places: [0; PLACES],
        }
    }

    /// Whether a core that has come to this count is to be published.
    #[inline(always)]
    pub(crate) fn is_due(&self, count: u32) -> bool {
        count >= self.due
    }

    /// The count at which a core that is below its total is to be published, or the total.
    #[inline(always)]
    pub(crate) fn until(&self, total: u32) -> u32
        ensures { result ≤ total }
    {
        self.due.min(total)
    }

    /// Goes on to the first count above this one, at which the core is published.
    #[inline(never)]
    pub(crate) fn pass(&mut self, recording: &Recording, which: Which, core: u8, count: u32)
        requires valid { Valid recording.now }
        requires core { core < recording.now.params.cores }
    {
        let mut due = count.saturating_add(PUBLISHED_AFTER);
        for to in 0..recording.params.cores {
            if to != core {
                if self.next[to as usize] <= count {
                    let pair = pair_at(recording.params.cores, core, to);
                    let place = &mut self.places[to as usize];
                    self.next[to as usize] = next_source(recording, which, pair, count, place);
                }
                due = due.min(self.next[to as usize]);
            }
        }
        self.due = due;
    }
}

/// The first source above a count in a pair's list of the log, or the greatest count where there is none. It is
/// looked for from a place on, which goes on to it.
fn next_source(
    recording: &Recording,
    which: Which,
    pair: usize,
    count: u32,
    place: &mut usize,
) -> u32 {
    match which {
        Which::Reduced => {
            match recording.reduced.as_slice().get(pair) {
                Some(edges) => source_above(edges.as_slice(), count, place),
                None => u32::MAX,
            }
        }
        Which::Regulated => {
            match recording.regulated.as_slice().get(pair) {
                Some(vectors) => position_above(vectors.as_slice(), count, place),
                None => u32::MAX,
            }
        }
    }
}

/// So in a list of edges.
fn source_above(edges: &[(u32, u32)], count: u32, place: &mut usize) -> u32 {
    for k in *place..edges.len() {
        let (source, _) = edges[k];
        if source > count {
            *place = k;
            return source;
        }
    }
    *place = edges.len();
    u32::MAX
}

/// So in a list of vectors.
fn position_above(vectors: &[StrideVector], count: u32, place: &mut usize) -> u32 {
    for k in *place..vectors.len() {
        if let Some(source) = above(&vectors[k], count) {
            *place = k;
            return source;
        }
    }
    *place = vectors.len();
    u32::MAX
}

/// The vector's first source above a count, if there is one.
fn above(vector: &StrideVector, count: u32) -> Option<u32> {
    if vector.a0 > count {
        return Some(vector.a0);
    }
    if vector.sa == 0 {
        return None;
    }
    let k = ((count - vector.a0) / vector.sa).saturating_add(1);
    if k >= vector.n {
        return None;
    }
    Some(vector.a0.saturating_add(k.saturating_mul(vector.sa)))
}
