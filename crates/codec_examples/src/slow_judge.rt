//! What a check says of the certificate of a determinate recording, by the definitions alone.

use min_certificate::{Certificate, CheckFailure};
use rtr_types::{Access, CORES_MAX, Edge, Instr};

/// A certificate, the edges of its reduced log by pair and then by target, and the accesses of a replay.
#[derive(Drop)]
pub struct SlowJudge<'a> {
    pub certificate: &'a Certificate,
    pub edges: &'a [Edge],
    pub accesses: &'a [Access],
}

impl<'a> SlowJudge<'a> {
    /// The first edge that is no conflict, else the first entry that isn't good, else the first edge that
    /// isn't needed.
    pub fn failure(&self) -> Option<CheckFailure> {
        if let Some(edge) = self.first_not_conflict() {
            return Some(CheckFailure::NotConflict { edge });
        }
        let totals = self.certificate.recording.totals.as_slice();
        for core in 0..CORES_MAX {
            if let Some(total) = totals.get(core as usize) {
                if let Some(entry) = self.first_bad(core, *total) {
                    return Some(CheckFailure::BadClock { core, entry });
                }
            }
        }
        match self.first_not_needed() {
            Some(edge) => Some(CheckFailure::NotNeeded { edge }),
            None => None,
        }
    }

    fn first_not_conflict(&self) -> Option<Edge> {
        for edge in self.edges {
            if !self.is_conflict(*edge) {
                return Some(*edge);
            }
        }
        None
    }

    fn first_not_needed(&self) -> Option<Edge> {
        for edge in self.edges {
            if !self.is_needed(*edge) {
                return Some(*edge);
            }
        }
        None
    }

    /// The number, from 1, of the core's first entry that isn't good.
    fn first_bad(&self, core: u8, total: u32) -> Option<u32> {
        let mut number: u32 = 0;
        for before in 0..total {
            let at = Instr {
                core,
                count: before + 1,
            };
            if self.is_end(at) {
                number = number.saturating_add(1);
                if !self.is_good(at) {
                    return Some(number);
                }
            }
        }
        None
    }

    /// Whether the source's access comes before the target's, to the same word, and one of them writes.
    fn is_conflict(&self, edge: Edge) -> bool {
        let mut source: Option<Access> = None;
        for access in self.accesses {
            if access.at == edge.from {
                source = Some(*access);
            }
            if access.at == edge.to {
                return match source {
                    Some(first) => {
                        let writes = first.kind.is_write() || access.kind.is_write();
                        first.word == access.word && writes
                    }
                    None => false,
                };
            }
        }
        false
    }

    /// Whether an edge begins or ends at the instruction.
    fn is_end(&self, at: Instr) -> bool {
        for edge in self.edges {
            if edge.from == at || edge.to == at {
                return true;
            }
        }
        false
    }

    /// The last entry of the instruction's core at or before it; empty where there is none.
    fn entry(&self, at: Instr) -> &'a [u32] {
        let mut number: usize = 0;
        for before in 0..at.count {
            let count = before + 1;
            if self.is_end(Instr {
                core: at.core,
                count,
            }) {
                number = number.saturating_add(1);
            }
        }
        if number == 0 {
            return &[];
        }
        match self.certificate.clocks.as_slice().get(at.core as usize) {
            Some(entries) => entries.entry(number - 1),
            None => &[],
        }
    }

    /// Whether the entry has its own count at its own place, at each other place at least what the entry
    /// before it on its core has, and at each place at least what the entry of each logged source has.
    fn is_good(&self, at: Instr) -> bool {
        let here = self.entry(at);
        if count_of(here, at.core) != at.count {
            return false;
        }
        if !is_below(self.entry(before(at)), here, Some(at.core)) {
            return false;
        }
        for edge in self.edges {
            if edge.to == at && !is_below(self.entry(edge.from), here, None) {
                return false;
            }
        }
        true
    }

    /// Whether neither the entry before the target on its core nor that of another of its logged sources
    /// knows the edge's source.
    fn is_needed(&self, edge: Edge) -> bool {
        let source = edge.from;
        if count_of(self.entry(before(edge.to)), source.core) >= source.count {
            return false;
        }
        for other in self.edges {
            if other.to == edge.to && other.from != source {
                if count_of(self.entry(other.from), source.core) >= source.count {
                    return false;
                }
            }
        }
        true
    }
}

/// The place before the instruction on its core.
fn before(at: Instr) -> Instr {
    Instr {
        core: at.core,
        count: at.count.saturating_sub(1),
    }
}

/// The entry's count of the core, which is 0 where it has none.
fn count_of(entry: &[u32], core: u8) -> u32 {
    match entry.get(core as usize) {
        Some(count) => *count,
        None => 0,
    }
}

/// Whether no core but the one that is left out has a higher count there than here.
fn is_below(there: &[u32], here: &[u32], left_out: Option<u8>) -> bool {
    for core in 0..CORES_MAX {
        if left_out != Some(core) && count_of(there, core) > count_of(here, core) {
            return false;
        }
    }
    true
}
