//! The closed cuts of a recording of three cores, found by a slow search through all its cuts.
use row_texts::Counts;
use rtr_types::{Edge, Instr};

macro_rules! edge {
    ($from:literal : $before:literal to $to:literal : $after:literal) => {
        Edge {
            from: Instr { core: $from, count: $before },
            to: Instr { core: $to, count: $after },
        }
    };
}

/// The edges of the reduced log of the three cores.
const EDGES: [Edge; 5] = [
    edge!(0:3 to 1:2),
    edge!(0:3 to 2:2),
    edge!(1:3 to 2:3),
    edge!(2:2 to 1:3),
    edge!(2:3 to 0:4),
];

/// The cut with this number, of 150 within the totals 5, 4 and 4.
fn cut_numbered(number: u32) -> Counts {
    Counts::new(number % 6, number / 6 % 5, number / 30)
}

/// Whether the cut holds the instruction.
fn holds(cut: Counts, at: Instr) -> bool {
    let count = match at.core {
        0 => cut.first,
        1 => cut.second,
        _ => cut.third,
    };
    at.count <= count
}

/// Whether the cut holds each source of what it holds.
fn is_closed(cut: Counts) -> bool {
    for edge in &EDGES {
        if holds(cut, edge.to) && !holds(cut, edge.from) {
            return false;
        }
    }
    true
}

/// The instruction with this number, of 13.
pub(crate) fn numbered(number: u32) -> Instr {
    if number < 5 {
        return Instr {
            core: 0,
            count: number + 1,
        };
    }
    if number < 9 {
        return Instr {
            core: 1,
            count: number - 4,
        };
    }
    Instr {
        core: 2,
        count: number - 8,
    }
}

/// The least counts of all closed cuts with the instruction.
pub(crate) fn slow_with(at: Instr) -> Counts {
    let mut least = cut_numbered(149);
    for number in 0..150 {
        let cut = cut_numbered(number);
        if holds(cut, at) && is_closed(cut) {
            least = Counts::new(
                cut.first.min(least.first),
                cut.second.min(least.second),
                cut.third.min(least.third),
            );
        }
    }
    least
}

/// The greatest counts of all closed cuts without it.
pub(crate) fn slow_without(at: Instr) -> Counts {
    let mut greatest = cut_numbered(0);
    for number in 0..150 {
        let cut = cut_numbered(number);
        if !holds(cut, at) && is_closed(cut) {
            greatest = Counts::new(
                cut.first.max(greatest.first),
                cut.second.max(greatest.second),
                cut.third.max(greatest.third),
            );
        }
    }
    greatest
}
