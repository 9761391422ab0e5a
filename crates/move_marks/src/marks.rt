//! Which moves can be made, by their kinds.
ghost use Rattle.std.specs.Prelude.{◌≡◌, ◌≢◌, ◌==◌, ◌<◌, ◌≤◌, ◌&&◌, ◌||◌, ℕ, false, length, not, slice_index_or};
ghost use Rattle.rtr_types.specs.CoreSets.{has};
ghost use Rattle.rtr_types.specs.declared.TheConstants.{CORES_MAX};
ghost use Rattle.move_marks.specs.Kinds.{last_at_port, marked, marked_at_ports, marked_of, place_of, set_of};
ghost use Rattle.move_marks.specs.declared.marks.MarkedMove.{MarkedMove};
ghost use Rattle.move_marks.specs.declared.marks.MoveKind.{MoveKind};

use crate::sets::{count, nth};
use rtr_types::{CORES_MAX, CoreSet};

/// What may happen next at a core: the core moves by itself; the home takes its oldest request, or its oldest
/// response; or its cache takes the oldest message from home.
#[derive(Clone, Copy, Debug, PartialEq, Eq)]
pub enum MoveKind {
    Own,
    Request,
    Response,
    FromHome,
}

impl MoveKind {
    /// Where the bits of its set begin.
    fn place(self) -> u32
        ensures value { result ≡ place_of self }
        ensures within { result ≤ 48 }
    {
        match self {
            MoveKind::Own => 0,
            MoveKind::Request => 16,
            MoveKind::Response => 32,
            MoveKind::FromHome => 48,
        }
    }
}

/// A move: its kind, and the core at which it is made.
#[derive(Clone, Copy, Debug, PartialEq, Eq)]
pub struct MarkedMove {
    pub kind: MoveKind,
    pub core: u8,
}

/// Which moves are marked: for each kind the set of the cores at which it is, all four in one word, the first kind's
/// lowest.
#[derive(Clone, Copy)]
pub struct MoveMarks {
    pub bits: u64,
}

impl MoveMarks {
    /// No move is marked.
    pub fn none() -> MoveMarks
        ensures { (kind : MoveKind) (c : ℕ) → has (set_of kind result) c ≡ false }
    {
        MoveMarks { bits: 0 }
    }

    /// The cores at which moves of the kind are marked.
    pub fn set_of(self, kind: MoveKind) -> CoreSet
        ensures { result ≡ set_of kind self }
    {
        CoreSet {
            bits: (self.bits >> kind.place() & 0xffff) as u16,
        }
    }

    /// Marks the core's move of the kind where it can be made, and takes its mark away elsewhere.
    pub fn set(&mut self, kind: MoveKind, core: u8, can: bool)
        requires { core < CORES_MAX }
        ensures this { has (set_of kind self.new) core ≡ can }
        ensures others { (k : MoveKind) (c : ℕ) → (k ≡ kind → c ≢ core)
            → has (set_of k self.new) c ≡ has (set_of k self.old) c }
    {
        let place = kind.place() + core as u32;
        if can {
            self.bits |= 1 << place;
        } else {
            self.bits &= !(1 << place);
        }
    }

    /// Marks the moves of the kind of all cores of a set.
    pub fn mark_all(&mut self, kind: MoveKind, set: CoreSet)
        ensures these { (c : ℕ) → has (set_of kind self.new) c ≡ (has (set_of kind self.old) c || has set c) }
        ensures others { (k : MoveKind) (c : ℕ) → k ≢ kind
            → has (set_of k self.new) c ≡ has (set_of k self.old) c }
    {
        self.bits |= (set.bits as u64) << kind.place();
    }

    /// Takes the marks of the moves of the kind of all cores of a set away.
    pub fn clear_all(&mut self, kind: MoveKind, set: CoreSet)
        ensures these { (c : ℕ) → has (set_of kind self.new) c ≡ (has (set_of kind self.old) c && not (has set c)) }
        ensures others { (k : MoveKind) (c : ℕ) → k ≢ kind
            → has (set_of k self.new) c ≡ has (set_of k self.old) c }
    {
        self.bits &= !((set.bits as u64) << kind.place());
    }

    /// Whether no move is marked.
    pub fn is_empty(self) -> bool
        ensures { result ≡ (length (marked self) == 0) }
    {
        self.bits == 0
    }

    /// How many moves are marked.
    pub fn count(self) -> u32
        ensures value { result ≡ length (marked self) }
        ensures few { result ≤ 64 }
    {
        self.bits.count_ones()
    }

    /// The marked move of this number, from 0: by kinds, and in a kind by cores.
    pub fn pick(self, number: u32) -> MarkedMove
        requires { number < length (marked self) }
        ensures value { (d : MarkedMove) → result ≡ slice_index_or (marked self) number d }
        ensures within { result.core < CORES_MAX }
    {
        let many = self.count_of(MoveKind::Own);
        if number < many {
            return self.pick_of(MoveKind::Own, number);
        }
        self.pick_at_port(number - many)
    }

    /// The marked move of this number among those that aren't cores' own.
    pub fn pick_at_port(self, number: u32) -> MarkedMove
        requires { number < length (marked_at_ports self) }
        ensures value { (d : MarkedMove) → result ≡ slice_index_or (marked_at_ports self) number d }
        ensures within { result.core < CORES_MAX }
    {
        let requests = self.count_of(MoveKind::Request);
        let responses = self.count_of(MoveKind::Response);
        if number < requests {
            return self.pick_of(MoveKind::Request, number);
        }
        let left = number - requests;
        if left < responses {
            return self.pick_of(MoveKind::Response, left);
        }
        self.pick_of(MoveKind::FromHome, left - responses)
    }

    /// The number of the last marked move, where it isn't a core's own.
    pub fn last_at_port(self) -> Option<u32>
        ensures { result ≡ last_at_port self }
    {
        let many = self.count();
        if many == self.count_of(MoveKind::Own) {
            return None;
        }
        Some(many - 1)
    }

    /// How many moves of the kind are marked.
    #[inline(always)]
    fn count_of(self, kind: MoveKind) -> u32
        ensures { result ≡ length (marked_of kind self) }
    {
        count(self.set_of(kind))
    }

    /// The marked move of this number among those of the kind.
    #[inline(always)]
    fn pick_of(self, kind: MoveKind, number: u32) -> MarkedMove
        requires { number < length (marked_of kind self) }
        ensures value { (d : MarkedMove) → result ≡ slice_index_or (marked_of kind self) number d }
        ensures within { result.core < CORES_MAX }
    {
        let core = nth(self.set_of(kind), number);
        MarkedMove { kind, core }
    }
}
