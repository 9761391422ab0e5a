//! The edges into one access.
ghost use Rattle.std.specs.Prelude.{◌≡◌, ◌<◌, ◌++◌, [], ◌∷◌, length};
ghost use Rattle.online_reduce.specs.declared.TheConstants.{EDGES_MAX};
ghost use Rattle.online_reduce.specs.Sizes.{edges_room};

use crate::EDGES_MAX;
use rtr_types::Edge;
use smallvec::SmallVec;
use std::alloc::Global;
use std::marker::Model;

/// How many edges an `EdgeList` has room for in the value itself: all that one access gets, and one more.
pub const EDGES_ROOM: usize = 17;

/// The edges into one access, as a list with room for `EDGES_ROOM` of them in the value itself.
pub type EdgeList = SmallVec<Edge, EDGES_ROOM>;

/// The edges into one access, in places of the value itself, so that they are lent and not moved.
/// Contracts see the list.
#[derive(Drop)]
pub struct EdgePlaces {
    places: [Edge; EDGES_MAX],
    len: usize,
}

impl Model for EdgePlaces {
    ghost use Rattle.std.specs.Prelude.{List, ◌≡◌, ◌≤◌, length, take};
    ghost use Rattle.online_reduce.specs.declared.TheConstants.{EDGES_MAX};
    ghost use Rattle.rtr_types.specs.declared.instr.Edge.{Edge};

    ghost Value = { List Edge };

    ghost view = { λ a. take a.len a.places };

    ghost invariant = { λ a. (a.len ≤ EDGES_MAX) × (length a.places ≡ EDGES_MAX) };
}

impl EdgePlaces {
    /// No edges.
    pub fn new() -> EdgePlaces
        ensures { result ≡ [] }
    {
        EdgePlaces {
            places: [Edge::default(); EDGES_MAX],
            len: 0,
        }
    }

    /// Takes all edges out.
    pub fn clear(&mut self)
        ensures { self.new ≡ [] }
    {
        self.len = 0;
    }

    /// Puts an edge at the end.
    pub(crate) fn push(&mut self, edge: Edge)
        requires { length self.old < EDGES_MAX }
        ensures { self.new ≡ self.old ++ edge ∷ [] }
    {
        self.places[self.len] = edge;
        self.len += 1;
    }

    /// The edges, in the order in which they were put.
    pub fn as_slice(&self) -> &[Edge]
        ensures { result.now ≡ self.now }
    {
        &self.places[..self.len]
    }

    /// The edges as a list, which takes no memory.
    pub(crate) fn to_list(&self, alloc: Global) -> EdgeList
        ensures items { result.items ≡ self.now }
        ensures room { result.capacity ≡ edges_room }
    {
        let mut list = SmallVec::new(alloc);
        for edge in &self.places[..self.len] {
            list.push_reserved(*edge);
        }
        list
    }
}
