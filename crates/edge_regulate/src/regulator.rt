//! The regulator.
ghost use Rattle.std.specs.Prelude.{◌≡◌, ◌≢◌, ℕ, ◌<◌, ◌≤◌, List, [], All, IfOk, IsTrue, OnOk, false};
ghost use Rattle.std.specs.Prelude.{replicate, slice_index_or};
ghost use Rattle.rtr_types.specs.declared.TheConstants.{CORES_MAX};
ghost use Rattle.rtr_types.specs.Pairs.{pair_count, pair_place};

use crate::open_vector::{newest_with, opened};
use crate::seat::{Awaited, Seat};
use know_history::Known;
use roomy_lists::RoomyLists;
use rtr_types::{Edge, Instr, Items, pair_at, pair_count};
use std::alloc::{AllocError, Global};
use std::marker::Model;
use stride_vector::StrideVector;

/// Makes the regulated log of a run while it goes on. It is told of each retirement, with what is known at it,
/// and of each reduced edge. It keeps no history of what is known: of each pair of cores, whose last vector may
/// go on, it awaits the next position, and looks whether that is known when the target's instruction retires.
/// Contracts see the vectors, for each pair whether it has room for one more, and what each core awaits.
#[derive(Drop)]
pub struct Regulator {
    cores: u8,
    pairs: RoomyLists<StrideVector>,
    seats: Vec<Seat>,
}

impl Model for Regulator {
    ghost use Rattle.std.specs.Prelude.{◌≡◌, ◌≤◌, All, length, map, vec_len};
    ghost use Rattle.rtr_types.specs.Pairs.{pair_count};
    ghost use Rattle.rtr_types.specs.declared.TheConstants.{CORES_MAX};
    ghost use Rattle.roomy_lists.specs.Lists.{items_in};
    ghost use Rattle.edge_regulate.specs.Regulated.{IsGrowing};
    ghost use Rattle.edge_regulate.specs.Seats.{Following};

    ghost Value = { Following };

    ghost view = { λ a. record {
      regulation = record { cores = a.cores; vectors = items_in a.pairs; ready = map (λ l. l.ready) a.pairs };
      seats = a.seats.items;
    } };

    ghost invariant = { λ a. (a.cores ≤ CORES_MAX) × (length a.pairs ≡ pair_count a.cores)
        × All (λ vectors. All IsGrowing vectors) (items_in a.pairs) × (vec_len a.seats ≡ a.cores) };
}

impl Regulator {
    ghost use Rattle.know_history.specs.Notes.{Notes, known_at, no_notes, noted_count};
    ghost use Rattle.edge_regulate.specs.Regulated.{AreReady, ArePairsApart, IsRegulation, IsSameAt};
    ghost use Rattle.edge_regulate.specs.Regulated.{end_target, regulated};
    ghost use Rattle.edge_regulate.specs.Seats.{CanFollow, Follows, IsNotedNext};
    ghost use Rattle.rtr_types.specs.PairEdges.{with_edge, with_edges};

    /// No vectors yet, for so many cores.
    pub fn new(alloc: Global, cores: u8) -> Result<Regulator, AllocError>
        requires { cores ≤ CORES_MAX }
        ensures cores { IfOk result (λ regulator. regulator.regulation.cores ≡ cores) }
        ensures none { IfOk result (λ regulator. regulator.regulation.vectors ≡ replicate (pair_count cores) []) }
        ensures follows { IfOk result (λ regulator.
            Follows (no_notes cores) (replicate (pair_count cores) []) regulator) }
    {
        let pairs = RoomyLists::new(alloc, pair_count(cores))?;
        let mut seats = Vec::with_capacity(alloc, cores as usize)?;
        for core in 0..cores {
            seats.push(Seat::none())?;
        }
        Ok(Regulator {
            cores,
            pairs,
            seats,
        })
    }

    /// Makes room for one vector in each pair. After want of memory some pairs may have got room.
    pub fn ready(&mut self) -> Result<(), AllocError>
        ensures cores { self.new.regulation.cores ≡ self.old.regulation.cores }
        ensures vectors { self.new.regulation.vectors ≡ self.old.regulation.vectors }
        ensures follows { (notes : Notes) (edges : List (List (ℕ × ℕ))) → Follows notes edges self.old →
            Follows notes edges self.new }
        ensures ready { OnOk result (AreReady self.new.regulation) }
    {
        self.pairs.make_room()
    }

    /// Notes a core's next retirement, with what is known at it.
    pub fn retired(&mut self, at: Instr, known: &Known)
        requires { at.core < self.old.regulation.cores }
        ensures regulation { self.new.regulation ≡ self.old.regulation }
        ensures follows { (old new : Notes) (edges : List (List (ℕ × ℕ))) → IsNotedNext old at known.now new →
            Follows old edges self.old → Follows new edges self.new }
    {
        let cores = self.cores;
        let seat = &mut self.seats[at.core as usize];
        if seat.awaits(at.count) {
            seat.look(cores, at.count, known);
        }
    }

    /// Takes the next edge of its pair, whose target was just noted.
    pub fn edge(&mut self, edge: Edge)
        requires ready { IsTrue (slice_index_or self.old.regulation.ready
            (pair_place self.old.regulation.cores edge.from.core edge.to.core) false) }
        requires next { CanFollow self.old.regulation edge }
        ensures cores { self.new.regulation.cores ≡ self.old.regulation.cores }
        ensures follows { (notes : Notes) (edges : List (List (ℕ × ℕ))) →
            edge.to.count ≡ noted_count notes edge.to.core → Follows notes edges self.old →
            Follows notes (with_edge self.old.regulation.cores edges edge) self.new }
        ensures ends { end_target (slice_index_or self.new.regulation.vectors
            (pair_place self.old.regulation.cores edge.from.core edge.to.core) []) ≤ edge.to.count }
        ensures others { (place : ℕ) → place ≢ pair_place self.old.regulation.cores edge.from.core edge.to.core →
            IsSameAt place self.old.regulation self.new.regulation }
    {
        let place = pair_at(self.cores, edge.from.core, edge.to.core);
        let seat = &mut self.seats[edge.to.core as usize];
        match newest_with(self.pairs.list(place), edge, seat.awaited(edge.from.core)) {
            Some(taken) => {
                seat.put(edge.from.core, taken.awaited);
                self.pairs.set_last(place, taken.vector);
            }
            None => {
                seat.put(edge.from.core, Awaited::none());
                self.pairs.push(place, opened(edge));
            }
        }
    }

    /// Takes the next edges, each of another pair, whose targets were just noted.
    pub fn edges(&mut self, edges: &[Edge])
        requires ready { AreReady self.old.regulation }
        requires next { All (λ e. CanFollow self.old.regulation e) edges.now }
        requires apart { ArePairsApart self.old.regulation.cores edges.now }
        ensures cores { self.new.regulation.cores ≡ self.old.regulation.cores }
        ensures follows { (notes : Notes) (told : List (List (ℕ × ℕ))) →
            All (λ e. e.to.count ≡ noted_count notes e.to.core) edges.now → Follows notes told self.old →
            Follows notes (with_edges self.old.regulation.cores told edges.now) self.new }
    {
        for edge in edges {
            self.edge(*edge);
        }
    }

    /// The vectors by pair of cores. It takes no memory.
    pub fn finish(self) -> Items<Items<StrideVector>>
        ensures vectors { result ≡ self.regulation.vectors }
        ensures regulated { (notes : Notes) (edges : List (List (ℕ × ℕ))) →
            IsRegulation notes edges self.regulation →
            result ≡ regulated self.regulation.cores (known_at notes) edges }
    {
        let Regulator {
            cores: _cores,
            pairs,
            seats: _seats,
        } = self;
        pairs.into_items()
    }
}
