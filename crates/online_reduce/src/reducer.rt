//! The online reduction.
ghost use Rattle.std.specs.Prelude.{◌≡◌, ◌<◌, ◌≤◌, [], List, IfOk, IsTrue, OnErr, OnOk, false, true};
ghost use Rattle.rtr_types.specs.declared.TheConstants.{CORES_MAX};
ghost use Rattle.rtr_types.specs.declared.access.Access.{Access};
ghost use Rattle.rtr_types.specs.declared.instr.Edge.{Edge};
ghost use Rattle.access_times.specs.Times.{times_noted};
ghost use Rattle.online_reduce.specs.Sizes.{edges_room};

use crate::edge_places::{EdgeList, EdgePlaces};
use crate::live_reads::LiveReads;
use crate::pair_lists::{PairLists, add_edge, add_reads};
use crate::rule::note;
use crate::source::live_write;
use access_times::Times;
use clock_core::Clock;
use roomy_lists::RoomyLists;
use rtr_types::{Access, CORES_MAX, Instr, Items, pair_count};
use std::alloc::{AllocError, Global};
use std::marker::Model;

/// A place for each core, as the length of an array.
const PLACES: usize = CORES_MAX as usize;

/// Makes the reduced log of a run, one retired instruction after the other: it keeps the clock of each
/// core's last instruction and the edges so far, by pair of cores. Contracts see both, and whether one
/// more retirement needs no memory.
#[derive(Drop)]
pub struct Reducer {
    alloc: Global,
    cores: u8,
    clocks: [Clock; PLACES],
    pairs: PairLists,
}

impl Model for Reducer {
    ghost use Rattle.std.specs.Prelude.{◌≡◌, ◌≤◌, length};
    ghost use Rattle.roomy_lists.specs.Lists.{are_ready, items_in};
    ghost use Rattle.rtr_types.specs.Pairs.{pair_count};
    ghost use Rattle.rtr_types.specs.declared.TheConstants.{CORES_MAX};
    ghost use Rattle.online_reduce.specs.Reduced.{Readied};

    ghost Value = { Readied };

    ghost view = { λ a. record {
      state = record { cores = a.cores; clocks = a.clocks; lists = items_in a.pairs };
      ready = are_ready a.pairs;
    } };

    ghost invariant = { λ a.
        (a.cores ≤ CORES_MAX)
        × (length a.clocks ≡ CORES_MAX)
        × (length a.pairs ≡ pair_count a.cores) };
}

impl Reducer {
    ghost use Rattle.online_reduce.specs.LiveReads.{drawn};
    ghost use Rattle.online_reduce.specs.Sources.{candidates, reads_from};
    ghost use Rattle.online_reduce.specs.Reduced.{IsNext, clock_of, counted, edges_of, retired, unreduced};
    ghost use Rattle.online_reduce.specs.Exact.{AddsAccess, AreRising, IsExact, IsHeld, IsReduction};

    /// No retirement yet, on so many cores.
    pub fn new(alloc: Global, cores: u8) -> Result<Reducer, AllocError>
        requires { cores ≤ CORES_MAX }
        ensures { IfOk result (λ reducer. reducer.state ≡ unreduced cores) }
    {
        let pairs = RoomyLists::new(alloc, pair_count(cores))?;
        Ok(Reducer {
            alloc,
            cores,
            clocks: [Clock::zero(); PLACES],
            pairs,
        })
    }

    /// Makes room for one retirement, which then needs no memory. After want of memory nothing has
    /// changed.
    pub fn ready(&mut self) -> Result<(), AllocError>
        ensures state { self.new.state ≡ self.old.state }
        ensures ready { OnOk result (IsTrue self.new.ready) }
        ensures err { OnErr result (self.new ≡ self.old) }
    {
        if self.pairs.has_room() {
            return Ok(());
        }
        let made = self.pairs.make_room();
        // Where some lists got room before one got none, that one still has none.
        if self.pairs.has_room() { Ok(()) } else { made }
    }

    /// Whether one retirement needs no memory.
    pub fn is_ready(&self) -> bool
        ensures { result ≡ self.now.ready }
    {
        self.pairs.has_room()
    }

    /// The clock noted last for the core: the clock of its last retired instruction, and zero before its
    /// first.
    pub fn clock(&self, core: u8) -> Clock
        requires { core < self.now.state.cores }
        ensures { result ≡ clock_of self.now.state core }
    {
        self.clocks[core as usize]
    }

    /// The core's next instruction retired, without an access.
    pub fn local(&mut self, at: Instr)
        requires { IsNext self.old.state at }
        ensures state { self.new.state ≡ counted self.old.state at }
        ensures ready { self.new.ready ≡ self.old.ready }
        ensures exact { (list : List Access) → IsExact list self.old.state → IsExact list self.new.state }
        ensures reduction { (list : List Access) (edges : List Edge) →
            IsReduction list self.old.state edges → IsReduction list self.new.state edges }
    {
        self.count(at);
    }

    /// The core's next instruction retired with the access. Answers the new edges by rising source core,
    /// puts them into the pairs' lists, and notes the access in the times of its block.
    pub fn retire(&mut self, access: &Access, times: &mut Times) -> EdgeList
        requires ready { IsTrue self.old.ready }
        requires next { IsNext self.old.state access.now.at }
        ensures edges { result.items ≡ edges_of self.old.state access.now times.old }
        ensures room { result.capacity ≡ edges_room }
        ensures state { self.new.state ≡ retired self.old.state access.now times.old }
        ensures times { times.new ≡ times_noted access.now times.old (clock_of self.new.state access.now.at.core) }
        ensures held { IsHeld access.now times.new (clock_of self.new.state access.now.at.core) }
        ensures adds { AddsAccess self.old.state access.now times.old result.items self.new.state }
    {
        let mut edges = EdgePlaces::new();
        self.retire_into(access, times, &mut edges);
        edges.to_list(self.alloc)
    }

    /// The same with the edges in the places that are lent, in place of what they had, so that no list is
    /// moved.
    #[inline(always)]
    pub fn retire_into(&mut self, access: &Access, times: &mut Times, edges: &mut EdgePlaces)
        requires ready { IsTrue self.old.ready }
        requires next { IsNext self.old.state access.now.at }
        ensures edges { edges.new ≡ edges_of self.old.state access.now times.old }
        ensures state { self.new.state ≡ retired self.old.state access.now times.old }
        ensures times { times.new ≡ times_noted access.now times.old (clock_of self.new.state access.now.at.core) }
        ensures held { IsHeld access.now times.new (clock_of self.new.state access.now.at.core) }
        ensures adds { AddsAccess self.old.state access.now times.old edges.new self.new.state }
    {
        self.draw(access, times, edges);
        self.count(access.at);
        note(access, self.clocks[access.at.core as usize], times);
    }

    /// Draws the edges from the access's candidates, and takes over their clocks.
    fn draw(&mut self, access: &Access, times: &Times, edges: &mut EdgePlaces)
        requires ready { IsTrue self.old.ready }
        requires own { access.now.at.core < self.old.state.cores }
        ensures state { self.new.state ≡ drawn self.old.state access.now.at (candidates self.old.state.cores
            (clock_of self.old.state access.now.at.core) access.now times.now) }
        ensures edges { edges.new ≡ edges_of self.old.state access.now times.now }
    {
        edges.clear();
        if !self.add_reads(access, times, edges) {
            self.add_write(access, times, edges);
        }
    }

    /// The same for the reads among them, and answers whether there are some.
    fn add_reads(&mut self, access: &Access, times: &Times, edges: &mut EdgePlaces) -> bool
        requires ready { IsTrue self.old.ready }
        requires own { access.now.at.core < self.old.state.cores }
        requires none { edges.old ≡ [] }
        ensures unread { result ≡ false → (self.new ≡ self.old) × (edges.new ≡ []) × (reads_from self.old.state.cores
            (clock_of self.old.state access.now.at.core) access.now times.now ≡ []) }
        ensures state { result ≡ true → self.new.state ≡ drawn self.old.state access.now.at (candidates
            self.old.state.cores (clock_of self.old.state access.now.at.core) access.now times.now) }
        ensures edges { result ≡ true → edges.new ≡ edges_of self.old.state access.now times.now }
    {
        let cores = self.cores;
        let own = access.at.core as usize;
        let found = LiveReads::new(cores, &self.clocks[own], access, times);
        if found.is_empty() {
            return false;
        }
        let clock = &mut self.clocks[own];
        add_reads(&mut self.pairs, clock, cores, access.at, &found, edges);
        true
    }

    /// The same for an access without reads among them: it has at most one, the write.
    fn add_write(&mut self, access: &Access, times: &Times, edges: &mut EdgePlaces)
        requires ready { IsTrue self.old.ready }
        requires own { access.now.at.core < self.old.state.cores }
        requires none { edges.old ≡ [] }
        requires unread { reads_from self.old.state.cores (clock_of self.old.state access.now.at.core)
            access.now times.now ≡ [] }
        ensures state { self.new.state ≡ drawn self.old.state access.now.at (candidates self.old.state.cores
            (clock_of self.old.state access.now.at.core) access.now times.now) }
        ensures edges { edges.new ≡ edges_of self.old.state access.now times.now }
    {
        let own = access.at.core as usize;
        if let Some((from, clock)) = live_write(self.cores, &self.clocks[own], access, times) {
            self.clocks[own].join(clock);
            add_edge(&mut self.pairs, self.cores, from, access.at, edges);
        }
    }

    /// Counts the instruction in its core's clock.
    fn count(&mut self, at: Instr)
        requires { at.core < self.old.state.cores }
        ensures state { self.new.state ≡ counted self.old.state at }
        ensures ready { self.new.ready ≡ self.old.ready }
    {
        self.clocks[at.core as usize].set(at.core, at.count);
    }

    /// The edges by pair of cores, each list rising in both counts. It takes no memory.
    pub fn finish(self) -> Items<Items<(u32, u32)>>
        ensures lists { result ≡ self.state.lists }
        ensures rising { (list : List Access) (edges : List Edge) →
            IsReduction list self.state edges → AreRising self.state result }
    {
        let Reducer { pairs, .. } = self;
        pairs.into_items()
    }
}
