//! Accesses by their instructions.
ghost use Rattle.std.specs.Prelude.{◌≡◌, ◌<◌, ◌≤◌, ◌+◌, ◌-◌, ◌↔◌, ℕ, IfOk, IsTrue, OnOk, [], length, replicate};
ghost use Rattle.std.specs.Prelude.{slice_get};
ghost use Rattle.conflict_edge.specs.Conflicts.{CountsRise};
ghost use Rattle.least_lists.specs.LeastLists.{AreOf};
ghost use Rattle.min_certificate.specs.Conflicting.{AreIndexed, BothConflict, IsAccessAt, IsPut};
ghost use Rattle.min_certificate.specs.Conflicting.{place_in};
ghost use Rattle.min_certificate.specs.Firsts.{FirstWithout};

use conflict_edge::conflicts;
use rtr_types::{Access, Edge, Instr, Items};
use std::alloc::{AllocError, Global};
use std::marker::Model;

/// The accesses of an order. For each core and each of its counts up to that of its last access there is
/// the place of the access with this count, from 1, or 0 where there is none. Contracts see it as the
/// accesses.
#[derive(Drop)]
pub struct CoreAccesses<'a> {
    accesses: &'a [Access],
    places: Vec<Items<usize>>,
}

impl<'a> Model for CoreAccesses<'a> {
    ghost use Rattle.std.specs.Prelude.{List};
    ghost use Rattle.rtr_types.specs.declared.access.Access.{Access};
    ghost use Rattle.min_certificate.specs.Conflicting.{AreIndexed};

    ghost Value = { List Access };

    ghost view = { λ a. a.accesses.now };

    ghost invariant = { λ a. AreIndexed a.accesses.now a.places.items };
}

impl<'a> CoreAccesses<'a> {
    /// The accesses of so many cores, whose counts rise. There is room for places up to the cores' totals.
    pub fn new(
        alloc: Global,
        cores: u8,
        accesses: &'a [Access],
        totals: &[u32],
    ) -> Result<CoreAccesses<'a>, AllocError>
        requires cores { AreOf cores accesses.now }
        requires rise { CountsRise accesses.now }
        ensures { IfOk result (λ index. index ≡ accesses.now) }
    {
        Ok(CoreAccesses {
            accesses,
            places: places_of(alloc, cores, accesses, totals)?,
        })
    }

    /// The access of an instruction, if it has one.
    fn find(&self, at: Instr) -> Option<Access>
        ensures { IsAccessAt self.now at result }
    {
        let place = place_in(&self.places, at);
        if place == 0 {
            return None;
        }
        access_at(self.accesses, place - 1)
    }

    /// Whether the accesses at the two ends of an edge conflict.
    pub fn is_conflict(&self, edge: Edge) -> bool
        ensures { IsTrue result ↔ BothConflict self.now edge.from edge.to }
    {
        match self.find(edge.from) {
            Some(first) => match self.find(edge.to) {
                Some(second) => conflicts(&first, &second),
                None => false,
            },
            None => false,
        }
    }

    /// The first edge that is no conflict.
    pub fn first_without(&self, edges: &[Edge]) -> Option<Edge>
        ensures { FirstWithout (BothConflict self.now) edges.now result }
    {
        for &edge in edges {
            if !self.is_conflict(edge) {
                return Some(edge);
            }
        }
        None
    }
}

/// The access at a place of the list, if there is one.
fn access_at(accesses: &[Access], place: usize) -> Option<Access>
    ensures { result ≡ slice_get accesses.now place }
{
    accesses.get(place).copied()
}

/// The place of an instruction's access, from 1, or 0 where it has none.
fn place_in(places: &[Items<usize>], at: Instr) -> usize
    ensures { result ≡ place_in places.now at.core at.count }
{
    if at.count == 0 {
        return 0;
    }
    match places.get(at.core as usize) {
        Some(list) => match list.as_slice().get(at.count as usize - 1) {
            Some(place) => *place,
            None => 0,
        },
        None => 0,
    }
}

/// No places of a core, with room for those up to its total.
fn no_places_of(alloc: Global, core: u8, totals: &[u32]) -> Result<Items<usize>, AllocError>
    ensures { IfOk result (λ places. places ≡ []) }
{
    let room = match totals.get(core as usize) {
        Some(total) => *total as usize,
        None => 0,
    };
    Ok(Items::from_vec(Vec::with_capacity(alloc, room)?))
}

/// No places of any of so many cores.
fn no_places(alloc: Global, cores: u8, totals: &[u32]) -> Result<Vec<Items<usize>>, AllocError>
    ensures { IfOk result (λ places. places.items ≡ replicate cores []) }
{
    let mut places = Vec::new(alloc);
    for core in 0..cores {
        places.push(no_places_of(alloc, core, totals)?)?;
    }
    Ok(places)
}

/// The place of each instruction's access.
fn places_of(
    alloc: Global,
    cores: u8,
    accesses: &[Access],
    totals: &[u32],
) -> Result<Vec<Items<usize>>, AllocError>
    requires cores { AreOf cores accesses.now }
    requires rise { CountsRise accesses.now }
    ensures { IfOk result (λ places. AreIndexed accesses.now places.items) }
{
    let mut places = no_places(alloc, cores, totals)?;
    for index in 0..accesses.len() {
        let at = accesses[index].at;
        put_place(&mut places[at.core as usize], at.count, index + 1)?;
    }
    Ok(places)
}

/// Puts a place at a count that is past all that have one.
fn put_place(list: &mut Items<usize>, count: u32, place: usize) -> Result<(), AllocError>
    requires { length list.old < count }
    ensures { OnOk result (IsPut list.old count place list.new) }
{
    for before in list.len()..count as usize - 1 {
        list.push(0)?;
    }
    list.push(place)?;
    Ok(())
}
