//! The edges of vectors by the instruction at which they arrive, and trials of vectors against others.
ghost use Rattle.std.specs.Prelude.{◌≡◌, ◌<◌, ◌≤◌, ◌++◌, ℕ, length, IfOk, OnOk};
ghost use Rattle.rtr_types.specs.declared.TheConstants.{CORES_MAX};
ghost use Rattle.stride_vector.specs.Vectors.{IsVector};
ghost use Rattle.vector_reduce.specs.Arrivals.{AnyDue, AreBetween, AreInto, IsBetween, IsClosedAt, IsClosing, NextDue};
ghost use Rattle.vector_reduce.specs.Arrivals.{Tries, arrivals_in, list_at};
ghost use Rattle.vector_reduce.specs.Kept.{beside, is_beside};
ghost use Rattle.vector_reduce.specs.Showing.{IsFormed};
ghost use Rattle.vector_reduce.specs.Vectors.{vector_at};

use crate::closing::Closing;
use crate::pair_vector::PairVector;
use crate::thinned::Shown;
use rtr_types::{CORES_MAX, Instr, Items};
use std::alloc::{AllocError, Global};
use std::marker::Model;

/// An edge into a core: the target's count, the source, and the number of the edge's vector, from 0.
#[derive(Clone, Copy)]
pub struct Arrival {
    pub count: u32,
    pub from: Instr,
    pub vector: usize,
}

/// Vectors, and for each core the edges into it by rising count of the target.
#[derive(Drop)]
pub struct Arrivals {
    cores: u8,
    vectors: Items<PairVector>,
    lists: Vec<Items<Arrival>>,
}

impl Model for Arrivals {
    ghost use Rattle.vector_reduce.specs.Arrivals.{Arranged, IsArranged};

    ghost Value = { Arranged };

    ghost view = { λ a. record { vectors = a.vectors; lists = a.lists.items } };

    ghost invariant = { λ a. IsArranged a.cores a.vectors a.lists.items };
}

impl Arrivals {
    /// The edges of these vectors, which lead between so many cores. Each is put into its core's list once.
    pub fn new(alloc: Global, cores: u8, vectors: Items<PairVector>) -> Result<Arrivals, AllocError>
        requires few { cores ≤ CORES_MAX }
        requires between { AreBetween cores vectors }
        ensures vectors { IfOk result (λ a. a.vectors ≡ vectors) }
        ensures cores { IfOk result (λ a. length a.lists ≡ cores) }
    {
        let mut lists = Vec::new(alloc);
        for core in 0..cores {
            lists.push(arrivals_into(alloc, vectors.as_slice(), core)?)?;
        }
        Ok(Arrivals {
            cores,
            vectors,
            lists,
        })
    }

    /// The vectors.
    pub fn vectors(&self) -> &[PairVector]
        ensures { result.now ≡ self.now.vectors }
    {
        self.vectors.as_slice()
    }

    /// What a trial of the next vector comes to, after so many answers whether one stays. The others are those
    /// that stay before it, and all after it. The answer has the number of the vector's first edge that they
    /// don't imply, with the least cut that has the edge's target and is closed under them. Where they imply
    /// all edges the number is that of the positions.
    ///
    /// The targets rise from each edge to the next, so that one cut grows along them: each edge of all
    /// vectors is looked up at most once in a trial.
    pub fn trial(&self, stays: &[bool]) -> Shown
        requires { length stays.now < length self.now.vectors }
        ensures tried { Tries (beside self.now.vectors stays.now) (vector_at self.now.vectors (length stays.now))
            result }
        ensures formed { IsFormed (length self.now.lists) result }
    {
        let vectors = self.vectors.as_slice();
        self.tried(&vectors[stays.len()], stays)
    }

    /// The same of this vector, which is the next one.
    fn tried(&self, vector: &PairVector, stays: &[bool]) -> Shown
        requires { IsBetween (length self.now.lists) vector.now }
        ensures tried { Tries (beside self.now.vectors stays.now) vector.now result }
        ensures formed { IsFormed (length self.now.lists) result }
    {
        let mut closing = Closing::none();
        for position in 0..vector.vector.n {
            let edge = vector.edge(position);
            self.close(&mut closing, stays, edge.to);
            if !closing.holds(edge.from) {
                let least = closing.cut(self.cores);
                return Shown {
                    edge: position,
                    cut: least,
                };
            }
        }
        let cut = closing.cut(self.cores);
        Shown {
            edge: vector.vector.n,
            cut,
        }
    }

    /// Puts an instruction into a cut, and all that leads to it by the others of the next vector.
    fn close(&self, closing: &mut Closing, stays: &[bool], at: Instr)
        requires core { at.core < length self.now.lists }
        requires closing { IsClosing self.now stays.now at closing.old }
        ensures { IsClosedAt self.now stays.now at closing.new }
    {
        // What always holds of the arrivals: each list is its core's, in order.
        let _ = &self.lists;
        closing.raise(at);
        while let Some((core, arrival)) = self.due(closing) {
            closing.take(is_beside(stays, arrival.vector), arrival.from);
            closing.pass(core);
        }
    }

    /// A core whose next arrival has its target in the cut, with that arrival.
    fn due(&self, closing: &Closing) -> Option<(u8, Arrival)>
        ensures { AnyDue self.now.lists closing.now result }
    {
        for core in 0..self.cores {
            if let Some(arrival) = self.next(closing, core) {
                return Some((core, arrival));
            }
        }
        None
    }

    /// The core's next arrival, if its target lies in the cut.
    fn next(&self, closing: &Closing, core: u8) -> Option<Arrival>
        requires { core < length self.now.lists }
        ensures { NextDue (list_at self.now.lists core) closing.now core result }
    {
        match self.lists[core as usize]
            .as_slice()
            .get(closing.passed[core as usize])
        {
            Some(arrival) => {
                if arrival.count <= closing.counts[core as usize] {
                    Some(*arrival)
                } else {
                    None
                }
            }
            None => None,
        }
    }
}

/// Whether a vector is one of the others of the next one, after so many answers whether one stays.
#[tactic(auto, using(crate::proofs::Next::beside_at, crate::proofs::Next::beside_past))]
fn is_beside(stays: &[bool], number: usize) -> bool
    ensures { result ≡ is_beside stays.now number }
{
    if number < stays.len() {
        return stays[number];
    }
    stays.len() < number
}

/// Puts the edges of a vector with this number at the end.
#[tactic(auto, using(crate::proofs::Next::arrivals_more))]
fn push_arrivals(
    list: &mut Vec<Arrival>,
    number: usize,
    vector: &PairVector,
) -> Result<(), AllocError>
    requires { IsVector vector.now.vector }
    ensures { OnOk result (list.new.items ≡ list.old.items ++ arrivals_in number vector.now) }
{
    for position in 0..vector.vector.n {
        let edge = vector.edge(position);
        list.push(Arrival {
            count: edge.to.count,
            from: edge.from,
            vector: number,
        })?;
    }
    Ok(())
}

/// The edges into a core, by rising count of the target.
#[tactic(auto, using(crate::proofs::GatheredEdges::gathers_more, crate::proofs::GatheredEdges::gathers_past))]
fn arrivals_into(
    alloc: Global,
    vectors: &[PairVector],
    core: u8,
) -> Result<Items<Arrival>, AllocError>
    requires { (k : ℕ) → k < length vectors.now → IsVector (vector_at vectors.now k).vector }
    ensures { IfOk result (AreInto vectors.now core) }
{
    let mut list = Vec::new(alloc);
    for (number, vector) in vectors.iter().enumerate() {
        if vector.to == core {
            push_arrivals(&mut list, number, vector)?;
        }
    }
    list.sort_by_key(|arrival| arrival.count)?;
    Ok(Items::from_vec(list))
}
