//! The parts of a machine's state.
ghost use Rattle.std.specs.Prelude.{◌≡◌, IfOk, length, map};
ghost use Rattle.std.specs.List.{range_with_len};
ghost use Rattle.msi_directory.specs.Blocks.{touched};
ghost use Rattle.tso_state.specs.States.{buffered_start, state_start};

use crate::station::Station;
use access_times::{Carry, Rider};
use msi_memory::MemorySystem;
use rv_core::Program;
use std::alloc::{AllocError, Global};
use std::marker::Model;

/// The image that the cores run, the cores with their pending accesses, and the memory system that they share.
/// Contracts see the state, and which of the home's blocks have room for a request.
///
/// It has no invariant, so that each call owes only what it does.
#[derive(Drop)]
pub struct Parts<R, K> {
    pub(crate) program: Program,
    pub(crate) cores: Vec<Station>,
    pub(crate) memory: MemorySystem<R, K>,
}

impl<R, K> Model for Parts<R, K> {
    ghost use Rattle.tso_core.specs.Machineries.{Machinery};

    ghost Value = { Machinery R K };

    ghost view = { λ a. record {
      state = record { image = a.program; cores = a.cores.items; memory = a.memory.memory };
      rooms = a.memory.rooms;
    } };
}

impl<R: Rider, K: Carry> Parts<R, K> {
    /// The parts at the start, with so many cores, each of which executes at most `limit` instructions.
    pub(crate) fn new(
        alloc: Global,
        program: Program,
        cores: u8,
        limit: u32,
    ) -> Result<Parts<R, K>, AllocError>
        ensures state { IfOk result (λ parts. parts.state ≡ state_start R.riding K.carrying program cores limit) }
        ensures untouched { IfOk result (λ parts. touched parts.rooms ≡ 0) }
    {
        let memory = MemorySystem::new(alloc, program.image(), cores)?;
        let cores = first_cores(alloc, cores, limit)?;
        Ok(Parts {
            program,
            cores,
            memory,
        })
    }

    /// The parts at the start again, with the memory that they have.
    pub(crate) fn restart(
        self,
        alloc: Global,
        cores: u8,
        limit: u32,
    ) -> Result<Parts<R, K>, AllocError>
        ensures state { IfOk result (λ parts.
            parts.state ≡ state_start R.riding K.carrying self.state.image cores limit) }
        ensures untouched { IfOk result (λ parts. touched parts.rooms ≡ 0) }
    {
        let Parts {
            program,
            cores: _cores,
            mut memory,
        } = self;
        memory.restart(alloc, program.image(), cores)?;
        let cores = first_cores(alloc, cores, limit)?;
        Ok(Parts {
            program,
            cores,
            memory,
        })
    }

    /// The program that the cores run.
    pub(crate) fn into_program(self) -> Program
        ensures { result ≡ self.state.image }
    {
        let Parts {
            program,
            cores: _cores,
            memory: _memory,
        } = self;
        program
    }
}

/// So many cores at their start.
#[tactic(auto, using(rtr_types::proofs::Ranges::map_range_more))]
fn first_cores(alloc: Global, cores: u8, limit: u32) -> Result<Vec<Station>, AllocError>
    ensures { IfOk result (λ made. made.items ≡ map (λ id. buffered_start id limit) (range_with_len 0 cores)) }
{
    let mut made = Vec::with_capacity(alloc, cores as usize)?;
    for id in 0..cores {
        made.push(Station::new(id, limit))?;
    }
    Ok(made)
}
