//! The parts of a machine's state, and what its cores do in their moves.
ghost use Rattle.std.specs.Prelude.{◌≡◌, ◌<◌, ◌/◌, IfOk, IsTrue, false, length, map, true};
ghost use Rattle.std.specs.List.{range_with_len};
ghost use Rattle.rtr_types.specs.declared.TheConstants.{BLOCK_WORDS};
ghost use Rattle.rv_core.specs.States.{starting};
ghost use Rattle.rv_core.specs.Steps.{access_of as need_access, is_done, need};
ghost use Rattle.msi_directory.specs.Blocks.{touched};
ghost use Rattle.msi_machine.specs.Standings.{standing_at};
ghost use Rattle.msi_machine.specs.Workings.{CanAsk, Does, IsThere, Makes, retiring_access, retiring_local};
ghost use Rattle.msi_memory.specs.Acts.{TakeMessage, allows};
ghost use Rattle.msi_memory.specs.Memories.{port_at};
ghost use Rattle.msi_memory.specs.Rests.{HasRoomFor as HasActRoom};
ghost use Rattle.msi_state.specs.declared.moves.Move.{Move};
ghost use Rattle.msi_state.specs.Events.{instr_of, next_instr};
ghost use Rattle.msi_state.specs.Rests.{has_row_for, may_access};
ghost use Rattle.msi_state.specs.States.{core_at, state_start};
ghost use Rattle.msi_state.specs.Steps.{event};

use crate::standing::Standing;
use access_times::{Carry, Clerk, Rider};
use msi_memory::MemorySystem;
use rtr_types::{Access, BLOCK_WORDS, Instr, Kind};
use rv_core::{Core, Program};
use std::alloc::{AllocError, Global};
use std::marker::Model;

/// The image that the cores run, the cores, and the memory system that they share. Contracts see the state,
/// and which of the home's blocks have room for a request.
///
/// It has no invariant, so that each call owes only what it does.
#[derive(Drop)]
pub struct Parts<R, K> {
    pub(crate) program: Program,
    pub(crate) cores: Vec<Core>,
    pub(crate) memory: MemorySystem<R, K>,
}

impl<R, K> Model for Parts<R, K> {
    ghost use Rattle.msi_state.specs.States.{Machinery};

    ghost Value = { Machinery R K };

    ghost view = { λ a. record {
      state = record { image = a.program; cores = a.cores.items; memory = a.memory.memory };
      rooms = a.memory.rooms;
    } };
}

impl<R: Rider, K: Carry> Parts<R, K> {
    /// The parts at the start, with so many cores, each of which retires at most `limit` instructions.
    pub(crate) fn new(
        alloc: Global,
        program: Program,
        cores: u8,
        limit: u32,
    ) -> Result<Parts<R, K>, AllocError>
        ensures state { IfOk result (λ parts. parts.state ≡ state_start R.riding K.carrying program cores limit) }
        ensures untouched { IfOk result (λ parts. touched parts.rooms ≡ 0) }
    {
        let memory = MemorySystem::new(alloc, program.image(), cores)?;
        let cores = first_cores(alloc, cores, limit)?;
        Ok(Parts {
            program,
            cores,
            memory,
        })
    }

    /// The parts at the start again, with the memory that they have.
    pub(crate) fn restart(
        self,
        alloc: Global,
        cores: u8,
        limit: u32,
    ) -> Result<Parts<R, K>, AllocError>
        ensures state { IfOk result (λ parts.
            parts.state ≡ state_start R.riding K.carrying self.state.image cores limit) }
        ensures untouched { IfOk result (λ parts. touched parts.rooms ≡ 0) }
    {
        let Parts {
            program,
            cores: _cores,
            mut memory,
        } = self;
        memory.restart(alloc, program.image(), cores)?;
        let cores = first_cores(alloc, cores, limit)?;
        Ok(Parts {
            program,
            cores,
            memory,
        })
    }

    /// The program that the cores run.
    pub(crate) fn into_program(self) -> Program
        ensures { result ≡ self.state.image }
    {
        let Parts {
            program,
            cores: _cores,
            memory: _memory,
        } = self;
        program
    }

    /// Core `c` moves: its next instruction retires, or what that needs is asked for. What was kept of the
    /// core is renewed.
    pub(crate) fn work<C: Clerk<R, K>>(
        &mut self,
        c: u8,
        standing: &mut Standing,
        clerk: &mut C,
    ) -> Option<Instr>
        requires more { is_done (need self.old.state.image (core_at self.old.state.cores c)) ≡ false }
        requires there { IsThere self.old.state c }
        requires stands { standing.old ≡ standing_at K.carrying self.old.state c }
        requires accepts { C.accepts clerk.old (next_instr (core_at self.old.state.cores c)) }
        requires asks { CanAsk K.carrying self.old.state c }
        ensures made { Makes C.told_local C.told_touch R.riding K.carrying self.old self.new (Move.Core c) result
            clerk.old clerk.new }
        ensures renewed { standing.new ≡ standing_at K.carrying self.new.state c }
    {
        match standing.need.access() {
            None => Some(self.retire_local(c, standing, clerk)),
            Some((kind, word)) => {
                let block = word / BLOCK_WORDS as u32;
                if self.memory.allows(c, block, kind) {
                    return Some(self.retire_access(c, standing, word, kind, clerk));
                }
                self.memory.want(c, block, kind);
                standing.waits = true;
                None
            }
        }
    }

    /// Core `c` takes the oldest message from home. After a block's data the instruction that waited for them
    /// retires. What was kept of the core is renewed.
    pub(crate) fn receive<C: Clerk<R, K>>(
        &mut self,
        c: u8,
        standing: &mut Standing,
        clerk: &mut C,
    ) -> Option<Instr>
        requires row { IsTrue (has_row_for R.riding K.carrying self.old.state (Move.FromHome c)) }
        requires room { HasActRoom R.riding K.carrying self.old.state.memory (TakeMessage c) }
        requires there { IsThere self.old.state c }
        requires stands { standing.old ≡ standing_at K.carrying self.old.state c }
        requires accepts { is_done (need self.old.state.image (core_at self.old.state.cores c)) ≡ false
            → C.accepts clerk.old (next_instr (core_at self.old.state.cores c)) }
        ensures made { Makes C.told_local C.told_touch R.riding K.carrying self.old self.new (Move.FromHome c) result
            clerk.old clerk.new }
        ensures renewed { standing.new ≡ standing_at K.carrying self.new.state c }
    {
        if self.memory.take_message(c, &mut standing.waits) {
            return self.retire_waiting(c, standing, clerk);
        }
        None
    }

    /// The instruction that core `c` retires next.
    #[tactic(auto, using(rv_core::proofs::LawLemmas::room_law))]
    fn next_instr(&self, c: u8) -> Instr
        requires here { c < length self.now.state.cores }
        requires more { is_done (need self.now.state.image (core_at self.now.state.cores c)) ≡ false }
        ensures { result ≡ next_instr (core_at self.now.state.cores c) }
    {
        let core = &self.cores[c as usize];
        // For the prover: what always holds of the program and a core gives the line below.
        let _program = &self.program;
        prove!(core.count < core.limit);
        Instr {
            core: core.id(),
            count: core.count() + 1,
        }
    }

    /// An instruction retires that touches no data.
    fn retire_local<C: Clerk<R, K>>(
        &mut self,
        c: u8,
        standing: &mut Standing,
        clerk: &mut C,
    ) -> Instr
        requires there { IsThere self.old.state c }
        requires stands { standing.old ≡ standing_at K.carrying self.old.state c }
        requires more { is_done (need self.old.state.image (core_at self.old.state.cores c)) ≡ false }
        requires accepts { C.accepts clerk.old (next_instr (core_at self.old.state.cores c)) }
        ensures retired { result ≡ next_instr (core_at self.old.state.cores c) }
        ensures done { Does C.told_local C.told_touch R.riding K.carrying self.old self.new c
            (retiring_local self.old.state c) clerk.old clerk.new }
        ensures renewed { standing.new ≡ standing_at K.carrying self.new.state c }
    {
        let at = self.next_instr(c);
        let core = &mut self.cores[c as usize];
        let _value = core.finish_op(self.program.image(), standing.op, 0);
        standing.look_ahead(&self.program, core);
        self.memory.retire(c, at);
        clerk.local(at, self.memory.carry(c));
        at
    }

    /// An instruction retires with an access that its port allows.
    fn retire_access<C: Clerk<R, K>>(
        &mut self,
        c: u8,
        standing: &mut Standing,
        word: u32,
        kind: Kind,
        clerk: &mut C,
    ) -> Instr
        requires there { IsThere self.old.state c }
        requires allowed { IsTrue (allows R.riding (port_at K.carrying self.old.state.memory.ports c)
            (word / BLOCK_WORDS) kind) }
        requires stands { standing.old ≡ standing_at K.carrying self.old.state c }
        requires more { is_done (need self.old.state.image (core_at self.old.state.cores c)) ≡ false }
        requires accepts { C.accepts clerk.old (next_instr (core_at self.old.state.cores c)) }
        ensures retired { result ≡ next_instr (core_at self.old.state.cores c) }
        ensures done { Does C.told_local C.told_touch R.riding K.carrying self.old self.new c
            (retiring_access R.riding K.carrying self.old.state c word kind) clerk.old clerk.new }
        ensures renewed { standing.new ≡ standing_at K.carrying self.new.state c }
    {
        let at = self.next_instr(c);
        let before = self.memory.word(c, word);
        let core = &mut self.cores[c as usize];
        let after = core.finish_op(self.program.image(), standing.op, before);
        standing.look_ahead(&self.program, core);
        self.memory.retire(c, at);
        self.memory.touch(
            c,
            Access {
                at,
                word,
                kind,
                before,
                after,
            },
            clerk,
        );
        at
    }

    /// The access is made that the core needs, and its instruction retires.
    fn retire_waiting<C: Clerk<R, K>>(
        &mut self,
        c: u8,
        standing: &mut Standing,
        clerk: &mut C,
    ) -> Option<Instr>
        requires ready { IsTrue (may_access (need_access (need self.old.state.image (core_at self.old.state.cores c)))
            R.riding (port_at K.carrying self.old.state.memory.ports c)) }
        requires there { IsThere self.old.state c }
        requires stands { standing.old ≡ standing_at K.carrying self.old.state c }
        requires accepts { C.accepts clerk.old (next_instr (core_at self.old.state.cores c)) }
        ensures retired { result ≡ instr_of (event R.riding K.carrying self.old.state (Move.Core c)) }
        ensures done { Does C.told_local C.told_touch R.riding K.carrying self.old self.new c
            (event R.riding K.carrying self.old.state (Move.Core c)) clerk.old clerk.new }
        ensures renewed { standing.new ≡ standing_at K.carrying self.new.state c }
    {
        let (kind, word) = standing.need.access()?;
        Some(self.retire_access(c, standing, word, kind, clerk))
    }
}

/// So many cores at their start.
#[tactic(auto, using(rtr_types::proofs::Ranges::map_range_more))]
fn first_cores(alloc: Global, cores: u8, limit: u32) -> Result<Vec<Core>, AllocError>
    ensures { IfOk result (λ made. made.items ≡ map (λ id. starting id limit) (range_with_len 0 cores)) }
{
    let mut made = Vec::with_capacity(alloc, cores as usize)?;
    for id in 0..cores {
        made.push(Core::new(id, limit))?;
    }
    Ok(made)
}
