//! A core, its lines, and what is on its way to and from it.
ghost use Rattle.std.specs.Prelude.{◌≡◌, false};
ghost use Rattle.msi_state.specs.Events.{next_instr};
ghost use Rattle.rv_core.specs.Steps.{after, instruction_at, is_done, need, wrote};
ghost use Rattle.flat_state.specs.Shows.{node_after};

use crate::message_ring::MessageRing;
use crate::reply_ring::ReplyRing;
use msi_cache::State;
use rtr_types::Instr;
use rv_core::{Core, Need, Program};
use rv_decode::Op;

/// What a core asks of the home: to share a block, to own it, or to give a shared or an owned copy back.
#[derive(Clone, Copy)]
pub enum Ask {
    GetS,
    GetM,
    PutS,
    PutM,
}

/// A line: the block whose right it has, and the place of that block's entry.
#[derive(Clone, Copy)]
pub struct KeptLine {
    pub block: u32,
    pub place: u32,
    pub state: State,
}

/// A core at its port.
#[derive(Drop)]
pub struct Node {
    pub core: Core,
    /// What its next instruction needs.
    pub need: Need,
    /// Its next instruction, decoded.
    pub op: Option<Op>,
    pub lines: [KeptLine; 16],
    /// Whether a request of its is on its way, which asks this for the block at this place.
    pub asks: bool,
    pub ask: Ask,
    pub place: u32,
    /// What it answered to the home.
    pub replies: ReplyRing,
    /// What the home told it.
    pub messages: MessageRing,
}

impl Node {
    /// The instruction that the core retires next.
    #[tactic(auto, using(rv_core::proofs::LawLemmas::room_law))]
    pub fn next_instr(&self, _program: &Program) -> Instr
        requires { is_done (need _program.now self.now.core) ≡ false }
        ensures { result ≡ next_instr self.now.core }
    {
        let core = &self.core;
        prove!(core.count < core.limit);
        Instr {
            core: core.id(),
            count: core.count() + 1,
        }
    }

    /// The core's next instruction retires, which finds this word if it looks at one. Answers the word that it leaves.
    pub fn retire(&mut self, program: &Program, before: u32) -> u32
        requires more { is_done (need program.now self.old.core) ≡ false }
        requires op { self.old.op ≡ instruction_at program.now self.old.core.pc }
        ensures node { self.new ≡ node_after program.now self.old self.old.core before }
        ensures value { result ≡ wrote program.now self.old.core before }
    {
        let value = self.core.finish_op(program.image(), self.op, before);
        self.op = program.op(self.core.pc());
        self.need = self.core.need_by_op(program.image(), self.op);
        value
    }
}
