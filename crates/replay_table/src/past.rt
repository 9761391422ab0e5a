//! What a core has done.
ghost use Rattle.std.specs.Prelude.{◌≡◌, ◌<◌, ◌≤◌, ℕ, [], IsTrue, OnOk, false};
ghost use Rattle.rv_core.specs.Steps.{need, after, wrote, is_done, instruction_at};
ghost use Rattle.replay_table.specs.Aheads.{AreLocal};
ghost use Rattle.replay_table.specs.Seats.{FitsNote, Notes};

use crate::gate::Gate;
use crate::locals::NoWord;
use core_runs::Ran;
use image_mem::Image;
use replay_audit::Touch;
use rtr_types::{Instr, Kind};
use rv_core::{Core, LoadNote, Program};
use rv_decode::Op;
use std::alloc::{AllocError, Global};
use std::marker::Model;
use touch_judge::TouchNote;

/// A core, what its loads got, and its accesses, oldest first. Contracts see these, and whether there
/// is room for one access more.
#[derive(Drop)]
pub(crate) struct Past {
    core: Core,
    loads: Vec<LoadNote>,
    touched: Vec<TouchNote>,
}

impl Model for Past {
    ghost use Rattle.std.specs.Prelude.{◌&&◌, length, nat_lt, vec_capacity};
    ghost use Rattle.replay_table.specs.Seats.{Past as SeenPast};

    ghost Value = { SeenPast };

    ghost view = { λ a. record {
      core = a.core;
      loads = a.loads.items;
      touched = a.touched.items;
      roomy =
          nat_lt (length a.loads.items) (vec_capacity a.loads)
          && nat_lt (length a.touched.items) (vec_capacity a.touched);
    } };
}

impl Past {
    /// A core that has done nothing.
    pub(crate) fn new(alloc: Global, core: Core) -> Past
        ensures core { result.core ≡ core }
        ensures loads { result.loads ≡ [] }
        ensures touched { result.touched ≡ [] }
    {
        Past {
            core,
            loads: Vec::new(alloc),
            touched: Vec::new(alloc),
        }
    }

    /// The core.
    pub(crate) fn core(&self) -> &Core
        ensures { result.now ≡ self.now.core }
    {
        &self.core
    }

    /// Whether there is room for one access more.
    pub(crate) fn has_room(&self) -> bool
        ensures { result ≡ self.now.roomy }
    {
        self.loads.len() < self.loads.capacity() && self.touched.len() < self.touched.capacity()
    }

    /// Makes room for one access more. After want of memory the past is as it was.
    pub(crate) fn make_room(&mut self) -> Result<(), AllocError>
        ensures core { self.new.core ≡ self.old.core }
        ensures loads { self.new.loads ≡ self.old.loads }
        ensures touched { self.new.touched ≡ self.old.touched }
        ensures room { OnOk result (IsTrue self.new.roomy) }
    {
        self.loads.reserve(1)?;
        self.touched.reserve(1)
    }

    /// The core retires its next instruction where it stands. The instruction finds the value `old` in its word;
    /// the answer is the word's value after it.
    #[inline(always)]
    pub(crate) fn finish(&mut self, image: &Image, op: Option<Op>, old: u32) -> u32
        requires more { is_done (need image.now self.old.core) ≡ false }
        requires at_pc { op ≡ instruction_at image.now self.old.core.pc }
        ensures core { self.new.core ≡ after image.now self.old.core old }
        ensures loads { self.new.loads ≡ self.old.loads }
        ensures touched { self.new.touched ≡ self.old.touched }
        ensures room { self.new.roomy ≡ self.old.roomy }
        ensures value { result ≡ wrote image.now self.old.core old }
    {
        self.core.finish_op(image, op, old)
    }

    /// Local instructions of the core retire up to this count, which is at most its limit, as long as the next one is
    /// local. The gate is passed before each. Answers whether the count wasn't reached.
    #[inline(always)]
    pub(crate) fn run<G: Gate>(&mut self, program: &Program, until: u32, gate: &G) -> bool
        requires up { self.old.core.count < until }
        requires limit { until ≤ self.old.core.limit }
        ensures core { (n : ℕ) × AreLocal program.now n self.old.core self.new.core }
        ensures within { self.new.core.count ≤ until }
        ensures sooner { IsTrue result → self.new.core.count < until }
        ensures whole { result ≡ false → self.new.core.count ≡ until }
        ensures loads { self.new.loads ≡ self.old.loads }
        ensures touched { self.new.touched ≡ self.old.touched }
        ensures room { self.new.roomy ≡ self.old.roomy }
    {
        let mut reach = NoWord {
            words: program.image().words(),
            gate,
        };
        let ran = core_runs::run(&mut self.core, program, until, &mut reach, &mut ());
        match ran {
            Ran::Whole => false,
            Ran::Done | Ran::Refused => true,
        }
    }

    /// The core has become this one.
    pub(crate) fn go_on(&mut self, next: Core)
        ensures core { self.new.core ≡ next }
        ensures loads { self.new.loads ≡ self.old.loads }
        ensures touched { self.new.touched ≡ self.old.touched }
        ensures room { self.new.roomy ≡ self.old.roomy }
    {
        self.core = next;
    }

    /// The core has retired an access, which found a value.
    pub(crate) fn note(&mut self, used: Option<(Kind, u32)>, value: u32)
        requires room { IsTrue self.old.roomy }
        requires fits { FitsNote self.old.core used }
        ensures { Notes self.old self.old.core used value self.new }
    {
        let Some((kind, word)) = used else { return };
        let at = Instr {
            core: self.core.id(),
            count: self.core.count(),
        };
        if kind.is_read() {
            self.loads.push_reserved(LoadNote {
                count: at.count,
                word,
                value,
            });
        }
        self.touched
            .push_reserved(TouchNote::new(Touch { at, word, kind }));
    }

    /// The parts.
    pub(crate) fn into_parts(self) -> (Core, Vec<LoadNote>, Vec<TouchNote>)
        ensures core { result.0 ≡ self.core }
        ensures loads { result.1.items ≡ self.loads }
        ensures touched { result.2.items ≡ self.touched }
    {
        let Past {
            core,
            loads,
            touched,
        } = self;
        (core, loads, touched)
    }
}
