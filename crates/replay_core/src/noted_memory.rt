//! The flat memory of a play, with what its loads read.
ghost use Rattle.std.specs.Prelude.{◌≡◌, ◌<◌, MatchResult, Some, length, slice_index};
ghost use Rattle.replay_core.specs.Runs.{ToldNoted, noted_keeps_accepting, noted_keeps_words, same_notes};

use crate::one_place::{leave, note};
use crate::watch::Watch;
use core_runs::{Reach, Refused};
use image_mem::{Memory, merge_lanes};
use load_lists::LoadLists;
use rtr_types::{Access, Instr, Kind};
use rv_core::atomics::exchanged;
use rv_decode::AmoOp;

/// A flat memory, and what the loads of each core read there.
pub(crate) struct NotedMemory {
    pub(crate) memory: Memory,
    pub(crate) loads: LoadLists,
}

impl Drop for NotedMemory {
    fn drop(self) {
        let NotedMemory {
            memory: _memory,
            loads: _loads,
        } = self;
    }
}

/// The words of the memory. Whoever watches is told of each access before anything changes, and may refuse it.
impl<W: Watch> Reach<W> for NotedMemory {
    ghost words = { λ m. length m.memory };

    ghost accepts = { λ m w at. (at.core < length m.loads.lists) × W.accepts w at };

    ghost told = { λ m w at used old new n v. ToldNoted W.touched m w at used old new n v };

    ghost refused = { λ m w at n v. same_notes m n };

    #[inline(always)]
    fn local(&mut self, _watch: &mut W, _at: Instr) {}

    #[inline(always)]
    fn load(&mut self, watch: &mut W, at: Instr, word: u32) -> Result<u32, Refused> {
        let value = self.memory.get(word);
        self.make(watch, at, (Kind::Load, word), value, value)?;
        Ok(value)
    }

    #[inline(always)]
    fn store(&mut self, watch: &mut W, at: Instr, word: u32, value: u32) -> Result<(), Refused> {
        let old = self.memory.get(word);
        self.make(watch, at, (Kind::Store, word), old, value)
    }

    #[inline(always)]
    fn store_part(
        &mut self,
        watch: &mut W,
        at: Instr,
        address: u32,
        size: u32,
        value: u32,
    ) -> Result<(), Refused> {
        let word = address / 4;
        let old = self.memory.get(word);
        let value = merge_lanes(old, value, address, size);
        self.make(watch, at, (Kind::Store, word), old, value)
    }

    #[inline(always)]
    fn change(
        &mut self,
        watch: &mut W,
        at: Instr,
        word: u32,
        op: AmoOp,
        value: u32,
    ) -> Result<u32, Refused> {
        let old = self.memory.get(word);
        let value = exchanged(op, old, value);
        self.make(watch, at, (Kind::Amo, word), old, value)?;
        Ok(old)
    }

    ghost keeps_words = { λ m w at used old new n v told. noted_keeps_words W.touched m w at used old new n v told };

    ghost keeps_accepting = { λ m w at used old new n v later told same below accepted.
        noted_keeps_accepting W.touched W.accepts W.keeps_accepting m w at used old new n v later told same below
        accepted };
}

impl NotedMemory {
    /// Makes an access, once there is room for what it reads and the watch is told of it.
    #[inline(always)]
    fn make<W: Watch>(
        &mut self,
        watch: &mut W,
        at: Instr,
        used: (Kind, u32),
        old: u32,
        value: u32,
    ) -> Result<(), Refused>
        requires core { at.core < length self.old.loads.lists }
        requires accepts { W.accepts watch.old at }
        requires word { used.1 < length self.old.memory }
        requires found { old ≡ slice_index self.old.memory used.1 }
        ensures { MatchResult result
            (λ _. ToldNoted W.touched self.old watch.old at (Some used) old value self.new watch.new)
            (λ _. same_notes self.old self.new) }
    {
        let Ok(()) = self.loads.make_room() else {
            return Err(Refused);
        };
        let (kind, word) = used;
        let access = Access {
            at,
            word,
            kind,
            before: old,
            after: value,
        };
        let Ok(()) = watch.touch(access) else {
            return Err(Refused);
        };
        note(&mut self.loads, at.core, Some(used), at.count, old);
        leave(&mut self.memory, Some(used), value);
        Ok(())
    }

    /// The memory, and the notes.
    pub(crate) fn into_parts(self) -> (Memory, LoadLists)
        ensures memory { result.0 ≡ self.memory }
        ensures loads { result.1 ≡ self.loads }
    {
        let NotedMemory { memory, loads } = self;
        (memory, loads)
    }
}
