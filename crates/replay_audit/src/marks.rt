//! The last write of each word, and the reads since that matter.
ghost use Rattle.std.specs.Prelude.{◌≡◌, ◌<◌, ◌≤◌, ℕ, IfOk, IsTrue, OnOk, [], length, replicate, slice_index};
ghost use Rattle.rtr_types.specs.declared.TheConstants.{CORES_MAX};
ghost use Rattle.rtr_types.specs.declared.instr.Instr.{Instr as SomeInstr};
ghost use Rattle.replay_audit.specs.declared.marks.Reads.TheVariants.{Crowd};
ghost use Rattle.replay_audit.specs.Marks.{AreMarksCovered, IsElsewhere, IsMark, IsMarked, IsReadNext, IsReader};
ghost use Rattle.replay_audit.specs.Marks.{crowd_of, first_mark, HasRead, mark_at};

use crate::clock_of::ClockOf;
use block_lists::BlockList;
use clock_core::Clock;
use rtr_types::{Access, CORES_MAX, Instr};
use std::alloc::{AllocError, Global};
use std::marker::Model;

/// The reads of a word since its last write that matter.
#[derive(Clone, Copy)]
enum Reads {
    /// There are none.
    Unread,
    /// One, and each other read is ordered before it.
    One { at: Instr },
    /// Several, whose counts stand in the word's crowd.
    Crowd,
}

/// The last write of a word, the reads since that matter, and the number of the word's crowd, counted from
/// 1. It is 0 where the word never had one.
#[derive(Clone, Copy)]
struct Mark {
    write: Instr,
    reads: Reads,
    crowd: usize,
}

/// A mark for each word, and the crowds: for each core the count of a read, or 0. Each word has its own. Marks of words
/// that nobody touched take no memory.
#[derive(Drop)]
pub struct Marks {
    marks: BlockList<Mark>,
    crowds: Vec<Clock>,
}

impl Model for Marks {
    ghost use Rattle.replay_audit.specs.Marks.{AreSound, Marked};

    ghost Value = { Marked };

    ghost view = { λ a. record { marks = a.marks; crowds = a.crowds.items } };

    ghost invariant = { λ a. AreSound (record { marks = a.marks; crowds = a.crowds.items }) };
}

impl Marks {
    /// No access yet, to any of so many words.
    pub fn new(alloc: Global, words: u32) -> Result<Marks, AllocError>
        ensures marks { IfOk result (λ marks. marks.marks ≡ replicate words first_mark) }
        ensures crowds { IfOk result (λ marks. marks.crowds ≡ []) }
    {
        let marks = BlockList::new(alloc, words as usize, Mark::first())?;
        let crowds = Vec::new(alloc);
        Ok(Marks { marks, crowds })
    }

    /// Marks an access, whose clock this is. The answer is whether the clock covers what was marked before: the last
    /// write of the access's word and, where the access writes, the reads since.
    #[inline(always)]
    pub fn note(&mut self, access: &Access, clock: &ClockOf) -> Result<bool, AllocError>
        requires { access.now.at.core < CORES_MAX }
        ensures covered { IfOk result (λ covered. IsTrue covered → AreMarksCovered self.old access.now clock.now) }
        ensures marked { IfOk result (λ _. IsMarked self.old access.now clock.now self.new) }
    {
        let word = access.word as usize;
        if word >= self.marks.len() {
            return Ok(false);
        }
        let mark = *self.marks.get(word);
        let covered = clock.covers(mark.write);
        if access.kind.is_write() {
            let covered = covered && self.are_reads_covered(&mark, clock);
            self.write(word, mark.crowd, access.at)?;
            return Ok(covered);
        }
        self.read(word, mark, access.at, clock)?;
        Ok(covered)
    }

    /// Whether the clock covers the reads of a mark.
    #[inline(always)]
    fn are_reads_covered(&self, mark: &Mark, clock: &ClockOf) -> bool
        requires { IsMark self.now.crowds mark.now }
        ensures { IsTrue result → (x : SomeInstr) → x.core < CORES_MAX → HasRead self.now.crowds mark.now x →
            x.count ≤ slice_index clock.now x.core }
    {
        match mark.reads {
            Reads::Unread => true,
            Reads::One { at } => clock.covers(at),
            Reads::Crowd => { is_crowd_covered(&self.crowds[mark.crowd - 1], &clock.to_clock()) }
        }
    }

    /// Marks a write: it forgets the reads before it. The word has the crowd with this number.
    #[inline(always)]
    fn write(&mut self, word: usize, crowd: usize, at: Instr) -> Result<(), AllocError>
        requires word { word < length self.old.marks }
        requires crowd { crowd ≡ (mark_at self.old word).crowd }
        requires core { at.core < CORES_MAX }
        ensures elsewhere { OnOk result (IsElsewhere self.old word self.new) }
        ensures write { OnOk result ((mark_at self.new word).write ≡ at) }
    {
        let mark = Mark {
            write: at,
            reads: Reads::Unread,
            crowd,
        };
        self.marks.set(word, mark)
    }

    /// Marks a read of the word with this mark. It takes the place of one that its clock covers.
    #[inline(always)]
    fn read(
        &mut self,
        word: usize,
        mark: Mark,
        at: Instr,
        clock: &ClockOf,
    ) -> Result<(), AllocError>
        requires word { word < length self.old.marks }
        requires mark { mark ≡ mark_at self.old word }
        requires is { IsMark self.old.crowds mark }
        requires core { at.core < CORES_MAX }
        ensures elsewhere { OnOk result (IsElsewhere self.old word self.new) }
        ensures read { OnOk result (IsReadNext self.old word at clock.now self.new) }
    {
        match mark.reads {
            Reads::Unread => self.replace(word, mark, at),
            Reads::One { at: one } => {
                if !clock.covers(one) {
                    return self.gather(word, one, at);
                }
                self.replace(word, mark, at)
            }
            Reads::Crowd => {
                self.join(word, at);
                Ok(())
            }
        }
    }

    /// Has this as the one read of the word with this mark.
    #[inline(always)]
    fn replace(&mut self, word: usize, mark: Mark, at: Instr) -> Result<(), AllocError>
        requires word { word < length self.old.marks }
        requires mark { mark ≡ mark_at self.old word }
        requires core { at.core < CORES_MAX }
        ensures elsewhere { OnOk result (IsElsewhere self.old word self.new) }
        ensures write { OnOk result ((mark_at self.new word).write ≡ (mark_at self.old word).write) }
        ensures read { OnOk result (IsReader self.new word at) }
    {
        let mark = Mark {
            write: mark.write,
            reads: Reads::One { at },
            crowd: mark.crowd,
        };
        self.marks.set(word, mark)
    }

    /// Has two reads in the word's crowd.
    #[inline(never)]
    fn gather(&mut self, word: usize, one: Instr, at: Instr) -> Result<(), AllocError>
        requires word { word < length self.old.marks }
        requires core { (one.core < CORES_MAX) × (at.core < CORES_MAX) }
        ensures elsewhere { OnOk result (IsElsewhere self.old word self.new) }
        ensures write { OnOk result ((mark_at self.new word).write ≡ (mark_at self.old word).write) }
        ensures reads { OnOk result (IsReader self.new word one × IsReader self.new word at) }
    {
        let mut reads = Clock::zero();
        raise(&mut reads, one);
        raise(&mut reads, at);
        self.set_crowd(word, reads)
    }

    /// Has these counts as the word's crowd.
    fn set_crowd(&mut self, word: usize, reads: Clock) -> Result<(), AllocError>
        requires { word < length self.old.marks }
        ensures elsewhere { OnOk result (IsElsewhere self.old word self.new) }
        ensures write { OnOk result ((mark_at self.new word).write ≡ (mark_at self.old word).write) }
        ensures crowd { OnOk result ((mark_at self.new word).reads ≡ Crowd) }
        ensures reads { OnOk result (crowd_of self.new.crowds (mark_at self.new word) ≡ reads) }
    {
        let Mark {
            write,
            reads: _reads,
            crowd,
        } = *self.marks.get(word);
        if crowd > 0 {
            self.crowds[crowd - 1] = reads;
            let mark = Mark {
                write,
                reads: Reads::Crowd,
                crowd,
            };
            self.marks.set(word, mark)?;
            return Ok(());
        }
        self.crowds.push(reads)?;
        let mark = Mark {
            write,
            reads: Reads::Crowd,
            crowd: self.crowds.len(),
        };
        self.marks.set(word, mark)
    }

    /// Has one read more in the word's crowd.
    #[inline(never)]
    fn join(&mut self, word: usize, at: Instr)
        requires word { word < length self.old.marks }
        requires core { at.core < CORES_MAX }
        requires crowd { (mark_at self.old word).reads ≡ Crowd }
        ensures elsewhere { IsElsewhere self.old word self.new }
        ensures write { (mark_at self.new word).write ≡ (mark_at self.old word).write }
        ensures read { IsReader self.new word at }
        ensures reads { (x : SomeInstr) → IsReader self.old word x → IsReader self.new word x }
    {
        let crowd = self.marks.get(word).crowd - 1;
        raise(&mut self.crowds[crowd], at);
    }
}

impl Mark {
    /// No access yet.
    fn first() -> Mark
        ensures { result ≡ first_mark }
    {
        Mark {
            write: Instr { core: 0, count: 0 },
            reads: Reads::Unread,
            crowd: 0,
        }
    }
}

/// Whether the clock covers each count of a crowd.
#[inline(never)]
fn is_crowd_covered(crowd: &Clock, clock: &Clock) -> bool
    ensures { IsTrue result → (i : ℕ) → i < CORES_MAX → slice_index crowd.now i ≤ slice_index clock.now i }
{
    for core in 0..CORES_MAX {
        if crowd.get(core) > clock.get(core) {
            return false;
        }
    }
    true
}

/// Raises the count at the instruction's core to its own, where that is greater.
fn raise(crowd: &mut Clock, at: Instr)
    requires { at.core < CORES_MAX }
    ensures has { at.count ≤ slice_index crowd.new at.core }
    ensures keeps { (i : ℕ) → slice_index crowd.old i ≤ slice_index crowd.new i }
{
    let count = crowd.get(at.core).max(at.count);
    crowd.set(at.core, count);
}
