//! What the acts of a run wait for, so that each two that conflict keep their order.
ghost use Rattle.std.specs.Prelude.{◌≡◌, ◌<◌, ℕ, IfOk, OnOk, length, slice_index_or};
ghost use Rattle.turn_lists.specs.declared.actor.Actor.{Actor};
ghost use Rattle.small_turns.specs.Acts.{acts_of};
ghost use Rattle.small_turns.specs.Orders.{held};
ghost use Rattle.small_turns.specs.declared.lines.Line.{Line};

use crate::acts::Act;
use rtr_types::Items;
use std::alloc::{AllocError, Global};
use turn_lists::Actor;

/// An act by its line and its place there, both from 0.
#[derive(Clone, Copy)]
pub(crate) struct Spot {
    pub line: usize,
    pub place: usize,
}

/// The acts of one actor, in order.
#[derive(Drop)]
pub(crate) struct Line {
    pub actor: Actor,
    /// Of each act, earlier acts that conflict with it and, through those, all that do.
    pub waits: Items<Items<Spot>>,
}

/// The last acts on a word.
struct LastUse {
    word: u32,
    /// The last one that writes it.
    write: Option<Spot>,
    /// Those since then that only read it, the last of each line.
    reads: Vec<Spot>,
}

impl Drop for LastUse {
    fn drop(self) {
        let LastUse {
            word: _word,
            write: _write,
            reads: _reads,
        } = self;
    }
}

impl LastUse {
    /// No act on the word.
    fn new(alloc: Global, word: u32) -> LastUse {
        LastUse {
            word,
            write: None,
            reads: Vec::new(alloc),
        }
    }

    /// What the next act on the word waits for.
    fn waits(&self, alloc: Global, writes: bool) -> Result<Items<Spot>, AllocError> {
        let mut waits = if writes {
            self.reads.as_slice().to_vec(alloc)?
        } else {
            Vec::new(alloc)
        };
        if let Some(write) = self.write {
            waits.push(write)?;
        }
        Ok(Items::from_vec(waits))
    }

    /// Notes the next act on the word.
    fn note(&mut self, spot: Spot, writes: bool) -> Result<(), AllocError> {
        if writes {
            self.write = Some(spot);
            self.reads.clear();
            return Ok(());
        }
        for k in 0..self.reads.len() {
            if self.reads[k].line == spot.line {
                self.reads[k] = spot;
                return Ok(());
            }
        }
        self.reads.push(spot)?;
        Ok(())
    }
}

/// The last acts on each word, by rising words.
#[derive(Drop)]
struct LastUses {
    words: Vec<LastUse>,
}

impl LastUses {
    /// What the next act waits for, which is noted.
    fn add(&mut self, alloc: Global, spot: Spot, act: Act) -> Result<Items<Spot>, AllocError> {
        let place = match self
            .words
            .as_slice()
            .binary_search_by_key(&act.word, |last| last.word)
        {
            Ok(place) => place,
            Err(place) => {
                self.words.insert(place, LastUse::new(alloc, act.word))?;
                place
            }
        };
        let waits = self.words[place].waits(alloc, act.writes)?;
        self.words[place].note(spot, act.writes)?;
        Ok(waits)
    }
}

/// The lines of a run's acts, each actor's where its first act is. The only refusal is want of memory.
pub(crate) fn lines_of(alloc: Global, acts: &[Act]) -> Result<Vec<Line>, AllocError>
    ensures { IfOk result
        (λ lines. (a : Actor) → held a lines.items ≡ acts_of a acts.now) }
{
    let mut lines = Vec::new(alloc);
    let mut last = LastUses {
        words: Vec::new(alloc),
    };
    for act in acts {
        let line = line_of(alloc, &mut lines, act.actor)?;
        let place = lines[line].waits.len();
        let waits = last.add(alloc, Spot { line, place }, *act)?;
        lines[line].waits.push(waits)?;
    }
    Ok(lines)
}

/// The actor's line, which is put behind the others where there is none.
fn line_of(alloc: Global, lines: &mut Vec<Line>, actor: Actor) -> Result<usize, AllocError>
    ensures within { IfOk result (λ k. k < length lines.new.items) }
    ensures actor { IfOk result (λ k. (d : Line) → (slice_index_or lines.new.items k d).actor ≡ actor) }
    ensures held { OnOk result ((a : Actor) → held a lines.new.items ≡ held a lines.old.items) }
{
    for k in 0..lines.len() {
        if lines[k].actor == actor {
            return Ok(k);
        }
    }
    let place = lines.len();
    lines.push(Line {
        actor,
        waits: Items::new(alloc),
    })?;
    Ok(place)
}
