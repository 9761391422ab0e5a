//! The last touches of each word by each core.
ghost use Rattle.std.specs.Prelude.{◌≡◌, ◌≢◌, ◌⊎◌, ◌<◌, ◌≤◌, ◌+◌, ◌-◌, ◌*◌, ℕ, IfNone, IfOk, IfSome, IsTrue, false};
ghost use Rattle.std.specs.Prelude.{length};
ghost use Rattle.std.specs.Prelude.{replicate, slice_index, slice_index_or, slice_set, true};
ghost use Rattle.rtr_types.specs.Accesses.{is_write};
ghost use Rattle.rtr_types.specs.declared.TheConstants.{CORES_MAX};
ghost use Rattle.clock_core.specs.Counts.{no_counts};
ghost use Rattle.replay_audit.specs.Touches.{IsPlaceOf, touches_of};
ghost use Rattle.replay_audit.specs.declared.touch.Touch.{Touch as SomeTouch};
ghost use Rattle.touch_judge.specs.Marks.{AreCovered, AreMarked, AreWithin, IsAbove, IsBelow, IsCovered, IsMarked};
ghost use Rattle.touch_judge.specs.Marks.{IsOpen};
ghost use Rattle.touch_judge.specs.Marks.{IsKnown, IsTouchOf, IsUncovered, last_of, slot_of};

use crate::notes::TouchNote;
use clock_core::Clock;
use replay_audit::Touch;
use rtr_types::{CORES_MAX, Items};
use std::alloc::{AllocError, Global};
use std::marker::Model;

/// A place for each core, as the length of an array.
pub(crate) const PLACES: usize = CORES_MAX as usize;

/// For each word the count of each core's last touch that doesn't write it, and then of its last that does. A
/// core that has none has 0.
#[derive(Drop)]
pub(crate) struct Marks {
    marks: Vec<Clock>,
}

impl Model for Marks {
    ghost use Rattle.std.specs.Prelude.{ℕ, List};

    ghost Value = { List (List ℕ) };

    ghost view = { λ a. a.marks.items };
}

impl Marks {
    /// No touch yet, of any of so many words.
    pub(crate) fn new(alloc: Global, words: u32) -> Result<Marks, AllocError>
        ensures { IfOk result (λ marks. marks ≡ replicate (2 * words) no_counts) }
    {
        let count = 2 * words as usize;
        let mut marks = Vec::with_capacity(alloc, count)?;
        for slot in 0..count {
            marks.push(Clock::zero())?;
        }
        Ok(Marks { marks })
    }

    /// Goes over the touches of a core from its place on, up to those of the instruction with the count `until`,
    /// and marks them: whether the clock covers each touch of another core that is marked and in conflict with
    /// one of them. It ends at the first that isn't covered. Of each word and kind the first one tells for the others,
    /// since no other core goes on in between.
    pub(crate) fn pass(
        &mut self,
        touched: &[Items<TouchNote>],
        core: u8,
        until: u32,
        clock: &Clock,
        places: &mut [usize; PLACES],
    ) -> bool
        requires touched { AreWithin touched.now (length self.old) }
        requires core { core < length touched.now }
        requires inside { core < length places.old }
        requires marked { AreMarked touched.now places.old self.old }
        requires place { slice_index places.old core ≤ length (touches_of touched.now core) }
        requires before { (d : SomeTouch) → 1 ≤ slice_index places.old core →
            (slice_index_or (touches_of touched.now core) (slice_index places.old core - 1) d).at.count ≤ until }
        ensures marked { IsTrue result → AreMarked touched.now places.new self.new }
        ensures all { length self.new ≡ length self.old }
        ensures wide { length places.new ≡ length places.old }
        ensures covered { IsTrue result → AreCovered touched.now places.old places.new core clock.now }
        ensures open { result ≡ false → IsOpen touched.now places.old core until clock.now }
        ensures others { (d : ℕ) → d ≢ core → slice_index places.new d ≡ slice_index places.old d }
        ensures more { slice_index places.old core ≤ slice_index places.new core }
        ensures place { IsTrue result →
            IsPlaceOf (touches_of touched.now core) (until + 1) (slice_index places.new core) }
    {
        let list = touched[core as usize].as_slice();
        let cores = touched.len() as u8;
        let mut place = places[core as usize];
        let from = count_at(list, place);
        while let Some(touch) = touch_to(list, place, until) {
            if self.open(&touch, from, clock, cores).is_some() {
                return false;
            }
            self.mark(&touch);
            place += 1;
        }
        places[core as usize] = place;
        true
    }

    /// A core that is marked with a touch in conflict with this one that the clock doesn't cover. Where a touch of
    /// this core, word and kind is marked with the count `from` or a later one, the marks aren't looked at.
    #[inline(always)]
    fn open(&self, touch: &Touch, from: u32, clock: &Clock, cores: u8) -> Option<u8>
        requires word { 2 * touch.now.word + 1 < length self.now }
        requires core { touch.now.at.core < CORES_MAX }
        requires few { cores ≤ CORES_MAX }
        ensures some { IfSome result (IsUncovered self.now touch.now clock.now) }
        ensures none { IfNone result (IsKnown self.now touch.now from
            ⊎ IsCovered self.now touch.now clock.now cores) }
    {
        let own = &self.marks[slot_of(touch.word, touch.kind.is_write())];
        if own.get(touch.at.core) >= from {
            return None;
        }
        let writes = &self.marks[slot_of(touch.word, true)];
        match first_above(writes, clock, touch.at.core, cores) {
            Some(core) => Some(core),
            None => {
                if !touch.kind.is_write() {
                    return None;
                }
                let others = &self.marks[slot_of(touch.word, false)];
                first_above(others, clock, touch.at.core, cores)
            }
        }
    }

    /// Marks a touch.
    #[inline(always)]
    fn mark(&mut self, touch: &Touch)
        requires word { 2 * touch.now.word + 1 < length self.old }
        requires core { touch.now.at.core < CORES_MAX }
        ensures { IsMarked self.old touch.now self.new }
    {
        let slot = slot_of(touch.word, touch.kind.is_write());
        self.marks[slot].set(touch.at.core, touch.at.count);
    }
}

/// Where the marks of a word stand: of the touches that write it, or of the others.
#[inline(always)]
fn slot_of(word: u32, writes: bool) -> usize
    ensures { result ≡ slot_of word writes }
{
    2 * word as usize + if writes { 1 } else { 0 }
}

/// The count of the touch at a place of a core's list, if there is one.
#[inline(always)]
fn count_at(list: &[TouchNote], place: usize) -> u32
    ensures { (d : SomeTouch) → place < length list.now → result ≡ (slice_index_or list.now place d).at.count }
{
    match list.get(place) {
        Some(note) => note.touch().at.count,
        None => 0,
    }
}

/// The touch at a place of a core's list, if its count is at most so much.
#[inline(always)]
fn touch_to(list: &[TouchNote], place: usize, until: u32) -> Option<Touch>
    ensures some { IfSome result (λ t. IsTouchOf list.now place t × (t.at.count ≤ until)) }
    ensures none { IfNone result ((d : SomeTouch) → place < length list.now →
        until < (slice_index_or list.now place d).at.count) }
{
    if place < list.len() {
        let touch = list[place].touch();
        if touch.at.count <= until {
            return Some(touch);
        }
    }
    None
}

/// The lowest of so many cores, but for one, whose count is above that of the clock.
#[inline(always)]
fn first_above(counts: &Clock, clock: &Clock, but: u8, cores: u8) -> Option<u8>
    requires { cores ≤ CORES_MAX }
    ensures some { IfSome result (IsAbove counts.now clock.now but) }
    ensures none { IfNone result (IsBelow counts.now clock.now but cores) }
{
    for core in 0..cores {
        if core != but && counts.get(core) > clock.get(core) {
            return Some(core);
        }
    }
    None
}
