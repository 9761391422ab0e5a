//! A timeline that knows where each core's instructions stand in it.
ghost use Rattle.std.specs.Prelude.{◌≡◌, ◌+◌, ◌<◌, ◌≤◌, ◌^◌, ℕ, IfOk, [], false, length, replicate, slice_index, take};
ghost use Rattle.rtr_types.specs.declared.TheConstants.{CORES_MAX};
ghost use Rattle.replay_core.specs.Orders.{counts, nought, IsReplayOrder, IsWhole};
ghost use Rattle.replay_core.specs.Plans.{plan_of};
ghost use Rattle.cut_replay.specs.ClosedCuts.{IsContained, count_in};
ghost use Rattle.cut_moves.specs.Rounds.{rounds_of};
ghost use Rattle.cut_moves.specs.Seats.{AreWindows, HaveSeats, IsHowMany, IsSeat, IsWindow, Rise, is_within, window_at};
ghost use Rattle.cut_moves.specs.Ways.{between, is_on_way, way_before};

use crate::by_rounds::rounds_in;
use crate::lattice::PLACES;
use replay_audit::Audited;
use rtr_types::{CORES_MAX, Cut, Items};
use std::alloc::{AllocError, Global};
use std::marker::Model;

/// The most places for which a core's list has room from the first on.
const ROOM: usize = 1 << 20;

/// A timeline: a whole replay order, a core each place. It knows where each core's instructions stand in it, in 4 bytes
/// an instruction, so that a way of few places doesn't walk through all. Contracts see the list of its places.
#[derive(Drop)]
pub struct Timeline {
    places: Items<u8>,
    seats: Vec<Items<u32>>,
}

impl Model for Timeline {
    ghost use Rattle.std.specs.Prelude.{List, ℕ};
    ghost use Rattle.cut_moves.specs.Seats.{HaveSeats};

    ghost Value = { List ℕ };

    ghost view = { λ a. a.places };

    ghost invariant = { λ a. HaveSeats a.places a.seats.items };
}

impl Timeline {
    /// The timeline by rounds: in each round every core that is ready when the round begins retires one instruction,
    /// lower cores first. It is a whole replay order, and goes by the log alone. It is refused for want of memory
    /// alone.
    pub fn by_rounds(alloc: Global, audited: &Audited) -> Result<Timeline, AllocError>
        ensures rounds { IfOk result (λ list. list ≡ rounds_of audited.now.which audited.now.recording) }
        ensures ordered { IfOk result (λ list.
            IsReplayOrder (plan_of audited.now.which audited.now.recording) list) }
        ensures whole { IfOk result (λ list. IsWhole (plan_of audited.now.which audited.now.recording) list) }
    {
        // The recording is valid, so there are few cores, and few places.
        let recording = audited.recording();
        let places = rounds_in(alloc, audited)?;
        let seats = seats_in(alloc, recording.totals.as_slice(), places.as_slice())?;
        Ok(Timeline { places, seats })
    }

    /// The places, one after the other.
    pub fn as_slice(&self) -> &[u8]
        ensures { result.now ≡ self.now }
    {
        self.places.as_slice()
    }

    /// At which place of the timeline the core's instruction stands that comes behind so many of its own. Places are
    /// counted from 0.
    pub fn seat(&self, core: u8, count: u32) -> u32
        requires core { core < CORES_MAX }
        requires count { count < counts nought self.now core }
        ensures { IsSeat self.now core count result }
    {
        self.seats[core as usize].as_slice()[count as usize]
    }

    /// How many of the core's instructions stand before the place with this number, but at least and at most so many.
    /// It is found by halving between these two.
    pub fn count_before(&self, core: u8, low: u32, high: u32, number: usize) -> u32
        requires core { core < CORES_MAX }
        requires within { low ≤ high }
        requires most { high ≤ counts nought self.now core }
        ensures { result ≡ between low high (counts nought (take number self.now) core) }
    {
        some_before(self.seats[core as usize].as_slice(), low, high, number)
    }

    /// How far the way from one cut to another has come before the place with this number.
    pub fn cut_before(&self, low: &Cut, high: &Cut, number: usize) -> Cut
        requires within { IsContained low.now high.now }
        requires most { (core : ℕ) → core < CORES_MAX → count_in high.now core ≤ counts nought self.now core }
        ensures cores { result.cores ≡ low.now.cores }
        ensures places { length result.counts ≡ CORES_MAX }
        ensures counts { (core : ℕ) → core < CORES_MAX → count_in result core
            ≡ counts (count_in low.now) (way_before (count_in low.now) (count_in high.now) self.now number) core }
    {
        let mut counts = [0; PLACES];
        for core in 0..CORES_MAX {
            let place = core as usize;
            counts[place] = self.count_before(core, low.counts[place], high.counts[place], number);
        }
        Cut {
            cores: low.cores,
            counts,
        }
    }

    /// The number of the first place that is on the way from one cut to another, or a higher one where none is.
    pub fn start(&self, low: &Cut, high: &Cut) -> usize
        requires { (core : ℕ) → core < CORES_MAX → count_in high.now core ≤ counts nought self.now core }
        ensures { (number : ℕ) → number < length self.now → number < result →
            is_on_way (count_in low.now) (count_in high.now) self.now number ≡ false }
    {
        start_of(&self.windows(low, high))
    }

    /// Behind the last place that is on the way from one cut to another, or 0 where none is.
    pub fn end(&self, low: &Cut, high: &Cut) -> usize
        requires { (core : ℕ) → core < CORES_MAX → count_in high.now core ≤ counts nought self.now core }
        ensures { (number : ℕ) → number < length self.now → result ≤ number →
            is_on_way (count_in low.now) (count_in high.now) self.now number ≡ false }
    {
        end_of(&self.windows(low, high))
    }

    /// Of each core the places that stand between its counts in the lower cut and in the higher.
    pub(crate) fn windows(&self, low: &Cut, high: &Cut) -> [Window; PLACES]
        requires { (core : ℕ) → core < CORES_MAX → count_in high.now core ≤ counts nought self.now core }
        ensures { AreWindows self.now (count_in low.now) (count_in high.now) result }
    {
        let mut windows = [Window { from: 0, past: 0 }; PLACES];
        for core in 0..PLACES {
            windows[core] = window_of(
                self.seats[core].as_slice(),
                low.counts[core],
                high.counts[core],
            );
        }
        windows
    }
}

/// Some numbers of places, one after the other: from one on, before another. There are none where the first isn't below
/// the second.
#[derive(Clone, Copy)]
pub(crate) struct Window {
    pub from: u32,
    pub past: u32,
}

impl Window {
    /// Whether the number lies within.
    fn has(&self, number: usize) -> bool
        ensures { result ≡ is_within self.now number }
    {
        self.from as usize <= number && number < self.past as usize
    }
}

/// Whether the core's window has the number.
pub(crate) fn is_seen(windows: &[Window], core: u8, number: usize) -> bool
    ensures { result ≡ is_within (window_at windows.now core) number }
{
    match windows.get(core as usize) {
        Some(window) => window.has(number),
        None => false,
    }
}

/// Where a core's instructions stand that lie between the two counts.
fn window_of(seats: &[u32], low: u32, high: u32) -> Window
    requires most { high ≤ length seats.now }
    requires short { (count : ℕ) → count < length seats.now → slice_index seats.now count + 1 < 2 ^ 32 }
    ensures { IsWindow seats.now low high result }
{
    if low < high {
        Window {
            from: seats[low as usize],
            past: seats[high as usize - 1] + 1,
        }
    } else {
        Window {
            from: u32::MAX,
            past: 0,
        }
    }
}

/// How many of a core's seats come before this number, of which at least and at most so many do or are taken to. It is
/// found by halving.
fn some_before(seats: &[u32], low: u32, high: u32, number: usize) -> u32
    requires rise { Rise seats.now }
    requires within { low ≤ high }
    requires most { high ≤ length seats.now }
    ensures { IsHowMany seats.now low high number result }
{
    let mut some = low;
    let mut past = high;
    while some < past {
        let middle = some + (past - some) / 2;
        if (seats[middle as usize] as usize) < number {
            some = middle + 1;
        } else {
            past = middle;
        }
    }
    some
}

/// Where each core's instructions stand among these places.
fn seats_in(alloc: Global, totals: &[u32], places: &[u8]) -> Result<Vec<Items<u32>>, AllocError>
    requires few { (number : ℕ) → number < length places.now → slice_index places.now number < CORES_MAX }
    requires short { length places.now < 2 ^ 32 }
    ensures { IfOk result (λ seats. HaveSeats places.now seats.items) }
{
    let mut seats = no_seats(alloc, totals)?;
    for number in 0..places.len() {
        let core = places[number] as usize;
        seats[core].push(number as u32)?;
    }
    Ok(seats)
}

/// For each core an empty list, with room for as many places as its total says.
fn no_seats(alloc: Global, totals: &[u32]) -> Result<Vec<Items<u32>>, AllocError>
    ensures { IfOk result (λ seats. seats.items ≡ replicate CORES_MAX []) }
{
    let mut seats = Vec::new(alloc);
    for core in 0..PLACES {
        seats.push(room_for(alloc, totals, core)?)?;
    }
    Ok(seats)
}

/// An empty list, with room for as many places as the core's total says.
fn room_for(alloc: Global, totals: &[u32], core: usize) -> Result<Items<u32>, AllocError>
    ensures { IfOk result (λ seats. seats ≡ []) }
{
    let total = match totals.get(core) {
        Some(total) => *total as usize,
        None => 0,
    };
    Ok(Items::from_vec(Vec::with_capacity(alloc, total.min(ROOM))?))
}

/// The least number at which any of the windows begins.
pub(crate) fn start_of(windows: &[Window]) -> usize
    ensures { (core : ℕ) → core < length windows.now → result ≤ (window_at windows.now core).from }
{
    let mut start = u32::MAX;
    for window in windows {
        start = start.min(window.from);
    }
    start as usize
}

/// The greatest number before which any of the windows ends.
pub(crate) fn end_of(windows: &[Window]) -> usize
    ensures { (core : ℕ) → core < length windows.now → (window_at windows.now core).past ≤ result }
{
    let mut end = 0;
    for window in windows {
        end = end.max(window.past);
    }
    end as usize
}
