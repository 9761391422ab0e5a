//! The clocks of instructions by a log. They are kept only where an edge leads to.
ghost use Rattle.std.specs.Prelude.{◌≡◌, ◌<◌, ◌≤◌, ℕ, IfOk, IsTrue, OnOk, [], length, max, replicate, slice_index};
ghost use Rattle.std.specs.Prelude.{slice_index_or};
ghost use Rattle.rtr_types.specs.declared.TheConstants.{CORES_MAX};
ghost use Rattle.clock_core.specs.Counts.{no_counts};
ghost use Rattle.clock_core.specs.Reach.{with_own};
ghost use Rattle.replay_core.specs.Sources.{sources_in};
ghost use Rattle.replay_audit.specs.Clocks.{AreRising, AreWithin, CanNote, IsKept, IsNoted, IsNumber, clock_at};
ghost use Rattle.replay_audit.specs.Clocks.{clocks_of, last_of, next_at, number_of, number_to, numbered};

use crate::clock_of::ClockOf;
use clock_core::Clock;
use replay_core::Sourced;
use rtr_types::{CORES_MAX, Instr, Items};
use std::alloc::{AllocError, Global};
use std::marker::Model;

/// How many clocks there is room for beforehand, at most: totals may say anything.
const CLOCKS_ROOM: usize = 1 << 14;

/// A place for each core, as the length of an array.
pub(crate) const PLACES: usize = CORES_MAX as usize;

/// For each core the clocks of its instructions to which an edge leads, by rising count: a clock has its
/// instruction's own count at its core's place. For each two cores `guesses` has how many clocks of the one
/// are known to the other: where an edge's source is looked up, the one before it was found there.
#[derive(Drop)]
pub struct LogClocks {
    nothing: Clock,
    clocks: Vec<Items<Clock>>,
    guesses: Vec<[usize; PLACES]>,
}

impl Model for LogClocks {
    ghost use Rattle.replay_audit.specs.Clocks.{Kept, AreKept};

    ghost Value = { Kept };

    ghost view = { λ a. record { clocks = a.clocks.items } };

    ghost invariant = { λ a. AreKept a.nothing a.clocks.items a.guesses.items };
}

impl LogClocks {
    /// No instruction yet, with room for clocks by the cores' totals.
    pub fn new(alloc: Global, cores: u8, totals: &[u32]) -> Result<LogClocks, AllocError>
        ensures { IfOk result (λ kept. kept.clocks ≡ replicate cores []) }
    {
        let mut clocks = Vec::new(alloc);
        let mut guesses = Vec::new(alloc);
        for core in 0..cores {
            clocks.push(no_clocks(alloc, totals, core)?)?;
            guesses.push([0; PLACES])?;
        }
        Ok(LogClocks {
            nothing: Clock::zero(),
            clocks,
            guesses,
        })
    }

    /// The clock of an instruction that was noted, or of none, before the first: the last clock that is
    /// kept of its core up to it, with its own count.
    pub fn of(&self, at: Instr) -> ClockOf<'_>
        requires { at.core < CORES_MAX }
        ensures { (i : ℕ) → slice_index result i ≡ clock_at self.now at i }
    {
        let number = number_by_halves(self.list(at.core), at);
        ClockOf::new(at, self.numbered(at.core, number))
    }

    /// The same clock, where it was looked up that so many clocks of its core are kept up to it, or all of them.
    #[inline(always)]
    pub fn by_number(&self, at: Instr, number: Option<usize>) -> ClockOf<'_>
        requires core { at.core < CORES_MAX }
        requires number { IsNumber self.now at number }
        ensures { (i : ℕ) → slice_index result i ≡ clock_at self.now at i }
    {
        match number {
            Some(number) => ClockOf::new(at, self.numbered(at.core, number)),
            None => ClockOf::new(at, last_in(&self.nothing, self.clocks.as_slice(), at.core)),
        }
    }

    /// How many clocks are kept of the instruction's core up to it. It is looked for from a guess on.
    #[inline(always)]
    pub fn number(&self, at: Instr, guess: usize) -> usize
        requires { at.core < CORES_MAX }
        ensures { result ≡ number_of self.now at.core at.count }
    {
        number_from(self.list(at.core), at, guess)
    }

    /// Notes the next instruction of its core, of so many cores.
    #[inline(always)]
    pub fn note(&mut self, next: &Sourced, cores: u8) -> Result<(), AllocError>
        requires next { CanNote self.old next.now.at }
        requires few { cores ≤ CORES_MAX }
        ensures { OnOk result (IsNoted self.old next.now.at (sources_in next.now.sources.now) cores self.new) }
    {
        match next.sources {
            Some(sources) => self.keep(next.at, sources, cores),
            None => Ok(()),
        }
    }

    /// The clocks that are kept of the core.
    #[inline(always)]
    fn list(&self, core: u8) -> &[Clock]
        ensures list { result.now ≡ clocks_of self.now core }
        ensures rising { AreRising core result.now }
    {
        list_in(self.clocks.as_slice(), core)
    }

    /// The core's clock with this number, counted from 1; number 0 is the clock that knows of nothing.
    #[inline(always)]
    fn numbered(&self, core: u8, number: usize) -> &Clock
        ensures { result.now ≡ numbered self.now core number }
    {
        numbered_in(&self.nothing, self.clocks.as_slice(), core, number)
    }

    /// Keeps the clock of an instruction that has these sources. The guesses of its core become what was found.
    #[inline(never)]
    fn keep(&mut self, at: Instr, sources: &Clock, cores: u8) -> Result<(), AllocError>
        requires next { CanNote self.old at }
        requires few { cores ≤ CORES_MAX }
        ensures { OnOk result (IsKept self.old at sources.now cores self.new.clocks) }
    {
        let clock = next(
            &self.nothing,
            self.clocks.as_slice(),
            at,
            sources,
            cores,
            &mut self.guesses[at.core as usize],
        );
        self.clocks[at.core as usize].push(clock)?;
        Ok(())
    }
}

/// The clocks that are kept of the core.
#[inline(always)]
fn list_in(clocks: &[Items<Clock>], core: u8) -> &[Clock]
    ensures { result.now ≡ slice_index_or clocks.now core [] }
{
    match clocks.get(core as usize) {
        Some(list) => list.as_slice(),
        None => &[],
    }
}

/// The core's clock with this number, counted from 1; number 0 is the clock that knows of nothing.
#[inline(always)]
fn numbered_in<'a>(
    nothing: &'a Clock,
    clocks: &'a [Items<Clock>],
    core: u8,
    number: usize,
) -> &'a Clock
    requires { nothing.now ≡ no_counts }
    ensures { result.now ≡ numbered (record { clocks = clocks.now }) core number }
{
    if number == 0 {
        return nothing;
    }
    match list_in(clocks, core).get(number - 1) {
        Some(clock) => clock,
        None => nothing,
    }
}

/// The core's last clock that is kept, or the one that knows of nothing.
#[inline(always)]
fn last_in<'a>(nothing: &'a Clock, clocks: &'a [Items<Clock>], core: u8) -> &'a Clock
    requires { nothing.now ≡ no_counts }
    ensures { result.now ≡ last_of (record { clocks = clocks.now }) core }
{
    match list_in(clocks, core).last() {
        Some(clock) => clock,
        None => nothing,
    }
}

/// The clock of the instruction before on the core, merged with those of the sources, with the own count. The guesses
/// become what was found.
#[inline(always)]
fn next(
    nothing: &Clock,
    clocks: &[Items<Clock>],
    at: Instr,
    sources: &Clock,
    cores: u8,
    guesses: &mut [usize; PLACES],
) -> Clock
    requires nothing { nothing.now ≡ no_counts }
    requires rising { (c : ℕ) → AreRising c (slice_index_or clocks.now c []) }
    requires next { CanNote (record { clocks = clocks.now }) at }
    requires few { cores ≤ CORES_MAX }
    ensures { (i : ℕ) → slice_index result i ≡ next_at (record { clocks = clocks.now }) at sources.now cores i }
{
    let mut clock = *last_in(nothing, clocks, at.core);
    clock.set(at.core, at.count - 1);
    for of in 0..cores {
        let source = sources.get(of);
        if source != 0 {
            let from = Instr {
                core: of,
                count: source,
            };
            let number = number_from(list_in(clocks, of), from, guesses[of as usize]);
            guesses[of as usize] = number;
            merge(&mut clock, numbered_in(nothing, clocks, of, number), from);
        }
    }
    clock.set(at.core, at.count);
    clock
}

/// Takes over each greater count of a source's clock, which is the last one that is kept with the source's own count.
#[inline(always)]
fn merge(clock: &mut Clock, last: &Clock, from: Instr)
    requires { from.core < CORES_MAX }
    ensures { (i : ℕ) → slice_index clock.new i
        ≡ max (slice_index clock.old i) (with_own from (λ j. slice_index last.now j) i) }
{
    let own = clock.get(from.core).max(from.count);
    clock.join(last);
    clock.set(from.core, own);
}

/// How many of a core's clocks are of instructions up to this one, looked for from a guess on.
#[inline(always)]
fn number_from(list: &[Clock], at: Instr, guess: usize) -> usize
    requires core { at.core < CORES_MAX }
    requires rising { AreRising at.core list.now }
    ensures { result ≡ number_to list.now at.core at.count }
{
    let mut number = first_guess(list, at, guess);
    while number < list.len() && list[number].get(at.core) <= at.count {
        number += 1;
    }
    number
}

/// The guess, where so many of a core's clocks are of instructions up to this one, and else none of them.
#[inline(always)]
fn first_guess(list: &[Clock], at: Instr, guess: usize) -> usize
    requires core { at.core < CORES_MAX }
    requires rising { AreRising at.core list.now }
    ensures { AreWithin list.now at.core at.count result }
{
    if guess > 0 && guess <= list.len() && list[guess - 1].get(at.core) <= at.count {
        return guess;
    }
    0
}

/// How many of a core's clocks are of instructions up to this one.
fn number_by_halves(list: &[Clock], at: Instr) -> usize
    requires core { at.core < CORES_MAX }
    requires rising { AreRising at.core list.now }
    ensures { result ≡ number_to list.now at.core at.count }
{
    let mut low = 0;
    let mut high = list.len();
    while low < high {
        let middle = low + (high - low) / 2;
        if list[middle].get(at.core) <= at.count {
            low = middle + 1;
        } else {
            high = middle;
        }
    }
    low
}

/// No clocks, with room for one at every second instruction: most logs lead edges to fewer.
fn no_clocks(alloc: Global, totals: &[u32], core: u8) -> Result<Items<Clock>, AllocError>
    ensures { IfOk result (λ clocks. clocks ≡ []) }
{
    let total = match totals.get(core as usize) {
        Some(total) => *total as usize,
        None => 0,
    };
    Ok(Items::from_vec(Vec::with_capacity(alloc, (total / 2).min(CLOCKS_ROOM))?))
}
