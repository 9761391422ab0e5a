//! The reads that a new access may need an edge from, where they lie.
ghost use Rattle.std.specs.Prelude.{◌≡◌, ℕ, ◌<◌, ◌≤◌, ◌∷◌, ◌%◌, [], MatchOption, false, length, nat_eq, true};
ghost use Rattle.rtr_types.specs.CoreSets.{has, is_none};
ghost use Rattle.rtr_types.specs.declared.TheConstants.{BLOCK_WORDS, CORES_MAX};
ghost use Rattle.access_times.specs.Reads.{read_seen};
ghost use Rattle.access_times.specs.Times.{read_at};
ghost use Rattle.online_reduce.specs.LiveReads.{is_live_read};
ghost use Rattle.online_reduce.specs.Sources.{reads_from};

use crate::source::{is_live, slot_of};
use access_times::Times;
use clock_core::Clock;
use rtr_types::{Access, CoreSet, Instr};
use std::marker::Model;

/// Noted reads of one word, of which a new access may need an edge. They stay in the times of the word's
/// block: here is which cores they are of. Contracts see the list of them, with their clocks, by rising core.
#[derive(Drop)]
pub struct LiveReads<'a> {
    times: &'a Times,
    slot: u8,
    cores: CoreSet,
}

impl<'a> Model for LiveReads<'a> {
    ghost use Rattle.std.specs.Prelude.{List, ◌<◌};
    ghost use Rattle.rtr_types.specs.declared.TheConstants.{BLOCK_WORDS, CORES_MAX};
    ghost use Rattle.online_reduce.specs.LiveReads.{AreNoted, reads_of};
    ghost use Rattle.online_reduce.specs.declared.source.Source.{Source};

    ghost Value = { List Source };

    ghost view = { λ a. reads_of CORES_MAX a.cores a.times.now a.slot };

    ghost invariant = { λ a. (a.slot < BLOCK_WORDS) × AreNoted a.cores a.times.now a.slot };
}

impl<'a> LiveReads<'a> {
    /// The reads that an access may need an edge from: none where it doesn't write, and otherwise each other
    /// core's noted read of its word that the clock before the access doesn't know of.
    pub fn new(cores: u8, before: &Clock, access: &Access, times: &'a Times) -> LiveReads<'a>
        requires cores { cores ≤ CORES_MAX }
        requires own { access.now.at.core < CORES_MAX }
        ensures { result ≡ reads_from cores before.now access.now times.now }
    {
        let kind = access.kind;
        let live = if kind.is_write() {
            live_cores(cores, before, access, times)
        } else {
            CoreSet::empty()
        };
        LiveReads {
            times,
            slot: slot_of(access.word),
            cores: live,
        }
    }

    /// The same reads, to be taken out of.
    pub fn copied(&self) -> LiveReads<'a>
        ensures { result ≡ self.now }
    {
        LiveReads {
            times: self.times,
            slot: self.slot,
            cores: self.cores,
        }
    }

    /// Whether there are none.
    pub fn is_empty(&self) -> bool
        ensures { result ≡ nat_eq (length self.now) 0 }
    {
        self.cores.bits == 0
    }

    /// Takes the first read out, with its clock: none where there are none.
    pub fn pop(&mut self) -> Option<(Instr, &'a Clock)>
        ensures { MatchOption result ((self.old ≡ []) × (self.new ≡ [])) (λ read.
            self.old ≡ record { at = read.0; clock = read.1.now } ∷ self.new) }
    {
        if self.cores.is_empty() {
            return None;
        }
        let core = first_of(self.cores);
        self.cores = self.cores.without(core);
        let (count, clock) = self.times.last_read(self.slot, core)?;
        let at = Instr {
            core,
            count: *count,
        };
        Some((at, clock))
    }
}

/// The first core of the set, which has one.
fn first_of(cores: CoreSet) -> u8
    requires { is_none cores ≡ false }
    ensures within { result < CORES_MAX }
    ensures there { has cores result ≡ true }
    ensures first { (core : ℕ) → core < result → has cores core ≡ false }
{
    cores.bits.trailing_zeros() as u8
}

/// The cores whose noted reads an access that writes may need an edge from.
fn live_cores(cores: u8, before: &Clock, access: &Access, times: &Times) -> CoreSet
    requires cores { cores ≤ CORES_MAX }
    requires own { access.now.at.core < CORES_MAX }
    ensures { (core : ℕ) → core < CORES_MAX →
        has result core ≡ is_live_read cores before.now access.now core
        (read_at times.now (access.now.word % BLOCK_WORDS) core) }
{
    let slot = slot_of(access.word);
    let mut live = times.readers(slot).without(access.at.core);
    let mut left = live;
    while !left.is_empty() {
        let core = first_of(left);
        left = left.without(core);
        if !is_live_read(cores, before, access, core, times.last_read(slot, core)) {
            live = live.without(core);
        }
    }
    live
}

/// Whether an access that writes may need an edge from the core's noted read.
fn is_live_read(
    cores: u8,
    before: &Clock,
    access: &Access,
    core: u8,
    read: Option<&(u32, Clock)>,
) -> bool
    requires { core < CORES_MAX }
    ensures { result ≡ is_live_read cores before.now access.now core (read_seen read.entry) }
{
    match read {
        Some((count, _)) => {
            let at = Instr {
                core,
                count: *count,
            };
            core < cores && is_live(before, access, at)
        }
        None => false,
    }
}
