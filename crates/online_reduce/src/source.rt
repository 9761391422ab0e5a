//! The accesses that a new one may need an edge from.
ghost use Rattle.std.specs.Prelude.{◌≡◌, ◌<◌, ◌≤◌, ◌%◌, MatchOption, None, Some};
ghost use Rattle.rtr_types.specs.declared.TheConstants.{BLOCK_WORDS, CORES_MAX};
ghost use Rattle.access_times.specs.Times.{write_at};
ghost use Rattle.online_reduce.specs.Sources.{is_live, write_from};

use access_times::Times;
use clock_core::Clock;
use rtr_types::{Access, BLOCK_WORDS, Instr};

/// An access that a new one may need an edge from, with its clock. Contracts speak of it: the code leaves both
/// where they lie.
#[derive(Clone, Copy)]
pub struct Source {
    pub at: Instr,
    pub clock: Clock,
}

/// The slot of a word in its block.
pub fn slot_of(word: u32) -> u8
    ensures slot { result ≡ word % BLOCK_WORDS }
    ensures within { result < BLOCK_WORDS }
{
    (word % BLOCK_WORDS as u32) as u8
}

/// Whether an edge may be needed from this instruction: it is of another core than the access, and the
/// clock before the access on its core doesn't know of it.
pub fn is_live(before: &Clock, access: &Access, at: Instr) -> bool
    requires { at.core < CORES_MAX }
    ensures { result ≡ is_live before.now access.now at }
{
    at.core != access.at.core && !before.covers(at)
}

/// The last write of the access's word, where it is of one of the cores and an edge from it may be needed,
/// with its clock.
pub fn live_write<'a>(
    cores: u8,
    before: &Clock,
    access: &Access,
    times: &'a Times,
) -> Option<(Instr, &'a Clock)>
    requires { cores ≤ CORES_MAX }
    ensures { let write = write_from cores before.now access.now (write_at times.now (access.now.word % BLOCK_WORDS)) in
        MatchOption result (write ≡ None) (λ w. write ≡ Some (record { at = w.0; clock = w.1.now })) }
{
    if let Some((at, clock)) = times.last_write(slot_of(access.word)) {
        if at.core < cores && is_live(before, access, *at) {
            return Some((*at, clock));
        }
    }
    None
}
