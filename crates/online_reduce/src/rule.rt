//! Which candidates become edges, and how an access is noted.
ghost use Rattle.std.specs.Prelude.{◌≡◌, ◌<◌};
ghost use Rattle.rtr_types.specs.declared.TheConstants.{CORES_MAX};
ghost use Rattle.access_times.specs.declared.times.Times.{Times};
ghost use Rattle.access_times.specs.Times.{times_noted};
ghost use Rattle.online_reduce.specs.Rule.{is_kept, lets_pass};
ghost use Rattle.online_reduce.specs.declared.source.Source.{Source};

use crate::live_reads::LiveReads;
use crate::source::slot_of;
use access_times::Times;
use clock_core::Clock;
use rtr_types::{Access, Instr};

/// Whether the candidate is this instruction, or its clock doesn't know of it.
fn lets_pass(at: Instr, source: Instr, clock: &Clock) -> bool
    requires { at.core < CORES_MAX }
    ensures { result ≡ lets_pass at (record { at = source; clock = clock.now }) }
{
    source == at || !clock.covers(at)
}

/// Whether the candidate at this instruction becomes an edge: no other candidate's clock knows of it.
pub fn is_kept(found: &LiveReads, at: Instr) -> bool
    requires { at.core < CORES_MAX }
    ensures { result ≡ is_kept found.now at }
{
    let mut left = found.copied();
    while let Some((source, clock)) = left.pop() {
        if !lets_pass(at, source, clock) {
            return false;
        }
    }
    true
}

/// Notes the access with its clock in the times of its block.
pub fn note(access: &Access, clock: Clock, times: &mut Times)
    requires { access.now.at.core < CORES_MAX }
    ensures { times.new ≡ times_noted access.now times.old clock }
{
    let slot = slot_of(access.word);
    if access.kind.is_write() {
        times.on_store(slot, access.at, clock);
    } else {
        times.on_load(slot, access.at, clock);
    }
}
