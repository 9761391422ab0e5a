//! When more is known of a core.
ghost use Rattle.std.specs.Prelude.{◌≡◌, ◌≢◌, ◌<◌, ◌≤◌, ◌+◌, ◌*◌, ℕ, IsTrue, false, length, slice_index};
ghost use Rattle.std.specs.List.Sorted.{IsNonDecreasingBy};
ghost use Rattle.rtr_types.specs.declared.TheConstants.{CORES_MAX};
ghost use Rattle.roomy_lists.specs.Lists.{are_ready, items_in};
ghost use Rattle.know_history.specs.Changes.{AreChanged, is_news, known_by, list_place};

use crate::known::Known;
use clock_core::Clock;
use roomy_lists::RoomyLists;
use rtr_types::{CORES_MAX, Instr};

/// At a core's retirement with this count so many instructions of another core are known, which is more than
/// before.
#[derive(Clone, Copy, Debug)]
pub(crate) struct Change {
    pub(crate) count: u32,
    pub(crate) known: u32,
}

/// The place of the changes of what a core knows of core `of`, among the lists of all cores.
pub(crate) fn list_place(core: u8, of: u8) -> usize
    requires { of < CORES_MAX }
    ensures { result ≡ list_place core of }
{
    core as usize * CORES_MAX as usize + of as usize
}

/// How many instructions were known at the retirement with this count: as many as at the last change up to
/// it, and none before the first.
pub(crate) fn known_by(changes: &[Change], count: u32) -> u32
    requires { IsNonDecreasingBy (λ c. c.count) changes.now }
    ensures { result ≡ known_by 0 changes.now count }
{
    let within = changes.partition_point(|change| change.count <= count);
    if within == 0 {
        return 0;
    }
    changes[within - 1].known
}

/// Whether a count of core `of` is another core's and above the newest one.
fn is_news(at: Instr, of: u8, known: u32, newest: u32) -> bool
    ensures { result ≡ is_news at of known newest }
{
    of != at.core && newest < known
}

/// Whether something is known beside the newest counts and the retired instruction.
fn brings_news(at: Instr, counts: &Clock, newest: &Clock) -> bool
    ensures { result ≡ false → (of : ℕ) → of < CORES_MAX →
        is_news at of (slice_index counts.now of) (slice_index newest.now of) ≡ false }
{
    let mut others = *counts;
    if at.core < CORES_MAX {
        others.set(at.core, newest.get(at.core));
    }
    others != *newest
}

/// Puts down each count of another core that is above the newest one. Most instructions bring no news, so that
/// is asked first.
pub(crate) fn put_down(
    changes: &mut RoomyLists<Change>,
    newest: &mut Clock,
    at: Instr,
    known: &Known,
)
    requires lists { list_place at.core CORES_MAX ≤ length changes.old }
    requires ready { IsTrue (are_ready changes.old) }
    ensures places { length known.now.counts ≡ CORES_MAX }
    ensures changed { AreChanged at known.now.counts (items_in changes.old) newest.old
        (items_in changes.new) newest.new }
{
    let counts = known.counts();
    if brings_news(at, known.clock(), newest) {
        put_news(changes, newest, at, counts);
    }
}

/// Puts down each count of another core that is above the newest one.
fn put_news(changes: &mut RoomyLists<Change>, newest: &mut Clock, at: Instr, counts: &[u32])
    requires places { length counts.now ≡ CORES_MAX }
    requires lists { list_place at.core CORES_MAX ≤ length changes.old }
    requires ready { IsTrue (are_ready changes.old) }
    ensures { AreChanged at counts.now (items_in changes.old) newest.old (items_in changes.new) newest.new }
{
    for of in 0..CORES_MAX {
        let known = counts[of as usize];
        if is_news(at, of, known, newest.get(of)) {
            newest.set(of, known);
            let change = Change {
                count: at.count,
                known,
            };
            changes.push(list_place(at.core, of), change);
        }
    }
}
