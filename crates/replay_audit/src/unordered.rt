//! Accesses that conflict and that the log leaves unordered.
ghost use Rattle.std.specs.Prelude.{◌≡◌, ◌<◌};
ghost use Rattle.conflict_edge.specs.Conflicts.{StandsIn};
ghost use Rattle.rtr_types.specs.declared.TheConstants.{CORES_MAX};
ghost use Rattle.rtr_types.specs.declared.access.Access.{Access as SomeAccess};
ghost use Rattle.replay_audit.specs.Unordered.{is_open, IsLatest};

use clock_core::Clock;
use conflict_edge::conflicts;
use rtr_types::{Access, CORES_MAX, Instr};

/// Two accesses that conflict and that the log leaves unordered, by their instructions.
#[derive(Clone, Copy)]
pub struct Unordered {
    pub first: Instr,
    pub second: Instr,
}

/// Whether the earlier access is open: it conflicts with the later one, whose clock doesn't cover it.
fn is_open(earlier: &Access, later: &Access, clock: &Clock) -> bool
    requires { earlier.now.at.core < CORES_MAX }
    ensures { result ≡ is_open earlier.now later.now clock.now }
{
    conflicts(earlier, later) && !clock.covers(earlier.at)
}

/// The latest of the accesses that is open before the later one, if one is.
#[cold]
#[inline(never)]
pub fn latest_open(accesses: &[Access], later: &Access, clock: &Clock) -> Option<Instr>
    requires { (b : SomeAccess) → StandsIn accesses.now b → b.at.core < CORES_MAX }
    ensures { IsLatest accesses.now later.now clock.now result }
{
    let mut found = None;
    for earlier in accesses {
        if is_open(earlier, later, clock) {
            found = Some(earlier.at);
        }
    }
    found
}
