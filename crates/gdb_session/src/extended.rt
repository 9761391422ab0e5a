//! What a debugger asks that may run the program again.
ghost use Rattle.std.specs.Prelude.{◌≡◌, IfOk};
ghost use Rattle.gdb_session.specs.Extended.{begun_payloads, extended_of};

use crate::answer::{one, silent};
use crate::told::told_stop;
use gdb_packets::{Reply, behind, is};
use rtr_types::Items;
use std::alloc::{AllocError, Global};

/// What a debugger asks that may run the program again.
#[derive(Clone, Copy)]
pub(crate) enum Extended {
    /// `!`: the session outlives the program.
    Stay,
    /// `R..`: the program runs again, and no answer is wanted.
    Restart,
    /// `vRun;..`: the program runs again, and its first stop is told.
    Run,
}

/// What the packet asks, if it is such a packet.
pub(crate) fn extended_of(packet: &[u8]) -> Option<Extended>
    ensures { result ≡ extended_of packet.now }
{
    if is(packet, "!") {
        Some(Extended::Stay)
    } else if behind(packet, "vRun").is_some() {
        Some(Extended::Run)
    } else if behind(packet, "R").is_some() {
        Some(Extended::Restart)
    } else {
        None
    }
}

/// What is told where the program has begun again.
pub(crate) fn begun_payloads(alloc: Global, asked: Extended) -> Result<Items<Items<u8>>, AllocError>
    ensures { IfOk result (λ payloads. payloads ≡ begun_payloads asked) }
{
    match asked {
        Extended::Run => one(alloc, &Reply::Stopped(told_stop(0))),
        _ => Ok(silent(alloc)),
    }
}
