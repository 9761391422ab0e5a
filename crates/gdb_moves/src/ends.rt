//! How the programs of the cores end.
ghost use Rattle.std.specs.Prelude.{◌≡◌};
ghost use Rattle.gdb_moves.specs.Ends.{end_in, signal_of};

use gdb_packets::Signal;
use image_mem::Image;
use rv_core::{Core, Outcome, Stop};

/// How a core's program ends, by what the whole run comes to.
pub fn end_of(outcome: &Outcome, image: &Image, core: u8) -> Stop
    ensures { result ≡ end_in image.now outcome.now core }
{
    match outcome.cores.as_slice().get(core as usize) {
        Some(core) => core.stop(image),
        None => Core::new(0, 0).stop(image),
    }
}

/// The signal of a program that ends so; none where it ends well, or goes on no further.
pub(crate) fn signal_of(end: Stop) -> Option<Signal>
    ensures { result ≡ signal_of end }
{
    match end {
        Stop::Fetch | Stop::Address => Some(Signal::Segment),
        Stop::Align | Stop::Jump => Some(Signal::Misaligned),
        Stop::Illegal => Some(Signal::Illegal),
        Stop::Break => Some(Signal::Trap),
        Stop::Exit | Stop::Limit | Stop::Total => None,
    }
}
