//! The parts of a recording, and why bytes are none.
ghost use Rattle.std.specs.Prelude.{◌≡◌};
ghost use Rattle.log_codec.specs.declared.codec_fault.CodecFault.TheVariants.{OutOfMemory};

use rtr_types::Items;
use std::alloc::{AllocError, AllocFailed};

/// Why there is no recording.
#[derive(Clone, Copy, Debug, PartialEq, Eq)]
pub enum CodecFault {
    /// The bytes spell none. The number names the first part that has no reading.
    Bad { part: u8 },
    /// Memory ran out.
    OutOfMemory,
}

/// The first part: four bytes that name the format, the parameters and the length of the image.
pub const HEADER: u8 = 1;

/// The second part: the bytes of the image.
pub const IMAGE: u8 = 2;

/// The third part: the number of retired instructions of each core.
pub const TOTALS: u8 = 3;

/// The fourth part: the edges of the reduced log.
pub const REDUCED: u8 = 4;

/// The fifth part: the vectors of the regulated log.
pub const REGULATED: u8 = 5;

/// The sixth part: the end, where no byte stands.
pub const END: u8 = 6;

/// What was read at the front of bytes, and the bytes after it.
pub type Reading<'a, T> = Result<(T, &'a [u8]), CodecFault>;

/// The edges of each pair of cores, in the order of `pair_at`.
pub type PairEdges = Items<Items<(u32, u32)>>;

impl From<AllocError> for CodecFault {
    ghost from_gives = { λ _ e. e ≡ OutOfMemory };

    fn from(_error: AllocError) -> Self {
        CodecFault::OutOfMemory
    }
}

impl<T: Drop> From<AllocFailed<T>> for CodecFault {
    ghost from_gives = { λ _ e. e ≡ OutOfMemory };

    fn from(_error: AllocFailed<T>) -> Self {
        CodecFault::OutOfMemory
    }
}
