//! The versions of the format.
ghost use Rattle.std.specs.Prelude.{◌≡◌, ◌↔◌, IsTrue};
ghost use Rattle.log_codec.specs.Versions.{FitsOld, fits_in, fits_old, magic};
ghost use Rattle.race_log.specs.Validity.{has_blocks};

use rtr_types::{Params, WORDS_MAX, WORDS_MIN};

/// The most cores of a recording of version 1.
const OLD_CORES_MAX: u8 = 8;

/// The greatest limit of a recording of version 1.
const OLD_LIMIT_MAX: u32 = 100_000;

/// The versions of a recording's bytes. They differ in the header and in the fourth part.
#[derive(Clone, Copy)]
pub enum Version {
    /// Narrower limits of its own; the reduced log stands pair by pair.
    One,
    /// The limits of a run; the reduced log stands target by target.
    Two,
}

impl Version {
    /// The letters RTR, and the version.
    pub(crate) fn magic(self) -> [u8; 4]
        ensures { result ≡ magic self }
    {
        match self {
            Version::One => [0x52, 0x54, 0x52, 1],
            Version::Two => [0x52, 0x54, 0x52, 2],
        }
    }

    /// Whether the parameters lie within the version's limits.
    pub(crate) fn takes(self, params: &Params) -> bool
        ensures { result ≡ fits_in self params.now }
    {
        match self {
            Version::One => fits_old(params),
            Version::Two => params.fits(),
        }
    }
}

/// Whether the memory has whole blocks, and not too many.
fn has_blocks(params: &Params) -> bool
    ensures { result ≡ has_blocks params.now }
{
    WORDS_MIN <= params.words && params.words <= WORDS_MAX && params.words % 4 == 0
}

/// Whether the parameters lie within the limits of version 1, so that a recording with them has a
/// spelling in it: 1 to 8 cores, 1 to 100,000 instructions each, and a memory of 4 to 262,144 words, a
/// multiple of 4.
pub fn fits_old(params: &Params) -> bool
    ensures test { result ≡ fits_old params.now }
    ensures limits { IsTrue result ↔ FitsOld params.now }
{
    let cores = 1 <= params.cores && params.cores <= OLD_CORES_MAX;
    let limit = 1 <= params.limit && params.limit <= OLD_LIMIT_MAX;
    cores && limit && has_blocks(params)
}
