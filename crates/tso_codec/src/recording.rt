//! The recording, and the parts that its bytes have beyond those of version 2.
ghost use Rattle.std.specs.Prelude.{◌≡◌};

use rtr_types::{Items, Params};

/// The number of the fifth part: for each core the loads that are logged, with their words.
pub const VALUES: u8 = 5;

/// The number of the sixth part: the end, where no byte stands.
pub const END: u8 = 6;

/// What is recorded of a run on cores with store buffers: all that a replay needs.
pub struct TsoRecording {
    /// The parameters of the run.
    pub params: Params,
    /// The image that the run began with, at most as long as the memory.
    pub image: Items<u8>,
    /// For each core the number of its retired instructions, at most the limit.
    pub totals: Items<u32>,
    /// For each pair of cores, in the order of `pair_at`, its edges, a count of the source and one of the
    /// target. Both rise.
    pub reduced: Items<Items<(u32, u32)>>,
    /// For each core its logged loads: the count that the load retired as, of 1 up to the core's total, and the
    /// word that it got. The counts rise.
    pub values: Items<Items<(u32, u32)>>,
}

impl TsoRecording {
    /// The image, where the rest is not needed any more.
    pub fn into_image(self) -> Items<u8>
        ensures { result ≡ self.image }
    {
        let TsoRecording {
            image,
            params: _params,
            totals: _totals,
            reduced: _reduced,
            values: _values,
        } = self;
        image
    }
}

// All parts at once, so that a function that lets a recording go at several ends is short to check.
impl Drop for TsoRecording {
    fn drop(self) {
        let TsoRecording {
            params: _params,
            image: _image,
            totals: _totals,
            reduced: _reduced,
            values: _values,
        } = self;
    }
}
