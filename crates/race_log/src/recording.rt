//! The recording, and how many edges its logs have.
ghost use Rattle.std.specs.Prelude.{◌≡◌, ◌<◌, ◌^◌, length, sum_by};
ghost use Rattle.race_log.specs.Counts.{position_count};

use rtr_types::{Items, Params, Which};
use stride_vector::StrideVector;

/// What `record` writes: all that a replay needs. The lists of the two logs stand by pair of cores,
/// in the order of `pair_at`.
pub struct Recording {
    /// The parameters of the run.
    pub params: Params,
    /// The image that the run began with, at most as long as the memory.
    pub image: Items<u8>,
    /// For each core the number of its retired instructions, at most the limit.
    pub totals: Items<u32>,
    /// For each pair its edges, a count of the source and one of the target. Both rise.
    pub reduced: Items<Items<(u32, u32)>>,
    /// For each pair its strided vectors, each above the last position of the one before it.
    pub regulated: Items<Items<StrideVector>>,
}

// All parts at once, so that a function that lets a recording go at several ends is short to check.
impl Drop for Recording {
    fn drop(self) {
        let Recording {
            params: _params,
            image: _image,
            totals: _totals,
            reduced: _reduced,
            regulated: _regulated,
        } = self;
    }
}

impl Recording {
    ghost use Rattle.race_log.specs.Validity.{Valid};
    ghost use Rattle.race_log.specs.Counts.{edge_count_of};
    ghost use Rattle.race_log.specs.Sources.{log_edges};

    /// The number of edges of the chosen log. Each position of a vector is one.
    pub fn edge_count(&self, which: Which) -> u64
        requires { Valid self.now }
        ensures counted { result ≡ edge_count_of which self.now }
        ensures listed { result ≡ length (log_edges which self.now) }
    {
        match which {
            Which::Reduced => item_count(self.reduced.as_slice()),
            Which::Regulated => positions_of_all(self.regulated.as_slice()),
        }
    }

    /// The image; the rest is let go.
    pub fn into_image(self) -> Items<u8>
        ensures { result ≡ self.image }
    {
        let Recording {
            params: _params,
            image,
            totals: _totals,
            reduced: _reduced,
            regulated: _regulated,
        } = self;
        image
    }
}

/// How many items all the lists have.
pub fn item_count<T>(lists: &[Items<T>]) -> u64
    requires { sum_by (λ list. length list) lists.now < 2 ^ 64 }
    ensures { result ≡ sum_by (λ list. length list) lists.now }
{
    let mut count = 0;
    for list in lists {
        count += list.len() as u64;
    }
    count
}

/// The positions of a pair's vectors.
fn positions(vectors: &[StrideVector]) -> u64
    requires { position_count vectors.now < 2 ^ 64 }
    ensures { result ≡ position_count vectors.now }
{
    let mut count = 0;
    for v in vectors {
        count += v.n as u64;
    }
    count
}

/// The positions of the vectors of all pairs.
fn positions_of_all(regulated: &[Items<StrideVector>]) -> u64
    requires { sum_by position_count regulated.now < 2 ^ 64 }
    ensures { result ≡ sum_by position_count regulated.now }
{
    let mut count = 0;
    for vectors in regulated {
        count += positions(vectors.as_slice());
    }
    count
}
