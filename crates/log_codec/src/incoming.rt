//! An edge into a core, with its source core.
ghost use Rattle.std.specs.Prelude.{◌≡◌};
ghost use Rattle.log_codec.specs.Incoming.{comes_after, is_earlier, target_of};

use rtr_types::CORES_MAX;

/// A place for each core, as the length of an array.
pub(crate) const PLACES: usize = CORES_MAX as usize;

/// An edge into a core: the core that it comes from, and its two counts, the source's first.
#[derive(Clone, Copy)]
pub(crate) struct Incoming {
    pub(crate) source: u8,
    pub(crate) counts: (u32, u32),
}

impl Incoming {
    /// Whether the edge stands before the other: by the target's count, and at one count by the source
    /// core.
    pub(crate) fn is_earlier(self, other: Incoming) -> bool
        ensures { result ≡ is_earlier self other }
    {
        let (mine, others) = (self.counts.1, other.counts.1);
        mine < others || mine == others && self.source < other.source
    }

    /// Whether the edge may stand after the last one, or be the first.
    pub(crate) fn comes_after(self, last: Option<Incoming>) -> bool
        ensures { result ≡ comes_after last self }
    {
        match last {
            None => self.counts.1 >= 1,
            Some(last) => last.is_earlier(self),
        }
    }
}

/// The target's count of the last edge; 0 before the first one.
pub(crate) fn target_of(last: Option<Incoming>) -> u32
    ensures { result ≡ target_of last }
{
    match last {
        None => 0,
        Some(last) => last.counts.1,
    }
}
