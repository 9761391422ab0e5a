//! What a source and a sink promise.
ghost use Rattle.std.specs.Prelude.{◌≡◌, ℕ, ◌<◌, ◌≤◌, IfOk, List, OnErr, OnOk, Option, length};
ghost use Rattle.std.specs.Io.KnownBytes.{ReadConsumes, WriteAppends};
ghost use Rattle.rtr_io.specs.Faults.{HasRisen};

/// A call of a source or a sink that failed and moved nothing.
#[derive(Clone, Copy, Debug, PartialEq, Eq)]
pub struct Failed;

/// Where bytes come from. It has two meanings for contracts: the bytes that are left, where it tells
/// them, and a count of faults, which never falls and stands still at 2^64 - 1.
pub trait Source {
    ghost left: { Self → Option (List ℕ) };

    ghost faults: { Self → ℕ };

    /// Moves the next bytes to the front of `into`, which isn't empty, and answers how many. 0 means
    /// the end: where the bytes are told, none is left. `Failed` moves nothing, and comes only where
    /// the count of faults rose in this call; every other answer leaves that count as it was.
    fn take(&mut self, into: &mut [u8]) -> Result<usize, Failed>
        requires { 0 < length into.old }
        ensures within { IfOk result (λ n. n ≤ length into.new) }
        ensures bytes { ReadConsumes (left self.old) (left self.new) result into.new }
        ensures ok { OnOk result (faults self.new ≡ faults self.old) }
        ensures failed { OnErr result (HasRisen (faults self.old) (faults self.new)) }
        ensures never_falls { faults self.old ≤ faults self.new };
}

/// Where bytes go to. It has two meanings for contracts: the bytes that it got, where it tells them,
/// and a count of faults, which never falls and stands still at 2^64 - 1.
pub trait Sink {
    ghost got: { Self → Option (List ℕ) };

    ghost faults: { Self → ℕ };

    /// Appends the first bytes of `piece`, which isn't empty, and answers how many, at least one.
    /// `Failed` appends nothing, and comes only where the count of faults rose in this call; every
    /// other answer leaves that count as it was. A sink that takes nothing has failed.
    fn give(&mut self, piece: &[u8]) -> Result<usize, Failed>
        requires { 0 < length piece.now }
        ensures some { IfOk result (λ n. 1 ≤ n) }
        ensures within { IfOk result (λ n. n ≤ length piece.now) }
        ensures bytes { WriteAppends (got self.old) (got self.new) result piece.now }
        ensures ok { OnOk result (faults self.new ≡ faults self.old) }
        ensures failed { OnErr result (HasRisen (faults self.old) (faults self.new)) }
        ensures never_falls { faults self.old ≤ faults self.new };
}
