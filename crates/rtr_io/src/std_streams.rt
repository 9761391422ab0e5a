//! A source over std's readers and a sink over its writers. They tell what these tell.
ghost use Rattle.std.specs.Prelude.{◌≡◌};

use crate::traits::{Failed, Sink, Source};
use std::io::{Read, Write};
use std::marker::Model;

/// A source over a reader, or a sink over a writer, with how often a call of it failed.
#[derive(Drop)]
pub struct StdStream<T> {
    inner: T,
    faults: u64,
}

/// A source over a reader. It has left what the reader has left, where the reader tells it, and counts
/// the reader's errors. (Of a file, a pipe or a terminal no reader tells it.)
pub type StdSource<T> = StdStream<T>;

/// A sink over a writer. It got what the writer holds, where the writer tells it, and counts the writer's
/// errors; a writer that takes nothing has failed.
pub type StdSink<T> = StdStream<T>;

impl<T> Model for StdStream<T> {
    ghost use Rattle.rtr_io.specs.Streams.{Over};

    ghost Value = { Over T };

    ghost view = { λ s. record { inner = s.inner; faults = s.faults } };
}

impl<T> StdStream<T> {
    /// A source over this reader, or a sink over this writer, with no fault so far.
    pub fn new(inner: T) -> StdStream<T>
        ensures { result ≡ record { inner = inner; faults = 0 } }
    {
        StdStream { inner, faults: 0 }
    }
}

impl<T: Read> Source for StdStream<T> {
    ghost left = { λ s. T.remaining s.inner };

    ghost faults = { λ s. s.faults };

    fn take(&mut self, into: &mut [u8]) -> Result<usize, Failed> {
        match self.inner.read(into) {
            Ok(n) => Ok(n),
            Err(_) => {
                self.faults = self.faults.saturating_add(1);
                Err(Failed)
            }
        }
    }
}

impl<T: Write> Sink for StdStream<T> {
    ghost got = { λ s. T.contents s.inner };

    ghost faults = { λ s. s.faults };

    fn give(&mut self, piece: &[u8]) -> Result<usize, Failed> {
        match self.inner.write(piece) {
            Ok(n) if n > 0 => Ok(n),
            _ => {
                self.faults = self.faults.saturating_add(1);
                Err(Failed)
            }
        }
    }
}
