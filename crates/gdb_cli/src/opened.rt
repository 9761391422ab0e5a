//! A file that was to be opened.
ghost use Rattle.std.specs.Prelude.{◌≡◌, ◌<◌, ◌≤◌, IfOk, IsErr, None, OnErr, OnOk, length};
ghost use Rattle.std.specs.Io.KnownBytes.{ReadConsumes};
ghost use Rattle.std.specs.Option.{option_and_then};
ghost use Rattle.rtr_io.specs.Faults.{HasRisen};

use rtr_io::{Failed, Source};
use std::io::Read;

/// A source over a file that was to be opened. It has left what the file has left, where the file tells it. Where the
/// file couldn't be opened it tells nothing, and each call fails, as where a file can't be read.
#[derive(Drop)]
pub(crate) struct Opened<T> {
    file: Option<T>,
    faults: u64,
}

impl<T: Read> Opened<T> {
    /// A source over this file, or over none, with no fault so far.
    pub(crate) fn new(file: Option<T>) -> Opened<T>
        ensures { result ≡ record { file = file; faults = 0 } }
    {
        Opened { file, faults: 0 }
    }
}

impl<T: Read> Source for Opened<T> {
    ghost left = { λ s. option_and_then T.remaining s.file };

    ghost faults = { λ s. s.faults };

    fn take(&mut self, into: &mut [u8]) -> Result<usize, Failed>
        requires { 0 < length into.old }
        ensures within { IfOk result (λ n. n ≤ length into.new) }
        ensures bytes { ReadConsumes (option_and_then T.remaining self.old.file)
            (option_and_then T.remaining self.new.file) result into.new }
        ensures ok { OnOk result (self.new.faults ≡ self.old.faults) }
        ensures failed { OnErr result (HasRisen self.old.faults self.new.faults) }
        ensures never_falls { self.old.faults ≤ self.new.faults }

        // Beyond what every source promises: without a file nothing is read.
        ensures missing { self.old.file ≡ None → IsErr result }
    {
        if let Some(file) = &mut self.file {
            if let Ok(n) = file.read(into) {
                return Ok(n);
            }
        }
        self.faults = self.faults.saturating_add(1);
        Err(Failed)
    }
}
