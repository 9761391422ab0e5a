//! The reader of frames: it takes bytes one after the other and tells what they come to.
ghost use Rattle.std.specs.Prelude.{◌≡◌, ◌≤◌, ◌++◌, ◌∷◌, IfOk, List, [], vec_capacity, ℕ};
ghost use Rattle.gdb_packets.specs.declared.TheConstants.{PAYLOAD_MAX};

use crate::PAYLOAD_MAX;
use crate::frames::{ESCAPE, are_digits_of};
use std::alloc::{AllocError, Global};

/// What a byte tells.
#[derive(Clone, Copy, Debug, PartialEq, Eq)]
pub enum Told {
    /// Nothing, so far.
    Nothing,
    /// A frame has ended that is good. Its payload can be looked at until the next byte.
    Packet,
    /// A frame has ended whose sum is wrong or no number, that ends behind a `}`, or whose payload is too long.
    Broken,
    /// An interrupt, between frames.
    Interrupt,
    /// The last answer is wanted again.
    Again,
}

/// Where the reader stands.
#[derive(Clone, Copy)]
pub(crate) enum Stage {
    Between,
    Body,
    Sum,
    Digit(u8),
}

/// A reader of frames. It holds at most `PAYLOAD_MAX` bytes, for which it takes memory once.
#[derive(Drop)]
pub struct Reader {
    stage: Stage,
    payload: Vec<u8>,
    sum: u8,
    cut: bool,
    long: bool,
    ghost roomy: { PAYLOAD_MAX ≤ vec_capacity payload },
}

impl Reader {
    ghost use Rattle.gdb_packets.specs.Frames.{Between, Body, Digit, Standing, follow, moved, tells, told};
    ghost use Rattle.gdb_packets.specs.Readers.{Holds, IsAt, Keeps, event_of, payload_of};

    /// A reader between frames. It is refused for want of memory alone.
    pub fn new(alloc: Global) -> Result<Reader, AllocError>
        ensures { IfOk result (λ reader. IsAt Between reader) }
    {
        Ok(Reader {
            stage: Stage::Between,
            payload: Vec::with_capacity(alloc, PAYLOAD_MAX)?,
            sum: 0,
            cut: false,
            long: false,
        })
    }

    /// The payload of the packet that the last byte told.
    pub fn payload(&self) -> &[u8]
        ensures { result.now ≡ payload_of self.now }
    {
        self.payload.as_slice()
    }

    /// Takes the next byte, and tells what it comes to.
    pub fn feed(&mut self, byte: u8) -> Told
        ensures told { (at : Standing) → IsAt at self.old → event_of result (payload_of self.new) ≡ tells at byte }
        ensures follows { (at : Standing) → IsAt at self.old → IsAt (follow at byte) self.new }
    {
        if byte == b'$' {
            self.begin();
            return Told::Nothing;
        }
        match self.stage {
            Stage::Between => Reader::between(byte),
            Stage::Body => {
                self.take(byte);
                Told::Nothing
            }
            Stage::Sum => {
                self.stage = Stage::Digit(byte);
                Told::Nothing
            }
            Stage::Digit(high) => {
                self.stage = Stage::Between;
                self.verdict(high, byte)
            }
        }
    }

    /// Begins a frame.
    fn begin(&mut self)
        ensures { IsAt (Body []) self.new }
    {
        self.stage = Stage::Body;
        self.payload.clear();
        self.sum = 0;
        self.cut = false;
        self.long = false;
    }

    /// Takes a byte of a body, or the `#` behind it.
    fn take(&mut self, byte: u8)
        ensures { (body : List ℕ) → IsAt (Body body) self.old → IsAt (moved (Body body) byte) self.new }
    {
        if byte == b'#' {
            self.stage = Stage::Sum;
        } else {
            self.add(byte);
        }
    }

    /// Adds a byte to the body.
    fn add(&mut self, byte: u8)
        ensures stage { self.new.stage ≡ self.old.stage }
        ensures holds { (body : List ℕ) → Holds body self.old → Holds (body ++ byte ∷ []) self.new }
    {
        self.sum = self.sum.wrapping_add(byte);
        if self.cut {
            self.cut = false;
            self.put(byte ^ ESCAPE);
        } else if byte == b'}' {
            self.cut = true;
        } else {
            self.put(byte);
        }
    }

    /// Adds a byte to the payload, unless that would be too long.
    fn put(&mut self, byte: u8)
        ensures stage { self.new.stage ≡ self.old.stage }
        ensures sum { self.new.sum ≡ self.old.sum }
        ensures cut { self.new.cut ≡ self.old.cut }
        ensures payload { (xs : List ℕ) → Keeps xs self.old → Keeps (xs ++ byte ∷ []) self.new }
    {
        if self.payload.len() < PAYLOAD_MAX {
            self.payload.push_reserved(byte);
        } else {
            self.long = true;
        }
    }

    /// What the end of a frame tells, by its two digits.
    fn verdict(&self, high: u8, low: u8) -> Told
        ensures { (body : List ℕ) → Holds body self.now →
            event_of result (payload_of self.now) ≡ told (Digit body high) low }
    {
        if are_digits_of(self.sum, high, low) && !self.cut && !self.long {
            Told::Packet
        } else {
            Told::Broken
        }
    }

    /// What a byte other than `$` tells between frames.
    fn between(byte: u8) -> Told
        ensures { (payload : List ℕ) → event_of result payload ≡ told Between byte }
    {
        match byte {
            0x03 => Told::Interrupt,
            b'-' => Told::Again,
            _ => Told::Nothing,
        }
    }
}
