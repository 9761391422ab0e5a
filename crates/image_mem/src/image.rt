//! Images: the bytes that a machine starts with.
ghost use Rattle.std.specs.Prelude.{◌≡◌, ◌+◌, ◌*◌, ◌%◌, ◌<◌, ◌≤◌, ◌≢◌, ◌↔◌, ◌⊎◌, IsErr, IsNone, IfOk, length};
ghost use Rattle.std.specs.Prelude.{slice_index};
ghost use Rattle.image_mem.specs.Contents.{Contents, fetched, opening_word, opening_words};

use byteorder::{ByteOrder, LittleEndian};
use std::alloc::{AllocError, Global};
use std::marker::Model;

/// The image has more bytes than the memory.
#[derive(Clone, Copy, Debug, PartialEq, Eq)]
pub struct TooLarge;

/// The bytes that stand in memory from address 0 on when a machine starts, and the number of 32-bit
/// words of that memory. Every other byte of the memory starts as 0.
#[derive(Drop)]
pub struct Image {
    bytes: Vec<u8>,
    words: u32,
}

impl Model for Image {
    ghost use Rattle.std.specs.Prelude.{◌*◌, ◌≤◌, length};
    ghost use Rattle.image_mem.specs.Contents.{Contents};

    ghost Value = { Contents };

    ghost view = { λ a. record { bytes = a.bytes.items; words = a.words } };

    ghost invariant = { λ a. length a.bytes.items ≤ 4 * a.words };
}

impl Image {
    /// The image of these bytes over a memory of `words` words. It is refused, and the bytes are
    /// dropped, exactly where there are more than `4 * words` bytes.
    pub fn flat(bytes: Vec<u8>, words: u32) -> Result<Image, TooLarge>
        ensures image { IfOk result (λ image. image ≡ record { bytes = bytes.items; words = words }) }
        ensures too_large { IsErr result ↔ (4 * words < length bytes.items) }
    {
        if bytes.len() > words as usize * 4 {
            return Err(TooLarge);
        }
        Ok(Image { bytes, words })
    }

    /// The instruction word at the address `pc`, lowest byte first. There is none exactly where `pc`
    /// is no multiple of 4 or the four bytes aren't all the image's.
    pub fn fetch(&self, pc: u32) -> Option<u32>
        ensures value { result ≡ fetched self.now pc }
        ensures none { IsNone result ↔ ((pc % 4 ≢ 0) ⊎ (length self.now.bytes < pc + 4)) }
    {
        let bytes = self.bytes();
        let start = pc as usize;
        if pc % 4 != 0 || start + 4 > bytes.len() {
            return None;
        }
        Some(LittleEndian::read_u32(&bytes[start..]))
    }

    /// What the memory word of this index holds at the start. Bytes past the image are 0, and so are
    /// words past the memory.
    pub fn word(&self, word: u32) -> u32
        ensures value { result ≡ opening_word self.now word }
        ensures past { self.now.words ≤ word → result ≡ 0 }
    {
        let bytes = self.bytes();
        let start = word as usize * 4;
        // most words of a memory lie past the image
        if start >= bytes.len() {
            return 0;
        }
        let lanes = [
            byte(bytes, start),
            byte(bytes, start + 1),
            byte(bytes, start + 2),
            byte(bytes, start + 3),
        ];
        LittleEndian::read_u32(&lanes)
    }

    /// What each word of the memory holds at the start, by index. Words that the image doesn't reach are filled in as a
    /// whole. The only refusal is want of memory.
    pub fn opening(&self, alloc: Global) -> Result<Vec<u32>, AllocError>
        ensures { IfOk result (λ words. words.items ≡ opening_words self.now) }
    {
        let mut words = Vec::with_capacity(alloc, self.words as usize)?;
        let reached = self.bytes().len().div_ceil(4) as u32;
        for word in 0..reached {
            words.push(self.word(word))?;
        }
        words.resize(self.words as usize, 0)?;
        Ok(words)
    }

    /// How many words the memory has.
    pub fn words(&self) -> u32
        ensures value { result ≡ self.now.words }
        ensures room { length self.now.bytes ≤ 4 * result }
    {
        self.words
    }

    /// The bytes that were loaded.
    pub fn bytes(&self) -> &[u8]
        ensures value { result.now ≡ self.now.bytes }
        ensures room { length result.now ≤ 4 * self.now.words }
    {
        self.bytes.as_slice()
    }

    /// The bytes that were loaded, without taking memory.
    pub fn into_bytes(self) -> Vec<u8>
        ensures { result.items ≡ self.bytes }
    {
        let Image { bytes, .. } = self;
        bytes
    }
}

// The byte at an address, 0 past the image.
fn byte(bytes: &[u8], address: usize) -> u8
    ensures { result ≡ slice_index bytes.now address }
{
    bytes.get(address).copied().unwrap_or(0)
}
