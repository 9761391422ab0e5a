//! A flat memory of words.
ghost use Rattle.std.specs.Prelude.{◌≡◌, ◌<◌, IfOk, length, slice_index, slice_set};
ghost use Rattle.image_mem.specs.Contents.{opening_words};

use crate::image::Image;
use std::alloc::{AllocError, Global};
use std::marker::Model;

/// The words of a memory, by index.
#[derive(Drop)]
pub struct Memory {
    words: Vec<u32>,
}

impl Model for Memory {
    ghost use Rattle.std.specs.Prelude.{List, ℕ};

    ghost Value = { List ℕ };

    ghost view = { λ m. m.words.items };
}

impl Memory {
    /// The memory as the image has it at the start. The only refusal is want of memory.
    pub fn new(alloc: Global, image: &Image) -> Result<Memory, AllocError>
        ensures words { IfOk result (λ memory. memory ≡ opening_words image.now) }
        ensures length { IfOk result (λ memory. length memory ≡ image.now.words) }
    {
        Ok(Memory {
            words: image.opening(alloc)?,
        })
    }

    /// The value of a word.
    pub fn get(&self, word: u32) -> u32
        requires { word < length self.now }
        ensures { result ≡ slice_index self.now word }
    {
        self.words[word as usize]
    }

    /// Gives a word this value, and changes no other.
    pub fn put(&mut self, word: u32, value: u32)
        requires { word < length self.old }
        ensures { self.new ≡ slice_set self.old word value }
    {
        self.words[word as usize] = value;
    }

    /// All words by index, without taking memory.
    pub fn into_words(self) -> Vec<u32>
        ensures { result.items ≡ self }
    {
        let Memory { words } = self;
        words
    }
}
