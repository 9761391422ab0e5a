//! Memory while it is loaded.
ghost use Rattle.std.specs.Prelude.{◌≡◌, ◌+◌, ◌≤◌, [], OnOk, MatchBool, length, max, IsTrue};
ghost use Rattle.image_elf.specs.Cells.{cell, HasSome, HaveSame, IsFree, LoadsInto};
ghost use Rattle.image_elf.specs.Headers.{is_loaded, range_end};

use crate::program_header::ProgramHeader;
use std::alloc::{AllocError, Global};
use std::marker::Model;

/// What was loaded at each address: a byte, or none so far. There is a cell for each address below the greatest end.
#[derive(Drop)]
pub(crate) struct Cells {
    cells: Vec<Option<u8>>,
}

impl Model for Cells {
    ghost use Rattle.std.specs.Prelude.{List, Option, ℕ};

    ghost Value = { List (Option ℕ) };

    ghost view = { λ c. c.cells.items };
}

impl Cells {
    /// No cell.
    pub(crate) fn new(alloc: Global) -> Cells
        ensures { result ≡ [] }
    {
        Cells {
            cells: Vec::new(alloc),
        }
    }

    /// How many cells there are.
    pub(crate) fn len(&self) -> usize
        ensures { result ≡ length self.now }
    {
        self.cells.len()
    }

    /// The byte at an address, if one was loaded there.
    pub(crate) fn get(&self, address: usize) -> Option<u8>
        ensures { result ≡ cell self.now address }
    {
        self.cells.get(address).copied().flatten()
    }

    /// Whether nothing was loaded at the addresses from `start` up to `end`. It looks at no address past the last cell.
    pub(crate) fn is_free(&self, start: usize, end: usize) -> bool
        ensures { MatchBool result (IsFree self.now start end) (HasSome self.now start end) }
    {
        for address in start..end.min(self.cells.len()) {
            if self.cells[address].is_some() {
                return false;
            }
        }
        true
    }

    /// Loads the bytes of a segment that isn't empty.
    pub(crate) fn load(&mut self, file: &[u8], header: ProgramHeader) -> Result<(), AllocError>
        requires within { header.offset + header.filesz ≤ length file.now }
        requires loaded { IsTrue (is_loaded header) }
        ensures length { OnOk result (length self.new ≡ max (range_end header) (length self.old)) }
        ensures cells { OnOk result (LoadsInto file.now header self.old self.new) }
    {
        self.grow(header.end())?;
        for address in header.start()..header.end() {
            self.cells[address] = Some(header.byte(file, address));
        }
        Ok(())
    }

    // Adds empty cells until there are at least so many.
    fn grow(&mut self, len: usize) -> Result<(), AllocError>
        ensures length { OnOk result (length self.new ≡ max len (length self.old)) }
        ensures cells { OnOk result (HaveSame self.old self.new) }
    {
        if self.cells.len() < len {
            self.cells.resize(len, None)?;
        }
        Ok(())
    }
}
