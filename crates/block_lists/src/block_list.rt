//! A list in blocks.
ghost use Rattle.std.specs.Prelude.{◌≡◌, ◌<◌, ◌≤◌, IfOk, OnErr, OnOk, length, replicate, slice_index, slice_index_or};
ghost use Rattle.std.specs.Prelude.{slice_set};
ghost use Rattle.block_lists.specs.Blocks.{IsOwned};
ghost use Rattle.block_lists.specs.declared.block_list.TheConstants.{BLOCK};

use std::alloc::{AllocError, Global};
use std::marker::Model;

/// How many places a block has.
const BLOCK: usize = 64;

/// A list of so many values, in blocks. For each block of places the table has the number of the block that is kept for
/// them. The block with number 0 is never written: it stands for all that nobody wrote.
#[derive(Drop)]
pub struct BlockList<T> {
    first: T,
    len: usize,
    table: Vec<usize>,
    kept: Vec<T>,
}

impl<T> Model for BlockList<T> {
    ghost use Rattle.std.specs.Prelude.{List};
    ghost use Rattle.block_lists.specs.Blocks.{Fits, values_in};

    ghost Value = { List T };

    ghost view = { λ a. values_in a.first a.table.items a.kept.items a.len };

    ghost invariant = { λ a. Fits a.first a.table.items a.kept.items a.len };
}

impl<T: Copy> BlockList<T> {
    /// So many times this value. The only refusal is want of memory.
    pub fn new(alloc: Global, len: usize, first: T) -> Result<BlockList<T>, AllocError>
        ensures { IfOk result (λ list. list ≡ replicate len first) }
    {
        let mut kept = Vec::with_capacity(alloc, BLOCK)?;
        kept.resize(BLOCK, first)?;
        let blocks = len.div_ceil(BLOCK);
        let mut table = Vec::with_capacity(alloc, blocks)?;
        table.resize(blocks, 0)?;
        Ok(BlockList {
            first,
            len,
            table,
            kept,
        })
    }

    /// How many values there are.
    pub fn len(&self) -> usize
        ensures { result ≡ length self.now }
    {
        self.len
    }

    /// The value at a place.
    #[inline(always)]
    pub fn get(&self, place: usize) -> &T
        requires { place < length self.now }
        ensures value { (d : T) → result.now ≡ slice_index_or self.now place d }
        ensures here { result.now ≡ slice_index_or self.now place result.now }
    {
        &self.kept[self.table[place / BLOCK] * BLOCK + place % BLOCK]
    }

    /// Gives a place this value, and changes no other. After want of memory nothing has changed. No memory is wanted
    /// where the place's block was written before.
    #[inline(always)]
    pub fn set(&mut self, place: usize, value: T) -> Result<(), AllocError>
        requires { place < length self.old }
        ensures ok { OnOk result (self.new ≡ slice_set self.old place value) }
        ensures err { OnErr result (self.new ≡ self.old) }
    {
        let block = place / BLOCK;
        own(&mut self.table, &mut self.kept, block)?;
        let spot = self.table[block] * BLOCK + place % BLOCK;
        self.kept[spot] = value;
        Ok(())
    }
}

/// Has a block of its own for one of the table's, with the values that it had. After want of memory nothing has changed.
#[inline(always)]
fn own<T: Copy>(table: &mut Vec<usize>, kept: &mut Vec<T>, block: usize) -> Result<(), AllocError>
    requires block { block < length table.old.items }
    requires shared { BLOCK ≤ length kept.old.items }
    ensures own { OnOk result (IsOwned table.old.items kept.old.items block table.new.items kept.new.items) }
    ensures table { OnErr result (table.new.items ≡ table.old.items) }
    ensures kept { OnErr result (kept.new.items ≡ kept.old.items) }
{
    if table[block] != 0 {
        return Ok(());
    }
    open(table, kept, block)
}

/// Keeps a block more for one of the table's that shared the first.
#[inline(never)]
fn open<T: Copy>(table: &mut Vec<usize>, kept: &mut Vec<T>, block: usize) -> Result<(), AllocError>
    requires block { block < length table.old.items }
    requires shared { BLOCK ≤ length kept.old.items }
    requires none { slice_index table.old.items block ≡ 0 }
    ensures own { OnOk result (IsOwned table.old.items kept.old.items block table.new.items kept.new.items) }
    ensures table { OnErr result (table.new.items ≡ table.old.items) }
    ensures kept { OnErr result (kept.new.items ≡ kept.old.items) }
{
    let number = kept.len() / BLOCK;
    kept.extend_from_within(0..BLOCK)?;
    table[block] = number;
    Ok(())
}
