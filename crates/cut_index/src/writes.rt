//! The writes of each word.
ghost use Rattle.std.specs.Prelude.{◌≡◌, ◌<◌, ℕ, IfOk, [], length, replicate, slice_index_or};
ghost use Rattle.rtr_types.specs.declared.access.Access.{Access as SomeAccess};
ghost use Rattle.cut_index.specs.Writes.{AreWrites, HoldsFirst, left_behind, write_by};

use race_queries::holds;
use rtr_types::{Access, Cut, Instr, Items};
use std::alloc::{AllocError, Global};

/// A write of a word: its instruction, and what it left.
#[derive(Clone, Copy)]
pub(crate) struct Write {
    pub at: Instr,
    pub left: u32,
}

/// The writes of each word among these accesses, as they stand there.
pub(crate) fn writes_of(
    alloc: Global,
    words: u32,
    accesses: &[Access],
) -> Result<Vec<Items<Write>>, AllocError>
    requires { (number : ℕ) (d : SomeAccess) → number < length accesses.now →
        (slice_index_or accesses.now number d).word < words }
    ensures { IfOk result (λ lists. AreWrites words accesses.now lists.items) }
{
    let mut lists = no_lists(alloc, words)?;
    for number in 0..accesses.len() {
        let access = accesses[number];
        if access.kind.is_write() {
            lists[access.word as usize].push(write_by(access))?;
        }
    }
    Ok(lists)
}

/// For each word an empty list.
fn no_lists(alloc: Global, words: u32) -> Result<Vec<Items<Write>>, AllocError>
    ensures { IfOk result (λ lists. lists.items ≡ replicate words []) }
{
    let mut lists = Vec::with_capacity(alloc, words as usize)?;
    for _word in 0..words {
        lists.push(Items::new(alloc))?;
    }
    Ok(lists)
}

/// The write that an access makes.
fn write_by(access: Access) -> Write
    ensures { result ≡ write_by access }
{
    Write {
        at: access.at,
        left: access.after,
    }
}

/// What the writes that the cut holds, which are the first ones, leave of a word that held this. They are found by
/// halving.
pub(crate) fn left_behind(writes: &[Write], cut: &Cut, held: u32) -> u32
    requires { HoldsFirst cut.now writes.now }
    ensures { result ≡ left_behind cut.now held writes.now }
{
    let mut some = 0;
    let mut past = writes.len();
    while some < past {
        let middle = some + (past - some) / 2;
        if holds(cut, writes[middle].at) {
            some = middle + 1;
        } else {
            past = middle;
        }
    }
    if some > 0 {
        writes[some - 1].left
    } else {
        held
    }
}
