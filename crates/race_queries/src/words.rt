//! Who reads and writes a word.
ghost use Rattle.std.specs.Prelude.{[], ◌≡◌, ◌++◌, IfOk, MatchOption, OnOk, drop, filter, length};
ghost use Rattle.race_queries.specs.Queries.{AreReadsSince, IsLastWrite, NoWriteIn, accesses_to, is_held};
ghost use Rattle.race_queries.specs.Queries.{is_load_of, is_write_of, loads_behind};
ghost use Rattle.race_queries.specs.Places.{IsLastPlace};

use replay_audit::Audited;
use rtr_types::{Access, Cut, Instr, Items};
use std::alloc::{AllocError, Global};

/// The last write of the word, by its index, in the cut: the write to which each other write of the word in the cut
/// leads. None where the cut has no write of it, so that the word has its opening value.
pub fn last_write(audited: &Audited, cut: &Cut, word: u32) -> Option<Access>
    ensures { MatchOption result (NoWriteIn audited.now.accesses cut.now word) (IsLastWrite audited.now cut.now word) }
{
    // The audit passed, so the log orders writes of one word.
    let _ = audited.recording();
    let list = audited.accesses();
    let place = last_place(list, cut, word)?;
    Some(list[place])
}

/// The loads of the word in the cut since the last write of it in the cut: those to which each write of the word in
/// the cut leads. Where there is none, all loads of the word in the cut. They stand in the order of the audit's
/// accesses.
pub fn reads_since(
    alloc: Global,
    audited: &Audited,
    cut: &Cut,
    word: u32,
) -> Result<Items<Access>, AllocError>
    ensures reads { IfOk result (AreReadsSince audited.now cut.now word) }
    ensures order { IfOk result (λ list. list ≡ loads_behind cut.now word [] audited.now.accesses) }
{
    // The audit passed, so the log orders each write and each load of one word.
    let _ = audited.recording();
    let list = audited.accesses();
    let from = match last_place(list, cut, word) {
        Some(place) => place + 1,
        None => 0,
    };
    loads_from(alloc, list, from, cut, word)
}

/// All accesses to the word, by its index, in an order that the log allows.
pub fn history(alloc: Global, audited: &Audited, word: u32) -> Result<Items<Access>, AllocError>
    ensures { IfOk result (λ list. list ≡ accesses_to word audited.now.accesses) }
{
    let accesses = audited.accesses();
    let mut list = Vec::new(alloc);
    for access in accesses {
        if access.word == word {
            list.push(*access)?;
        }
    }
    Ok(Items::from_vec(list))
}

/// The loads of the word in the cut, from a place of the list on.
fn loads_from(
    alloc: Global,
    accesses: &[Access],
    from: usize,
    cut: &Cut,
    word: u32,
) -> Result<Items<Access>, AllocError>
    ensures { IfOk result (λ list. list ≡ filter (is_load_of cut.now word) (drop from accesses.now)) }
{
    let mut list = Vec::new(alloc);
    let mut k = from;
    while k < accesses.len() {
        if is_load_of(cut, word, accesses[k]) {
            list.push(accesses[k])?;
        }
        k += 1;
    }
    Ok(Items::from_vec(list))
}

/// The last place in the list of a write of the word in the cut.
fn last_place(list: &[Access], cut: &Cut, word: u32) -> Option<usize>
    ensures { MatchOption result (NoWriteIn list.now cut.now word) (IsLastPlace list.now cut.now word) }
{
    let mut k = list.len();
    while k > 0 {
        k -= 1;
        if is_write_of(cut, word, list[k]) {
            return Some(k);
        }
    }
    None
}

/// Whether the access writes the word, and is in the cut.
fn is_write_of(cut: &Cut, word: u32, access: Access) -> bool
    ensures { result ≡ is_write_of cut.now word access }
{
    if access.word != word || !access.kind.is_write() {
        return false;
    }
    holds(cut, access.at)
}

/// Whether the access reads the word and doesn't write it, and is in the cut.
fn is_load_of(cut: &Cut, word: u32, access: Access) -> bool
    ensures { result ≡ is_load_of cut.now word access }
{
    if access.word != word || access.kind.is_write() {
        return false;
    }
    holds(cut, access.at)
}

/// Whether the cut holds the instruction.
pub fn holds(cut: &Cut, at: Instr) -> bool
    ensures { result ≡ is_held cut.now at }
{
    match cut.counts.get(at.core as usize) {
        Some(count) => at.count <= *count,
        None => at.count == 0,
    }
}
