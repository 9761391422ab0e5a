//! What holds of the memory system in each state that its acts lead to from the start.
ghost use Rattle.msi_memory.specs.Memories.{Memory};
ghost use Rattle.msi_laws.specs.Holds.{InvariantLaws, MemoryHolds, OneWriterEverywhere};
ghost use Rattle.msi_laws.specs.Moving.{MovingLaw, QuietLaw};
ghost use Rattle.msi_laws.specs.Ready.{LinksHoldLaw, ReadyLaw};
ghost use Rattle.msi_laws.specs.Waits.{WaitingLaws};
ghost use Rattle.msi_laws.specs.Words.{FindsLaw, WordsLaws};

use access_times::{Carry, Rider};

/// The invariant holds at the start, and each act that can be made keeps it, whatever rider an access leaves.
/// Each block of a memory system that keeps it is well, as the protocol has it.
pub fn acts_keep_the_invariant<R: Rider, K: Carry>()
    ensures { InvariantLaws R.riding K.carrying }
{}

/// At most one cache may write a block, and then no other may read it.
pub fn one_writer_everywhere<R: Rider, K: Carry>()
    ensures { (m : Memory R K) → MemoryHolds R.riding K.carrying m → OneWriterEverywhere R.riding K.carrying m }
{}

/// What an act rests on is there: the message that it takes has a row in its receiver's table, and no link that
/// it pushes to is full. No link ever has more on it than it has room for.
pub fn acts_are_ready<R: Rider, K: Carry>()
    ensures ready { ReadyLaw R.riding K.carrying }
    ensures links { LinksHoldLaw R.riding K.carrying }
{}

/// While a port waits some message can be taken, and where none waits nothing is under way.
pub fn a_memory_is_never_stuck<R: Rider, K: Carry>()
    ensures moving { MovingLaw R.riding K.carrying }
    ensures quiet { QuietLaw R.riding K.carrying }
{}

/// A port that is asked waits for the access that it is asked for, and does so in every other act, until it
/// waits no more: when the data come the cache allows the access. A port begins to wait by asking alone.
pub fn a_port_waits_for_one_access<R: Rider, K: Carry>()
    ensures { WaitingLaws R.riding K.carrying }
{}

/// At the start the copies that count have the words that the home has, and each act keeps that they have the
/// memory's, as the memory is after it.
pub fn acts_keep_words<R: Rider, K: Carry>()
    ensures { WordsLaws R.riding K.carrying }
{}

/// Where a port allows an access, it has the memory's words.
pub fn a_touch_finds_the_words<R: Rider, K: Carry>()
    ensures { FindsLaw R.riding K.carrying }
{}
