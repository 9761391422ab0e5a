//! Small runs of the machine with store buffers that its definitions are proved to give. Each is computed from the
//! definitions of state, moves and step alone.
//!
//! Proved: the definitions give six runs. Both loads are logged (thirty steps), one is, a core sees its own store, and
//! bytes of one word are shared. Sums are made by atomic memory operations, and two blocks share a line with a FENCE.
//! The values come from a plain program outside the repository.
#![tactic(auto)]

ghost use Rattle.tso_examples.specs.Examples.{BothLogged, BytesBuffered, MixedEnds};
ghost use Rattle.tso_examples.specs.Examples.{OneLogged, OwnStoreSeen, SumsInTurn};

/// Each core writes a word and reads the other's: both loads find the old words and are logged, or one alone.
pub fn two_cores_buffer_their_stores()
    ensures both { BothLogged }
    ensures one { OneLogged }
{}

/// A core's load sees its own pending store.
pub fn a_core_sees_its_own_store()
    ensures { OwnStoreSeen }
{}

/// Bytes of one word, and sums in one word: none is lost.
pub fn a_word_is_shared()
    ensures bytes { BytesBuffered }
    ensures sums { SumsInTurn }
{}

/// Accesses to two blocks with one line, with a fence and an atomic memory operation among them.
pub fn two_blocks_share_a_line()
    ensures { MixedEnds }
{}
