//! What holds of a block, whatever moves are made from the start.
ghost use Rattle.std.specs.Prelude.{◌≡◌, ℕ, List, true};
ghost use Rattle.msi_protocol.specs.Block.{BlockMove, block_run, block_start};
ghost use Rattle.msi_protocol.specs.Example.{BothShare, FirstOwns, store_again, store_then_load};
ghost use Rattle.msi_protocol.specs.Promises.{Always, BusyMoves, FewUnderWay, HasRows, InvariantLaws, NoneForgotten};
ghost use Rattle.msi_protocol.specs.Promises.{OneWriter, OnlyBelow, QuietAgrees, moves_below};

/// The invariant: each core is with the block where the home takes it to be. It holds at the start, each
/// move keeps it, and the stages that it allows are those that the home's own invariant allows.
pub fn moves_keep_the_invariant()
    ensures { InvariantLaws }
{}

/// At most one cache may write the block, and then no other may read it.
pub fn one_writer()
    ensures { Always OneWriter }
{}

/// Each message under way has a row in its receiver's table when it is taken: a request at a home that
/// isn't busy with the block, a response at the home, and a message from home at the core's line.
pub fn each_message_has_a_row()
    ensures { Always HasRows }
{}

/// While the block is busy, a response about it is under way to the home, or a message about it to a
/// core.
pub fn a_busy_block_moves()
    ensures { Always BusyMoves }
{}

/// While the block isn't busy, a core whose line waits for the home has its request under way, or is
/// sent what it waits for. While it is busy, `a_busy_block_moves` says what can be taken.
pub fn no_core_is_forgotten()
    ensures { Always NoneForgotten }
{}

/// Of the block and one core, at most one request, one response and two messages are under way.
pub fn few_messages_are_under_way()
    ensures { Always FewUnderWay }
{}

/// Where nothing of the block is under way it isn't busy, and the home knows who has a copy: each sharer
/// has it in S, the owner has it in M, and no other core has one.
pub fn a_quiet_block_agrees()
    ensures { Always QuietAgrees }
{}

/// A machine with fewer cores is the same protocol: where only cores below some number move, no other
/// core ever has a copy of the block or a message about it.
pub fn fewer_cores_stay_alone()
    ensures { (cores : ℕ) (moves : List BlockMove) → moves_below cores moves ≡ true
        → OnlyBelow cores (block_run moves block_start) }
{}

/// An example: core 0 writes and core 1 reads, so that they share the block; then core 0 writes again, and
/// owns it alone.
pub fn the_example_goes_so()
    ensures shared { BothShare (block_run store_then_load block_start) }
    ensures owned { FirstOwns (block_run store_again (block_run store_then_load block_start)) }
{}
