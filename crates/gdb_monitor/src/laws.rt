//! Which pairs of instructions are decisions.
ghost use Rattle.gdb_monitor.specs.Moves.{EdgesAreDecisionsLaw};

/// Each edge of a least log is a decision: `decision` goes to the greatest closed cut without its source.
pub fn edges_are_decisions()
    ensures { EdgesAreDecisionsLaw }
{}
