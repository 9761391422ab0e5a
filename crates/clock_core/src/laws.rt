//! What comes before what, and what clocks mean.
ghost use Rattle.std.specs.Prelude.{◌≡◌, ℕ, List, max, slice_index};
ghost use Rattle.rtr_types.specs.declared.instr.Edge.{Edge};
ghost use Rattle.rtr_types.specs.declared.instr.Instr.{Instr};
ghost use Rattle.clock_core.specs.Counts.{merged, no_counts};
ghost use Rattle.clock_core.specs.Order.{Among, AmongLaw, Before, ProgramOrder, Within};
ghost use Rattle.clock_core.specs.Reach.{MergeLaw, OneClockLaw};
ghost use Rattle.clock_core.specs.declared.clock.Clock.{Clock};

/// That an edge is among those of a list, as pairs of instructions, and that the list contains it say the
/// same.
pub fn among_law()
    ensures { AmongLaw }
{}

/// What is before by a list of edges has program order and the edges, is transitive, and grows with
/// the edges.
pub fn before_law()
    ensures program { (edges : List Edge) → Within ProgramOrder (Before (Among edges)) }
    ensures edges { (edges : List Edge) → Within (Among edges) (Before (Among edges)) }
    ensures joined { (edges : List Edge) (x y z : Instr) →
        Before (Among edges) x y → Before (Among edges) y z → Before (Among edges) x z }
    ensures grows { (edges others : List Edge) →
        Within (Among edges) (Before (Among others)) → Within (Before (Among edges)) (Before (Among others)) }
{}

/// The clock of an instruction, merged over its predecessors, is reachability: at each core's place
/// stands the number of that core's instructions that are the instruction or lead to it, by any list
/// of edges under which it does not lead to itself.
pub fn merge_law()
    ensures { MergeLaw }
{}

/// By any list of edges an instruction has one clock.
pub fn one_clock_law()
    ensures { OneClockLaw }
{}

/// What the words on clocks mean at each place.
pub fn counts_law()
    ensures zero { (i : ℕ) → slice_index no_counts i ≡ 0 }
    ensures merged { (x y : Clock) (i : ℕ) →
        slice_index (merged x y) i ≡ max (slice_index x i) (slice_index y i) }
{}
