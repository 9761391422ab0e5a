//! The sizes as numbers.
ghost use Rattle.std.specs.Prelude.{◌≡◌};
ghost use Rattle.gdb_moves.specs.Points.{points_max};

use crate::POINTS_MAX;

/// How many points of one kind are kept at most, as a number.
pub fn sizes_law()
    ensures { POINTS_MAX ≡ points_max }
{}
