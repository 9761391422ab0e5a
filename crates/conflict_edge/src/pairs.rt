//! Which accesses conflict.
ghost use Rattle.std.specs.Prelude.{◌≡◌, ◌↔◌, IsTrue};
ghost use Rattle.conflict_edge.specs.Conflicts.{Conflicts, do_conflict};

use rtr_types::Access;

/// Whether two accesses conflict: different cores make them to one word and at least one of them
/// writes. A location is the aligned 32-bit word, so accesses to different bytes of one word conflict
/// too.
pub fn conflicts(x: &Access, y: &Access) -> bool
    ensures fact { IsTrue result ↔ Conflicts x.now y.now }
    ensures test { result ≡ do_conflict x.now y.now }
{
    x.at.core != y.at.core && x.word == y.word && (x.kind.is_write() || y.kind.is_write())
}
