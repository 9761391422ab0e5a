//! What the ports of a memory system agree on.
ghost use Rattle.std.specs.Prelude.{◌≡◌, ℕ, true};
ghost use Rattle.machine_ports.specs.Writers.{OneWriterEach};
ghost use Rattle.msi_laws.specs.Holds.{MemoryHolds};
ghost use Rattle.msi_laws.specs.Moving.{links_empty};
ghost use Rattle.msi_memory.specs.Finals.{at_hand};
ghost use Rattle.msi_memory.specs.Memories.{Memory};

use access_times::{Carry, Rider};

/// At most one cache may write a block, and then no other may read it. Once nothing is under way the words of each
/// block are at hand: at the home, or at the port of the core that owns the block.
pub fn ports_agree<R: Rider, K: Carry>()
    ensures writers { (m : Memory R K) → MemoryHolds R.riding K.carrying m → OneWriterEach R.riding K.carrying m }
    ensures words { (m : Memory R K) → MemoryHolds R.riding K.carrying m → links_empty m ≡ true
        → (block : ℕ) → at_hand R.riding K.carrying m block ≡ true }
{}
