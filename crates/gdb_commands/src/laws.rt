//! What is told goes in pieces of a size.
ghost use Rattle.std.specs.Prelude.{◌≡◌, ◌+◌, ◌*◌, ◌≤◌};
ghost use Rattle.gdb_packets.specs.declared.TheConstants.{PAYLOAD_MAX};
ghost use Rattle.gdb_commands.specs.Payloads.{frame_max};

use crate::FRAME_MAX;

/// How many bytes of a text one payload has at most, as a number. Two digits for each, behind one letter, are within
/// the longest payload.
pub fn sizes_law()
    ensures frame { FRAME_MAX ≡ frame_max }
    ensures fits { 1 + 2 * FRAME_MAX ≤ PAYLOAD_MAX }
{}
