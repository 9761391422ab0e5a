//! Room in the home for the blocks that are asked for.
ghost use Rattle.std.specs.Prelude.{◌≡◌, All, IfOk, IsTrue, OnErr, OnOk, length, true};
ghost use Rattle.msi_memory.specs.Acts.{head_free};
ghost use Rattle.msi_memory.specs.Rests.{OthersRoomy, RoomsMade, are_heads_roomy, head_within, requests_at};

use crate::port::Port;
use access_times::{Carry, Rider};
use msi_directory::Home;
use std::alloc::AllocError;

/// Makes room for the block of the core's oldest request, if there is one. The answer is whether there is one
/// and it can be taken now.
pub(crate) fn make_room_for_head<R: Rider, K: Carry>(
    home: &mut Home<R>,
    ports: &[Port<R, K>],
    core: u8,
) -> Result<bool, AllocError>
    requires heads { All (λ p. IsTrue (head_within p.requests.items (length home.old.entries))) ports.now }
    requires others { OthersRoomy ports.now core home.old.rooms }
    ensures entries { home.new.entries ≡ home.old.entries }
    ensures rooms { RoomsMade ports.now home.old.rooms home.new.rooms }
    ensures others { OthersRoomy ports.now core home.new.rooms }
    ensures ok { OnOk result (are_heads_roomy ports.now home.new.rooms ≡ true) }
    ensures free { IfOk result (λ free. free ≡ head_free (requests_at ports.now core) R.riding home.old.entries) }
    ensures err { OnErr result (home.new ≡ home.old) }
{
    let Some(port) = ports.get(core as usize) else {
        return Ok(false);
    };
    let Some(mail) = port.requests.head() else {
        return Ok(false);
    };
    let free = home.make_room(mail.item.block())?;
    Ok(free)
}

/// Whether the home has room for the block of each port's oldest request.
pub(crate) fn are_roomy<R: Rider, K: Carry>(home: &Home<R>, ports: &[Port<R, K>]) -> bool
    requires { All (λ p. IsTrue (head_within p.requests.items (length home.now.entries))) ports.now }
    ensures { result ≡ are_heads_roomy ports.now home.now.rooms }
{
    for port in ports {
        if let Some(mail) = port.requests.head()
            && !home.has_room(mail.item.block())
        {
            return false;
        }
    }
    true
}
