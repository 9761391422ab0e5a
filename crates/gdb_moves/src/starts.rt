//! Back to the beginning.
ghost use Rattle.std.specs.Prelude.{◌≡◌, OnErr, OnOk};
ghost use Rattle.debug_place.specs.Places.{IsKept};
ghost use Rattle.gdb_moves.specs.Sights.{IsAtStart, IsOf};

use crate::direction::Direction;
use debug_place::Place;
use replay_audit::Audited;
use std::alloc::{AllocError, Global};

/// Back to the beginning, whatever would stop a move. A refusal, which comes for want of memory alone, leaves the place
/// as it was.
pub fn begin_again(alloc: Global, audited: &Audited, place: &mut Place) -> Result<(), AllocError>
    requires { IsOf audited.now place.old }
    ensures kept { IsKept place.old place.new }
    ensures ok { OnOk result (IsAtStart place.new) }
    ensures err { OnErr result (place.new ≡ place.old) }
{
    let to = Direction::Back.limit(audited);
    place.seek(alloc, &to)?;
    Ok(())
}
