//! What a response does to its block's entry.
ghost use Rattle.std.specs.Prelude.{◌≡◌, ◌<◌, is_some, true};
ghost use Rattle.rtr_types.specs.declared.TheConstants.{CORES_MAX};
ghost use Rattle.msi_directory.specs.Table.{response_row};
ghost use Rattle.msi_memory.specs.Rests.{names_below};
ghost use Rattle.flat_state.specs.declared.block.Held.TheVariants.{Acks, ToShare};
ghost use Rattle.flat_state.specs.Shows.{held_as, replied_as};
ghost use Rattle.flat_home.specs.Tellings.{IsTurned};

use crate::tellings::Telling;
use flat_state::{Held, HomeBlock, Replied};
use rtr_types::CoreSet;

/// The home takes this response of the core, which the table has a row for.
pub fn hear(block: &mut HomeBlock, core: u8, replied: Replied) -> Telling
    requires core { core < CORES_MAX }
    requires names { names_below (held_as block.old.held block.old) CORES_MAX ≡ true }
    requires row { is_some (response_row (held_as block.old.held block.old) core (replied_as replied)) ≡ true }
    ensures { IsTurned (response_row (held_as block.old.held block.old) core (replied_as replied)) block.old block.new
        result }
{
    match block.held {
        Held::Acks => acknowledge(block, core, replied),
        Held::ToShare => share_with(block, core, replied),
        _ => {
            block.held = Held::Owned;
            block.owner = block.requester;
            Telling::Data {
                to: block.requester,
            }
        }
    }
}

/// The core acknowledges that it gave up its copy: at the last acknowledgement the requester owns the block.
fn acknowledge(block: &mut HomeBlock, core: u8, replied: Replied) -> Telling
    requires core { core < CORES_MAX }
    requires acks { block.old.held ≡ Acks }
    requires row { is_some (response_row (held_as block.old.held block.old) core (replied_as replied)) ≡ true }
    ensures { IsTurned (response_row (held_as block.old.held block.old) core (replied_as replied)) block.old block.new
        result }
{
    let left = block.set.without(core);
    if left.is_empty() {
        block.held = Held::Owned;
        block.owner = block.requester;
        Telling::Data {
            to: block.requester,
        }
    } else {
        block.set = left;
        Telling::Nobody
    }
}

/// The owner's data have come for a core that is to share the block: from now on both do.
fn share_with(block: &mut HomeBlock, core: u8, replied: Replied) -> Telling
    requires core { core < CORES_MAX }
    requires requester { block.old.requester < CORES_MAX }
    requires waits { block.old.held ≡ ToShare }
    requires row { is_some (response_row (held_as block.old.held block.old) core (replied_as replied)) ≡ true }
    ensures { IsTurned (response_row (held_as block.old.held block.old) core (replied_as replied)) block.old block.new
        result }
{
    block.held = Held::Shared;
    block.set = CoreSet::empty().with(core).with(block.requester);
    Telling::Data {
        to: block.requester,
    }
}
