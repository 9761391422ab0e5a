//! What a request does to its block's entry.
ghost use Rattle.std.specs.Prelude.{◌≡◌, ◌<◌, is_some, true};
ghost use Rattle.rtr_types.specs.CoreSets.{no_cores};
ghost use Rattle.rtr_types.specs.declared.TheConstants.{CORES_MAX};
ghost use Rattle.msi_cache.specs.Table.{Ask as Asking};
ghost use Rattle.msi_directory.specs.Table.{request_row};
ghost use Rattle.flat_state.specs.declared.block.Held.TheVariants.{Owned, Shared, Unshared};
ghost use Rattle.flat_state.specs.Shows.{asked_as, held_as};
ghost use Rattle.flat_home.specs.Rows.{is_put};
ghost use Rattle.flat_home.specs.Tellings.{IsTurned};

use crate::tellings::Telling;
use flat_state::{Ask, Held, HomeBlock};
use rtr_types::CoreSet;

/// The home takes this request of the core, which the table has a row for.
pub fn serve(block: &mut HomeBlock, core: u8, ask: Ask) -> Telling
    requires core { core < CORES_MAX }
    requires row { is_some (request_row (held_as block.old.held block.old) core (asked_as ask)) ≡ true }
    requires empty { block.old.held ≡ Unshared → block.old.set ≡ no_cores }
    ensures { IsTurned (request_row (held_as block.old.held block.old) core (asked_as ask)) block.old block.new result }
{
    match ask {
        Ask::GetS => share(block, core),
        Ask::GetM => own(block, core),
        Ask::PutS | Ask::PutM => take_back(block, core, ask),
    }
}

/// The core is to share the block.
fn share(block: &mut HomeBlock, core: u8) -> Telling
    requires core { core < CORES_MAX }
    requires row { is_some (request_row (held_as block.old.held block.old) core Asking.GetS) ≡ true }
    requires empty { block.old.held ≡ Unshared → block.old.set ≡ no_cores }
    ensures { IsTurned (request_row (held_as block.old.held block.old) core Asking.GetS) block.old block.new result }
{
    match block.held {
        Held::Owned => {
            block.held = Held::ToShare;
            block.requester = core;
            Telling::FwdS { to: block.owner }
        }
        _ => {
            block.held = Held::Shared;
            block.set = block.set.with(core);
            Telling::Data { to: core }
        }
    }
}

/// The core is to own the block.
fn own(block: &mut HomeBlock, core: u8) -> Telling
    requires core { core < CORES_MAX }
    requires row { is_some (request_row (held_as block.old.held block.old) core Asking.GetM) ≡ true }
    ensures { IsTurned (request_row (held_as block.old.held block.old) core Asking.GetM) block.old block.new result }
{
    match block.held {
        Held::Owned => {
            block.held = Held::ToOwn;
            block.requester = core;
            Telling::FwdM { to: block.owner }
        }
        Held::Shared => own_from(block, core),
        _ => {
            block.held = Held::Owned;
            block.owner = core;
            Telling::Data { to: core }
        }
    }
}

/// The core is to own a block that is shared: if others share it, they have to acknowledge first.
fn own_from(block: &mut HomeBlock, core: u8) -> Telling
    requires core { core < CORES_MAX }
    requires shared { block.old.held ≡ Shared }
    ensures { IsTurned (request_row (held_as block.old.held block.old) core Asking.GetM) block.old block.new result }
{
    let others = block.set.without(core);
    if others.is_empty() {
        block.held = Held::Owned;
        block.owner = core;
        Telling::Data { to: core }
    } else {
        block.held = Held::Acks;
        block.set = others;
        block.requester = core;
        Telling::Each { set: others }
    }
}

/// The core gives back a copy, which it may have no more.
fn take_back(block: &mut HomeBlock, core: u8, ask: Ask) -> Telling
    requires core { core < CORES_MAX }
    requires put { is_put ask ≡ true }
    requires row { is_some (request_row (held_as block.old.held block.old) core (asked_as ask)) ≡ true }
    requires empty { block.old.held ≡ Unshared → block.old.set ≡ no_cores }
    ensures { IsTurned (request_row (held_as block.old.held block.old) core (asked_as ask)) block.old block.new result }
{
    match block.held {
        Held::Shared => leave(block, core, ask),
        Held::Owned => disown(block, core, ask),
        _ => Telling::Ack { to: core },
    }
}

/// The core gives back a copy of a block that is shared.
fn leave(block: &mut HomeBlock, core: u8, ask: Ask) -> Telling
    requires core { core < CORES_MAX }
    requires put { is_put ask ≡ true }
    requires shared { block.old.held ≡ Shared }
    ensures { IsTurned (request_row (held_as block.old.held block.old) core (asked_as ask)) block.old block.new result }
{
    if block.set.has(core) {
        block.set = block.set.without(core);
        if block.set.is_empty() {
            block.held = Held::Unshared;
        }
    }
    Telling::Ack { to: core }
}

/// The core gives back a copy of a block that a core owns.
fn disown(block: &mut HomeBlock, core: u8, ask: Ask) -> Telling
    requires put { is_put ask ≡ true }
    requires owned { block.old.held ≡ Owned }
    requires row { is_some (request_row (held_as block.old.held block.old) core (asked_as ask)) ≡ true }
    ensures { IsTurned (request_row (held_as block.old.held block.old) core (asked_as ask)) block.old block.new result }
{
    if block.owner == core {
        block.held = Held::Unshared;
        block.set = CoreSet::empty();
    }
    Telling::Ack { to: core }
}
