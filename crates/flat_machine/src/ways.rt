//! What a core does that doesn't wait, by the line where the block goes that its instruction looks at.
ghost use Rattle.std.specs.Prelude.{◌≡◌, Bool};
ghost use Rattle.msi_cache.specs.declared.line.State.TheVariants.{M, S};
ghost use Rattle.flat_machine.specs.Ways.{way_by, way_of};

use flat_state::KeptLine;
use msi_cache::State;

/// Its instruction retires; or it asks for the block, to own a block that it shares, or gives another block back.
#[derive(Clone, Copy)]
pub enum Way {
    Hit,
    Ask,
    Upgrade,
    GiveBack,
}

/// What it does with this line, for an instruction that looks at the block, and may write it or doesn't.
pub(crate) fn way_of(line: KeptLine, block: u32, writes: bool) -> Way
    ensures { result ≡ way_of line block writes }
{
    let same = line.block == block;
    match line.state {
        State::I => Way::Ask,
        State::S => shared_way(same, writes),
        State::M => owned_way(same),
        _ => Way::GiveBack,
    }
}

/// What it does with a line that it shares.
fn shared_way(same: bool, writes: bool) -> Way
    ensures { result ≡ way_by S same writes }
{
    if !same {
        Way::GiveBack
    } else if writes {
        Way::Upgrade
    } else {
        Way::Hit
    }
}

/// What it does with a line that it owns.
fn owned_way(same: bool) -> Way
    ensures { (writes : Bool) → result ≡ way_by M same writes }
{
    if same { Way::Hit } else { Way::GiveBack }
}
