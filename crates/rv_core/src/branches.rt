//! When a branch is taken, and where a jump goes.
ghost use Rattle.std.specs.Prelude.{◌≡◌};
ghost use Rattle.rv_core.specs.Operations.{is_taken, moved, without_low_bit};

use rv_decode::Cond;

/// Whether the branch is taken.
#[tactic(auto, unfolding(crate::specs::Operations::is_taken))]
pub fn is_taken(cond: Cond, left: u32, right: u32) -> bool
    ensures { result ≡ is_taken cond left right }
{
    match cond {
        Cond::Eq => left == right,
        Cond::Ne => left != right,
        Cond::Lt => left.cast_signed() < right.cast_signed(),
        Cond::Ge => left.cast_signed() >= right.cast_signed(),
        Cond::Ltu => left < right,
        Cond::Geu => left >= right,
    }
}

/// The address moved by a signed offset, wrapping at 32 bits.
#[tactic(auto, unfolding(crate::specs::Operations::moved))]
pub fn moved(address: u32, offset: i32) -> u32
    ensures { result ≡ moved address offset }
{
    address.wrapping_add(offset.cast_unsigned())
}

/// The address with bit 0 cleared.
#[tactic(auto, unfolding(crate::specs::Operations::without_low_bit))]
pub fn without_low_bit(address: u32) -> u32
    ensures { result ≡ without_low_bit address }
{
    address & !1
}
