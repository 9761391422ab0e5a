//! What the arithmetic and logical instructions compute.
ghost use Rattle.std.specs.Prelude.{◌≡◌};
ghost use Rattle.rv_core.specs.Operations.{computed};

use rv_decode::Alu;

/// The operation on two operands. Sums and differences wrap at 32 bits, and shifts go by the low five
/// bits of the second operand.
#[tactic(auto, unfolding(crate::specs::Operations::computed))]
pub fn compute(alu: Alu, left: u32, right: u32) -> u32
    ensures { result ≡ computed alu left right }
{
    match alu {
        Alu::Add => left.wrapping_add(right),
        Alu::Sub => left.wrapping_sub(right),
        Alu::Sll => left.wrapping_shl(right),
        Alu::Slt => (left.cast_signed() < right.cast_signed()) as u32,
        Alu::Sltu => (left < right) as u32,
        Alu::Xor => left ^ right,
        Alu::Srl => left.wrapping_shr(right),
        Alu::Sra => left.cast_signed().wrapping_shr(right).cast_unsigned(),
        Alu::Or => left | right,
        Alu::And => left & right,
    }
}
