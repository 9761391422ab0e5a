//! What the atomic memory operations leave in their word.
ghost use Rattle.std.specs.Prelude.{◌≡◌};
ghost use Rattle.rv_core.specs.Atomics.{exchanged};

use rv_decode::AmoOp;

/// The word's value after an atomic memory operation that finds `old` in it and has `value` in rs2. The
/// sum wraps at 32 bits.
#[tactic(auto, unfolding(crate::specs::Atomics::exchanged))]
pub fn exchanged(op: AmoOp, old: u32, value: u32) -> u32
    ensures { result ≡ exchanged op old value }
{
    match op {
        AmoOp::Swap => value,
        AmoOp::Add => old.wrapping_add(value),
        AmoOp::Xor => old ^ value,
        AmoOp::And => old & value,
        AmoOp::Or => old | value,
        AmoOp::Min => old.cast_signed().min(value.cast_signed()).cast_unsigned(),
        AmoOp::Max => old.cast_signed().max(value.cast_signed()).cast_unsigned(),
        AmoOp::Minu => old.min(value),
        AmoOp::Maxu => old.max(value),
    }
}
