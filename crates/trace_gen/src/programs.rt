//! The programs, instruction by instruction.
ghost use Rattle.std.specs.Prelude.{◌≡◌, ◌*◌, ◌≤◌, IfOk, IsTrue, length};
ghost use Rattle.trace_gen.specs.Assembly.{minus};
ghost use Rattle.trace_gen.specs.Programs.{repeated, lock_setup, lock_round, mixed, mix_round, program, takes};

use crate::assembly::{X0, X5, X6, X7, X8, X9, X10, X11, X12, X13, instruction};
use crate::shape::Shape;
use rand_core::utils::NextWord;
use rand_pcg::Lcg64Xsh32;
use rv_decode::{Alu, Cond, Op, Width};
use std::alloc::{AllocError, Global};

/// The program of a shape and number.
#[tactic(auto, using(crate::proofs::Lengths::mix_round_length), unfolding(crate::specs::Programs::program))]
pub fn program_of(alloc: Global, number: u64, shape: Shape) -> Result<Vec<Op>, AllocError>
    requires { IsTrue (takes shape number) }
    ensures { IfOk result (λ ops. ops.items ≡ program shape number) }
{
    match shape {
        Shape::Mix => {
            let round = mix_round(alloc, number)?;
            repeated(alloc, 100, &[], round.as_slice())
        }
        Shape::Lock => repeated(alloc, number as u16, &lock_setup(), &lock_round()),
    }
}

/// The setup once, and then the round `rounds` times.
#[tactic(auto, unfolding(crate::specs::Programs::repeated))]
fn repeated(alloc: Global, rounds: u16, setup: &[Op], round: &[Op]) -> Result<Vec<Op>, AllocError>
    requires { length round.now ≤ 1023 }
    ensures { IfOk result (λ ops. ops.items ≡ repeated rounds setup.now round.now) }
{
    let mut ops = Vec::new(alloc);
    ops.push(instruction!(addi X5, X0, i32::from(rounds)))?;
    ops.extend_from_slice(setup)?;
    ops.extend_from_slice(round)?;
    ops.push(instruction!(addi X5, X5, -1))?;
    ops.push(instruction!(bne X5, X0, back_over(round.len() + 1)))?;
    ops.push(Op::Ecall)?;
    Ok(ops)
}

/// The offset from a branch back to the first of so many instructions before it.
fn back_over(instructions: usize) -> i32
    requires { instructions ≤ 1024 }
    ensures { result ≡ minus (4 * instructions) }
{
    -4 * instructions as i32
}

/// Where a core's own flag is, who the other is, where the other's flag is, and how a raised flag looks.
#[tactic(auto, unfolding(crate::specs::Programs::lock_setup))]
fn lock_setup() -> [Op; 4]
    ensures { result ≡ lock_setup }
{
    [
        instruction!(slli X6, X10, 4),
        instruction!(xori X7, X10, 1),
        instruction!(slli X8, X7, 4),
        instruction!(addi X9, X0, 1),
    ]
}

/// One round of the lock.
#[tactic(auto, unfolding(crate::specs::Programs::lock_round))]
fn lock_round() -> [Op; 10]
    ensures { result ≡ lock_round }
{
    [
        instruction!(sw X9, 256, X6),
        instruction!(sw X7, 288, X0),
        instruction!(lw X11, 256, X8),
        instruction!(beq X11, X0, 12),
        instruction!(lw X12, 288, X0),
        instruction!(beq X12, X7, -12),
        instruction!(lw X13, 304, X0),
        instruction!(addi X13, X13, 1),
        instruction!(sw X13, 304, X0),
        instruction!(sw X0, 256, X6),
    ]
}

/// One round of the mix, of 256 instructions.
fn mix_round(alloc: Global, number: u64) -> Result<Vec<Op>, AllocError>
    ensures { IfOk result (λ ops. ops.items ≡ mix_round number) }
{
    let mut words = Lcg64Xsh32::new(number, 1);
    let mut ops = Vec::new(alloc);
    for _count in 0..256u32 {
        ops.push(mixed(words.next_word()))?;
    }
    Ok(ops)
}

/// The instruction that a drawn word stands for.
#[tactic(auto, unfolding(crate::specs::Programs::mixed))]
fn mixed(word: u32) -> Op
    ensures { result ≡ mixed word }
{
    let register = X11 + (word / 4 % 4) as u8;
    let step = word / 16 % 64;
    let address = 1280 + 4 * step;
    match word % 4 {
        0 => instruction!(lw register, address as i32, X0),
        1 => instruction!(sw register, address as i32, X0),
        2 => instruction!(addi register, register, (1 + step) as i32),
        _ => instruction!(sb register, (address + word / 1024 % 4) as i32, X0),
    }
}
