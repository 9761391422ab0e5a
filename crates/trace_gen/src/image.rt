//! From a shape and a number to the bytes of an image.
ghost use Rattle.std.specs.Prelude.{◌≡◌, IfOk, IsTrue, All, length, flat_map};
ghost use Rattle.rv_decode.specs.Ranges.{Fits};
ghost use Rattle.trace_gen.specs.Programs.{generated, image_length, instruction_bytes, takes};

use crate::programs::program_of;
use crate::shape::Shape;
use rv_decode::{Op, encode};
use std::alloc::{AllocError, Global};

/// The image of this shape and number: the words of the program's instructions, each with its lowest byte first, the
/// first at address 0. The lock has 72 bytes, the mix 1040. The only refusal is want of memory.
#[tactic(auto, using(crate::proofs::FitLemmas::program_fits, crate::proofs::Lengths::sized))]
pub fn gen_image(alloc: Global, number: u64, shape: Shape) -> Result<Vec<u8>, AllocError>
    requires { IsTrue (takes shape number) }
    ensures image { IfOk result (λ image. image.items ≡ generated shape number) }
    ensures length { IfOk result (λ image. length image.items ≡ image_length shape) }
{
    let program = program_of(alloc, number, shape)?;
    image_of(alloc, program.as_slice())
}

/// The words of these instructions, each with its lowest byte first.
fn image_of(alloc: Global, program: &[Op]) -> Result<Vec<u8>, AllocError>
    requires { All Fits program.now }
    ensures { IfOk result (λ image. image.items ≡ flat_map instruction_bytes program.now) }
{
    let mut image = Vec::new(alloc);
    for op in program {
        image.extend_from_slice(&encode(op).to_le_bytes())?;
    }
    Ok(image)
}
