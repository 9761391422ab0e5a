//! Images whose instructions are decoded beforehand.
ghost use Rattle.std.specs.Prelude.{◌≡◌, IfOk};
ghost use Rattle.rv_core.specs.Programs.{AreDecoded};
ghost use Rattle.rv_core.specs.Steps.{instruction_at};

use image_mem::Image;
use rv_decode::{Op, decode};
use std::alloc::{AllocError, Global};
use std::marker::Model;

/// An image with the instruction at each address that is a multiple of 4, so that none is decoded twice.
/// Contracts see the image.
#[derive(Drop)]
pub struct Program {
    image: Image,
    ops: Vec<Option<Op>>,
}

impl Model for Program {
    ghost use Rattle.image_mem.specs.Contents.{Contents};
    ghost use Rattle.rv_core.specs.Programs.{AreDecoded};

    ghost Value = { Contents };

    ghost view = { λ a. a.image };

    ghost invariant = { λ a. AreDecoded a.image a.ops.items };
}

impl Program {
    /// The program of an image.
    pub fn new(alloc: Global, image: Image) -> Result<Program, AllocError>
        ensures { IfOk result (λ program. program ≡ image) }
    {
        let ops = decoded(alloc, &image)?;
        Ok(Program { image, ops })
    }

    /// The image.
    pub fn image(&self) -> &Image
        ensures { result.now ≡ self.now }
    {
        &self.image
    }

    /// The image alone.
    pub fn into_image(self) -> Image
        ensures { result ≡ self }
    {
        let Program { image, .. } = self;
        image
    }

    /// The instruction at an address: none where no word can be fetched there, and where the word is no
    /// instruction.
    pub fn op(&self, pc: u32) -> Option<Op>
        ensures { result ≡ instruction_at self.now pc }
    {
        if pc % 4 != 0 {
            return None;
        }
        match self.ops.get(pc as usize / 4) {
            Some(op) => *op,
            None => None,
        }
    }
}

/// The instruction at each address of the image that is a multiple of 4.
fn decoded(alloc: Global, image: &Image) -> Result<Vec<Option<Op>>, AllocError>
    ensures { IfOk result (λ ops. AreDecoded image.now ops.items) }
{
    // no address is above the greatest u32
    let count = (image.bytes().len() / 4).min(1 << 30);
    let mut ops = Vec::with_capacity(alloc, count)?;
    for k in 0..count as u32 {
        ops.push(op_at(image, 4 * k))?;
    }
    Ok(ops)
}

/// The instruction at an address of the image.
#[tactic(auto, unfolding(crate::specs::Steps::instruction_at))]
fn op_at(image: &Image, pc: u32) -> Option<Op>
    ensures { result ≡ instruction_at image.now pc }
{
    decode(image.fetch(pc)?)
}
