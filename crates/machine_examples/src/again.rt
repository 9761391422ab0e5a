//! Calls that take memory, each made once more where there was none at first. Room that was made then is kept, and all
//! else is as it was.
ghost use Rattle.std.specs.Prelude.{◌≡◌, IfOk, length};
ghost use Rattle.rtr_types.specs.Parameters.{Fits};

use access_times::{NoCarry, Rider};
use image_mem::Image;
use rtr_types::Params;
use std::alloc::{AllocError, Global};
use std::test::Fail;
use tso_core::BufferedMachine;

/// The program over a memory of so many words.
fn image(alloc: Global, program: &[u8], words: u32) -> Result<Image, Fail>
    ensures { IfOk result (λ image. image.words ≡ words) }
{
    let bytes = match program.to_vec(alloc) {
        Ok(bytes) => bytes,
        Err(_) => program.to_vec(alloc)?,
    };
    Ok(Image::flat(bytes, words)?)
}

/// A machine with the program, at its start.
pub fn machine_of<R: Rider>(
    alloc: Global,
    program: &[u8],
    params: Params,
) -> Result<BufferedMachine<R, NoCarry>, Fail>
    requires { Fits params }
    ensures words { IfOk result (λ machine. machine.state.image.words ≡ params.words) }
    ensures cores { IfOk result (λ machine. length machine.state.cores ≡ params.cores) }
{
    if let Ok(machine) = BufferedMachine::new(alloc, image(alloc, program, params.words)?, params) {
        return Ok(machine);
    }
    Ok(BufferedMachine::new(alloc, image(alloc, program, params.words)?, params)?)
}

/// Makes room for a step.
pub fn make_room<R: Rider>(machine: &mut BufferedMachine<R, NoCarry>) -> Result<(), AllocError>
    ensures { machine.new.state ≡ machine.old.state }
{
    if machine.make_room().is_ok() {
        return Ok(());
    }
    machine.make_room()
}
