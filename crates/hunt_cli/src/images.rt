//! The image that a hunt's runs begin with.
ghost use Rattle.std.specs.Prelude.{◌≡◌, ◌*◌, ◌≤◌, IfOk, MatchResult, Ok, length, vec_len};
ghost use Rattle.rtr_types.specs.Parameters.{Fits};
ghost use Rattle.rtr_cli.specs.Inputs.{loaded};
ghost use Rattle.rtr_cli.specs.Runs.{LoadEnds};
ghost use Rattle.hunt_cli.specs.Inputs.{as_run, bytes_max};
ghost use Rattle.hunt_cli.specs.Kinds.{image_in};

use hunt_runs::HuntedMachine;
use hunt_words::Setup;
use image_elf::{ElfFault, flatten};
use image_mem::Image;
use rtr_types::Params;
use rv_core::Program;
use state_text::Exit;
use std::alloc::{AllocError, Global};

/// The most bytes of an ELF file: 512 MiB.
const FILE_BYTES_MAX: usize = 536_870_912;

/// The most bytes of the input: an image has at most those of the memory.
pub(crate) fn bytes_max(setup: &Setup) -> usize
    ensures { result ≡ bytes_max setup.now }
{
    if setup.elf {
        FILE_BYTES_MAX
    } else {
        4 * setup.params.words as usize
    }
}

/// The bytes of the image: the input, or the flat image of the ELF file that it is.
pub(crate) fn loaded(alloc: Global, setup: &Setup, input: Vec<u8>) -> Result<Vec<u8>, Exit>
    requires fits { Fits setup.now.params }
    requires within { length input.items ≤ bytes_max setup.now }
    ensures loaded { MatchResult result (λ bytes. loaded (as_run setup.now) input.items ≡ Ok bytes.items)
        (LoadEnds (as_run setup.now) input.items) }
    ensures room { IfOk result (λ bytes. length bytes.items ≤ 4 * setup.now.params.words) }
{
    if !setup.elf {
        return Ok(input);
    }
    match flatten(alloc, input.as_slice(), setup.params.words) {
        Ok(bytes) => Ok(bytes),
        Err(ElfFault::OutOfMemory) => Err(Exit::OutOfMemory),
        Err(fault) => Err(Exit::Elf(fault)),
    }
}

/// The image of these bytes, which fit into the memory.
pub(crate) fn image(bytes: Vec<u8>, words: u32) -> Image
    requires { vec_len bytes ≤ 4 * words }
    ensures { result ≡ record { bytes = bytes.items; words = words } }
{
    match Image::flat(bytes, words) {
        Ok(image) => image,
        Err(_) => unreachable!(),
    }
}

/// A machine for runs of an image of these bytes. The only refusal is want of memory.
pub(crate) fn machine<M: HuntedMachine>(
    alloc: Global,
    bytes: &[u8],
    params: Params,
) -> Result<M, AllocError>
    requires fits { Fits params }
    requires room { length bytes.now ≤ 4 * params.words }
    ensures { IfOk result (λ machine. M.image machine ≡ image_in params bytes.now) }
{
    let image = image(bytes.to_vec(alloc)?, params.words);
    let program = Program::new(alloc, image)?;
    M::start(alloc, program, params)
}
