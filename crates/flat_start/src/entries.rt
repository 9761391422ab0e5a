//! Room for a block that nobody asked for yet.
ghost use Rattle.std.specs.Prelude.{◌≡◌, ◌≢◌, ◌<◌, ◌*◌, ◌^◌, ◌++◌, ◌∷◌, [], ℕ, IfOk, List, OnErr, OnOk, length};
ghost use Rattle.rtr_types.specs.declared.TheConstants.{BLOCK_WORDS};
ghost use Rattle.msi_state.specs.States.{PlainState};
ghost use Rattle.flat_state.specs.Shows.{Stands, blocks_of, home_at};
ghost use Rattle.flat_start.specs.Starts.{block_start};

use flat_state::{Flat, Held, HomeBlock};
use rtr_types::{BLOCK_WORDS, CoreSet};
use rv_core::Program;
use std::alloc::AllocError;

/// Makes the entry of a block of the memory that has none, and answers its place. The only refusal is want of memory,
/// and then no entry was made. Either way the flat state stands where it stood.
pub fn make_entry(flat: &mut Flat, block: u32) -> Result<u32, AllocError>
    requires new { (i : ℕ) → i < length flat.old.home.items → (home_at flat.old.home.items i).block ≢ block }
    requires within { block * BLOCK_WORDS < flat.old.program.words }
    requires few { length flat.old.home.items < 2 ^ 32 }
    ensures stands { (s : PlainState) (memory : ℕ → List ℕ) → Stands flat.old s memory → Stands flat.new s memory }
    ensures nodes { flat.new.nodes.items ≡ flat.old.nodes.items }
    ensures image { flat.new.program ≡ flat.old.program }
    ensures place { IfOk result (λ place. place ≡ length flat.old.home.items) }
    ensures blocks { OnOk result (blocks_of flat.new.home.items ≡ blocks_of flat.old.home.items ++ block ∷ []) }
    ensures entry { OnOk result (home_at flat.new.home.items (length flat.old.home.items)
        ≡ block_start flat.old.program block) }
    ensures others { (i : ℕ) → i < length flat.old.home.items
        → home_at flat.new.home.items i ≡ home_at flat.old.home.items i }
    ensures err { OnErr result (flat.new.home.items ≡ flat.old.home.items) }
{
    let place = flat.home.len() as u32;
    let entry = opening_entry(&flat.program, block);
    flat.home.push(entry)?;
    Ok(place)
}

/// The entry of a block that nobody asked for, with the image's words.
pub fn opening_entry(program: &Program, block: u32) -> HomeBlock
    requires { block * BLOCK_WORDS < program.now.words }
    ensures { result ≡ block_start program.now block }
{
    let image = program.image();
    // this tells the prover that the words of the memory are counted by 32 bits
    let _words = image.words();
    let first = block * BLOCK_WORDS as u32;
    HomeBlock {
        block,
        held: Held::Unshared,
        set: CoreSet::empty(),
        owner: 0,
        requester: 0,
        askers: CoreSet::empty(),
        words: [
            image.word(first),
            image.word(first + 1),
            image.word(first + 2),
            image.word(first + 3),
        ],
    }
}
