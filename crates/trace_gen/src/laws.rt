//! What holds of every generated image.
ghost use Rattle.trace_gen.specs.Laws.{FitsLaw, LengthLaw, FetchLaw};

/// Each instruction of a generated program has a word (`fits`). An image has 4 bytes for each: 72 in all for the lock
/// and 1040 for the mix, whatever the number (`length`). What is fetched at address `4 * k` is the word of the
/// program's instruction k, and means that instruction (`fetch`).
#[tactic(auto, using(crate::proofs::FitLemmas::program_fits, crate::proofs::Lengths::sized))]
pub fn generated_images()
    ensures fits { FitsLaw }
    ensures length { LengthLaw }
    ensures fetch { FetchLaw }
{}
