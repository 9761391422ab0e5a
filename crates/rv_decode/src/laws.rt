//! What holds of words and instructions in general.
ghost use Rattle.rv_decode.specs.Laws.{DecodeOfEncodeLaw, DecodedFitsLaw};

/// An instruction that fits is what its word means.
#[tactic(auto, using(crate::proofs::RoundTrip::back))]
pub fn decode_of_encode()
    ensures { DecodeOfEncodeLaw }
{}

/// What a word means fits.
#[tactic(auto, using(crate::proofs::DecodedFits::in_range))]
pub fn decoded_fits()
    ensures { DecodedFitsLaw }
{}
