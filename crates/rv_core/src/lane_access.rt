//! The sizes of loads and stores, and what a load takes from its word.
ghost use Rattle.std.specs.Prelude.{◌≡◌, ◌<◌, ◌+◌, ◌≤◌};
ghost use Rattle.rv_core.specs.Operations.{size_of, loaded};

use rv_decode::Width;

/// How many bytes an access of this width moves.
pub fn size_of(width: Width) -> u32
    ensures { result ≡ size_of width }
{
    match width {
        Width::Byte | Width::ByteU => 1,
        Width::Half | Width::HalfU => 2,
        Width::Word => 4,
    }
}

/// What a load takes from its word, at a lane that is a multiple of the access's size: LB and LH
/// extend the sign, LBU and LHU fill with zeros.
#[tactic(auto, unfolding(crate::specs::Operations::loaded))]
pub fn loaded(width: Width, word: u32, lane: u32) -> u32
    requires { lane < 4 }
    ensures { result ≡ loaded width word lane }
{
    let low = word >> (8 * lane);
    let byte = low & 0xff;
    let half = low & 0xffff;
    match width {
        Width::Byte => i32::from((byte as u8).cast_signed()).cast_unsigned(),
        Width::Half => i32::from((half as u16).cast_signed()).cast_unsigned(),
        Width::Word => word,
        Width::ByteU => byte,
        Width::HalfU => half,
    }
}
