//! What an instruction does to memory, as one number.
ghost use Rattle.std.specs.Prelude.{◌≡◌, ◌^◌};
ghost use Rattle.replay_core.specs.Answers.{UsesWithin};
ghost use Rattle.cut_index.specs.Touches.{code_of, used_by};

use rtr_types::Kind;

/// The number that stands for an access, by its kind and its word. 0 stands for none.
pub(crate) fn code_of(used: Option<(Kind, u32)>) -> u32
    requires { UsesWithin used (2 ^ 30) }
    ensures { result ≡ code_of used }
{
    match used {
        None => 0,
        Some((Kind::Load, word)) => 4 * word + 1,
        Some((Kind::Store, word)) => 4 * word + 2,
        Some((Kind::Amo, word)) => 4 * word + 3,
    }
}

/// The access for which a number stands, by its kind and its word.
pub fn used_by(code: u32) -> Option<(Kind, u32)>
    ensures { result ≡ used_by code }
{
    let word = code / 4;
    match code % 4 {
        0 => None,
        1 => Some((Kind::Load, word)),
        2 => Some((Kind::Store, word)),
        _ => Some((Kind::Amo, word)),
    }
}
