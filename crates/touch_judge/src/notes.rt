//! Accesses that are kept in eight bytes each.
ghost use Rattle.std.specs.Prelude.{◌≡◌, ◌<◌};
ghost use Rattle.rtr_types.specs.declared.TheConstants.{CORES_MAX};
ghost use Rattle.rtr_types.specs.declared.params.TheConstants.{WORDS_MAX};

use replay_audit::Touch;
use rtr_types::{Instr, Kind};
use std::marker::Model;

/// An access without its values, in eight bytes: contracts see the touch. The word is cut in two, and its upper part
/// stands with the core.
#[derive(Drop)]
pub struct TouchNote {
    count: u32,
    low: u16,
    high: u8,
    kind: Kind,
}

impl Model for TouchNote {
    ghost use Rattle.std.specs.Prelude.{◌+◌, ◌*◌, ◌/◌, ◌%◌};
    ghost use Rattle.replay_audit.specs.declared.touch.Touch.{Touch as SomeTouch};

    ghost Value = { SomeTouch };

    ghost view = { λ n. record {
      at = record { core = n.high / 16; count = n.count };
      word = n.low + 65536 * (n.high % 16);
      kind = n.kind;
    } };
}

impl TouchNote {
    /// Notes a touch.
    #[inline(always)]
    pub fn new(touch: Touch) -> TouchNote
        requires core { touch.at.core < CORES_MAX }
        requires word { touch.word < WORDS_MAX }
        ensures { result ≡ touch }
    {
        TouchNote {
            count: touch.at.count,
            low: (touch.word % 65536) as u16,
            high: touch.at.core * 16 + (touch.word / 65536) as u8,
            kind: touch.kind,
        }
    }

    /// The touch.
    #[inline(always)]
    pub fn touch(&self) -> Touch
        ensures { result ≡ self.now }
    {
        Touch {
            at: Instr {
                core: self.high / 16,
                count: self.count,
            },
            word: self.low as u32 + 65536 * (self.high % 16) as u32,
            kind: self.kind,
        }
    }
}
