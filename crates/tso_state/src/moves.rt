//! The moves of the machine.
ghost use Rattle.std.specs.Prelude.{◌≡◌, ◌≤◌, ◌<◌, ◌*◌};
ghost use Rattle.tso_state.specs.Moves.{candidate, core_of, number_of};
ghost use Rattle.rtr_types.specs.declared.TheConstants.{CORES_MAX};

use rtr_types::CORES_MAX;

/// What may happen next, at one core, which is named by its number.
#[derive(Clone, Copy, Debug, PartialEq, Eq)]
pub enum Move {
    /// The core executes its next instruction, or asks for the block that this needs.
    Core(u8),
    /// The core's oldest pending access is ordered, or the block is asked for that it needs.
    Order(u8),
    /// The home takes the oldest request of the core.
    Request(u8),
    /// The home takes the oldest response of the core.
    Response(u8),
    /// The core's cache takes the oldest message from home.
    FromHome(u8),
}

impl Move {
    /// The core at which it happens.
    pub fn core(self) -> u8
        ensures { result ≡ core_of self }
    {
        match self {
            Move::Core(c) | Move::Order(c) => c,
            Move::Request(c) | Move::Response(c) | Move::FromHome(c) => c,
        }
    }

    /// Its number among all moves that a machine of so many cores can have.
    pub fn number(self, cores: u32) -> u32
        requires { cores ≤ CORES_MAX }
        ensures { result ≡ number_of cores self }
    {
        match self {
            Move::Core(c) => c as u32,
            Move::Order(c) => cores + c as u32,
            Move::Request(c) => 2 * cores + c as u32,
            Move::Response(c) => 3 * cores + c as u32,
            Move::FromHome(c) => 4 * cores + c as u32,
        }
    }

    /// The move numbered `k` of all that a machine of so many cores can have.
    pub fn candidate(cores: u32, k: u32) -> Move
        requires within { k < 5 * cores }
        requires cores { cores ≤ CORES_MAX }
        ensures { result ≡ candidate cores k }
    {
        if k < cores {
            Move::Core(k as u8)
        } else if k < 2 * cores {
            Move::Order((k - cores) as u8)
        } else if k < 3 * cores {
            Move::Request((k - 2 * cores) as u8)
        } else if k < 4 * cores {
            Move::Response((k - 3 * cores) as u8)
        } else {
            Move::FromHome((k - 4 * cores) as u8)
        }
    }
}
