//! Who makes accesses, and how many in a row.
ghost use Rattle.std.specs.Prelude.{◌≡◌};
ghost use Rattle.turn_lists.specs.Actors.{core_of, is_same};

/// The greatest count of a turn: no core retires more instructions in a run, so no actor makes more accesses.
pub const COUNT_MAX: u32 = 4_000_000;

/// Who makes an access: a core, or the store buffer of a core, which makes the core's stores where the machine has
/// buffers. The number is the core's, from 0. Actors stand in order: cores by number, then buffers by number.
#[derive(Clone, Copy, Debug, PartialEq, Eq)]
pub enum Actor {
    Core(u8),
    Buffer(u8),
}

impl Actor {
    /// Whether the two are one actor.
    pub fn is(self, other: Actor) -> bool
        ensures { result ≡ is_same self other }
    {
        match (self, other) {
            (Actor::Core(one), Actor::Core(two)) => one == two,
            (Actor::Buffer(one), Actor::Buffer(two)) => one == two,
            _ => false,
        }
    }

    /// The core whose actor it is.
    pub fn core(self) -> u8
        ensures { result ≡ core_of self }
    {
        match self {
            Actor::Core(core) | Actor::Buffer(core) => core,
        }
    }
}

/// An actor, and how many accesses it makes in a row.
#[derive(Clone, Copy, Debug, PartialEq, Eq)]
pub struct Turn {
    pub actor: Actor,
    pub count: u32,
}
