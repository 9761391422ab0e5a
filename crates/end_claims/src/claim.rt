//! Places whose values an end has, and what is claimed of them.
ghost use Rattle.std.specs.Prelude.{◌≡◌};
ghost use Rattle.end_claims.specs.Places.{same_place};

use rtr_types::Items;
use rv_core::Stop;

/// A place that has a value at the end of a run.
#[derive(Clone, Copy, Debug)]
pub enum Place {
    /// The word of memory with this index, `address / 4`.
    Word(u32),
    /// The register `x{number}`, 0 to 31, of the core.
    Register { core: u8, number: u8 },
    /// How the core ended. Its value is the number of the stop, from 0 on in the order of `Stop`.
    Ended(u8),
}

impl Place {
    /// Whether the other place is this one.
    pub fn is_same(self, other: Place) -> bool
        ensures { result ≡ same_place self other }
    {
        match (self, other) {
            (Place::Word(a), Place::Word(b)) => a == b,
            (Place::Register { core: a, number: k }, Place::Register { core: b, number: l }) => a
                == b
                && k == l,
            (Place::Ended(a), Place::Ended(b)) => a == b,
            _ => false,
        }
    }
}

/// How two values are compared: `Equal` and `Unequal` as words, the others as signed words (two's complement).
#[derive(Clone, Copy, Debug)]
pub enum Comparison {
    /// `=`
    Equal,
    /// `!=`
    Unequal,
    /// `<`
    Less,
    /// `<=`
    AtMost,
    /// `>`
    More,
    /// `>=`
    AtLeast,
}

/// What a place's value is compared with.
#[derive(Clone, Copy, Debug)]
pub enum Right {
    /// The word itself.
    Number(u32),
    /// The value of a place.
    At(Place),
}

/// The smallest part of a claim.
#[derive(Clone, Copy, Debug)]
pub enum Atom {
    /// The value of a word or register compares so with the right side.
    Compares {
        left: Place,
        by: Comparison,
        right: Right,
    },
    /// The core ended by this stop.
    Ends {
        core: u8,
        stop: Stop,
    },
    /// Each core ended by this stop.
    AllEnd(Stop),
}

/// Atoms that hold together.
pub type Alternative = Items<Atom>;

/// Alternatives of which one holds at the least.
pub type Claim = Items<Alternative>;

/// What is demanded of each run of a range.
#[derive(Drop)]
pub enum Demand {
    /// Each run's end meets the claim.
    Expect(Claim),
    /// No run's end meets the claim.
    Never(Claim),
    /// Each run ends with the values that the range's first run has at these places.
    Same(Items<Place>),
}
