//! Policies by name, and what a name and a number mean.
ghost use Rattle.std.specs.Prelude.{◌≡◌};
ghost use Rattle.turn_policies.specs.Named.{mixed, numbered_by};

/// A policy's name: `seed`, `few`, `walk`, `pct1` to `pct9` with the depth of bugs that it's for, `mixed` or `all`.
#[derive(Clone, Copy, Debug, PartialEq, Eq)]
pub enum Named {
    Seed,
    Few,
    Walk,
    Ranked(u8),
    Mixed,
    All,
}

/// A run of a policy that isn't a mixture: its number, and before it the depth of bugs where there is one.
#[derive(Clone, Copy, Debug, PartialEq, Eq)]
pub enum Numbered {
    Seed(u64),
    Few(u64),
    Walk(u64),
    Ranked(u8, u64),
}

impl Named {
    /// The run that this name and the number mean. `Mixed` takes by turns walks and ranks for bugs of depth 2, 3 and 4,
    /// `All` by turns `Few` and `Mixed`.
    pub fn numbered(self, number: u64) -> Numbered
        ensures { result ≡ numbered_by self number }
    {
        match self {
            Named::Seed => Numbered::Seed(number),
            Named::Few => Numbered::Few(number),
            Named::Walk => Numbered::Walk(number),
            Named::Ranked(depth) => Numbered::Ranked(depth, number),
            Named::Mixed => mixed(number),
            Named::All if number % 2 == 0 => Numbered::Few(number / 2),
            Named::All => mixed(number / 2),
        }
    }
}

/// The run of this number among walks and ranks by turns.
fn mixed(number: u64) -> Numbered
    ensures { result ≡ mixed number }
{
    if number % 4 == 0 {
        Numbered::Walk(number / 4)
    } else {
        Numbered::Ranked((number % 4) as u8 + 1, number / 4)
    }
}
