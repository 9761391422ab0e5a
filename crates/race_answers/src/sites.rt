//! Where instructions stand in the program.
ghost use Rattle.std.specs.Prelude.{◌≡◌};
ghost use Rattle.roomy_lists.specs.Lists.{items_in};
ghost use Rattle.race_answers.specs.Sites.{pair_of, site_of, turned};

use crate::pcs::pc_in;
use race_queries::Ends;
use roomy_lists::RoomyLists;
use rtr_types::{Access, Instr};

/// Where an instruction stands in the program, and the word that it accesses, if it accesses one.
#[derive(Clone, Copy, PartialEq, Eq, Hash)]
pub(crate) struct Site {
    /// The instruction's address.
    pub pc: u32,
    /// The index of the word.
    pub word: Option<u32>,
}

/// The sites of the two instructions of an edge.
#[derive(Clone, Copy, PartialEq, Eq, Hash)]
pub(crate) struct Pair {
    /// That of the instruction which came first.
    pub from: Site,
    /// That of the other one.
    pub to: Site,
}

impl Pair {
    /// The same sites, the other way round.
    pub(crate) fn turned(self) -> Pair
        ensures { result ≡ turned self }
    {
        Pair {
            from: self.to,
            to: self.from,
        }
    }
}

/// The sites of an edge, by the pcs of the run's instructions.
pub(crate) fn pair_of(pcs: &RoomyLists<u32>, ends: Ends) -> Pair
    ensures { result ≡ pair_of (items_in pcs.now) ends }
{
    Pair {
        from: site_of(pcs, ends.edge.from, ends.from),
        to: site_of(pcs, ends.edge.to, ends.to),
    }
}

/// The site of an instruction with this access.
fn site_of(pcs: &RoomyLists<u32>, at: Instr, access: Option<Access>) -> Site
    ensures { result ≡ site_of (items_in pcs.now) at access }
{
    Site {
        pc: pc_in(pcs, at),
        word: access.map(|access| access.word),
    }
}
