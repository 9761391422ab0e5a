//! Which ends break a demand.
ghost use Rattle.std.specs.Prelude.{◌≡◌, ◌<◌, IfOk, length, true};
ghost use Rattle.end_claims.specs.Demands.{breaks, demand_places, is_demanded_within};

use crate::asking::{has_values, holds_at};
use crate::claim::{Demand, Place};
use crate::naming::{named_by, names_within, places_within};
use crate::views::EndView;
use rtr_types::{Items, Params};
use std::alloc::{AllocError, Global};

/// Whether the end breaks the demand, where the range's first run has these values at the places of `Same`.
pub fn breaks<E: EndView>(end: &E, demand: &Demand, first: &[u32]) -> bool
    requires { is_demanded_within (length (E.end end.now).cores) (E.end end.now).image.words demand.now ≡ true }
    ensures { result ≡ breaks (E.end end.now) demand.now first.now }
{
    match demand {
        Demand::Expect(claim) => !holds_at(end, claim),
        Demand::Never(claim) => holds_at(end, claim),
        Demand::Same(places) => !has_values(end, places.as_slice(), first),
    }
}

/// The places that the demand names in a run with so many cores, each once, in the order in which they are first named.
/// The only refusal is want of memory.
pub fn demand_places(alloc: Global, cores: u8, demand: &Demand) -> Result<Items<Place>, AllocError>
    ensures { IfOk result (λ places. places ≡ demand_places cores demand.now) }
{
    match demand {
        Demand::Expect(claim) | Demand::Never(claim) => named_by(alloc, cores, claim),
        Demand::Same(places) => Ok(Items::from_vec(Vec::from_slice(alloc, places.as_slice())?)),
    }
}

/// Whether a run with these parameters has each core and word that the demand names.
pub fn demand_within(params: Params, demand: &Demand) -> bool
    ensures { result ≡ is_demanded_within params.cores params.words demand.now }
{
    match demand {
        Demand::Expect(claim) | Demand::Never(claim) => names_within(params, claim),
        Demand::Same(places) => places_within(params, places.as_slice()),
    }
}
