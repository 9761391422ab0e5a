//! Which accesses to a word are told.
ghost use Rattle.std.specs.Prelude.{◌≡◌, IfOk};
ghost use Rattle.race_queries.specs.Queries.{accesses_to};
ghost use Rattle.gdb_commands.specs.Filters.{chosen};

use gdb_commands::Filter;
use race_queries::history;
use replay_audit::Audited;
use rtr_types::{Access, Items};
use std::alloc::{AllocError, Global};

/// The accesses to a word that are told.
pub(crate) fn history_by(
    alloc: Global,
    audited: &Audited,
    word: u32,
    filter: Filter,
) -> Result<Items<Access>, AllocError>
    ensures { IfOk result (λ list. list ≡ chosen filter (accesses_to word audited.now.accesses)) }
{
    let all = history(alloc, audited, word)?;
    chosen(alloc, filter, all.as_slice())
}

/// Those of some accesses that are told.
fn chosen(alloc: Global, filter: Filter, all: &[Access]) -> Result<Items<Access>, AllocError>
    ensures { IfOk result (λ list. list ≡ chosen filter all.now) }
{
    let mut list = Vec::new(alloc);
    for access in all {
        if filter.takes(*access) {
            list.push(*access)?;
        }
    }
    Ok(Items::from_vec(list))
}
