//! A recording without its logs.
ghost use Rattle.std.specs.Prelude.{◌≡◌, [], IfOk, replicate};
ghost use Rattle.race_log.specs.Validity.{Valid};
ghost use Rattle.what_if.specs.Others.{free_of};

use race_log::Recording;
use rtr_types::{Items, pair_count};
use std::alloc::{AllocError, Global};

/// The recording without its logs: no instruction waits, and each core may go on as far as the limit.
pub(crate) fn free_of(alloc: Global, recording: &Recording) -> Result<Recording, AllocError>
    requires { Valid recording.now }
    ensures is { IfOk result (λ free. free ≡ free_of recording.now) }
    ensures valid { IfOk result Valid }
{
    let params = recording.params;
    let pairs = pair_count(params.cores);
    Ok(Recording {
        params,
        image: Items::from_vec(Vec::from_slice(alloc, recording.image.as_slice())?),
        totals: limits(alloc, params.cores as usize, params.limit)?,
        reduced: empty_lists(alloc, pairs)?,
        regulated: empty_lists(alloc, pairs)?,
    })
}

/// The limit for each core.
fn limits(alloc: Global, cores: usize, limit: u32) -> Result<Items<u32>, AllocError>
    ensures { IfOk result (λ list. list ≡ replicate cores limit) }
{
    let mut list = Items::new(alloc);
    for _ in 0..cores {
        list.push(limit)?;
    }
    Ok(list)
}

/// So many empty lists.
fn empty_lists<T: Drop>(alloc: Global, count: usize) -> Result<Items<Items<T>>, AllocError>
    ensures { IfOk result (λ lists. lists ≡ replicate count []) }
{
    let mut lists = Items::new(alloc);
    for _ in 0..count {
        lists.push(Items::new(alloc))?;
    }
    Ok(lists)
}
