//! The seats of a table of two cores.
ghost use Rattle.std.specs.Prelude.{◌≡◌, IfOk, IfSome};
ghost use Rattle.race_log.specs.Validity.{Valid};
ghost use Rattle.replay_table.specs.Seats.{AllAt};

use race_log::Recording;
use replay_table::{Closed, CoreSeat, Job, ReplayTable};
use rtr_types::Which;
use std::alloc::{AllocError, Global};

/// The last two seats.
pub(crate) fn pair<J: Job>(
    table: &ReplayTable<J>,
    mut seats: Vec<CoreSeat<J>>,
) -> Option<(CoreSeat<J>, CoreSeat<J>)>
    requires { AllAt table.now seats.items }
    ensures { IfSome result (λ two. (two.0.table_id ≡ table.now) × (two.1.table_id ≡ table.now)) }
{
    let second = seats.pop()?;
    let first = seats.pop()?;
    Some((first, second))
}

/// The table of a recording of two cores, with both seats.
pub(crate) fn table_of_two<'a, J: Job>(
    alloc: Global,
    recording: &'a Recording,
    which: Which,
) -> Result<Option<(ReplayTable<'a, J>, CoreSeat<J>, CoreSeat<J>)>, AllocError>
    requires valid { Valid J.recording }
    requires recording { recording.now ≡ J.recording }
    requires which { which ≡ J.which }
    ensures { IfOk result (λ made. IfSome made (λ two. (two.1.table_id ≡ two.0) × (two.2.table_id ≡ two.0))) }
{
    let (table, seats) = ReplayTable::<J>::make(alloc, recording, which)?;
    let Some((first, second)) = pair(&table, seats) else {
        return Ok(None);
    };
    Ok(Some((table, first, second)))
}

/// Closes the table of two seats that are at their totals.
pub(crate) fn close_pair<J: Job>(
    alloc: Global,
    table: ReplayTable<J>,
    recording: &Recording,
    mut first: CoreSeat<J>,
    mut second: CoreSeat<J>,
) -> Result<Option<Closed>, AllocError>
    requires recording { recording.now ≡ J.recording }
    requires first { first.table_id ≡ table }
    requires second { second.table_id ≡ table }
{
    let [one, two] = recording.totals.as_slice() else {
        return Ok(None);
    };
    if first.core().id() != 0 || first.core().count() != *one {
        return Ok(None);
    }
    if second.core().id() != 1 || second.core().count() != *two {
        return Ok(None);
    }
    table.publish(&mut first);
    table.publish(&mut second);
    let mut seats = Vec::with_capacity(alloc, 2)?;
    seats.push_reserved(first);
    seats.push_reserved(second);
    match table.close(alloc, seats) {
        Ok(closed) => Ok(Some(closed)),
        Err(_) => Ok(None),
    }
}
