//! Three cores that hand a word on, and cuts of their run.
ghost use Rattle.std.specs.Prelude.{◌≡◌, IfOk, IfSome};
ghost use Rattle.race_log.specs.Validity.{Valid};
ghost use Rattle.cut_replay.specs.ClosedCuts.{IsCutOf};

use log_codec::read;
use race_log::Recording;
use replay_audit::{Audited, audit};
use row_texts::{Counts, HANDED_ON};
use rtr_types::{CORES_MAX, Cut, Which};
use std::alloc::Global;
use std::test::Fail;

/// A place for each core, as the length of an array.
const PLACES: usize = CORES_MAX as usize;

/// The three cores' recording, audited by one of its logs.
pub(crate) fn three(alloc: Global, which: Which) -> Result<Audited, Fail> {
    Ok(audit(alloc, read(alloc, &HANDED_ON)?, which)?)
}

/// The cut with these counts, closed or not, where the recording is of three cores and they are within its totals.
pub(crate) fn cut_of(recording: &Recording, counts: Counts) -> Option<Cut>
    requires { Valid recording.now }
    ensures { IfSome result (IsCutOf recording.now) }
{
    let [first, second, third] = recording.totals.as_slice() else {
        return None;
    };
    if counts.first > *first || counts.second > *second || counts.third > *third {
        return None;
    }
    let mut cut = Cut {
        cores: 3,
        counts: [0; PLACES],
    };
    cut.counts[0] = counts.first;
    cut.counts[1] = counts.second;
    cut.counts[2] = counts.third;
    Some(cut)
}
