//! Where a core's instructions stand in a place's timeline.
ghost use Rattle.std.specs.Prelude.{◌≡◌, ◌<◌, slice_index, take};
ghost use Rattle.replay_core.specs.Orders.{counts, nought};
ghost use Rattle.cut_moves.specs.Rounds.{rounds_of};
ghost use Rattle.cut_moves.specs.Seats.{IsSeat};

use crate::place::Place;

impl<'a> Place<'a> {
    /// How many instructions of a core stand among the first places of the timeline, so many.
    pub fn among(&self, core: u8, number: usize) -> u32
        requires { core < self.now.recording.params.cores }
        ensures { result ≡ counts nought (take number (rounds_of self.now.which self.now.recording)) core }
    {
        // The audit passed, so the timeline is whole.
        let audited = self.index.audited();
        let _ = audited.outcome();
        let total = audited.recording().totals.as_slice()[core as usize];
        self.timeline.count_before(core, 0, total, number)
    }

    /// At which place of the timeline the core's instruction stands that comes behind so many of its own.
    pub fn seat(&self, core: u8, count: u32) -> usize
        requires core { core < self.now.recording.params.cores }
        requires count { count < slice_index self.now.recording.totals core }
        ensures { IsSeat (rounds_of self.now.which self.now.recording) core count result }
    {
        // The audit passed, so the timeline is whole.
        let audited = self.index.audited();
        let _ = audited.outcome();
        let _ = audited.recording();
        self.timeline.seat(core, count) as usize
    }
}
