//! A place that moves.
ghost use Rattle.std.specs.Prelude.{◌≡◌, ◌<◌, ◌↔◌, ℕ, IfOk, IsOk, IsTrue, OnErr, OnOk, slice_index};
ghost use Rattle.replay_core.specs.Answers.{UsesWithin};
ghost use Rattle.replay_core.specs.Play.{core_at, need_at, use_of};
ghost use Rattle.replay_audit.specs.Audits.{IsInstrOf};
ghost use Rattle.cut_replay.specs.ClosedCuts.{IsClosed, IsContained, count_in};
ghost use Rattle.cut_moves.specs.Rounds.{rounds_of};
ghost use Rattle.cut_moves.specs.Steps.{IsStep, IsStepBack, last_in, next_in};
ghost use Rattle.debug_place.specs.Places.{IsKept, IsReplayAt, Stands, cut_at, plan_at};
ghost use Rattle.debug_place.specs.Backs.{GoesBack};
ghost use Rattle.debug_place.specs.Stops.{GoesOn};

use crate::looks::{first_stop, last_stop};
use crate::stops::{Stopped, Stops};
use cut_index::{Index, Standing};
use cut_moves::{Timeline, step, step_back};
use replay_audit::Audited;
use rtr_types::{CORES_MAX, Cut, Kind};
use rv_core::Core;
use std::alloc::{AllocError, Global};
use std::marker::Model;

/// A place for each core, as the length of an array.
const PLACES: usize = CORES_MAX as usize;

/// A place in a recorded run: a cut that is closed under the audit's log, with the state that every replay order has
/// that comes there. It holds the cut alone, an index that tells the state, and the timeline by rounds, with where each
/// core's instructions stand in it.
#[derive(Drop)]
pub struct Place<'a> {
    audited: &'a Audited,
    pub(crate) timeline: Timeline,
    pub(crate) index: Index<'a>,
    pub(crate) cut: Cut,
}

impl<'a> Model for Place<'a> {
    ghost use Rattle.cut_index.specs.Standings.{reached};
    ghost use Rattle.debug_place.specs.Places.{Fits, Placed};

    ghost Value = { Placed };

    ghost view = { λ a. record {
      recording = a.audited.now.recording;
      which = a.audited.now.which;
      state = reached a.audited.now.which a.audited.now.recording a.cut;
    } };

    ghost invariant = { λ a. Fits a.audited.now a.timeline a.index a.cut };
}

impl<'a> Place<'a> {
    /// The place before the first instruction. It is refused for want of memory alone.
    pub fn begin(alloc: Global, audited: &'a Audited) -> Result<Place<'a>, AllocError>
        ensures recording { IfOk result (λ place. place.recording ≡ audited.now.recording) }
        ensures which { IfOk result (λ place. place.which ≡ audited.now.which) }
        ensures nothing { IfOk result (λ place. (core : ℕ) → count_in (cut_at place) core ≡ 0) }
    {
        // The audit passed, so the recording is determinate.
        let _ = audited.outcome();
        let cores = audited.recording().params.cores;
        let timeline = Timeline::by_rounds(alloc, audited)?;
        let index = Index::of(alloc, audited)?;
        let cut = Cut {
            cores,
            counts: [0; PLACES],
        };
        Ok(Place {
            audited,
            timeline,
            index,
            cut,
        })
    }

    /// The place as a replay shows it that has come there.
    fn standing(&self) -> Standing<'_, 'a>
        ensures { IsReplayAt self.now.which self.now.recording (cut_at self.now) result
            × (result.state ≡ self.now.state) }
    {
        // The audit passed, so the recording is determinate.
        let _ = self.audited.outcome();
        Standing::at(&self.index, &self.cut)
    }

    /// The cut: how many instructions of each core are done. It is closed, and the place's state is the one that
    /// every replay order has that comes there.
    pub fn cut(&self) -> Cut
        ensures cut { result ≡ cut_at self.now }
        ensures stands { Stands self.now }
    {
        // What always holds of a place: its cut is closed.
        let _ = self.audited.outcome();
        self.cut
    }

    /// How many cores there are.
    pub fn cores(&self) -> u8
        ensures { result ≡ self.now.recording.params.cores }
    {
        self.audited.recording().params.cores
    }

    /// The timeline by rounds: a whole replay order, a core each place.
    pub fn timeline(&self) -> &[u8]
        ensures { result.now ≡ rounds_of self.now.which self.now.recording }
    {
        self.timeline.as_slice()
    }

    /// A core, as it stands in the place's state.
    pub fn core(&self, core: u8) -> Core
        requires { core < self.now.recording.params.cores }
        ensures { result ≡ core_at self.now.state core }
    {
        // A valid recording has a total for each core.
        let _ = self.audited.recording();
        self.standing().core(core)
    }

    /// A word of memory in the place's state, by its index.
    pub fn word(&self, word: u32) -> u32
        requires { word < self.now.recording.params.words }
        ensures { result ≡ slice_index self.now.state.words word }
    {
        self.standing().word(word)
    }

    /// The access that the core's next instruction makes, and the index of its word. None for a local instruction,
    /// and where the core's program is done.
    pub fn next_use(&self, core: u8) -> Option<(Kind, u32)>
        requires { core < self.now.recording.params.cores }
        ensures used { result ≡ use_of (need_at (plan_at self.now) self.now.state core) }
        ensures within { UsesWithin result self.now.recording.params.words }
    {
        // A valid recording has a total for each core.
        let _ = self.audited.recording();
        self.standing().next_use(core)
    }

    /// Goes to a closed cut, wherever it lies. It takes no memory, and is never refused.
    pub fn seek(&mut self, _alloc: Global, to: &Cut) -> Result<(), AllocError>
        requires { IsClosed self.old.which self.old.recording to.now }
        ensures kept { IsKept self.old self.new }
        ensures ok { OnOk result (cut_at self.new ≡ to.now) }
        ensures err { OnErr result (self.new ≡ self.old) }
        ensures never_refused { IsOk result }
    {
        // The audit passed, so the cut has a state.
        let _ = self.audited.outcome();
        self.cut = *to;
        Ok(())
    }

    /// Goes on to a closed cut that contains the present one. It takes no memory, and is never refused.
    pub fn move_on(&mut self, _alloc: Global, to: &Cut) -> Result<(), AllocError>
        requires closed { IsClosed self.old.which self.old.recording to.now }
        requires within { IsContained (cut_at self.old) to.now }
        ensures kept { IsKept self.old self.new }
        ensures ok { OnOk result (cut_at self.new ≡ to.now) }
        ensures never_refused { IsOk result }
    {
        // The audit passed, so the cut has a state.
        let _ = self.audited.outcome();
        self.cut = *to;
        Ok(())
    }

    /// Whether a core has a next instruction.
    pub fn has_next(&self, core: u8) -> bool
        requires { core < self.now.recording.params.cores }
        ensures { IsTrue result ↔ IsInstrOf self.now.recording (next_in (cut_at self.now) core) }
    {
        // A valid recording has a total for each core.
        let _ = self.audited.recording();
        let standing = self.standing();
        standing.count(core) < standing.total(core)
    }

    /// Whether a core has done an instruction.
    pub fn has_last(&self, core: u8) -> bool
        requires { core < self.now.recording.params.cores }
        ensures { IsTrue result ↔ IsInstrOf self.now.recording (last_in (cut_at self.now) core) }
    {
        // A valid recording has a total for each core.
        let _ = self.audited.recording();
        self.standing().count(core) > 0
    }

    /// Goes on to a closed cut that contains the present one, place by place along the timeline, until the test stops
    /// it before a core takes its next instruction. It answers which core that is, or that it came to the cut. It takes
    /// no memory, and is never refused.
    pub fn go_to<S: Stops>(&mut self, _alloc: Global, stops: &S, to: &Cut) -> Stopped
        requires closed { IsClosed self.old.which self.old.recording to.now }
        requires within { IsContained (cut_at self.old) to.now }
        ensures kept { IsKept self.old self.new }
        ensures ok { IfOk result (GoesOn (S.stops stops.now) self.old to.now self.new) }
        ensures err { OnErr result (self.new ≡ self.old) }
        ensures never_refused { IsOk result }
    {
        // The audit passed, so each cut has one state.
        let _ = self.audited.outcome();
        match first_stop(&self.index, &self.timeline, stops, &self.cut, to) {
            Some(number) => {
                let core = self.timeline.as_slice()[number];
                self.cut = self.timeline.cut_before(&self.cut, to, number);
                Ok(Some(core))
            }
            None => {
                self.cut = *to;
                Ok(None)
            }
        }
    }

    /// Goes back to a closed cut within the present one, place by place along the timeline, until the test stops it: to
    /// the last cut of the way from there to here at which it stops before a core takes its next instruction. It
    /// answers which core that is, or that it came to the cut. It takes no memory, and is never refused.
    pub fn back<S: Stops>(&mut self, _alloc: Global, stops: &S, to: &Cut) -> Stopped
        requires closed { IsClosed self.old.which self.old.recording to.now }
        requires within { IsContained to.now (cut_at self.old) }
        ensures kept { IsKept self.old self.new }
        ensures ok { IfOk result (GoesBack (S.stops stops.now) self.old to.now self.new) }
        ensures err { OnErr result (self.new ≡ self.old) }
        ensures never_refused { IsOk result }
    {
        // The audit passed, so each cut has one state.
        let _ = self.audited.outcome();
        match last_stop(&self.index, &self.timeline, stops, to, &self.cut) {
            Some(number) => {
                let core = self.timeline.as_slice()[number];
                self.cut = self.timeline.cut_before(to, &self.cut, number);
                Ok(Some(core))
            }
            None => {
                self.cut = *to;
                Ok(None)
            }
        }
    }

    /// Steps a core: to the least closed cut that contains the present one and holds the core's next instruction. A
    /// refusal, which comes for want of memory alone, leaves the place as it was.
    pub fn step(&mut self, alloc: Global, core: u8) -> Result<(), AllocError>
        requires { IsInstrOf self.old.recording (next_in (cut_at self.old) core) }
        ensures kept { IsKept self.old self.new }
        ensures ok { OnOk result (IsStep self.old.which self.old.recording (cut_at self.old)
            (next_in (cut_at self.old) core) (cut_at self.new)) }
        ensures err { OnErr result (self.new ≡ self.old) }
    {
        let to = step(self.audited, &self.cut(), core)?;
        self.move_on(alloc, &to)
    }

    /// Steps a core back: to the greatest closed cut within the present one that lacks the core's last instruction. A
    /// refusal, which comes for want of memory alone, leaves the place as it was.
    pub fn step_back(&mut self, alloc: Global, core: u8) -> Result<(), AllocError>
        requires { IsInstrOf self.old.recording (last_in (cut_at self.old) core) }
        ensures kept { IsKept self.old self.new }
        ensures ok { OnOk result (IsStepBack self.old.which self.old.recording (cut_at self.old)
            (last_in (cut_at self.old) core) (cut_at self.new)) }
        ensures err { OnErr result (self.new ≡ self.old) }
    {
        let to = step_back(self.audited, &self.cut(), core)?;
        self.seek(alloc, &to)
    }
}
