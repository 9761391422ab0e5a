//! What stops a move.
ghost use Rattle.std.specs.Prelude.{◌≡◌, ◌<◌, ◌&&◌};
ghost use Rattle.rtr_types.specs.CoreSets.{has};
ghost use Rattle.rtr_types.specs.declared.TheConstants.{CORES_MAX};
ghost use Rattle.gdb_moves.specs.Ends.{end_in};
ghost use Rattle.gdb_moves.specs.Points.{breaks_at};
ghost use Rattle.gdb_moves.specs.Stopping.{hits_of, own_test, stopping_by, stopping_of, stops_at};

use crate::ends::{end_of, signal_of};
use crate::marked::Marked;
use crate::points::{Point, touched};
use debug_place::Stops;
use image_mem::Image;
use replay_audit::Audited;
use rtr_types::{CoreSet, Kind};

/// What stops a move of an audited recording's place: points, and programs that end by a fault.
#[derive(Drop)]
pub(crate) struct Hearing<'a> {
    /// The points that are set.
    pub points: Marked<'a>,
    /// The cores that breakpoints stop.
    pub paused: CoreSet,
    /// The cores whose faults stop.
    pub heard: CoreSet,
    /// The recording's audit.
    pub audited: &'a Audited,
    /// The recording's image.
    pub image: &'a Image,
}

impl<'a> Hearing<'a> {
    /// Of an audited recording with this image.
    pub(crate) fn new(
        audited: &'a Audited,
        image: &'a Image,
        points: &'a [Point],
        paused: CoreSet,
        heard: CoreSet,
    ) -> Hearing<'a>
        ensures audited { result.audited.now ≡ audited.now }
        ensures stopping { stopping_of result
            ≡ stopping_by points.now paused heard (end_in image.now audited.now.outcome) }
    {
        Hearing {
            points: Marked::of(points),
            paused,
            heard,
            audited,
            image,
        }
    }
}

impl Hearing<'_> {
    /// Whether a breakpoint stops the core before the instruction at the address.
    pub(crate) fn breaks(&self, core: u8, pc: u32) -> bool
        requires { core < CORES_MAX }
        ensures { result ≡ (has self.now.paused core && breaks_at self.now.points pc) }
    {
        self.paused.has(core) && self.points.breaks(pc)
    }
}

impl Stops for Hearing<'_> {
    ghost stops = { λ hearing plan state core. stops_at (stopping_of hearing) plan state core };

    ghost hits = { λ hearing. hits_of (stopping_of hearing) };

    ghost own = { λ hearing plan state core. own_test (stopping_of hearing) plan state core };

    fn hits_pc(&self, core: u8, pc: u32) -> bool {
        self.breaks(core, pc)
    }

    fn hits_use(&self, _core: u8, used: Option<(Kind, u32)>) -> bool {
        touched(self.points.all(), used).is_some()
    }

    fn stops_last(&self, core: u8) -> bool {
        self.heard.has(core)
            && signal_of(end_of(self.audited.outcome(), self.image, core)).is_some()
    }

    fn passes_pcs(&self, core: u8) -> bool {
        !self.paused.has(core) || self.points.has_no_breaks()
    }

    fn passes_uses(&self, _core: u8) -> bool {
        self.points.has_no_watches()
    }
}
