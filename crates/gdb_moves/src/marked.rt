//! Points that are set, with marks that tell quickly where no breakpoint is.
ghost use Rattle.std.specs.Prelude.{◌≡◌, ◌<◌, ℕ, false, true};
ghost use Rattle.replay_core.specs.Play.{Use};
ghost use Rattle.gdb_moves.specs.Points.{breaks_at, is_watching, mark_of, touched};
ghost use Rattle.gdb_moves.specs.Marks.{AreMarks};

use crate::points::{Point, breaks_at, has_break, has_watch};
use std::marker::Model;

/// How many marks there are.
const MARKS: usize = 64;

/// The points that are set. Where an address has no mark no breakpoint is, so one looks through the points only where
/// it has one. Contracts see the points.
#[derive(Drop)]
pub(crate) struct Marked<'a> {
    points: &'a [Point],
    marks: [u8; MARKS],
}

impl<'a> Model for Marked<'a> {
    ghost use Rattle.std.specs.Prelude.{List};
    ghost use Rattle.gdb_moves.specs.declared.points.Point.{Point};
    ghost use Rattle.gdb_moves.specs.Marks.{AreMarks};

    ghost Value = { List Point };

    ghost view = { λ a. a.points.now };

    ghost invariant = { λ a. AreMarks a.points.now a.marks };
}

impl<'a> Marked<'a> {
    /// These points.
    pub fn of(points: &'a [Point]) -> Marked<'a>
        ensures { result ≡ points.now }
    {
        Marked {
            points,
            marks: marks_of(points),
        }
    }

    /// All of them.
    pub fn all(&self) -> &'a [Point]
        ensures { result.now ≡ self.now }
    {
        self.points
    }

    /// Whether there is a breakpoint at the address.
    pub fn breaks(&self, pc: u32) -> bool
        ensures { result ≡ breaks_at self.now pc }
    {
        self.marks[mark_of(pc as u64)] != 0 && breaks_at(self.points, pc)
    }

    /// Whether none of them is a breakpoint.
    pub fn has_no_breaks(&self) -> bool
        ensures { result ≡ true → (pc : ℕ) → breaks_at self.now pc ≡ false }
    {
        !has_break(self.points)
    }

    /// Whether none of them watches memory.
    pub fn has_no_watches(&self) -> bool
        ensures { result ≡ true → (used : Use) → is_watching self.now used ≡ false }
    {
        !has_watch(self.points)
    }
}

/// The mark of an address.
fn mark_of(at: u64) -> usize
    ensures mark { result ≡ mark_of at }
    ensures small { result < 64 }
{
    (at / 4 % 64) as usize
}

/// The marks of the points.
fn marks_of(points: &[Point]) -> [u8; MARKS]
    ensures { AreMarks points.now result }
{
    let mut marks = [0; MARKS];
    for point in points {
        marks[mark_of(point.at)] = 1;
    }
    marks
}
