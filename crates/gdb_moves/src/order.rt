//! Moves that are ordered.
use crate::direction::Direction;
use crate::ranges::Range;
use rtr_types::CoreSet;

/// A move.
#[derive(Clone, Copy)]
pub enum Order {
    /// None, since it was interrupted; this core is told.
    Rest(u8),
    /// A step of this core; those of the set are heard.
    Step(Direction, u8, CoreSet),
    /// Steps of this core while it stands in the range; those of the set are heard.
    StepIn(u8, CoreSet, Range),
    /// All cores go on, and those of the set are heard; where nothing lies ahead this one is told.
    Go(Direction, u8, CoreSet),
    /// Only the cores of the first set go on; those of the second are heard, and where nothing lies ahead this core is
    /// told.
    GoWith(Direction, u8, CoreSet, CoreSet),
}
