//! What a run is stepped in.

use schedule_pick::Schedule;
use std::alloc::AllocError;

/// What was made. The only refusal is want of memory.
pub type Made<T> = Result<T, AllocError>;

/// A machine on its way through a run, the clerk that is told of its steps, and the choices that are left.
#[derive(Drop)]
pub struct Running<M, C> {
    /// The machine.
    pub machine: M,
    /// Who is told of its steps.
    pub clerk: C,
    /// The choices that are left.
    pub choices: Schedule,
}
