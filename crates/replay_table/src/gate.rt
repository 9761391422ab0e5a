//! What stands before each instruction of a threaded replay.

use rtr_types::Instr;

/// What workers pass before each instruction, so that a test can see and hold them. It answers nothing, and
/// no result depends on it.
pub trait Gate: Sync {
    /// Called by the worker of the instruction's core, which is about to retire it.
    fn pass(&self, at: Instr);
}

/// A gate that does nothing.
pub struct OpenGate;

impl Gate for OpenGate {
    fn pass(&self, _at: Instr) {}
}
