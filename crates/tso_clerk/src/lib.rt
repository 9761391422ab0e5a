//! The observer of retirements on cores with store buffers (`TsoClerk`): each instruction is told once, in program
//! order. It is an instruction that touches no data, an access that is ordered, or a load that is logged.
//!
//! Proved: nothing by itself, since it is a trait with definitions. They say what a clerk that is told of a list of
//! instructions comes to, and what it accepts to be told.
#![tactic(auto)]

mod clerk;

pub use clerk::TsoClerk;
