//! Runs of an image that a policy directs, on the machine without store buffers and on the one with them: one loop for
//! both. It delivers each message at once, has the actor that was picked make one access as a whole, settles its core,
//! and lets the policy pick again. The choices that it notes are choice bytes.
//!
//! A machine offers what directs it (`HuntedMachine`): whose steps are enabled, what a core needs, and a step by its
//! number. Without store buffers it is the flat machine (`FlatRun`). Nothing is kept of an access but whether it
//! changed a word. A machine serves runs one after the other, and takes hardly any memory for the next (`restart`).
//!
//! Proved: `lead` answers the choices that are defined for the policy (`choices`), each of an enabled step
//! (`enabled`), and the machine at its end (`ended`), which is what the run under exactly these choices comes to,
//! whatever seed follows them (`comes_to`). `run_of_turns` and `run_numbered` do so of a list of turns and of a
//! number: by `few`, `walk`, ranks or a seed (`choices`, `comes_to`). `straight_counts` counts the picks of the
//! straight run (`counted`). `AtEnd` asks the end's cores and words. `picks_numbered` makes the
//! run of a number again and answers whom it picks, and the turns of these picks make just that run
//! (`picks_make_the_run`).
#![tactic(auto)]

mod buffered;
mod changes;
mod counted;
mod decision;
mod director;
mod ended;
mod flat;
mod jumps;
mod led;
mod machine;
mod noting;
mod numbered;
mod picked;

pub use decision::Enabled;
pub use ended::AtEnd;
pub use flat::FlatRun;
pub use led::{Led, lead};
pub use machine::HuntedMachine;
pub use numbered::{Counted, Counting, Ended, run_numbered, run_of_turns, straight_counts};
pub use picked::{picks_make_the_run, picks_numbered};
