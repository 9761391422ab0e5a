//! Where a run stands after each step, what holds in each of its states, and what it comes to: cores, memory, loads.
//! The crate has definitions and laws alone; whoever runs the machine makes the runs.
//!
//! Proved: one law over image, parameters and schedule has all that holds of every run (`the_machine_over_every_run`).
//! It has one writer, rows, room, no deadlock, the bound, empty links and last values. `a_run_fits_its_image`: a run
//! has as many cores as its parameters name, each within its limit, and its memory and loads are of the image's words.
//! `instructions_retire_in_turn` and `accesses_of_every_run` say what retires, and which accesses a run has.
#![tactic(auto)]

pub mod laws;
