//! What a run with store buffers is recorded as, under choices and under a schedule, and that every replay of it
//! replays the run. What such a run tells is a play in which each logged load is given its own word. The crate has
//! definitions and laws alone.
//!
//! Proved: for every image, parameters and choices, the recording of a run that has ended is valid
//! (`every_run_is_recorded`). Its reduced log is the least set of the ordered accesses, and is what the reduction comes
//! to that is told of the run (fields `recorded` and `valid`). Every replay order of it agrees with the order in which
//! the run told its instructions (`every_order_replays_the_run`). Under every schedule the recording of the run is
//! valid, and its reduced log is the least set of the accesses that the run ordered (`every_schedule_is_recorded`). Its
//! values are the loads that left their queue where their core's port couldn't read the word, or where the word differed
//! from the load's value. Each has that value, and there are no others (`the_values_are_the_logged_loads`). Every replay
//! order of it follows the run (`every_order_follows_the_run`): it plays by the run's accesses and gives each core the
//! first of the run's loads. It can go on until it is whole, and a whole one ends with the run's cores, memory and
//! loads. So what `tso_replay` answers of it is the run's outcome, or a refusal for want of memory alone. Any list that
//! is told of cores, each instruction as its core's next one, is in program order (`what_is_told_is_in_order`). Let each
//! ordered access find the last value of its word and each logged load be given its own. Then the list is a play that
//! comes to the cores that were told and to the memory that the ordered accesses leave (`what_is_told_is_a_play`), by
//! just these accesses (`what_is_told_plays`). Where the reduced log is the least set of them, every replay order
//! replays what was told (`the_least_log_replays`).
#![tactic(auto)]

mod laws;

pub use laws::{
    every_order_follows_the_run, every_order_replays_the_run, every_run_is_recorded,
    every_schedule_is_recorded, the_least_log_replays, the_values_are_the_logged_loads,
    what_is_told_is_a_play, what_is_told_is_in_order, what_is_told_plays,
};
