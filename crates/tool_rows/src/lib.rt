//! Worked examples of the whole tool, as tables over the top call. A row is data, so that a test is one loop over a
//! table.
//!
//! Tested: the worked examples of the whole tool, by calls of `rtr_cli`.
#![tactic(auto)]

#[cfg(test)]
mod all_pairs;
#[cfg(test)]
mod buffer_tables;
#[cfg(test)]
mod buffer_tests;
#[cfg(test)]
mod calls;
#[cfg(test)]
mod certificate_tables;
#[cfg(test)]
mod cut_tables;
#[cfg(test)]
mod faults;
#[cfg(test)]
mod generated_tables;
#[cfg(test)]
mod lesson_tables;
#[cfg(test)]
mod lock;
#[cfg(test)]
mod record_tables;
#[cfg(test)]
mod record_tests;
#[cfg(test)]
mod replay_tables;
#[cfg(test)]
mod run_tables;
#[cfg(test)]
mod shared_pieces;
#[cfg(test)]
mod table_calls;
#[cfg(test)]
mod tables;
#[cfg(test)]
mod tests;
#[cfg(test)]
mod thin_tables;
#[cfg(test)]
mod worker_tests;
