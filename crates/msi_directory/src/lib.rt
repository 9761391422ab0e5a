//! The home controller, for any rider: the directory of who holds which block, and memory's own copy of each. The
//! protocol is MSI of the Primer on Memory Consistency and Cache Coherence (Nagarajan, Sorin, Hill and Wood, 2nd
//! edition, chapter 8). In its profile the home blocks while it collects acknowledgements or the owner's data.
//!
//! The home never takes an entry out, since its rider is needed. Stages lie in a map and copies beside it, so whether a
//! block is busy is seen without its copy. If a cache comes to own a block, the home gives its rider away, since it
//! would only be replaced. A last block that words don't fill is filled up with zeros.
//!
//! Proved: each call of `Home` is its row of the table, for every rider (`on_request`, `on_response`). Messages come by
//! value, with their riders lent, or handed over where the home takes them or a cache comes to own the block. Riders
//! change nothing of the plain part (`riders_change_no_plain_part`). The home keeps an entry for touched blocks alone,
//! and `touched` counts them.
#![tactic(auto)]

mod entry;
mod home;
mod home_copies;
mod kept_entries;

pub use entry::{Entry, HomeAnswer, HomeWords, Served, Stage};
pub use home::{Home, home_rows_fit, riders_change_no_plain_part};
