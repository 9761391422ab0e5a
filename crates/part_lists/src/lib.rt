//! Lists as the parts of files have them: items that are read and written one after the other. They may stand behind a
//! recording. The crate also lists what leads between the cores of each pair.
//!
//! Proved: `read_items` reads so many items in turn, each by its reader and at its place. `spell_with` gives version
//! 2's spelling of a recording and then that of each item. `led_of` gives what leads between the cores of each pair by
//! the entries of its list, by pair, and within a pair in their order.
#![tactic(auto)]

mod leading;
mod reading;
mod writing;

pub use leading::{Led, led_of};
pub use reading::{ReadsItems, read_items};
pub use writing::{Spelled, spell_with};
