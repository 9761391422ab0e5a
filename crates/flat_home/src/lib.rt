//! The home's turns on the flat state: it takes a request or a response of a core, changes the entry of its block, and
//! tells cores what follows. A row of the home's table is a call on one entry, and what it tells is one message, or one
//! to each core of a set.
//!
//! Proved: each call on an entry is the row of the home's table that its message meets (`serve`, `hear`). Each turn
//! makes the machine's move at every state that the flat state stands at (`take_request`, `take_response`). No program
//! goes by it yet.
#![tactic(auto)]

mod hearing;
mod serving;
mod tellings;
mod turns;

pub use hearing::hear;
pub use serving::serve;
pub use tellings::{HomeTurn, Telling, tell};
pub use turns::{take_request, take_response};
