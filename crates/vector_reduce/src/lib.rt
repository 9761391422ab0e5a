//! Leaving out whole vectors of a regulated log, checking that each that is left is needed, and the bytes of thin
//! files.
//!
//! A vector is tried with one cut that grows along its edges, since their targets rise. What is shown is found anew
//! once all are tried, since a vector that is left out later may have implied an earlier edge. The check asks for any
//! cut that is closed, has the target and lacks the source: a yes rests on that alone.
//!
//! Proved: `thin` leaves exactly the vectors of the definition, and `check_thin` says yes only where the recording is
//! determinate by its regulated log and each vector is needed. `thin` tries each once, in order. It leaves a vector out
//! where each of its edges is before by the edges of the others that aren't left out so far. What is left has the same
//! before and the same replay orders, and is determinate. Each of its vectors is needed, and is shown with its first
//! edge that isn't implied and the least cut. `TooMany` comes exactly above 4,096 vectors or 65,536 positions, which
//! are the most by the definition itself. `check_thin` holds whoever made the file, names the first vector that isn't
//! shown else, and accepts what `thin` gave. `read_thin` gives exactly the reading, with the first part that has none,
//! and `spell_thin` the one spelling. Vectors have one thinning, and needed ones all stay (`thinned_vectors`). A closed
//! cut holds what leads to what it holds (`closed_cuts`). Logs with the same before have the same replay orders
//! (`same_replay_orders`). `bad_part_law` names parts 1 to 7 of a thin file. Each is named exactly where the parts
//! below it are spelled by a front of the bytes and no valid part follows.
#![tactic(auto)]

mod answers;
mod arrivals;
mod checking;
mod closing;
mod copies;
pub mod laws;
mod pair_vector;
mod reading;
mod thinned;
mod thinning;
mod writing;

pub use answers::{POSITIONS_MAX, ThinCheckFault, ThinFault, VECTORS_MAX};
pub use checking::check_thin;
pub use reading::read_thin;
pub use thinned::{END, SHOWN, Shown, Thinned};
pub use thinning::thin;
pub use writing::spell_thin;
