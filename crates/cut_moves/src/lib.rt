//! How a debugger moves: steps from closed cut to closed cut and back, the order of the run by rounds, and the ways
//! along it.
//!
//! Several cores go on by rounds, and not by the low order, which runs core 0 as far as the log lets it. The order is
//! fixed for a recording, so backward passes what forward passed.
//!
//! Proved: of an audited recording, `step` comes from a closed cut to the least one that contains it and holds the
//! core's next instruction (`step`). `step_back` comes to the greatest one within it that lacks the core's last
//! (`back`), and the core moves by exactly one (`one`). `earliest` and `latest` are the least and the greatest closed
//! cut in which the core has as many. `hull` is the least closed cut that contains given counts. None of them is
//! refused. `timeline` is the order by rounds exactly, a replay order, and whole (`rounds`, `ordered`, `whole`). `way`
//! is what the higher of two cuts has beyond the lower one in that order (`way`). The core of each place is ready, and
//! it ends at the higher (`ordered`, `ends`). Where an instruction stands in the timeline, and how far a way has come
//! before a place, are told by halving (`seat`, `count_before`, `cut_before`). Unions and intersections of closed cuts
//! are closed, the least and the greatest (`closed_cuts_are_a_lattice`). What a replay order has done is a closed cut
//! (`orders_have_closed_cuts`). There is one step and one step back (`one_step_each`). Back after a step contains, step
//! after back is contained, and once more changes nothing (`there_and_back`). The order by rounds is a replay order of
//! every plan, at whose end no core is ready (`rounds`).
#![tactic(auto)]

mod between;
mod by_rounds;
mod lattice;
pub mod laws;
mod moves;
mod seats;

pub use between::way;
pub use lattice::{intersection, union};
pub use moves::{earliest, hull, latest, step, step_back, whole};
pub use seats::Timeline;
