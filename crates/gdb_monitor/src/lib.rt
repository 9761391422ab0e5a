//! What the commands of the debugger's user do: where a place goes, and what is told there.
//!
//! Proved: `obey` obeys a command as follows. `goto C:N` comes to the least closed cut with the instruction. `goto N N
//! ..` comes to that cut exactly where it is closed; else the least closed cut that contains it is told. `earliest`
//! comes to the least closed cut with the core's last instruction, `latest` to the greatest without its next. `decision
//! C:N C:N` comes to the greatest closed cut without the first instruction, exactly if both come next there; so it is
//! for each edge of a least log (`edges_are_decisions`). `last ADDR` comes to the greatest closed cut without the last
//! write of the word in the cut (`GoesToLast`). Every other command leaves the place as it is. What is told of the run
//! is as `race_answers` tells it, at the place's cut, by the audit of its recording. What is told of order is by the
//! log. `slack` tells the counts in the cuts to which `earliest` and `latest` go (`IsSlack`). `other` tells what the
//! run comes to if at the cut of `decision` the second instruction goes first, by `what_if`'s definition
//! (`IsOtherTold`). `when` is a function of the place (`when_text`). `mark NAME` gives the place's cut a name, and
//! `goto NAME` comes to the cut with it (`marks_after`, `GoesToMark`). If what is named isn't there, that is told, and
//! nothing moves. Each is refused for want of memory alone; place and marks are then as they were.
#![tactic(auto)]

mod lasts;
pub mod laws;
mod leading;
mod marking;
mod moves;
mod obeying;
mod ordering;
mod other_way;
mod slack;
mod texts;
mod whens;

pub use leading::can_lead;
pub use obeying::obey;
