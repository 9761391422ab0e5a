//! GDB's remote protocol without a recording: frames, acknowledgements, what packets ask, and how answers are spelled.
//!
//! `$` begins a frame also behind its `#`: the frame before is lost, and the next one isn't. A frame takes no more
//! memory however long it is. What packets ask is one total definition, by their first bytes.
//!
//! Proved: a frame tells its payload of at most 4096 bytes and nothing else, whatever stood before it, and takes
//! nothing of what follows (`a_frame_is_read_back`). Bytes tell the same however they are cut
//! (`pieces_make_no_difference`). `frame` is the frame by its definition, whose sum is the escaped body's.
//! `Reader::feed` tells for every byte what the definition does of all bytes so far, and holds no more than one
//! payload. `Line::hear` and `answer` write exactly the acks, and the frames, once more where one is wanted. `ask_of`
//! is the packets' grammar: every payload asks something. `spell` is the answer's bytes. `are_digits` and `digit_value`
//! tell digits of any base. All are refused for want of memory alone; `feed` never.
#![tactic(auto)]

mod asks;
mod frames;
mod line;
mod meaning;
mod numbers;
mod plain;
mod reader;
mod replies;
mod texts;

pub use asks::{Action, Ask, Plain, PointKind, Span, Thread, Watch};
pub use frames::{a_frame_is_read_back, frame, pieces_make_no_difference, sizes_law};
pub use line::Line;
pub use meaning::ask_of;
pub use numbers::{are_digits, digit_value, number_of};
pub use reader::{Reader, Told};
pub use replies::{Reply, Signal, Stop, Why, spell};
pub use texts::{behind, cut_at, is};

/// The most bytes of a payload that is read.
pub const PAYLOAD_MAX: usize = 4096;
