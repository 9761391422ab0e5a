//! What the home did.
use msi_directory::HomeAnswer;

/// What the home did in an act: the block that it was about, what it answered, and whether the block is free
/// now: it isn't busy.
#[derive(Clone, Copy)]
pub struct Turn {
    pub block: u32,
    pub answer: HomeAnswer<()>,
    pub free: bool,
}
