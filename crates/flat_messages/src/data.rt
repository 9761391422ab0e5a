//! A block's data, and the access that waited for them.
ghost use Rattle.std.specs.Prelude.{◌≡◌, ◌<◌, ℕ, Some, length, slice_set};
ghost use Rattle.msi_state.specs.Events.{Accesses};
ghost use Rattle.msi_state.specs.declared.moves.Move.{Move};
ghost use Rattle.flat_state.specs.declared.message_ring.Told.{Told};
ghost use Rattle.flat_state.specs.Shows.{IsSomewhere, Makes, Tells, blocks_of, home_at, node_at};
ghost use Rattle.flat_cores.specs.Needs.{but_words};
ghost use Rattle.flat_messages.specs.Heard.{left_by, node_filled, told_next, word_of, writes};

use crate::words::heard;
use flat_cores::kind_of;
use flat_state::{Flat, Told};
use rtr_types::{Access, BLOCK_WORDS, LINES};
use rv_core::Need;

/// The core takes its oldest message, which tells it of a block's data, and retires the instruction that waited for
/// them. It answers that instruction's access.
pub fn take_data(flat: &mut Flat, core: u8) -> Access
    requires stands { IsSomewhere flat.old }
    requires core { core < length flat.old.nodes.items }
    requires brings { told_next (node_at flat.old.nodes.items core).messages ≡ Some Told.Data }
    ensures makes { Makes flat.old flat.new (Move.FromHome core) }
    ensures told { Tells flat.old (Move.FromHome core) (Accesses result) }
    ensures nodes { flat.new.nodes.items ≡ slice_set flat.old.nodes.items core (node_filled flat.old core result.before) }
    ensures home { (i : ℕ) → but_words (home_at flat.new.home.items i) ≡ but_words (home_at flat.old.home.items i) }
    ensures blocks { blocks_of flat.new.home.items ≡ blocks_of flat.old.home.items }
{
    let node = &mut flat.nodes[core as usize];
    let message = node.messages.take();
    let block = &mut flat.home[message.place as usize];
    let index = block.block as usize % LINES;
    let state = heard(Told::Data, node.lines[index].state);
    node.lines[index].state = state;
    let word = word_of(node.need);
    let slot = word as usize % BLOCK_WORDS;
    let writing = writes(node.need);
    let before = block.words[slot];
    let kind = kind_of(node.need);
    let at = node.next_instr(&flat.program);
    let after = node.retire(&flat.program, before);
    let left = left_by(writing, before, after);
    block.words[slot] = left;
    Access {
        at,
        word,
        kind,
        before,
        after,
    }
}

/// The word that the instruction looks at.
fn word_of(need: Need) -> u32
    ensures { result ≡ word_of need }
{
    match need {
        Need::Load { word } => word,
        Need::Store { word, .. } => word,
        Need::Amo { word } => word,
        _ => 0,
    }
}

/// Whether it may write the word.
fn writes(need: Need) -> bool
    ensures { result ≡ writes need }
{
    matches!(need, Need::Store { .. } | Need::Amo { .. })
}

/// What an access leaves of a word that was this before.
fn left_by(writing: bool, before: u32, after: u32) -> u32
    ensures { result ≡ left_by writing before after }
{
    if writing { after } else { before }
}
