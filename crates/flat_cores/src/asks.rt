//! A core asks the home for what its next instruction needs.
ghost use Rattle.std.specs.Prelude.{◌≡◌, ◌<◌, ◌/◌, ◌%◌, ◌==◌, Some, false, length, slice_set, true};
ghost use Rattle.rtr_types.specs.declared.TheConstants.{BLOCK_WORDS, LINES};
ghost use Rattle.msi_cache.specs.declared.line.State.TheVariants.{I, S};
ghost use Rattle.msi_state.specs.Events.{Nothing};
ghost use Rattle.msi_state.specs.declared.moves.Move.{Move};
ghost use Rattle.flat_state.specs.Shows.{IsSomewhere, Makes, Tells, home_at, line_at, node_at};
ghost use Rattle.flat_cores.specs.Needs.{get_of, getting, is_copy, leaving, looked, node_asked, node_asking_for, node_giving};
ghost use Rattle.flat_cores.specs.Needs.{node_upgrading, put_of, written};

use flat_state::{Ask, Flat, KeptLine, Node};
use msi_cache::State;
use rtr_types::{BLOCK_WORDS, LINES};
use rv_core::Need;

/// The core asks for a block that its line doesn't have, whose entry lies at this place: to share it for a load, and
/// else to own it.
pub fn ask_for(flat: &mut Flat, core: u8, word: u32, place: u32)
    requires stands { IsSomewhere flat.old }
    requires core { core < length flat.old.nodes.items }
    requires need { looked (node_at flat.old.nodes.items core).need ≡ Some word }
    requires missing { (line_at (node_at flat.old.nodes.items core) (word / BLOCK_WORDS % LINES)).state ≡ I }
    requires place { place < length flat.old.home.items }
    requires block { (home_at flat.old.home.items place).block ≡ word / BLOCK_WORDS }
    ensures makes { Makes flat.old flat.new (Move.Core core) }
    ensures told { Tells flat.old (Move.Core core) Nothing }
    ensures nodes { flat.new.nodes.items ≡ slice_set flat.old.nodes.items core
        (node_asking_for (node_at flat.old.nodes.items core) (word / BLOCK_WORDS) place (word / BLOCK_WORDS % LINES)) }
    ensures home { flat.new.home.items ≡ flat.old.home.items }
{
    let node = &mut flat.nodes[core as usize];
    let state = getting(node.need);
    let ask = get_of(node.need);
    let line = KeptLine {
        block: word / BLOCK_WORDS as u32,
        place,
        state,
    };
    wait_for(node, word as usize / BLOCK_WORDS % LINES, line, ask);
}

/// The core asks to own a block that it shares, since it is to write there.
pub fn upgrade(flat: &mut Flat, core: u8, word: u32)
    requires stands { IsSomewhere flat.old }
    requires core { core < length flat.old.nodes.items }
    requires write { written (node_at flat.old.nodes.items core).need ≡ Some word }
    requires shared { (line_at (node_at flat.old.nodes.items core) (word / BLOCK_WORDS % LINES)).state ≡ S }
    requires block { (line_at (node_at flat.old.nodes.items core) (word / BLOCK_WORDS % LINES)).block
        ≡ word / BLOCK_WORDS }
    ensures makes { Makes flat.old flat.new (Move.Core core) }
    ensures told { Tells flat.old (Move.Core core) Nothing }
    ensures nodes { flat.new.nodes.items ≡ slice_set flat.old.nodes.items core
        (node_upgrading (node_at flat.old.nodes.items core) (word / BLOCK_WORDS % LINES)) }
    ensures home { flat.new.home.items ≡ flat.old.home.items }
{
    let node = &mut flat.nodes[core as usize];
    let index = word as usize / BLOCK_WORDS % LINES;
    let line = KeptLine {
        state: State::SmD,
        ..node.lines[index]
    };
    wait_for(node, index, line, Ask::GetM);
}

/// The core gives back the copy of another block, which lies where the block has to go that it is to look at.
pub fn give_back(flat: &mut Flat, core: u8, word: u32)
    requires stands { IsSomewhere flat.old }
    requires core { core < length flat.old.nodes.items }
    requires need { looked (node_at flat.old.nodes.items core).need ≡ Some word }
    requires copy { is_copy (line_at (node_at flat.old.nodes.items core) (word / BLOCK_WORDS % LINES)).state ≡ true }
    requires other { ((line_at (node_at flat.old.nodes.items core) (word / BLOCK_WORDS % LINES)).block
        == (word / BLOCK_WORDS)) ≡ false }
    ensures makes { Makes flat.old flat.new (Move.Core core) }
    ensures told { Tells flat.old (Move.Core core) Nothing }
    ensures nodes { flat.new.nodes.items ≡ slice_set flat.old.nodes.items core
        (node_giving (node_at flat.old.nodes.items core) (word / BLOCK_WORDS % LINES)) }
    ensures home { flat.new.home.items ≡ flat.old.home.items }
{
    let node = &mut flat.nodes[core as usize];
    let index = word as usize / BLOCK_WORDS % LINES;
    let state = leaving(node.lines[index].state);
    let ask = put_of(node.lines[index].state);
    let line = KeptLine {
        state,
        ..node.lines[index]
    };
    wait_for(node, index, line, ask);
}

/// The line at this place of the core's lines is this one from now on, for whose block the core asks.
fn wait_for(node: &mut Node, index: usize, line: KeptLine, ask: Ask)
    requires { index < LINES }
    ensures { node.new ≡ node_asked node.old index line ask }
{
    node.lines[index] = line;
    node.asks = true;
    node.ask = ask;
    node.place = line.place;
}

/// What is asked for, for what an instruction needs: to share the block for a load, and else to own it.
fn get_of(need: Need) -> Ask
    ensures { result ≡ get_of need }
{
    match need {
        Need::Load { .. } => Ask::GetS,
        _ => Ask::GetM,
    }
}

/// The state in which the line then waits.
fn getting(need: Need) -> State
    ensures { result ≡ getting need }
{
    match need {
        Need::Load { .. } => State::IsD,
        _ => State::ImD,
    }
}

/// How a copy in this state is given back.
fn put_of(state: State) -> Ask
    ensures { result ≡ put_of state }
{
    match state {
        State::M => Ask::PutM,
        _ => Ask::PutS,
    }
}

/// The state in which the line then waits.
fn leaving(state: State) -> State
    ensures { result ≡ leaving state }
{
    match state {
        State::M => State::MiA,
        _ => State::SiA,
    }
}
