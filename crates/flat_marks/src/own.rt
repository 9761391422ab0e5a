//! A core's own moves.
ghost use Rattle.std.specs.Prelude.{◌≡◌, ◌<◌, ◌/◌, ◌%◌, ◌==◌, Some, false, length, true};
ghost use Rattle.rtr_types.specs.declared.TheConstants.{BLOCK_WORDS, LINES};
ghost use Rattle.rv_core.specs.declared.core_state.Need.TheVariants.{Load, Local};
ghost use Rattle.msi_cache.specs.declared.line.State.TheVariants.{I, S};
ghost use Rattle.rtr_types.specs.CoreSets.{has};
ghost use Rattle.move_marks.specs.Kinds.{set_of};
ghost use Rattle.move_marks.specs.declared.marks.MoveKind.TheVariants.{Own};
ghost use Rattle.msi_state.specs.Events.{Accesses, Nothing, Retires};
ghost use Rattle.msi_state.specs.declared.moves.Move.{Move};
ghost use Rattle.flat_state.specs.Shows.{IsSomewhere, hits, home_at, line_at, node_at, owns};
ghost use Rattle.flat_cores.specs.Needs.{is_copy, looked, written};
ghost use Rattle.flat_marks.specs.Kept.{Follows, IsMarked};

use crate::marking::{mark_retired, note_ask};
use flat_cores::{ask_for, retire_load, retire_local, retire_write};
use flat_state::Flat;
use move_marks::MoveMarks;
use rtr_types::{Access, Instr};

/// The core retires an instruction that looks at no data, and answers it.
pub fn local(flat: &mut Flat, marks: &mut MoveMarks, core: u8) -> Instr
    requires stands { IsSomewhere flat.old }
    requires marked { IsMarked flat.old marks.old }
    requires can { has (set_of Own marks.old) core ≡ true }
    requires local { (node_at flat.old.nodes.items core).need ≡ Local }
    ensures { Follows flat.old flat.new marks.new (Move.Core core) (Retires result) }
{
    let at = retire_local(flat, core);
    mark_retired(flat, core, marks);
    at
}

/// The core retires a load of a word whose block it may read, and answers its access.
pub fn load(flat: &mut Flat, marks: &mut MoveMarks, core: u8, word: u32) -> Access
    requires stands { IsSomewhere flat.old }
    requires marked { IsMarked flat.old marks.old }
    requires can { has (set_of Own marks.old) core ≡ true }
    requires load { (node_at flat.old.nodes.items core).need ≡ Load word }
    requires hit { hits (node_at flat.old.nodes.items core) (word / BLOCK_WORDS) ≡ true }
    ensures { Follows flat.old flat.new marks.new (Move.Core core) (Accesses result) }
{
    let access = retire_load(flat, core, word);
    mark_retired(flat, core, marks);
    access
}

/// The core retires a store or an atomic memory operation to a word whose block it may write, and answers its access.
pub fn write(flat: &mut Flat, marks: &mut MoveMarks, core: u8, word: u32) -> Access
    requires stands { IsSomewhere flat.old }
    requires marked { IsMarked flat.old marks.old }
    requires can { has (set_of Own marks.old) core ≡ true }
    requires write { written (node_at flat.old.nodes.items core).need ≡ Some word }
    requires hit { owns (node_at flat.old.nodes.items core) (word / BLOCK_WORDS) ≡ true }
    ensures { Follows flat.old flat.new marks.new (Move.Core core) (Accesses result) }
{
    let access = retire_write(flat, core, word);
    mark_retired(flat, core, marks);
    access
}

/// The core asks for a block that its line doesn't have, whose entry lies at this place: to share it for a load, and
/// else to own it.
pub fn ask(flat: &mut Flat, marks: &mut MoveMarks, core: u8, word: u32, place: u32)
    requires stands { IsSomewhere flat.old }
    requires marked { IsMarked flat.old marks.old }
    requires can { has (set_of Own marks.old) core ≡ true }
    requires need { looked (node_at flat.old.nodes.items core).need ≡ Some word }
    requires missing { (line_at (node_at flat.old.nodes.items core) (word / BLOCK_WORDS % LINES)).state ≡ I }
    requires place { place < length flat.old.home.items }
    requires block { (home_at flat.old.home.items place).block ≡ word / BLOCK_WORDS }
    ensures { Follows flat.old flat.new marks.new (Move.Core core) Nothing }
{
    ask_for(flat, core, word, place);
    note_ask(flat, core, marks);
}

/// The core asks to own a block that it shares, since it is to write there.
pub fn upgrade(flat: &mut Flat, marks: &mut MoveMarks, core: u8, word: u32)
    requires stands { IsSomewhere flat.old }
    requires marked { IsMarked flat.old marks.old }
    requires can { has (set_of Own marks.old) core ≡ true }
    requires write { written (node_at flat.old.nodes.items core).need ≡ Some word }
    requires shared { (line_at (node_at flat.old.nodes.items core) (word / BLOCK_WORDS % LINES)).state ≡ S }
    requires block { (line_at (node_at flat.old.nodes.items core) (word / BLOCK_WORDS % LINES)).block ≡ word / BLOCK_WORDS }
    ensures { Follows flat.old flat.new marks.new (Move.Core core) Nothing }
{
    flat_cores::upgrade(flat, core, word);
    note_ask(flat, core, marks);
}

/// The core gives back the copy of another block, which lies where the block has to go that it is to look at.
pub fn give_back(flat: &mut Flat, marks: &mut MoveMarks, core: u8, word: u32)
    requires stands { IsSomewhere flat.old }
    requires marked { IsMarked flat.old marks.old }
    requires can { has (set_of Own marks.old) core ≡ true }
    requires need { looked (node_at flat.old.nodes.items core).need ≡ Some word }
    requires copy { is_copy (line_at (node_at flat.old.nodes.items core) (word / BLOCK_WORDS % LINES)).state ≡ true }
    requires other { ((line_at (node_at flat.old.nodes.items core) (word / BLOCK_WORDS % LINES)).block
        == (word / BLOCK_WORDS)) ≡ false }
    ensures { Follows flat.old flat.new marks.new (Move.Core core) Nothing }
{
    flat_cores::give_back(flat, core, word);
    note_ask(flat, core, marks);
}
