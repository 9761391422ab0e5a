//! A core retires an instruction.
ghost use Rattle.std.specs.Prelude.{◌≡◌, ◌<◌, ◌/◌, ℕ, Some, length, slice_set, true};
ghost use Rattle.rtr_types.specs.declared.TheConstants.{BLOCK_WORDS};
ghost use Rattle.rv_core.specs.declared.core_state.Need.TheVariants.{Load, Local};
ghost use Rattle.msi_state.specs.Events.{Accesses, Retires};
ghost use Rattle.msi_state.specs.declared.moves.Move.{Move};
ghost use Rattle.flat_state.specs.Shows.{IsSomewhere, Makes, Tells, blocks_of, hits, home_at, node_at, owns};
ghost use Rattle.flat_cores.specs.Needs.{but_words, kind_of, node_retired_at, written};

use flat_state::Flat;
use rtr_types::{Access, BLOCK_WORDS, Instr, Kind, LINES};
use rv_core::Need;

/// The core retires an instruction that looks at no data, and answers it.
pub fn retire_local(flat: &mut Flat, core: u8) -> Instr
    requires stands { IsSomewhere flat.old }
    requires core { core < length flat.old.nodes.items }
    requires local { (node_at flat.old.nodes.items core).need ≡ Local }
    ensures makes { Makes flat.old flat.new (Move.Core core) }
    ensures told { Tells flat.old (Move.Core core) (Retires result) }
    ensures nodes { flat.new.nodes.items
        ≡ slice_set flat.old.nodes.items core (node_retired_at flat.old core 0) }
    ensures home { flat.new.home.items ≡ flat.old.home.items }
{
    let node = &mut flat.nodes[core as usize];
    let at = node.next_instr(&flat.program);
    let _value = node.retire(&flat.program, 0);
    at
}

/// The core retires a load of a word whose block it may read, and answers its access.
pub fn retire_load(flat: &mut Flat, core: u8, word: u32) -> Access
    requires stands { IsSomewhere flat.old }
    requires core { core < length flat.old.nodes.items }
    requires load { (node_at flat.old.nodes.items core).need ≡ Load word }
    requires hit { hits (node_at flat.old.nodes.items core) (word / BLOCK_WORDS) ≡ true }
    ensures makes { Makes flat.old flat.new (Move.Core core) }
    ensures told { Tells flat.old (Move.Core core) (Accesses result) }
    ensures nodes { flat.new.nodes.items
        ≡ slice_set flat.old.nodes.items core (node_retired_at flat.old core result.before) }
    ensures home { flat.new.home.items ≡ flat.old.home.items }
{
    let node = &mut flat.nodes[core as usize];
    let place = node.lines[word as usize / BLOCK_WORDS % LINES].place;
    let before = flat.home[place as usize].words[word as usize % BLOCK_WORDS];
    let at = node.next_instr(&flat.program);
    let after = node.retire(&flat.program, before);
    Access {
        at,
        word,
        kind: Kind::Load,
        before,
        after,
    }
}

/// The core retires a store or an atomic memory operation to a word whose block it may write, and answers its access.
pub fn retire_write(flat: &mut Flat, core: u8, word: u32) -> Access
    requires stands { IsSomewhere flat.old }
    requires core { core < length flat.old.nodes.items }
    requires write { written (node_at flat.old.nodes.items core).need ≡ Some word }
    requires hit { owns (node_at flat.old.nodes.items core) (word / BLOCK_WORDS) ≡ true }
    ensures makes { Makes flat.old flat.new (Move.Core core) }
    ensures told { Tells flat.old (Move.Core core) (Accesses result) }
    ensures nodes { flat.new.nodes.items
        ≡ slice_set flat.old.nodes.items core (node_retired_at flat.old core result.before) }
    ensures home { (i : ℕ) → but_words (home_at flat.new.home.items i) ≡ but_words (home_at flat.old.home.items i) }
    ensures blocks { blocks_of flat.new.home.items ≡ blocks_of flat.old.home.items }
{
    let node = &mut flat.nodes[core as usize];
    let place = node.lines[word as usize / BLOCK_WORDS % LINES].place;
    let block = &mut flat.home[place as usize];
    let slot = word as usize % BLOCK_WORDS;
    let before = block.words[slot];
    let kind = kind_of(node.need);
    let at = node.next_instr(&flat.program);
    let after = node.retire(&flat.program, before);
    block.words[slot] = after;
    Access {
        at,
        word,
        kind,
        before,
        after,
    }
}

/// The kind of the access that an instruction needs, which is a load's where it needs none.
pub fn kind_of(need: Need) -> Kind
    ensures { result ≡ kind_of need }
{
    match need {
        Need::Store { .. } => Kind::Store,
        Need::Amo { .. } => Kind::Amo,
        _ => Kind::Load,
    }
}
