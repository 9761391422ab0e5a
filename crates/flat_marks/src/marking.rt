//! What a move changes of the marks.
ghost use Rattle.std.specs.Prelude.{◌≡◌, ◌≢◌, ◌<◌, ◌≤◌, ◌==◌, ◌&&◌, ◌||◌, ℕ, Some, false, length, nat_lt, not, true};
ghost use Rattle.std.specs.Prelude.{if◌then◌else◌};
ghost use Rattle.link_order.specs.Queue.{is_nil};
ghost use Rattle.rtr_types.specs.CoreSets.{has};
ghost use Rattle.rtr_types.specs.declared.TheConstants.{CORES_MAX};
ghost use Rattle.rv_core.specs.Steps.{is_done};
ghost use Rattle.move_marks.specs.Kinds.{set_of};
ghost use Rattle.move_marks.specs.declared.marks.MoveKind.{MoveKind};
ghost use Rattle.move_marks.specs.declared.marks.MoveKind.TheVariants.{FromHome, Own, Request, Response};
ghost use Rattle.flat_state.specs.Shows.{home_at, node_at};
ghost use Rattle.flat_home.specs.Tellings.{addressee, tells};
ghost use Rattle.flat_marks.specs.Kept.{HasAsker, is_free_held};

use flat_home::{HomeTurn, Telling};
use flat_state::{Flat, Held};
use move_marks::{MoveKind, MoveMarks, set_to};
use rtr_types::CoreSet;

/// Marks a core whose instruction retired: it goes on if its program isn't done.
pub(crate) fn mark_retired(flat: &Flat, core: u8, marks: &mut MoveMarks)
    requires core { core < length flat.now.nodes.items }
    requires few { core < CORES_MAX }
    ensures own { has (set_of Own marks.new) core ≡ not (is_done (node_at flat.now.nodes.items core).need) }
    ensures others { (k : MoveKind) (c : ℕ) → (k ≡ Own → c ≢ core)
        → has (set_of k marks.new) c ≡ has (set_of k marks.old) c }
{
    let node = &flat.nodes[core as usize];
    let more = !node.need.is_done();
    marks.set(MoveKind::Own, core, more);
}

/// Marks a core that took a message by what is on its links.
pub(crate) fn mark_links(flat: &Flat, core: u8, marks: &mut MoveMarks)
    requires core { core < length flat.now.nodes.items }
    requires few { core < CORES_MAX }
    ensures response { has (set_of Response marks.new) core
        ≡ not (is_nil (node_at flat.now.nodes.items core).replies) }
    ensures message { has (set_of FromHome marks.new) core
        ≡ not (is_nil (node_at flat.now.nodes.items core).messages) }
    ensures others { (k : MoveKind) (c : ℕ) → (k ≡ Response → c ≢ core) → (k ≡ FromHome → c ≢ core)
        → has (set_of k marks.new) c ≡ has (set_of k marks.old) c }
{
    let node = &flat.nodes[core as usize];
    let replies = !node.replies.is_empty();
    let messages = !node.messages.is_empty();
    marks.set(MoveKind::Response, core, replies);
    marks.set(MoveKind::FromHome, core, messages);
}

/// Marks a core one of whose responses was taken by what is left of them.
pub(crate) fn mark_replies(flat: &Flat, core: u8, marks: &mut MoveMarks)
    requires core { core < length flat.now.nodes.items }
    requires few { core < CORES_MAX }
    ensures this { has (set_of Response marks.new) core ≡ not (is_nil (node_at flat.now.nodes.items core).replies) }
    ensures others { (k : MoveKind) (c : ℕ) → (k ≡ Response → c ≢ core)
        → has (set_of k marks.new) c ≡ has (set_of k marks.old) c }
{
    let node = &flat.nodes[core as usize];
    let replies = !node.replies.is_empty();
    marks.set(MoveKind::Response, core, replies);
}

/// The core, which waits now, is among those that ask for its block, and its request is marked if the block isn't busy.
pub(crate) fn note_ask(flat: &mut Flat, core: u8, marks: &mut MoveMarks)
    requires core { core < length flat.old.nodes.items }
    requires few { core < CORES_MAX }
    requires place { (node_at flat.old.nodes.items core).place < length flat.old.home.items }
    ensures asker { HasAsker flat.old flat.new core (node_at flat.old.nodes.items core).place true }
    ensures own { has (set_of Own marks.new) core ≡ false }
    ensures request { has (set_of Request marks.new) core
        ≡ is_free_held (home_at flat.new.home.items (node_at flat.old.nodes.items core).place).held }
    ensures others { (k : MoveKind) (c : ℕ) → (k ≡ Own → c ≢ core) → (k ≡ Request → c ≢ core)
        → has (set_of k marks.new) c ≡ has (set_of k marks.old) c }
{
    let place = flat.nodes[core as usize].place;
    set_asker(flat, core, place, true);
    let free = is_free(flat.home[place as usize].held);
    marks.set(MoveKind::Own, core, false);
    marks.set(MoveKind::Request, core, free);
}

/// Whether the core is among those that ask for the block at this place is what is told.
pub(crate) fn set_asker(flat: &mut Flat, core: u8, place: u32, asks: bool)
    requires few { core < CORES_MAX }
    requires place { place < length flat.old.home.items }
    ensures { HasAsker flat.old flat.new core place asks }
{
    let block = &mut flat.home[place as usize];
    block.askers = set_to(block.askers, core, asks);
}

/// Marks what can be made after a turn of the home: the messages that it sent, and the requests for its block as this
/// is busy or isn't.
pub(crate) fn mark_turn(flat: &Flat, turn: HomeTurn, marks: &mut MoveMarks)
    requires few { length flat.now.nodes.items ≤ CORES_MAX }
    requires place { turn.place < length flat.now.home.items }
    requires there { (to : ℕ) → addressee turn.telling ≡ Some to → to < length flat.now.nodes.items }
    ensures messages { (c : ℕ) → has (set_of FromHome marks.new) c
        ≡ (has (set_of FromHome marks.old) c || (tells turn.telling c && nat_lt c (length flat.now.nodes.items))) }
    ensures requests { (c : ℕ) → has (set_of Request marks.new) c
        ≡ (if is_free_held (home_at flat.now.home.items turn.place).held
        then has (set_of Request marks.old) c || has (home_at flat.now.home.items turn.place).askers c
        else has (set_of Request marks.old) c && not (has (home_at flat.now.home.items turn.place).askers c)) }
    ensures others { (k : MoveKind) (c : ℕ) → k ≢ FromHome → k ≢ Request
        → has (set_of k marks.new) c ≡ has (set_of k marks.old) c }
{
    let told = told_set(turn.telling, flat.nodes.len() as u32);
    marks.mark_all(MoveKind::FromHome, told);
    let block = &flat.home[turn.place as usize];
    mark_askers(is_free(block.held), block.askers, marks);
}

/// Marks the requests of the cores that ask for a block as it is busy or isn't.
fn mark_askers(free: bool, askers: CoreSet, marks: &mut MoveMarks)
    ensures requests { (c : ℕ) → has (set_of Request marks.new) c
        ≡ (if free then has (set_of Request marks.old) c || has askers c
        else has (set_of Request marks.old) c && not (has askers c)) }
    ensures others { (k : MoveKind) (c : ℕ) → k ≢ Request
        → has (set_of k marks.new) c ≡ has (set_of k marks.old) c }
{
    if free {
        marks.mark_all(MoveKind::Request, askers);
    } else {
        marks.clear_all(MoveKind::Request, askers);
    }
}

/// Whether a block that is held so can be asked for.
fn is_free(held: Held) -> bool
    ensures { result ≡ is_free_held held }
{
    !matches!(held, Held::Acks | Held::ToShare | Held::ToOwn)
}

/// Which of the first so many cores are told.
fn told_set(telling: Telling, cores: u32) -> CoreSet
    requires few { cores ≤ CORES_MAX }
    requires there { (to : ℕ) → addressee telling ≡ Some to → to < cores }
    ensures { (c : ℕ) → has result c ≡ (tells telling c && nat_lt c cores) }
{
    match telling {
        Telling::Data { to } => only(to, cores),
        Telling::Ack { to } => only(to, cores),
        Telling::FwdS { to } => only(to, cores),
        Telling::FwdM { to } => only(to, cores),
        Telling::Each { set } => first_of(set, cores),
        Telling::Nobody => CoreSet::empty(),
    }
}

/// The one core, of the first so many.
fn only(core: u8, _cores: u32) -> CoreSet
    requires few { _cores ≤ CORES_MAX }
    requires there { core < _cores }
    ensures { (c : ℕ) → has result c ≡ ((c == core) && nat_lt c _cores) }
{
    CoreSet::empty().with(core)
}

/// The cores of the set that are among the first so many.
fn first_of(set: CoreSet, cores: u32) -> CoreSet
    requires { cores ≤ CORES_MAX }
    ensures { (c : ℕ) → has result c ≡ (has set c && nat_lt c cores) }
{
    CoreSet {
        bits: set.bits & ((1u32 << cores) - 1) as u16,
    }
}
