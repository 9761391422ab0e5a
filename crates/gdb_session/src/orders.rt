//! Which move a packet orders.
ghost use Rattle.std.specs.Prelude.{◌≡◌, ◌<◌, ◌≤◌, IfSome};
ghost use Rattle.rtr_types.specs.declared.TheConstants.{CORES_MAX};
ghost use Rattle.gdb_moves.specs.Moves.{IsWithin};
ghost use Rattle.gdb_session.specs.Orders.{acts, all_go, all_on, are_there, asked_of, every_core};
ghost use Rattle.gdb_session.specs.Orders.{go_back_order, heard_of, is_asked, lower_of, lowest_where, mover, movers_of};
ghost use Rattle.gdb_session.specs.Orders.{named, names, only};
ghost use Rattle.gdb_session.specs.Orders.{in_range, stepping_on, ranged_order, resume_order, some_order, step_back_order, steps};
ghost use Rattle.gdb_session.specs.Wishes.{Fit};

use crate::wishes::{Wishes, core_of, is_there};
use gdb_moves::{Direction, Order, Range};
use gdb_packets::{Action, Thread};
use rtr_types::CoreSet;

/// Whether the name means the core.
fn names(thread: Thread, core: u8) -> bool
    ensures { result ≡ names thread core }
{
    match thread {
        Thread::All | Thread::Any => true,
        Thread::Core(other) => other == core as u64,
    }
}

/// Whether a core is to step, by the first action that names it; none where none does.
fn asked_of(actions: &[Action], core: u8) -> Option<bool>
    ensures { result ≡ asked_of actions.now core }
{
    for action in actions {
        if names(action.who, core) {
            return Some(action.step);
        }
    }
    None
}

/// Whether a core is to step.
fn steps(actions: &[Action], core: u8) -> bool
    ensures { result ≡ steps actions.now core }
{
    asked_of(actions, core).unwrap_or(false)
}

/// Whether a core is to move.
fn acts(actions: &[Action], core: u8) -> bool
    ensures { result ≡ acts actions.now core }
{
    asked_of(actions, core).is_some()
}

/// Whether each thread that an action names is there.
fn are_there(actions: &[Action], cores: u8) -> bool
    ensures { result ≡ are_there actions.now cores }
{
    actions.iter().all(|action| is_there(action.who, cores))
}

/// The first core that is named.
fn named(actions: &[Action], cores: u8) -> Option<u8>
    ensures core { result ≡ named actions.now cores }
    ensures within { IfSome result (λ core. core < cores) }
{
    for action in actions {
        if let Some(core) = core_of(action.who, cores) {
            return Some(core);
        }
    }
    None
}

/// The cores that are to move.
fn heard_of(actions: &[Action], cores: u8) -> CoreSet
    requires { cores ≤ CORES_MAX }
    ensures { result ≡ heard_of actions.now cores }
{
    let mut set = CoreSet::empty();
    for core in 0..cores {
        if acts(actions, core) {
            set = set.with(core);
        }
    }
    set
}

/// All cores.
pub(crate) fn every_core(cores: u8) -> CoreSet
    requires { cores ≤ CORES_MAX }
    ensures { result ≡ every_core cores }
{
    let mut set = CoreSet::empty();
    for core in 0..cores {
        set = set.with(core);
    }
    set
}

/// Whether a core is to step, or to move at all.
fn is_asked(actions: &[Action], core: u8, step: bool) -> bool
    ensures { result ≡ is_asked step actions.now core }
{
    if step {
        steps(actions, core)
    } else {
        acts(actions, core)
    }
}

/// The lowest core that is to step, or to move at all.
fn lowest_asked(actions: &[Action], cores: u8, step: bool) -> Option<u8>
    ensures core { result ≡ lowest_where (is_asked step actions.now) cores }
    ensures within { IfSome result (λ core. core < cores) }
{
    let mut lowest = None;
    for core in 0..cores {
        lowest = lower_of(lowest, is_asked(actions, core, step), core);
    }
    lowest
}

/// The lowest core so far, or else this one where it passes.
fn lower_of(lowest: Option<u8>, passes: bool, core: u8) -> Option<u8>
    ensures { result ≡ lower_of lowest passes core }
{
    match lowest {
        Some(other) => Some(other),
        None if passes => Some(core),
        None => None,
    }
}

/// Whether each core is to move.
fn all_go(actions: &[Action], cores: u8) -> bool
    ensures { result ≡ all_go actions.now cores }
{
    let mut all = true;
    for core in 0..cores {
        all = all && acts(actions, core);
    }
    all
}

/// One core alone.
fn only(core: u8) -> CoreSet
    requires { core < CORES_MAX }
    ensures { result ≡ only core }
{
    CoreSet::empty().with(core)
}

/// All cores go on in the direction: by the one that leads alone, where one does.
fn all_on(direction: Direction, lead: Option<u8>, told: u8, heard: CoreSet) -> Order
    requires { IfSome lead (λ core. core < CORES_MAX) }
    ensures { result ≡ all_on direction lead told heard }
{
    match lead {
        Some(lead) => Order::GoWith(direction, told, only(lead), heard),
        None => Order::Go(direction, told, heard),
    }
}

/// The move of only some cores, of which this is the lowest, if there is one: they go on.
fn some_order(wishes: Wishes, heard: CoreSet, lowest: Option<u8>, cores: u8) -> Option<Order>
    requires fit { Fit wishes cores }
    requires few { cores ≤ CORES_MAX }
    requires lowest { IfSome lowest (λ core. core < cores) }
    ensures order { result ≡ some_order wishes heard lowest }
    ensures within { IfSome result (λ order. IsWithin order cores) }
{
    let lowest = lowest?;
    let told = if heard.has(wishes.looked) {
        wishes.looked
    } else {
        lowest
    };
    Some(Order::GoWith(Direction::Forward, told, heard, heard))
}

/// The move that actions order; none where they name a thread that isn't there, or no core is to move.
fn resume_order(wishes: Wishes, cores: u8, actions: &[Action]) -> Option<Order>
    requires fit { Fit wishes cores }
    requires few { cores ≤ CORES_MAX }
    ensures order { result ≡ resume_order wishes cores actions.now }
    ensures within { IfSome result (λ order. IsWithin order cores) }
{
    if !are_there(actions, cores) {
        return None;
    }
    if wishes.interrupted {
        return Some(Order::Rest(named(actions, cores).unwrap_or(wishes.looked)));
    }
    let heard = heard_of(actions, cores);
    match lowest_asked(actions, cores, true) {
        Some(core) => Some(Order::Step(Direction::Forward, core, heard)),
        None if all_go(actions, cores) => {
            Some(all_on(Direction::Forward, wishes.lead, wishes.looked, heard))
        }
        None => some_order(wishes, heard, lowest_asked(actions, cores, false), cores),
    }
}

/// A step forwards goes on in the range, if there is one.
fn in_range(range: Option<Range>, order: Order, cores: u8) -> Order
    requires { IsWithin order cores }
    ensures order { result ≡ in_range range order }
    ensures within { IsWithin result cores }
{
    match range {
        None => order,
        Some(range) => stepping_on(range, order, cores),
    }
}

/// A step forwards goes on in the range.
fn stepping_on(range: Range, order: Order, cores: u8) -> Order
    requires { IsWithin order cores }
    ensures order { result ≡ stepping_on range order }
    ensures within { IsWithin result cores }
{
    match order {
        Order::Step(direction, core, heard) => match direction {
            Direction::Forward => Order::StepIn(core, heard, range),
            Direction::Back => order,
        },
        Order::Rest(_) => order,
        Order::StepIn(_, _, _) => order,
        Order::Go(_, _, _) => order,
        Order::GoWith(_, _, _, _) => order,
    }
}

/// The move that actions order whose step goes on in the range, if there is one.
pub(crate) fn ranged_order(
    range: Option<Range>,
    wishes: Wishes,
    cores: u8,
    actions: &[Action],
) -> Option<Order>
    requires fit { Fit wishes cores }
    requires few { cores ≤ CORES_MAX }
    ensures order { result ≡ ranged_order range wishes cores actions.now }
    ensures within { IfSome result (λ order. IsWithin order cores) }
{
    let order = resume_order(wishes, cores, actions)?;
    Some(in_range(range, order, cores))
}

/// The core that goes back, or that is looked at where all do.
fn mover(wishes: Wishes) -> u8
    ensures { result ≡ mover wishes }
{
    wishes.moving.unwrap_or(wishes.looked)
}

/// The cores that go back: the one, or all.
fn movers_of(moving: Option<u8>, cores: u8) -> CoreSet
    requires few { cores ≤ CORES_MAX }
    requires moving { IfSome moving (λ core. core < cores) }
    ensures { result ≡ movers_of moving cores }
{
    match moving {
        Some(core) => only(core),
        None => every_core(cores),
    }
}

/// The move that a step back orders.
pub(crate) fn step_back_order(wishes: Wishes, cores: u8) -> Order
    requires fit { Fit wishes cores }
    requires few { cores ≤ CORES_MAX }
    ensures order { result ≡ step_back_order wishes cores }
    ensures within { IsWithin result cores }
{
    let core = mover(wishes);
    if wishes.interrupted {
        Order::Rest(core)
    } else {
        Order::Step(Direction::Back, core, movers_of(wishes.moving, cores))
    }
}

/// The move that going back orders.
pub(crate) fn go_back_order(wishes: Wishes, cores: u8) -> Order
    requires fit { Fit wishes cores }
    requires few { cores ≤ CORES_MAX }
    ensures order { result ≡ go_back_order wishes cores }
    ensures within { IsWithin result cores }
{
    if wishes.interrupted {
        return Order::Rest(mover(wishes));
    }
    match wishes.moving {
        Some(core) => Order::GoWith(Direction::Back, core, only(core), only(core)),
        None => all_on(
            Direction::Back,
            wishes.lead,
            wishes.looked,
            every_core(cores),
        ),
    }
}
