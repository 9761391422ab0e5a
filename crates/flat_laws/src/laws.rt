//! What marks mean.
ghost use Rattle.std.specs.Prelude.{◌≡◌, ◌<◌, ◌&&◌, ◌||◌, ℕ, Bool, List, length, not, if◌then◌else◌};
ghost use Rattle.access_times.specs.Riding.{none_carrying, none_riding};
ghost use Rattle.link_order.specs.Queue.{is_nil};
ghost use Rattle.msi_state.specs.States.{PlainState};
ghost use Rattle.msi_state.specs.Steps.{enabled};
ghost use Rattle.msi_state.specs.declared.moves.Move.{Move};
ghost use Rattle.flat_state.specs.Shows.{Stands, node_at};
ghost use Rattle.flat_state.specs.declared.flat.Flat.{Flat};
ghost use Rattle.flat_laws.specs.Marks.{own_mark, request_mark};

/// What marks mean: a core's own move is enabled if its program isn't done and no line of its waits; its request, if
/// there is one and its block isn't busy; a response and a message, if there is one.
pub fn marks_are_moves()
    ensures own { (f : Flat) (s : PlainState) (memory : ℕ → List ℕ) (c : ℕ) → Stands f s memory
        → c < length f.nodes.items → enabled none_riding none_carrying s (Move.Core c)
        ≡ own_mark (node_at f.nodes.items c) }
    ensures requests { (f : Flat) (s : PlainState) (memory : ℕ → List ℕ) (c : ℕ) → Stands f s memory
        → c < length f.nodes.items → enabled none_riding none_carrying s (Move.Request c)
        ≡ request_mark f.home.items (node_at f.nodes.items c) }
    ensures responses { (f : Flat) (s : PlainState) (memory : ℕ → List ℕ) (c : ℕ) → Stands f s memory
        → c < length f.nodes.items → enabled none_riding none_carrying s (Move.Response c)
        ≡ not (is_nil (node_at f.nodes.items c).replies) }
    ensures messages { (f : Flat) (s : PlainState) (memory : ℕ → List ℕ) (c : ℕ) → Stands f s memory
        → c < length f.nodes.items → enabled none_riding none_carrying s (Move.FromHome c)
        ≡ not (is_nil (node_at f.nodes.items c).messages) }
{}

/// How a core's mark of a request follows a block that turns free or busy: by whether the core is among the block's
/// askers, whether it asks at all and for that block, whether the block was free and is now, and whether the block is
/// that it asks for elsewhere.
pub fn askers_follow()
    ensures { (mark asker asks here was now elsewhere : Bool) → asker ≡ (asks && here)
        → mark ≡ (asks && (if here then was else elsewhere))
        → (if now then mark || asker else mark && not asker) ≡ (asks && (if here then now else elsewhere)) }
{}
