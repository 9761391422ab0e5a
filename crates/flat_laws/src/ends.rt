//! What a flat state shows of the end of a run.
ghost use Rattle.std.specs.Prelude.{◌≡◌, ℕ, List, map, true};
ghost use Rattle.std.specs.List.{list_all};
ghost use Rattle.access_times.specs.Riding.{none_carrying, none_riding};
ghost use Rattle.rv_core.specs.Steps.{is_done};
ghost use Rattle.machine_bound.specs.Bound.{left};
ghost use Rattle.msi_laws.specs.Moving.{links_empty};
ghost use Rattle.msi_state.specs.FinalMemory.{final_words};
ghost use Rattle.msi_state.specs.States.{PlainState, all_done};
ghost use Rattle.flat_state.specs.Shows.{Stands};
ghost use Rattle.flat_state.specs.declared.flat.Flat.{Flat};
ghost use Rattle.flat_laws.specs.Ends.{words_kept};
ghost use Rattle.flat_laws.specs.StepsLeft.{left_kept};

/// The nodes' cores are the state's. Each core's program is done exactly if each node says so. How many steps may be
/// left
/// is a sum over the nodes. If nothing is under way, the final words of a block are those of its entry, or else the
/// image's.
pub fn a_flat_state_shows_its_end()
    ensures cores { (f : Flat) (s : PlainState) (memory : ℕ → List ℕ) → Stands f s memory
        → map (λ n. n.core) f.nodes.items ≡ s.cores }
    ensures done { (f : Flat) (s : PlainState) (memory : ℕ → List ℕ) → Stands f s memory
        → list_all (λ n. is_done n.need) f.nodes.items ≡ all_done s }
    ensures left { (f : Flat) (s : PlainState) (memory : ℕ → List ℕ) → Stands f s memory
        → left_kept f.nodes.items ≡ left none_riding s }
    ensures words { (f : Flat) (s : PlainState) (memory : ℕ → List ℕ) (block : ℕ) → Stands f s memory
        → links_empty s.memory ≡ true
        → words_kept f.home.items f.program block ≡ final_words none_riding none_carrying s block }
{}
