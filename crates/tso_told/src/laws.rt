//! What is told of a run's cores.
ghost use Rattle.std.specs.Prelude.{◌≡◌, ℕ, ◌<◌, ◌≤◌, ◌^◌};
ghost use Rattle.image_mem.specs.Contents.{Contents};
ghost use Rattle.rtr_types.specs.declared.TheConstants.{CORES_MAX};
ghost use Rattle.rtr_types.specs.declared.params.Params.{Params};
ghost use Rattle.tso_state.specs.Runs.{accesses, all_told, logged_loads};
ghost use Rattle.tso_told.specs.Played.{AreInside, IsToldOf, logged_told, ordered_told};

/// What is told of a core is what the core does from its start: each instruction is the core's next, needs what is told
/// of it, and finds the word that is told. Nothing is told of any other core. Once each core has ended it is all that
/// the core did. What a core's loads and atomic memory operations read is told with them, or still pending.
pub fn what_is_told_is_what_cores_do()
    ensures inside { (image : Contents) (params : Params) (choices : ℕ → ℕ) (t : ℕ)
        → params.cores ≤ CORES_MAX → params.limit < 2 ^ 32
        → AreInside params.cores (all_told image params choices t) }
    ensures cores { (image : Contents) (params : Params) (choices : ℕ → ℕ) (t c : ℕ)
        → params.cores ≤ CORES_MAX → params.limit < 2 ^ 32 → c < params.cores
        → IsToldOf image params choices t c }
{}

/// The accesses that a run orders, and the loads that it logs, are those that are told, in the same order.
pub fn what_is_ordered_is_told()
    ensures ordered { (image : Contents) (params : Params) (choices : ℕ → ℕ) (t : ℕ)
        → ordered_told (all_told image params choices t) ≡ accesses image params choices t }
    ensures logged { (image : Contents) (params : Params) (choices : ℕ → ℕ) (t : ℕ)
        → logged_told (all_told image params choices t) ≡ logged_loads image params choices t }
{}
