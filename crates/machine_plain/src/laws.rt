//! What is left of a machine where riders and carries are forgotten.
ghost use Rattle.std.specs.Prelude.{◌≡◌};
ghost use Rattle.access_times.specs.Riding.{Carrying, Riding, none_carrying, none_riding};
ghost use Rattle.machine_plain.specs.Plain.{PlainShows, plain};
ghost use Rattle.msi_state.specs.FinalMemory.{final_words};
ghost use Rattle.msi_state.specs.States.{State, all_done, state_start};
ghost use Rattle.msi_state.specs.Steps.{event, moves, step};
ghost use Rattle.msi_state.specs.declared.moves.Move.{Move};

/// Whatever rides, and whatever rider the clerk leaves on a copy that an access touched: a move does to
/// the plain part what it does to it where nothing rides, and tells of the same access.
pub fn riders_change_nothing<R, K>()
    ensures step { (riding : Riding R) (carrying : Carrying K) (rider : R) (s : State R K) (m : Move)
        → plain (step riding carrying rider s m) ≡ step none_riding none_carrying tt (plain s) m }
    ensures event { (riding : Riding R) (carrying : Carrying K) (s : State R K) (m : Move)
        → event riding carrying s m ≡ event none_riding none_carrying (plain s) m }
{}

/// Whatever rides: the moves that can be made are those of the plain part, in the same order, so a
/// choice takes the same one. The plain part of a machine's start is the start where nothing rides, a machine is at
/// its end exactly where its plain part is, and it has the same memory.
pub fn the_plain_part_shows_the_same<R, K>()
    ensures { PlainShows R K moves (moves none_riding none_carrying) state_start
        (state_start none_riding none_carrying) all_done all_done final_words (final_words none_riding none_carrying) }
{}
