//! What holds of every run, with no premise but that its parameters lie in their ranges, and what it comes to.
ghost use Rattle.run_outcome.specs.EveryRun.{EveryRunLaw};
ghost use Rattle.run_outcome.specs.Outcomes.{RunFitsLaw};
ghost use Rattle.run_outcome.specs.Retirement.{AccessesLaw, EarlierLaw, NextRetiresLaw, RetiresOnceLaw};
ghost use Rattle.run_outcome.specs.Retirement.{StaysRetiredLaw};

/// The machine over every run. In each state at most one cache may write a block, and then no other may
/// read it; what an enabled move brings has a row in its receiver's table, and what it sends has room;
/// some move is enabled until each core's program is done. The run ends within 2 P + 4 steps for each
/// instruction that retires in it, P the number of cores, and then all links are empty. Each access
/// finds what was written last to its word, and so does who reads the memory at the end.
pub fn the_machine_over_every_run()
    ensures { EveryRunLaw }
{}

/// What retires is its core's next instruction, has retired from then on, and retires once. What retired
/// before an instruction has retired whenever that one retires.
pub fn instructions_retire_in_turn()
    ensures next { NextRetiresLaw }
    ensures stays { StaysRetiredLaw }
    ensures once { RetiresOnceLaw }
    ensures earlier { EarlierLaw }
{}

/// A run's accesses have rising counts for each core, are of the run's cores and of words of its memory,
/// and are of instructions that have retired.
pub fn accesses_of_every_run()
    ensures { AccessesLaw }
{}

/// A run has as many cores and lists of loads as its parameters name, no core retires more instructions
/// than the limit, and its memory and its loads are of the image's words.
pub fn a_run_fits_its_image()
    ensures { RunFitsLaw }
{}
