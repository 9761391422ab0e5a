//! What the commands' definitions promise of their outputs.
ghost use Rattle.rtr_cli.specs.Laws.{CertifiedIsAccepted, MakesOne, MigratedReadsTheSame, NewestStays};
ghost use Rattle.rtr_cli.specs.Laws.{ThinnedIsReplayed, VersionsAreApart};
ghost use Rattle.rtr_cli.specs.Completeness.{AcceptedIsNotRefused, WrittenIsAccepted};

use cut_replay::laws::{one_cut_each, one_state};
use vector_reduce::laws::thinned_spellings;

/// What `migrate` makes of a recording of either version reads as the recording does, and it leaves the
/// bytes of one of the newest version as they are.
pub fn migrate_laws()
    ensures same { MigratedReadsTheSame }
    ensures newest { NewestStays }
{}

/// What `certify` makes, `check` accepts, unless memory runs out.
pub fn certify_laws()
    ensures { CertifiedIsAccepted }
{}

/// What a command makes of an input is one output. That is so of `certify`, since exact clocks are one, of `at`, since
/// an instruction has one cut of each kind and a cut one state, and of `thin`, since vectors have one thinning, of
/// which each is shown by its first edge that the others don't imply and the least cut.
pub fn each_command_makes_one_output()
    ensures { MakesOne }
{
    one_cut_each();
    one_state();
}

/// The recording that `thin` makes is determinate by its regulated log, so that a replay by it isn't refused, unless
/// memory runs out.
pub fn thin_laws()
    ensures { ThinnedIsReplayed }
{}

/// `tsoreplay` names the first part of whatever begins as a recording of another version does, and each other command
/// that reads a file names the first part of whatever begins as a recording of cores with store buffers does.
pub fn versions_are_told_apart()
    ensures { VersionsAreApart }
{}

/// What a command accepts it refuses for want of memory alone. What `record` writes, and what `migrate` makes of it, is
/// accepted by each command that reads a recording (by `at` where it has the instruction, by `thin` where it has few
/// vectors), what `certify` writes by `check`, what `thin --certify` writes by `checkthin`, and what `tsorecord` writes
/// by `tsoreplay`.
pub fn completeness_laws()
    ensures accepted { AcceptedIsNotRefused }
    ensures written { WrittenIsAccepted }
{
    thinned_spellings();
}
