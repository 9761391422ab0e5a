//! What a core file is determined by.
ghost use Rattle.gdb_cli.specs.Cores.{OneCoreFileLaw};

use cut_replay::laws::{one_cut_each, one_state};

/// A recording has one core file of a moment.
pub fn one_core_file()
    ensures { OneCoreFileLaw }
{
    one_cut_each();
    one_state();
}
