//! Which accesses to a word are told.
ghost use Rattle.std.specs.Prelude.{◌≡◌};
ghost use Rattle.gdb_commands.specs.Filters.{is_chosen};

use rtr_types::Access;

/// Which accesses to a word are told.
#[derive(Clone, Copy)]
pub enum Filter {
    /// All of them.
    Every,
    /// Those that write the word.
    Writes,
    /// Those of this core.
    ByCore(u8),
}

impl Filter {
    /// Whether the access is told.
    pub fn takes(self, access: Access) -> bool
        ensures { result ≡ is_chosen self access }
    {
        match self {
            Filter::Every => true,
            Filter::Writes => access.kind.is_write(),
            Filter::ByCore(core) => access.at.core == core,
        }
    }
}
