//! How the tests spell accesses.

/// An access to a word, as the core's instruction with this count. Values play no part.
macro_rules! access {
    ($core:literal : $count:literal $kind:ident $word:literal) => {
        Access {
            at: Instr {
                core: $core,
                count: $count,
            },
            word: $word,
            kind: Kind::$kind,
            before: 0,
            after: 0,
        }
    };
}

/// Accesses in this order.
macro_rules! accesses {
    ($($core:literal : $count:literal $kind:ident $word:literal),+) => {
        [$(access!($core: $count $kind $word)),+]
    };
}

pub(crate) use access;
pub(crate) use accesses;
