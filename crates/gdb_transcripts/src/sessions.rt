//! Which sessions are stored.

/// A session of gdb: what it sent is in NAME.packets.
pub struct Stored {
    /// Its name.
    pub name: &'static str,
    /// The recording that gdb looked at, without its ending.
    pub recording: &'static str,
}

/// The sessions, by their names.
pub static SESSIONS: [Stored; 13] = [
    Stored {
        name: "attach",
        recording: "count",
    },
    Stored {
        name: "barrier_of_sixteen",
        recording: "barrier",
    },
    Stored {
        name: "break_and_step",
        recording: "count",
    },
    Stored {
        name: "crash",
        recording: "crash",
    },
    Stored {
        name: "ends",
        recording: "count",
    },
    Stored {
        name: "lead",
        recording: "count",
    },
    Stored {
        name: "lesson",
        recording: "lost_count",
    },
    Stored {
        name: "monitor",
        recording: "lock",
    },
    Stored {
        name: "refused_writes",
        recording: "count",
    },
    Stored {
        name: "reverse",
        recording: "count",
    },
    Stored {
        name: "scheduler_locking",
        recording: "count",
    },
    Stored {
        name: "spin_lock",
        recording: "lock",
    },
    Stored {
        name: "watch",
        recording: "count",
    },
];
