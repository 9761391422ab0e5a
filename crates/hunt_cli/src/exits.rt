//! How a hunt ends.
ghost use Rattle.std.specs.Prelude.{◌≡◌, [], string_bytes};
ghost use Rattle.hunt_cli.specs.Statuses.{status_of};
ghost use Rattle.hunt_cli.specs.declared.exits.HuntExit.TheVariants.{As, Breaks};
ghost use Rattle.state_text.specs.declared.exit.Exit.TheVariants.{Done, OutOfMemory};

use state_text::Exit;
use std::alloc::{AllocError, Global};

/// How a hunt ended.
#[derive(Clone, Copy)]
pub enum HuntExit {
    /// As a command of `rtr` does: at `Done` no run breaks the claim, or what was asked for was printed.
    As(Exit),
    /// A run breaks the claim.
    Breaks,
    /// The run that was given to be made small doesn't break the claim.
    Whole,
}

impl HuntExit {
    /// The exit status of the process.
    pub fn status(&self) -> u8
        ensures { result ≡ status_of self.now }
    {
        match self {
            HuntExit::As(exit) => exit.status(),
            HuntExit::Breaks => 15,
            HuntExit::Whole => 16,
        }
    }
}

impl From<AllocError> for HuntExit {
    ghost from_gives = { λ _ exit. exit ≡ As OutOfMemory };

    fn from(_error: AllocError) -> Self {
        HuntExit::As(Exit::OutOfMemory)
    }
}

/// What a hunt answers: the output, what is reported, and how it ends where the output can be given.
pub(crate) struct Answer {
    pub(crate) out: Vec<u8>,
    pub(crate) report: String,
    pub(crate) exit: HuntExit,
}

impl Drop for Answer {
    fn drop(self) {
        let Answer {
            out: _out,
            report: _report,
            exit: _exit,
        } = self;
    }
}

impl Answer {
    /// What is printed where no run breaks a claim.
    pub(crate) fn done(alloc: Global, out: Vec<u8>) -> Answer
        ensures out { result.out ≡ out }
        ensures report { string_bytes result.report ≡ [] }
        ensures exit { result.exit ≡ As Done }
    {
        Answer {
            out,
            report: String::new(alloc),
            exit: HuntExit::As(Exit::Done),
        }
    }

    /// What is printed of runs that break a claim, and what is reported of them.
    pub(crate) fn breaks(out: Vec<u8>, report: String) -> Answer
        ensures { result ≡ record { out = out; report = report; exit = Breaks } }
    {
        Answer {
            out,
            report,
            exit: HuntExit::Breaks,
        }
    }
}
