//! How a command of the tool ends.
ghost use Rattle.std.specs.Prelude.{◌≡◌};
ghost use Rattle.state_text.specs.Exits.{exit_of, status_of};
ghost use Rattle.state_text.specs.declared.exit.Exit.TheVariants.{OutOfMemory};

use image_elf::ElfFault;
use log_codec::CodecFault;
use min_certificate::CheckFailure;
use rtr_types::{Cut, Instr};
use std::alloc::AllocError;

/// How a command of the tool ended.
#[derive(Clone, Copy)]
pub enum Exit {
    /// The command did what it was asked for.
    Done,
    /// The words mean no command.
    Usage,
    /// The input has more bytes than the command takes.
    TooLarge,
    /// The input was read to its end and spells nothing that the command reads. `part` is the first
    /// part of it that has no reading; parts are counted from 1.
    Bad { part: u8 },
    /// No core of the replay may retire its next instruction by the log, and not all are at their totals.
    /// The cut says how far each has come.
    Stuck { cut: Cut },
    /// In the replay the core's program is done after `count` instructions, which are fewer than the
    /// recording says.
    Short { core: u8, count: u32 },
    /// The log leaves open in which order these two accesses come, which conflict.
    Undetermined { first: Instr, second: Instr },
    /// The recording is determinate by its reduced log, but the log isn't shown to be least: by `check`, or
    /// by `certify`.
    CheckFailed(CheckFailure),
    /// The input could not be read.
    ReadFault,
    /// The output could not be written.
    WriteFault,
    /// There was no memory for the command's work.
    OutOfMemory,
    /// The input is to be an ELF file, was read to its end, and has no flat image for the memory. Want of memory
    /// for that image is `OutOfMemory` above, and never this fault.
    Elf(ElfFault),
    /// The recording on the input has no such instruction: its core isn't one of the recording's, or the count is
    /// beyond the core's total.
    NoInstr { at: Instr },
    /// The regulated log has more vectors than are tried, or more edges in all of them.
    TooMany { vectors: u64, edges: u64 },
    /// The vector with this number, counted from 1, isn't shown to be needed by the thin file. It is the first such.
    NotShown { vector: u32 },
}

impl Exit {
    /// The exit status of the process.
    pub fn status(&self) -> u8
        ensures { result ≡ status_of self.now }
    {
        match self {
            Exit::Done => 0,
            Exit::Usage => 1,
            Exit::TooLarge => 2,
            Exit::Bad { .. } => 3,
            Exit::Stuck { .. } => 4,
            Exit::Short { .. } => 5,
            Exit::Undetermined { .. } => 6,
            Exit::CheckFailed(_) => 7,
            Exit::ReadFault => 8,
            Exit::WriteFault => 9,
            Exit::OutOfMemory => 10,
            Exit::Elf(_) => 11,
            Exit::NoInstr { .. } => 12,
            Exit::TooMany { .. } => 13,
            Exit::NotShown { .. } => 14,
        }
    }
}

impl From<AllocError> for Exit {
    ghost from_gives = { λ _ exit. exit ≡ OutOfMemory };

    fn from(_error: AllocError) -> Self {
        Exit::OutOfMemory
    }
}

impl From<CodecFault> for Exit {
    ghost from_gives = { λ fault exit. exit ≡ exit_of fault };

    fn from(fault: CodecFault) -> Self {
        match fault {
            CodecFault::Bad { part } => Exit::Bad { part },
            CodecFault::OutOfMemory => Exit::OutOfMemory,
        }
    }
}
