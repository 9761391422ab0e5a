//! The commands, and which options each takes.
ghost use Rattle.std.specs.Prelude.{◌≡◌, ◌≢◌, IfOk, None, OnErr};
ghost use Rattle.tool_words.specs.Settings.{seen};
ghost use Rattle.tool_words.specs.Commands.{command_of, flat_run_of, run_of, verb_named};
ghost use Rattle.tool_words.specs.Faults.{lacks};

use crate::choices::bytes_of;
use crate::options::{Name, Settings};
use rtr_types::{Instr, Items, Params, Which};
use std::alloc::{AllocError, Global};
use trace_gen::Shape;

/// A run that words ask for, with every option filled in.
#[derive(Drop)]
pub struct RunWords {
    /// The cores, the limit of each and the words of memory.
    pub params: Params,
    /// The choice bytes that the schedule begins with.
    pub choices: Items<u8>,
    /// The seed of the generator that the schedule goes on with.
    pub seed: u64,
    /// Whether the input is an ELF file, and not the image itself.
    pub elf: bool,
}

/// What the tool is asked to do, with every option filled in.
#[derive(Drop)]
pub enum Command {
    /// Record a run of the image on the input.
    Record(RunWords),
    /// Run the image on the input, and print how the run ended; with `loads` also what was loaded.
    Run {
        run: RunWords,
        loads: bool,
    },
    /// Print the logs of the recording on the input.
    Print,
    /// Replay the recording on the input by one of its logs, and print how the replay ended; with `loads`
    /// also what was loaded. `threads` is `None` exactly where the words have no `--threads`.
    Replay {
        which: Which,
        threads: Option<u32>,
        loads: bool,
    },
    /// Spell the recording on the input in the newest version.
    Migrate,
    /// Make the certificate that the reduced log of the recording on the input is least.
    Certify,
    /// Check the certificate on the input.
    Check,
    /// Make the image of this shape and number, which the shape has.
    Gen {
        shape: Shape,
        number: u64,
    },
    /// Make the image of this shape and number, which the shape has, record a run of it without choice bytes,
    /// replay that, and print a summary.
    Soak {
        shape: Shape,
        number: u64,
        params: Params,
        seed: u64,
    },
    /// Print the state that the recording on the input comes to at the instruction, by one of its logs: after the
    /// fewest instructions that hold it, or with `latest` after the most that don't; with `loads` also what was
    /// loaded.
    At {
        which: Which,
        at: Instr,
        latest: bool,
        loads: bool,
    },
    /// Leave out vectors of the regulated log of the recording on the input that the others imply; with `certify`
    /// also show of each that is left that it is needed.
    Thin {
        certify: bool,
    },
    /// Check what the thin file on the input shows.
    CheckThin,
    /// Record a run of the image on the input, whose `elf` is false, by cores with store buffers.
    TsoRecord(RunWords),
    /// Run the image on the input, whose `elf` is false, by cores with store buffers, and print how the run ended; with
    /// `loads` also what was loaded.
    TsoRun {
        run: RunWords,
        loads: bool,
    },
    /// Replay the recording on the input, which is one of cores with store buffers, and print how the replay ended;
    /// with `loads` also what was loaded.
    TsoReplay {
        loads: bool,
    },
}

/// The first word: a command without its options.
#[derive(Clone, Copy)]
pub enum Verb {
    /// `record`
    Record,
    /// `run`
    Run,
    /// `print`
    Print,
    /// `replay`
    Replay,
    /// `migrate`
    Migrate,
    /// `certify`
    Certify,
    /// `check`
    Check,
    /// `gen`
    Gen,
    /// `soak`
    Soak,
    /// `at`
    At,
    /// `thin`
    Thin,
    /// `checkthin`
    CheckThin,
    /// `tsorecord`
    TsoRecord,
    /// `tsorun`
    TsoRun,
    /// `tsoreplay`
    TsoReplay,
}

impl Verb {
    /// The command that this word names, exactly.
    pub(crate) fn named(word: &str) -> Option<Verb>
        ensures { result ≡ verb_named word.now }
    {
        match word {
            "record" => Some(Verb::Record),
            "run" => Some(Verb::Run),
            "gen" => Some(Verb::Gen),
            "soak" => Some(Verb::Soak),
            "print" => Some(Verb::Print),
            "replay" => Some(Verb::Replay),
            "migrate" => Some(Verb::Migrate),
            "at" => Some(Verb::At),
            "certify" => Some(Verb::Certify),
            "check" => Some(Verb::Check),
            "thin" => Some(Verb::Thin),
            "checkthin" => Some(Verb::CheckThin),
            "tsorecord" => Some(Verb::TsoRecord),
            "tsorun" => Some(Verb::TsoRun),
            "tsoreplay" => Some(Verb::TsoReplay),
            _ => None,
        }
    }

    /// The first option that the command must have and that isn't set.
    pub(crate) fn lacks(self, settings: &Settings) -> Option<Name>
        ensures { result ≡ lacks self (seen settings.now) }
    {
        let (first, second) = match self {
            Verb::Gen | Verb::Soak => (Name::Shape, Name::Number),
            Verb::At => (Name::Core, Name::Count),
            _ => return None,
        };
        if !settings.is_set(first) {
            Some(first)
        } else if !settings.is_set(second) {
            Some(second)
        } else {
            None
        }
    }

    /// The command with these settings, and its defaults for the others; `None` where it lacks an option that it
    /// must have, or the shape has no image of the number. The only refusal is want of memory, for choice bytes.
    pub(crate) fn command(
        self,
        alloc: Global,
        settings: &Settings,
    ) -> Result<Option<Command>, AllocError>
        ensures value { IfOk result (λ command. command ≡ command_of self (seen settings.now)) }
        ensures meaningful { OnErr result (command_of self (seen settings.now) ≢ None) }
    {
        Ok(Some(match self {
            Verb::Record => Command::Record(run_of(alloc, settings)?),
            Verb::Run => Command::Run {
                run: run_of(alloc, settings)?,
                loads: settings.loads,
            },
            Verb::Print => Command::Print,
            Verb::Replay => Command::Replay {
                which: settings.which(),
                threads: settings.threads,
                loads: settings.loads,
            },
            Verb::Migrate => Command::Migrate,
            Verb::Certify => Command::Certify,
            Verb::Check => Command::Check,
            Verb::Gen => match settings.shaped() {
                Some((shape, number)) => Command::Gen { shape, number },
                None => return Ok(None),
            },
            Verb::Soak => match settings.shaped() {
                Some((shape, number)) => Command::Soak {
                    shape,
                    number,
                    params: settings.params(),
                    seed: settings.seed.unwrap_or(0),
                },
                None => return Ok(None),
            },
            Verb::At => match settings.instr() {
                Some(at) => Command::At {
                    which: settings.which(),
                    at,
                    latest: settings.latest,
                    loads: settings.loads,
                },
                None => return Ok(None),
            },
            Verb::Thin => Command::Thin {
                certify: settings.certify,
            },
            Verb::CheckThin => Command::CheckThin,
            Verb::TsoRecord => Command::TsoRecord(flat_run_of(alloc, settings)?),
            Verb::TsoRun => Command::TsoRun {
                run: flat_run_of(alloc, settings)?,
                loads: settings.loads,
            },
            Verb::TsoReplay => Command::TsoReplay {
                loads: settings.loads,
            },
        }))
    }
}

/// The run with these settings.
fn run_of(alloc: Global, settings: &Settings) -> Result<RunWords, AllocError>
    ensures { IfOk result (λ run. run ≡ run_of (seen settings.now)) }
{
    Ok(RunWords {
        params: settings.params(),
        choices: bytes_of(alloc, settings.choices)?,
        seed: settings.seed.unwrap_or(0),
        elf: settings.elf,
    })
}

/// The run with these settings, of an image as it stands.
fn flat_run_of(alloc: Global, settings: &Settings) -> Result<RunWords, AllocError>
    ensures { IfOk result (λ run. run ≡ flat_run_of (seen settings.now)) }
{
    let mut run = run_of(alloc, settings)?;
    run.elf = false;
    Ok(run)
}
