//! From the words of a command line and three streams to an exit status.
ghost use Rattle.std.specs.Prelude.{◌≡◌, [], IfErr, IfOk, IfSome, None, map, string_bytes};
ghost use Rattle.std.specs.Io.KnownBytes.{Keeps};
ghost use Rattle.std.specs.Process.{exit_status};
ghost use Rattle.state_text.specs.Exits.{fault_line};
ghost use Rattle.state_text.specs.declared.exit.Exit.TheVariants.{Done};
ghost use Rattle.rtr_cli.specs.Answers.{Tells};
ghost use Rattle.hunt_words.specs.Meaning.{meaning};
ghost use Rattle.hunt_texts.specs.Told.{IsTold};
ghost use Rattle.hunt_cli.specs.Answers.{AnswersAsked, IsGiven, TellsFaults};
ghost use Rattle.hunt_cli.specs.Statuses.{status_of};
ghost use Rattle.hunt_cli.specs.declared.exits.HuntExit.{HuntExit};
ghost use Rattle.hunt_cli.specs.declared.exits.HuntExit.TheVariants.{As};

use crate::exits::HuntExit;
use crate::tool::{ends_as, run_hunt};
use crate::watched::Watched;
use command_line::{Question, asked};
use hunt_texts::{table, usage_told};
use rtr_cli::{arguments, tell};
use rtr_io::{Sink, Source, StdSink, StdSource, WriteFault, write_all};
use run_ranges::Pace;
use state_text::Exit;
use std::alloc::{AllocError, Global};
use std::io::{Eprint, Stderr, Stdin, Stdout};
use std::process::ExitCode;
use std::rt::{Clock, Env};
use std::thread::Threads;

/// Which program it is.
const VERSION: &str = "rtr_hunt, for recordings in versions 1 and 2\n";

/// The text that is asked for.
fn text_of(asked: Question) -> &'static str {
    match asked {
        Question::Help => table(),
        Question::Version => VERSION,
    }
}

/// Runs the program on the standard streams and the words of the command line, and answers the status that the process
/// ends with. The three streams have types of their own, so that none can stand for another. `--help` and `--version`
/// are answered on the output; and of words that ask for nothing the report tells, behind its line, which of them is at
/// fault and how the program is used. Where standard error is a terminal it shows how many runs of a range were made so
/// far, and how many a second.
pub fn run_program<R>(rt: &R, input: Stdin, output: Stdout, report: Stderr) -> ExitCode
where
    R: AllocGlobal + Clock + Env + Eprint + Threads + Sync,
{
    let words = arguments(rt);
    let list = match &words {
        Ok(list) => list.as_slice(),
        Err(_) => &[],
    };
    if let Some(asked) = asked(list) {
        let exit = given(
            text_of(asked),
            &mut StdSink::new(output),
            &mut StdSink::new(report),
        );
        return ExitCode::from(exit.status());
    }
    let told = told_of(rt.alloc(), &words);
    let status = conclude(
        rt,
        rt.alloc(),
        &mut Watched::new(rt, report),
        words,
        &mut StdSource::new(input),
        &mut StdSink::new(output),
        &mut StdSink::new(report),
    );
    if let Some(text) = told {
        // It's a courtesy: where it can't be told, the status says enough.
        let _ = write_all(&mut StdSink::new(report), text.as_bytes());
    }
    status
}

/// What is told behind the report of words that ask for nothing: which of them is at fault and why, and how the program
/// is used. Nothing is told where there is no memory for it.
fn told_of(alloc: Global, words: &Result<Vec<String>, Exit>) -> Option<String>
    ensures told { IfSome result (λ text. IfOk words.now (λ list.
        IsTold (map string_bytes list.items) (string_bytes text))) }
    ensures wordless { IfErr words.now (λ _. result ≡ None) }
{
    match words {
        Ok(list) => match usage_told(alloc, list.as_slice()) {
            Ok(told) => told,
            Err(AllocError) => None,
        },
        Err(_) => None,
    }
}

/// Gives the text to the output. Where that can't be had whole the report is told so.
fn given<O: Sink, E: Sink>(text: &str, output: &mut O, report: &mut E) -> HuntExit
    ensures { IsGiven (As Done) text.now [] result (O.got output.old) (O.got output.new) (E.got report.old)
        (E.got report.new) (E.faults report.old) (E.faults report.new) }
{
    match write_all(output, text.as_bytes()) {
        Ok(()) => ends_as(report, Exit::Done),
        Err(WriteFault) => ends_as(report, Exit::WriteFault),
    }
}

/// Does what the words ask for, and answers the status that the process ends with. `words` leaves out the program's
/// name; where they couldn't be had they are the exit for that, and neither input nor output is touched.
pub fn conclude<R: Threads + Sync, P: Pace, I: Source, O: Sink, E: Sink>(
    rt: &R,
    alloc: Global,
    pace: &mut P,
    words: Result<Vec<String>, Exit>,
    input: &mut I,
    output: &mut O,
    report: &mut E,
) -> ExitCode
    ensures answered { IfOk words (λ list. (exit : HuntExit) × (exit_status result ≡ status_of exit)
        × AnswersAsked (meaning (map string_bytes list.items)) exit (record {
          left = I.left input.old;
          left' = I.left input.new;
          got = O.got output.old;
          got' = O.got output.new;
          told = E.got report.old;
          told' = E.got report.new;
          faults = E.faults report.old;
          faults' = E.faults report.new;
        })
        × TellsFaults exit (I.faults input.old) (I.faults input.new) (O.faults output.old) (O.faults output.new)) }

    // The words couldn't be had.
    ensures wordless { IfErr words (λ exit. (exit_status result ≡ status_of (As exit))
        × Tells (fault_line exit) (E.got report.old) (E.got report.new) (E.faults report.old) (E.faults report.new)) }
    ensures untouched { IfErr words (λ _. Keeps (I.left input.old) (I.left input.new)
        × Keeps (O.got output.old) (O.got output.new) × (I.faults input.new ≡ I.faults input.old)
        × (O.faults output.new ≡ O.faults output.old)) }
{
    let exit = match words {
        Ok(words) => run_hunt(rt, alloc, pace, words.as_slice(), input, output, report),
        Err(exit) => {
            tell(report, &exit);
            HuntExit::As(exit)
        }
    };
    ExitCode::from(exit.status())
}
