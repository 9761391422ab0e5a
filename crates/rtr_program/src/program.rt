//! From the words of a command line and three streams to an exit status.
ghost use Rattle.std.specs.Prelude.{◌≡◌, false, IfErr, IfOk, IfSome, None, map, string_bytes};
ghost use Rattle.std.specs.Io.KnownBytes.{Keeps};
ghost use Rattle.std.specs.Process.{exit_status};
ghost use Rattle.command_line.specs.Told.{IsTold};
ghost use Rattle.tool_words.specs.Reading.{meaning};
ghost use Rattle.rtr_program.specs.Conclusions.{EndsBy, IsAnswerOf};
ghost use Rattle.state_text.specs.declared.exit.Exit.{Exit};

use command_line::usage_told;
use replay_threads::OpenGate;
use rtr_cli::{Ended, arguments, run_tool, tell};
use rtr_io::{Sink, Source, StdSink, StdSource, write_all};
use state_text::Exit;
use std::alloc::{AllocError, Global};
use std::io::{Eprint, IsTerminal, Stderr, Stdin, Stdout};
use std::process::ExitCode;
use std::rt::{Clock, Env};
use std::sync::Wait;
use std::thread::Threads;

/// Runs the tool on the standard streams and the words of the command line, and answers the status that the process
/// ends with. The three streams have types of their own, so that none can stand for another. Where standard error is a
/// terminal, it also shows how long the work takes; and of words that mean nothing, behind the report, which of them is
/// at fault and how commands are used.
pub fn run_program<R>(rt: &R, input: Stdin, output: Stdout, report: Stderr) -> ExitCode
where
    R: AllocGlobal + Clock + Env + Eprint + Threads + Wait + Clone + Send + Sync + Drop + 'static,
{
    progress_line::show(rt, report);
    let words = arguments(rt);
    let told = told_on(rt.alloc(), report.is_terminal(), &words);
    let status = conclude(
        rt,
        rt.alloc(),
        words,
        &mut StdSource::new(input),
        &mut StdSink::new(output),
        &mut StdSink::new(report),
    );
    if let Some(text) = told {
        // It's a courtesy: where it can't be told, the status says enough.
        let _ = write_all(&mut StdSink::new(report), text.as_bytes());
    }
    status
}

/// What is told behind the report of words that mean nothing: on a terminal what a person wants to know of them, and
/// elsewhere nothing; nor where there is no memory for it.
fn told_on(alloc: Global, is_terminal: bool, words: &Result<Vec<String>, Exit>) -> Option<String>
    ensures nothing { is_terminal ≡ false → result ≡ None }
    ensures told { IfSome result (λ text. IfOk words.now (λ list.
        IsTold (map string_bytes list.items) (string_bytes text))) }
    ensures wordless { IfErr words.now (λ _. result ≡ None) }
{
    if !is_terminal {
        return None;
    }
    match words {
        Ok(list) => match usage_told(alloc, list.as_slice()) {
            Ok(told) => told,
            Err(AllocError) => None,
        },
        Err(_) => None,
    }
}

/// Does what the words mean, and answers the status that the process ends with: that of the exit by which the tool
/// answers, whose text goes to the report alone. `words` leaves out the program's name; where they couldn't be had they
/// are the exit for that, and neither input nor output is touched.
pub fn conclude<R: Threads + Wait + Sync, I: Source, O: Sink, E: Sink>(
    rt: &R,
    alloc: Global,
    words: Result<Vec<String>, Exit>,
    input: &mut I,
    output: &mut O,
    report: &mut E,
) -> ExitCode
    ensures answered { IfOk words (λ list. (exit : Exit)
        × EndsBy exit (exit_status result) (E.got report.old) (E.got report.new) (E.faults report.old)
        (E.faults report.new)
        × IsAnswerOf (meaning (map string_bytes list.items)) exit (I.left input.old) (I.left input.new)
        (O.got output.old) (O.got output.new) (I.faults input.old) (I.faults input.new) (O.faults output.old)
        (O.faults output.new)) }

    // The words couldn't be had.
    ensures wordless { IfErr words (λ exit. EndsBy exit (exit_status result) (E.got report.old) (E.got report.new)
        (E.faults report.old) (E.faults report.new)) }
    ensures untouched { IfErr words (λ _. Keeps (I.left input.old) (I.left input.new)
        × Keeps (O.got output.old) (O.got output.new) × (I.faults input.new ≡ I.faults input.old)
        × (O.faults output.new ≡ O.faults output.old)) }
{
    let exit = match words {
        Ok(words) => {
            let Ended { exit, .. } = run_tool(
                rt,
                alloc,
                words.as_slice(),
                input,
                output,
                report,
                &OpenGate,
            );
            exit
        }
        Err(exit) => {
            tell(report, &exit);
            exit
        }
    };
    ExitCode::from(exit.status())
}
