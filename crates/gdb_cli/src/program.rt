//! From the words of a command line and three streams to an exit status.
ghost use Rattle.std.specs.Prelude.{◌≡◌, IfErr, IfOk, map, string_bytes};
ghost use Rattle.std.specs.Io.KnownBytes.{Keeps};
ghost use Rattle.std.specs.Process.{exit_status};
ghost use Rattle.std.specs.Fn.{FnOnceReturnsAt};
ghost use Rattle.gdb_cli.specs.Answers.{EndsBy, IsAnswerIn};
ghost use Rattle.gdb_cli.specs.Words.{session_log};
ghost use Rattle.state_text.specs.declared.exit.Exit.{Exit};

use crate::debugger::run_debugger;
use crate::opened::Opened;
use crate::uses::{text_of, usage_told};
use command_line::asked;
use gdb_server::Streams;
use rtr_cli::{arguments, tell};
use rtr_io::{Sink, Source, StdSink, StdSource, WriteFault, write_all};
use state_text::Exit;
use std::alloc::Global;
use std::fs;
use std::io::{Stderr, Stdin, Stdout};
use std::process::ExitCode;
use std::rt::{Env, Files};

/// Runs the program on the standard streams and the words of the command line, and answers the status that the process
/// ends with. The three streams have types of their own, so that none can stand for another. `--help` and `--version`
/// are answered on the output; and of words that ask for nothing the report tells, behind its line, which of them is at
/// fault and how the program is used.
pub fn run_program<R: AllocGlobal + Env + Files>(
    rt: &R,
    input: Stdin,
    output: Stdout,
    report: Stderr,
) -> ExitCode {
    let words = arguments(rt);
    let list = match &words {
        Ok(list) => list.as_slice(),
        Err(_) => &[],
    };
    if let Some(asked) = asked(list) {
        return give(text_of(asked), output, report);
    }
    let told = match &words {
        Ok(list) => usage_told(rt.alloc(), list.as_slice()),
        Err(_) => Ok(None),
    };
    let status = conclude(
        rt.alloc(),
        words,
        |name: &str| Opened::new(fs::open(rt, name).ok()),
        &mut Streams {
            input: StdSource::new(input),
            output: StdSink::new(output),
        },
        &mut StdSink::new(report),
    );
    if let Ok(Some(text)) = told {
        // It's a courtesy: where it can't be told, the status says enough.
        let _ = write_all(&mut StdSink::new(report), text.as_bytes());
    }
    status
}

/// Gives the text to the output, and answers the status that the process ends with.
fn give(text: &str, output: Stdout, report: Stderr) -> ExitCode {
    let exit = match write_all(&mut StdSink::new(output), text.as_bytes()) {
        Ok(()) => Exit::Done,
        Err(WriteFault) => Exit::WriteFault,
    };
    tell(&mut StdSink::new(report), &exit);
    ExitCode::from(exit.status())
}

/// Does what the words ask for, and answers the status that the process ends with: that of the exit, whose text goes to
/// the report alone. `words` leaves out the program's name; where they couldn't be had they are the exit for that, and
/// neither input nor output is touched.
pub fn conclude<F: Source + Drop, P: FnOnce(&str) -> F, I: Source, O: Sink, E: Sink>(
    alloc: Global,
    words: Result<Vec<String>, Exit>,
    opener: P,
    streams: &mut Streams<I, O>,
    report: &mut E,
) -> ExitCode
    requires { P.IsAlwaysCallable opener }
    ensures answered { IfOk words (λ list. (exit : Exit)
        × EndsBy exit (exit_status result) (E.got report.old) (E.got report.new) (E.faults report.old)
        (E.faults report.new)
        × IsAnswerIn (FnOnceReturnsAt P.FnOnce opener) F.left F.faults (map string_bytes list.items)
        (session_log (map string_bytes list.items)) exit (I.left streams.old.input) (I.left streams.new.input)
        (O.got streams.old.output) (O.got streams.new.output) (I.faults streams.old.input) (I.faults streams.new.input)
        (O.faults streams.old.output) (O.faults streams.new.output)) }

    // The words couldn't be had.
    ensures wordless { IfErr words (λ exit. EndsBy exit (exit_status result) (E.got report.old) (E.got report.new)
        (E.faults report.old) (E.faults report.new)) }
    ensures untouched { IfErr words (λ _. Keeps (I.left streams.old.input) (I.left streams.new.input)
        × Keeps (O.got streams.old.output) (O.got streams.new.output)
        × (I.faults streams.new.input ≡ I.faults streams.old.input)
        × (O.faults streams.new.output ≡ O.faults streams.old.output)) }
{
    let exit = match words {
        Ok(words) => run_debugger(alloc, words.as_slice(), opener, streams, report),
        Err(exit) => {
            tell(report, &exit);
            exit
        }
    };
    ExitCode::from(exit.status())
}
